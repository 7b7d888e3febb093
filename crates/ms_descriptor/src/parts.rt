//! The parts of a descriptor's text (BIPs 380, 382, 383).

ghost use Rattle.std.specs.Prelude.{◌≡◌, ◌<◌, ◌^◌, true, false, suc, length, drop, codes, MatchOption, IfSome, IfOk, IfErr};
ghost use Rattle.std.specs.List.{list_any};
ghost use Rattle.std.specs.Str.{bytes_eq};
ghost use Rattle.def_descriptor.specs.Token.{starts};
ghost use Rattle.def_descriptor.specs.Parts.{OTHER_NAMES, other_name as the_other_name, read_form as the_read_form, read_head as the_read_head, read_wsh as the_read_wsh, read_body as the_read_body, read_parts as the_read_parts};
ghost use Rattle.ms_paths.specs.Places.{IsPlace, tokens_at, Says, Reads};
ghost use Rattle.ms_descriptor.specs.Bodies.{FormOf, head_at, found_at, parts_at, FoundWithin};

use crate::expression::{Expression, Seen};
use crate::keys::read_key;
use crate::pieces::{Piece, gather};
use crate::spots::Spot;
use def_descriptor::{DescriptorFault, Form};
use ms_paths::{behind_mark, token_at};
use std::alloc::Global;

/// What stands in a descriptor.
#[derive(Drop)]
pub enum Body {
    /// A miniscript, in pieces.
    Miniscript(Vec<Piece>),
    /// A `sortedmulti` at a place, and the pieces behind its name.
    Sorted(u32, Vec<Piece>),
    /// A single key.
    Single(Expression),
}

/// A descriptor.
#[derive(Drop)]
pub struct Descriptor {
    /// Whether it stands in `sh(..)`.
    pub under: bool,
    /// What stands in it.
    pub body: Body,
    /// The length of its text without its checksum.
    pub length: usize,
}

/// A body as far as it was read.
#[derive(Drop)]
pub struct Found {
    /// The body.
    pub body: Body,
    /// Why a key behind it is refused, if one is.
    pub refused: Option<DescriptorFault>,
    /// The place behind it.
    pub rest: usize,
}

/// Whether a word is the name of another kind of descriptor.
fn is_other_name(name: &[u8]) -> bool
    ensures { result ≡ list_any (bytes_eq name.now) OTHER_NAMES }
{
    name == b"pk".as_slice()
        || name == b"pkh".as_slice()
        || name == b"combo".as_slice()
        || name == b"multi".as_slice()
        || name == b"sortedmulti".as_slice()
        || name == b"tr".as_slice()
        || name == b"rawtr".as_slice()
        || name == b"addr".as_slice()
        || name == b"raw".as_slice()
}

/// Why a word in place of a kind of descriptor is refused.
fn other_name(at: usize, name: &[u8]) -> DescriptorFault
    requires { at < 2 ^ 32 }
    ensures { result ≡ the_other_name at name.now }
{
    if is_other_name(name) {
        return DescriptorFault::Other(at as u32);
    }
    DescriptorFault::Syntax(at as u32)
}

/// The form that a word names.
fn form_of(name: &[u8]) -> Option<Form>
    ensures { FormOf name.now result }
{
    if name == b"wsh".as_slice() {
        return Some(Form::Wsh);
    }
    if name == b"wpkh".as_slice() {
        return Some(Form::Wpkh);
    }
    None
}

/// `wsh(` or `wpkh(` at a place.
fn read_form(text: &[u8], at: usize) -> Result<(Form, usize), DescriptorFault>
    requires { IsPlace text.now at }
    ensures { Reads text.now at (the_read_form (tokens_at text.now at)) (λ form. form) result }
{
    let name = token_at(text, at);
    let Some(form) = form_of(name) else {
        return Err(other_name(at, name));
    };
    let end = at + name.len();
    let Some(behind) = behind_mark(text, end, b'(') else {
        return Err(DescriptorFault::Syntax(end as u32));
    };
    Ok((form, behind))
}

/// What stands before a body.
#[derive(Clone, Copy)]
struct Head {
    /// Whether it is `sh(` and a form.
    under: bool,
    /// The form.
    form: Form,
}

/// The place behind `sh`, where that begins a text.
fn behind_sh(text: &[u8]) -> Option<usize>
    requires { IsPlace text.now 0 }
    ensures sh { MatchOption result (starts (codes "sh") (tokens_at text.now 0) ≡ false)
        (λ end. (starts (codes "sh") (tokens_at text.now 0) ≡ true) × (drop 1 (tokens_at text.now 0) ≡ tokens_at text.now end)) }
    ensures place { IfSome result (IsPlace text.now) }
{
    let name = token_at(text, 0);
    if name == b"sh".as_slice() {
        return Some(name.len());
    }
    None
}

/// What stands before the body of a text.
fn read_head(text: &[u8]) -> Result<(Head, usize), DescriptorFault>
    requires { IsPlace text.now 0 }
    ensures { Reads text.now 0 (the_read_head (tokens_at text.now 0)) head_at result }
{
    let Some(end) = behind_sh(text) else {
        let (form, last) = read_form(text, 0)?;
        return Ok((Head { under: false, form }, last));
    };
    let Some(open) = behind_mark(text, end, b'(') else {
        return Err(DescriptorFault::Syntax(end as u32));
    };
    let (form, last) = read_form(text, open)?;
    Ok((Head { under: true, form }, last))
}

/// The pieces of the miniscript or `sortedmulti` at a place.
fn read_wsh(alloc: Global, text: &[u8], at: usize) -> Result<Found, DescriptorFault>
    requires { IsPlace text.now at }
    ensures wsh { IfOk result (λ found. the_read_wsh (suc (length text.now)) (tokens_at text.now at) ≡ found_at text.now found) }
    ensures within { IfOk result (FoundWithin text.now) }
    ensures memory { IfErr result (λ why. why ≡ DescriptorFault.Memory) }
{
    let name = token_at(text, at);
    if name != b"sortedmulti".as_slice() {
        let gathered = gather(alloc, text, at, Spot::Elsewhere)?;
        return Ok(Found {
            body: Body::Miniscript(gathered.pieces),
            refused: gathered.refused,
            rest: gathered.rest,
        });
    }
    let gathered = gather(alloc, text, at + name.len(), Spot::MultiName)?;
    Ok(Found {
        body: Body::Sorted(at as u32, gathered.pieces),
        refused: gathered.refused,
        rest: gathered.rest,
    })
}

/// The body of a form at a place.
fn read_body(alloc: Global, text: &[u8], at: usize, form: Form) -> Result<Found, DescriptorFault>
    requires { IsPlace text.now at }
    ensures body { Says (the_read_body (suc (length text.now)) form (tokens_at text.now at)) (found_at text.now) result }
    ensures within { IfOk result (FoundWithin text.now) }
{
    match form {
        Form::Wsh => read_wsh(alloc, text, at),
        Form::Wpkh => {
            let (expression, end) = read_key(alloc, Seen::nothing(), text, at)?;
            Ok(Found {
                body: Body::Single(expression),
                refused: None,
                rest: end,
            })
        }
    }
}

/// Whether a text begins with `sh(`, and its body.
pub fn read_parts(alloc: Global, text: &[u8]) -> Result<(bool, Found), DescriptorFault>
    requires { IsPlace text.now 0 }
    ensures parts { Says (the_read_parts text.now) (parts_at text.now) result }
    ensures within { IfOk result (λ parts. FoundWithin text.now parts.1) }
{
    let (head, at) = read_head(text)?;
    let found = read_body(alloc, text, at, head.form)?;
    Ok((head.under, found))
}
