//! The lines of keys, and of where they come from (BIP 380, "Key Expressions").

ghost use Rattle.std.specs.Prelude.{◌≡◌, ◌++◌, [], ◌∷◌, flat_map, map, OnOk, IfOk};
ghost use Rattle.def_descriptor.specs.Gives.{number_at as the_number_at, own_print as the_own_print, own_steps, written_origin, origin_at};
ghost use Rattle.def_descriptor_answer.specs.Lines.{step_text, path_text, key_line, key_lines};
ghost use Rattle.ms_paths.specs.Paths.{way_at, origin_at as path_origin};
ghost use Rattle.ms_descriptor.specs.Expressions.{named_at, expression_at};
ghost use Rattle.ms_outputs.specs.Keys.{expressions_in, expressions_of_body};
ghost use Rattle.ms_descriptor_lines.specs.Keys.{AddsKeyLines};

use crate::pieces::{push_digits, push_named, push_text};
use ms_descriptor::{Body, Expression, Named, Origin, Piece, Way};
use ms_hash::hash160;
use ms_outputs::number_at;
use ms_tree::Key;
use std::alloc::{AllocError, Global};

/// The first number of a hardened step (BIP 32).
const HARDENED: u32 = 0x8000_0000;

/// Adds a step of a path, with `h` behind a hardened one.
fn push_step(report: &mut Vec<u8>, number: u32) -> Result<(), AllocError>
    ensures { OnOk result (report.new.items ≡ report.old.items ++ step_text number) }
{
    if number < HARDENED {
        return push_named(report, "/", number as u64);
    }
    push_named(report, "/", (number - HARDENED) as u64)?;
    push_text(report, "h")
}

/// Adds the steps of an origin.
fn push_steps(report: &mut Vec<u8>, steps: &[u32]) -> Result<(), AllocError>
    ensures { OnOk result (report.new.items ≡ report.old.items ++ flat_map step_text steps.now) }
{
    for step in steps {
        push_step(report, *step)?;
    }
    Ok(())
}

/// The fingerprint of a key as it stands in a descriptor.
pub fn own_print(named: &Named) -> [u8; 4]
    ensures { result ≡ the_own_print (named_at named.now) }
{
    let hash = match named {
        Named::Point(key) => hash160(key.as_bytes()),
        Named::Extended(key, _) => hash160(&key.key),
    };
    [hash[0], hash[1], hash[2], hash[3]]
}

/// Adds the origin that stands before a key, or its own fingerprint.
fn push_origin(
    alloc: Global,
    report: &mut Vec<u8>,
    expression: &Expression,
) -> Result<(), AllocError>
    ensures { OnOk result (report.new.items ≡ report.old.items ++ path_text (written_origin (expression_at expression.now).origin (expression_at expression.now).named)) }
{
    match &expression.origin {
        Some(origin) => push_written(alloc, report, origin),
        None => push_digits(alloc, report, &own_print(&expression.named)),
    }
}

/// Adds an origin.
fn push_written(alloc: Global, report: &mut Vec<u8>, origin: &Origin) -> Result<(), AllocError>
    ensures { OnOk result (report.new.items ≡ report.old.items ++ path_text (path_origin origin.now)) }
{
    push_digits(alloc, report, &origin.print)?;
    push_steps(report, &origin.steps)
}

/// Adds the steps behind an extended key, at a branch and an index.
fn push_ways(
    report: &mut Vec<u8>,
    ways: &[Way],
    branch: usize,
    index: u32,
) -> Result<(), AllocError>
    ensures { OnOk result (report.new.items ≡ report.old.items ++ flat_map step_text (map (the_number_at branch index) (map way_at ways.now))) }
{
    for way in ways {
        push_step(report, number_at(way, branch, index))?;
    }
    Ok(())
}

/// Adds the steps of a key of its own, at a branch and an index.
fn push_own_steps(
    report: &mut Vec<u8>,
    named: &Named,
    branch: usize,
    index: u32,
) -> Result<(), AllocError>
    ensures { OnOk result (report.new.items ≡ report.old.items ++ flat_map step_text (own_steps branch index (named_at named.now))) }
{
    match named {
        Named::Point(_) => Ok(()),
        Named::Extended(_, ways) => push_ways(report, ways, branch, index),
    }
}

/// Adds the line of a key of an expression, at a branch and an index.
fn push_key_line(
    alloc: Global,
    report: &mut Vec<u8>,
    expression: &Expression,
    branch: usize,
    index: u32,
    key: &Key,
) -> Result<(), AllocError>
    ensures { OnOk result (report.new.items ≡ report.old.items ++ key_line key.now (origin_at branch index (expression_at expression.now))) }
{
    push_text(report, "key ")?;
    push_digits(alloc, report, key.as_bytes())?;
    push_text(report, " ")?;
    push_origin(alloc, report, expression)?;
    push_own_steps(report, &expression.named, branch, index)?;
    push_text(report, "\n")
}

/// Adds the line of the first of some keys, which is that of an expression, and gives the others.
fn push_first<'a>(
    alloc: Global,
    report: &mut Vec<u8>,
    expression: &Expression,
    branch: usize,
    index: u32,
    keys: &'a [Key],
) -> Result<&'a [Key], AllocError>
    ensures { IfOk result (λ rest. AddsKeyLines branch index (expression_at expression.now ∷ []) keys.now report.old.items report.new.items rest.now) }
{
    let Some((key, rest)) = keys.split_first() else {
        return Ok(keys);
    };
    push_key_line(alloc, report, expression, branch, index, key)?;
    Ok(rest)
}

/// Adds the line of the first of some keys where a piece is an expression, and gives the keys that are left.
fn push_of_piece<'a>(
    alloc: Global,
    report: &mut Vec<u8>,
    piece: &Piece,
    branch: usize,
    index: u32,
    keys: &'a [Key],
) -> Result<&'a [Key], AllocError>
    ensures { IfOk result (λ rest. AddsKeyLines branch index (expressions_in (piece.now ∷ [])) keys.now report.old.items report.new.items rest.now) }
{
    match piece {
        Piece::Plain(_, _) => Ok(keys),
        Piece::Key(expression) => push_first(alloc, report, expression, branch, index, keys),
    }
}

/// Adds the lines of the keys of the expressions among pieces.
fn push_of_pieces(
    alloc: Global,
    report: &mut Vec<u8>,
    pieces: &[Piece],
    branch: usize,
    index: u32,
    keys: &[Key],
) -> Result<(), AllocError>
    ensures { OnOk result (report.new.items ≡ report.old.items ++ key_lines branch index (expressions_in pieces.now) keys.now) }
{
    let mut left = keys;
    for piece in pieces {
        left = push_of_piece(alloc, report, piece, branch, index, left)?;
    }
    Ok(())
}

/// Adds a line for each key of a body at a branch and an index: the key, and where it comes from. `AllocError` comes only where
/// memory is wanting.
pub fn push_key_lines(
    alloc: Global,
    report: &mut Vec<u8>,
    body: &Body,
    branch: usize,
    index: u32,
    keys: &[Key],
) -> Result<(), AllocError>
    ensures { OnOk result (report.new.items ≡ report.old.items ++ key_lines branch index (expressions_of_body body.now) keys.now) }
{
    match body {
        Body::Miniscript(pieces) => push_of_pieces(alloc, report, pieces, branch, index, keys),
        Body::Sorted(_, pieces) => push_of_pieces(alloc, report, pieces, branch, index, keys),
        Body::Single(expression) => {
            push_first(alloc, report, expression, branch, index, keys)?;
            Ok(())
        }
    }
}
