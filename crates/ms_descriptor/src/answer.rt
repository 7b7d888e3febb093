//! Which texts are descriptors, and why the others are none.

ghost use Rattle.std.specs.Prelude.{◌≡◌, ◌≢◌, ◌≤◌, ◌++◌, length, IsUtf8, Some, Ok, Err, OnOk, IfOk, IfErr};
ghost use Rattle.def_text.specs.declared.TextFault.TheVariants.{Syntax as syntax_fault};
ghost use Rattle.def_text.specs.Refusal.{MOST_BYTES};
ghost use Rattle.def_descriptor.specs.Gives.{pieces_in};
ghost use Rattle.def_descriptor.specs.Answer.{sample, stop, refusal_of as the_refusal_of, pieces_of, IsRead, Answers};
ghost use Rattle.ms_descriptor.specs.Bodies.{found_at, body_at, descriptor_at, BodyWithin, FoundWithin, IsUnread};

use crate::parts::{Body, Descriptor, Found, read_parts};
use crate::sample::{place_in, push_body, push_stop};
use crate::tail::read_tail;
use bumpalo::Bump;
use def_descriptor::DescriptorFault;
use def_text::TextFault;
use ms_text::read_text;
use std::alloc::Global;
use std::str;

/// How many bytes a text may have.
const MOST_BYTES_READ: usize = 65_536;

/// Why a body is refused where its text, which has this end, has a token that can't stand there: at the end by the key that is refused.
fn syntax_of(text: &[u8], found: &Found, end: usize, at: usize) -> DescriptorFault
    requires within { FoundWithin text.now found.now }
    requires end { end ≡ length (sample (pieces_in (body_at text.now found.now.body))) }
    ensures { the_refusal_of (pieces_in (body_at text.now found.now.body)) (found_at text.now found.now) (syntax_fault at) ≡ result }
{
    let own = DescriptorFault::Syntax(place_in(text, found, at) as u32);
    let Some(fault) = found.refused else {
        return own;
    };
    if at == end {
        return fault;
    }
    own
}

/// Why a body is refused, by why its text, which has this end, is.
fn refusal_of(text: &[u8], found: &Found, end: usize, why: TextFault) -> DescriptorFault
    requires within { FoundWithin text.now found.now }
    requires end { end ≡ length (sample (pieces_in (body_at text.now found.now.body))) }
    ensures { the_refusal_of (pieces_in (body_at text.now found.now.body)) (found_at text.now found.now) why ≡ result }
{
    match why {
        TextFault::TooLong => DescriptorFault::TooLong,
        TextFault::Syntax(at) => syntax_of(text, found, end, at as usize),
        TextFault::TooDeep(at) => DescriptorFault::TooDeep(
            place_in(text, found, at as usize) as u32,
        ),
        TextFault::Memory => DescriptorFault::Memory,
    }
}

/// Tests that `msat` reads the text of a body in pieces.
fn test_pieces(alloc: Global, text: &[u8], found: &Found) -> Result<(), DescriptorFault>
    requires within { FoundWithin text.now found.now }
    requires utf8 { IsUtf8 (sample (pieces_in (body_at text.now found.now.body)) ++ stop found.now.refused) }
    ensures read { OnOk result (IsRead (Some (pieces_in (body_at text.now found.now.body))) (found_at text.now found.now)) }
    ensures refused { IfErr result (λ why. why ≢ DescriptorFault.Memory → IsUnread (pieces_in (body_at text.now found.now.body)) (found_at text.now found.now) why) }
{
    let mut own = Vec::new(alloc);
    push_body(&mut own, text, &found.body)?;
    let end = own.len();
    push_stop(&mut own, found.refused)?;
    let Ok(words) = str::from_utf8(&own) else {
        unreachable!();
    };
    let arena = Bump::new(alloc);
    match read_text(alloc, &arena, words) {
        Ok(_) => Ok(()),
        Err(why) => Err(refusal_of(text, found, end, why)),
    }
}

/// Tests that `msat` reads the text of a body, if it has one.
fn test_body(alloc: Global, text: &[u8], found: &Found) -> Result<(), DescriptorFault>
    requires within { FoundWithin text.now found.now }
    requires utf8 { IsUtf8 (sample (pieces_in (body_at text.now found.now.body)) ++ stop found.now.refused) }
    ensures read { OnOk result (IsRead (pieces_of (body_at text.now found.now.body)) (found_at text.now found.now)) }
    ensures pieces { IfErr result (λ why. why ≢ DescriptorFault.Memory → pieces_of (body_at text.now found.now.body) ≡ Some (pieces_in (body_at text.now found.now.body))) }
    ensures refused { IfErr result (λ why. why ≢ DescriptorFault.Memory → IsUnread (pieces_in (body_at text.now found.now.body)) (found_at text.now found.now) why) }
{
    match &found.body {
        Body::Single(_) => Ok(()),
        _ => test_pieces(alloc, text, found),
    }
}

/// The same for a text that isn't too long.
fn read_bytes(alloc: Global, text: &[u8]) -> Result<Descriptor, DescriptorFault>
    requires utf8 { IsUtf8 text.now }
    requires short { length text.now ≤ MOST_BYTES }
    ensures read { IfOk result (λ found. Answers text.now (Ok (descriptor_at text.now found))) }
    ensures within { IfOk result (λ found. BodyWithin text.now found.body) }
    ensures refused { IfErr result (λ why. why ≢ DescriptorFault.Memory → Answers text.now (Err why)) }
{
    let (under, found) = read_parts(alloc, text)?;
    test_body(alloc, text, &found)?;
    if found.refused.is_some() {
        return Err(DescriptorFault::Syntax(0));
    }
    let length = read_tail(text, under, found.rest)?;
    Ok(Descriptor {
        under,
        body: found.body,
        length,
    })
}

/// The descriptor of a text. Want of memory may come in place of any answer but `TooLong`.
pub fn read_descriptor(alloc: Global, text: &str) -> Result<Descriptor, DescriptorFault>
    ensures read { IfOk result (λ found. Answers text.now (Ok (descriptor_at text.now found))) }
    ensures within { IfOk result (λ found. BodyWithin text.now found.body) }
    ensures refused { IfErr result (λ why. why ≢ DescriptorFault.Memory → Answers text.now (Err why)) }
    ensures memory { IfErr result (λ why. why ≡ DescriptorFault.Memory → length text.now ≤ MOST_BYTES) }
{
    if text.len() > MOST_BYTES_READ {
        return Err(DescriptorFault::TooLong);
    }
    read_bytes(alloc, text.as_bytes())
}
