//! The text of a miniscript with some key in the place of each expression, and where what stands there stands in the descriptor.

ghost use Rattle.std.specs.Prelude.{◌≡◌, ◌<◌, ◌^◌, [], ◌∷◌, ◌++◌, ◌≤◌, length, map, OnOk};
ghost use Rattle.def_text.specs.Refusal.{MOST_BYTES};
ghost use Rattle.def_descriptor.specs.Pieces.{place_of as the_place_of};
ghost use Rattle.def_descriptor.specs.Gives.{pieces_in};
ghost use Rattle.def_descriptor.specs.Answer.{sample as the_sample, stop};
ghost use Rattle.ms_paths.specs.Places.{IsPlace};
ghost use Rattle.ms_descriptor.specs.Miniscripts.{piece_at, piece_offset, piece_length, IsWithin, AreWithin, end_at};
ghost use Rattle.ms_descriptor.specs.Bodies.{body_at, BodyWithin, FoundWithin};

use crate::parts::{Body, Found};
use crate::pieces::Piece;
use def_descriptor::DescriptorFault;
use std::alloc::AllocError;

/// How many digits a key has.
const KEY_DIGITS: usize = 66;

/// The digits of some key: that of the generator.
const ANY_KEY: &[u8] = b"0279be667ef9dcbbac55a06295ce870b07029bfcdb2dce28d959f2815b16f81798";

/// The name of the fragment of a `sortedmulti`.
const MULTI: &[u8] = b"multi";

/// The text of a piece: some key's in the place of an expression.
fn text_of<'a>(text: &'a [u8], piece: &Piece) -> &'a [u8]
    requires { IsWithin text.now piece.now }
    ensures { result.now ≡ the_sample (piece_at text.now piece.now ∷ []) }
{
    match piece {
        Piece::Plain(at, end) => &text[*at as usize..*end as usize],
        Piece::Key(_) => ANY_KEY,
    }
}

/// Adds the text of pieces with a key in the place of each expression.
fn push_pieces(sample: &mut Vec<u8>, text: &[u8], pieces: &[Piece]) -> Result<(), AllocError>
    requires { AreWithin text.now pieces.now }
    ensures { OnOk result (sample.new.items ≡ sample.old.items ++ the_sample (map (piece_at text.now) pieces.now)) }
{
    for piece in pieces {
        sample.extend_from_slice(text_of(text, piece))?;
    }
    Ok(())
}

/// Adds the text of a body with a key in the place of each expression.
pub fn push_body(sample: &mut Vec<u8>, text: &[u8], body: &Body) -> Result<(), AllocError>
    requires { BodyWithin text.now body.now }
    ensures { OnOk result (sample.new.items ≡ sample.old.items ++ the_sample (pieces_in (body_at text.now body.now))) }
{
    match body {
        Body::Miniscript(pieces) => push_pieces(sample, text, pieces),
        Body::Sorted(_, pieces) => {
            sample.extend_from_slice(MULTI)?;
            push_pieces(sample, text, pieces)
        }
        Body::Single(_) => Ok(()),
    }
}

/// Adds a token that stands in no text, where a key is refused.
pub fn push_stop(sample: &mut Vec<u8>, refused: Option<DescriptorFault>) -> Result<(), AllocError>
    ensures { OnOk result (sample.new.items ≡ sample.old.items ++ stop refused) }
{
    if refused.is_some() {
        sample.push(b'!')?;
    }
    Ok(())
}

/// Where a piece stands, and how long its text is.
fn span_of(piece: &Piece) -> (usize, usize)
    ensures at { result.0 ≡ piece_offset piece.now }
    ensures length { result.1 ≡ piece_length piece.now }
{
    match piece {
        Piece::Plain(at, end) => (*at as usize, end.saturating_sub(*at) as usize),
        Piece::Key(expression) => (expression.at as usize, KEY_DIGITS),
    }
}

/// Where an offset in the text of pieces stands in the descriptor.
fn place_of(end: usize, text: &[u8], pieces: &[Piece], offset: usize) -> usize
    requires within { AreWithin text.now pieces.now }
    requires end { IsPlace text.now end }
    ensures place { result ≡ the_place_of end (map (piece_at text.now) pieces.now) offset }
    ensures bound { result < 2 ^ 32 }
{
    let mut left = offset;
    for piece in pieces {
        let (at, length) = span_of(piece);
        if left < length {
            return at + left;
        }
        left -= length;
    }
    end
}

/// Where a body ends: one that ends at a key that is refused has no end.
fn end_of(found: &Found) -> usize
    ensures { result ≡ end_at found.now.refused found.now.rest }
{
    if found.refused.is_some() {
        return 0;
    }
    found.rest
}

/// Where an offset in the text of a body stands in the descriptor: behind the text at an end.
fn place_before(end: usize, text: &[u8], body: &Body, offset: usize) -> usize
    requires within { BodyWithin text.now body.now }
    requires end { IsPlace text.now end }
    ensures place { result ≡ the_place_of end (pieces_in (body_at text.now body.now)) offset }
    ensures bound { result < 2 ^ 32 }
{
    match body {
        Body::Miniscript(pieces) => place_of(end, text, pieces, offset),
        Body::Sorted(at, pieces) => {
            if offset < MULTI.len() {
                return *at as usize + offset;
            }
            place_of(end, text, pieces, offset - MULTI.len())
        }
        Body::Single(_) => end,
    }
}

/// Where an offset in the text of a body stands in the descriptor.
pub fn place_in(text: &[u8], found: &Found, offset: usize) -> usize
    requires { FoundWithin text.now found.now }
    ensures place { result ≡ the_place_of (end_at found.now.refused found.now.rest) (pieces_in (body_at text.now found.now.body)) offset }
    ensures bound { result < 2 ^ 32 }
{
    place_before(end_of(found), text, &found.body, offset)
}

/// Where an offset in the text of a body's miniscript, with the digits of keys in place of its expressions, stands in the
/// descriptor's text, which isn't too long. Takes no memory.
pub fn place_in_text(text: &[u8], body: &Body, offset: usize) -> usize
    requires within { BodyWithin text.now body.now }
    requires short { length text.now ≤ MOST_BYTES }
    ensures place { result ≡ the_place_of 0 (pieces_in (body_at text.now body.now)) offset }
    ensures bound { result < 2 ^ 32 }
{
    place_before(0, text, body, offset)
}
