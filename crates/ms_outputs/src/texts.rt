//! The text of a descriptor's miniscript with the digits of keys in the place of its expressions.

ghost use Rattle.std.specs.Prelude.{◌≡◌, ◌++◌, map, codes, OnOk, IfOk};
ghost use Rattle.hex.specs.Hex.{encode_lower};
ghost use Rattle.def_descriptor.specs.Pieces.{text_with};
ghost use Rattle.def_descriptor.specs.Gives.{in_order as the_in_order, text_of as the_text_of};
ghost use Rattle.ms_descriptor.specs.Miniscripts.{piece_at, IsWithin, AreWithin};
ghost use Rattle.ms_descriptor.specs.Bodies.{body_at, BodyWithin};
ghost use Rattle.ms_outputs.specs.Texts.{AddsFirst, AddsPiece};

use crate::order::in_order;
use ms_descriptor::{Body, Piece};
use ms_tree::Key;
use std::alloc::{AllocError, Global};

/// The name of the fragment of a `sortedmulti`.
const MULTI: &[u8] = b"multi";

/// Adds the digits of the first of some keys, and gives the others.
fn push_first<'a>(
    alloc: Global,
    own: &mut Vec<u8>,
    keys: &'a [Key],
) -> Result<&'a [Key], AllocError>
    ensures { IfOk result (λ rest. AddsFirst (map encode_lower keys.now) own.old.items own.new.items (map encode_lower rest.now)) }
{
    let Some((key, rest)) = keys.split_first() else {
        return Ok(keys);
    };
    let digits = hex::encode(alloc, key.as_bytes())?;
    own.extend_from_slice(digits.as_bytes())?;
    Ok(rest)
}

/// Adds the text of a piece, that of an expression by the digits of the first of some keys, and gives the keys that are left.
fn push_piece<'a>(
    alloc: Global,
    own: &mut Vec<u8>,
    text: &[u8],
    piece: &Piece,
    keys: &'a [Key],
) -> Result<&'a [Key], AllocError>
    requires { IsWithin text.now piece.now }
    ensures { IfOk result (λ rest. AddsPiece (piece_at text.now piece.now) (map encode_lower keys.now) own.old.items own.new.items (map encode_lower rest.now)) }
{
    match piece {
        Piece::Plain(at, end) => {
            own.extend_from_slice(&text[*at as usize..*end as usize])?;
            Ok(keys)
        }
        Piece::Key(_) => push_first(alloc, own, keys),
    }
}

/// Adds the text of pieces with the digits of keys in the place of their expressions, in their order.
fn push_text(
    alloc: Global,
    own: &mut Vec<u8>,
    text: &[u8],
    pieces: &[Piece],
    keys: &[Key],
) -> Result<(), AllocError>
    requires { AreWithin text.now pieces.now }
    ensures { OnOk result (own.new.items ≡ own.old.items ++ text_with (map encode_lower keys.now) (map (piece_at text.now) pieces.now)) }
{
    let mut left = keys;
    for piece in pieces {
        left = push_piece(alloc, own, text, piece, left)?;
    }
    Ok(())
}

/// Adds the text of a `sortedmulti`: that of a `multi` with its keys in the order of their bytes.
fn push_sorted(
    alloc: Global,
    own: &mut Vec<u8>,
    text: &[u8],
    pieces: &[Piece],
    keys: &[Key],
) -> Result<(), AllocError>
    requires { AreWithin text.now pieces.now }
    ensures { OnOk result (own.new.items ≡ own.old.items ++ (codes "multi" ++ text_with (map encode_lower (the_in_order keys.now)) (map (piece_at text.now) pieces.now))) }
{
    own.extend_from_slice(MULTI)?;
    let ordered = in_order(alloc, keys)?;
    push_text(alloc, own, text, pieces, &ordered)
}

/// Adds the text of a body that `msat` takes, with its keys.
fn push_body(
    alloc: Global,
    own: &mut Vec<u8>,
    text: &[u8],
    body: &Body,
    keys: &[Key],
) -> Result<(), AllocError>
    requires { BodyWithin text.now body.now }
    ensures { OnOk result (own.new.items ≡ own.old.items ++ the_text_of (body_at text.now body.now) keys.now) }
{
    match body {
        Body::Miniscript(pieces) => push_text(alloc, own, text, pieces, keys),
        Body::Sorted(_, pieces) => push_sorted(alloc, own, text, pieces, keys),
        Body::Single(_) => Ok(()),
    }
}

/// The text of a body that `msat` takes, with its keys: those of a `sortedmulti` in the order of their bytes.
pub fn text_of(alloc: Global, text: &[u8], body: &Body, keys: &[Key]) -> Result<Vec<u8>, AllocError>
    requires { BodyWithin text.now body.now }
    ensures { IfOk result (λ own. own.items ≡ the_text_of (body_at text.now body.now) keys.now) }
{
    let mut own = Vec::new(alloc);
    push_body(alloc, &mut own, text, body, keys)?;
    Ok(own)
}
