//! Where the keys of a descriptor come from, at a branch and an index (BIP 380, "Key Expressions").

ghost use Rattle.std.specs.Prelude.{◌≡◌, ◌++◌, [], ◌∷◌, map, OnOk, IfOk};
ghost use Rattle.def_descriptor.specs.Gives.{number_at as the_number_at, written_origin as the_written_origin, origin_at as the_origin_at};
ghost use Rattle.def_descriptor_answer.specs.Update.{with_origins};
ghost use Rattle.ms_paths.specs.Paths.{way_at, origin_at as path_origin};
ghost use Rattle.ms_descriptor.specs.Expressions.{expression_at};
ghost use Rattle.ms_outputs.specs.Keys.{expressions_in, expressions_of_body};
ghost use Rattle.ms_update.specs.Seen.{key_at};
ghost use Rattle.ms_descriptor_update.specs.Scaffolding.Keys.{AddsOrigins};

use ms_descriptor::{Body, Expression, Named, Origin, Piece, Way};
use ms_descriptor_lines::own_print;
use ms_outputs::number_at;
use ms_tree::Key;
use ms_update::KnownKey;
use std::alloc::{AllocError, Global};

/// The origin that stands before a key, or its own fingerprint.
fn written_origin(alloc: Global, expression: &Expression) -> Result<Origin, AllocError>
    ensures { IfOk result (λ origin. path_origin origin ≡ the_written_origin (expression_at expression.now).origin (expression_at expression.now).named) }
{
    match &expression.origin {
        Some(origin) => Ok(Origin {
            print: origin.print,
            steps: Vec::from_slice(alloc, &origin.steps)?,
        }),
        None => Ok(Origin {
            print: own_print(&expression.named),
            steps: Vec::new(alloc),
        }),
    }
}

/// Adds the steps behind an extended key.
fn push_ways(
    steps: &mut Vec<u32>,
    ways: &[Way],
    branch: usize,
    index: u32,
) -> Result<(), AllocError>
    ensures { OnOk result (steps.new.items ≡ steps.old.items ++ map (the_number_at branch index) (map way_at ways.now)) }
{
    for way in ways {
        steps.push(number_at(way, branch, index))?;
    }
    Ok(())
}

/// Where the key of an expression comes from.
fn origin_at(
    alloc: Global,
    expression: &Expression,
    branch: usize,
    index: u32,
) -> Result<Origin, AllocError>
    ensures { IfOk result (λ origin. path_origin origin ≡ the_origin_at branch index (expression_at expression.now)) }
{
    let mut origin = written_origin(alloc, expression)?;
    if let Named::Extended(_, ways) = &expression.named {
        push_ways(&mut origin.steps, ways, branch, index)?;
    }
    Ok(origin)
}

/// Adds the first of some keys, which is that of an expression, with where it comes from, and gives the others.
fn push_first<'a>(
    alloc: Global,
    known: &mut Vec<KnownKey>,
    expression: &Expression,
    branch: usize,
    index: u32,
    keys: &'a [Key],
) -> Result<&'a [Key], AllocError>
    ensures { IfOk result (λ rest. AddsOrigins branch index (expression_at expression.now ∷ []) keys.now (map key_at known.old.items) (map key_at known.new.items) rest.now) }
{
    let Some((key, rest)) = keys.split_first() else {
        return Ok(keys);
    };
    let origin = origin_at(alloc, expression, branch, index)?;
    known.push(KnownKey { key: *key, origin })?;
    Ok(rest)
}

/// Adds the first of some keys where a piece is an expression, and gives the keys that are left.
fn push_of_piece<'a>(
    alloc: Global,
    known: &mut Vec<KnownKey>,
    piece: &Piece,
    branch: usize,
    index: u32,
    keys: &'a [Key],
) -> Result<&'a [Key], AllocError>
    ensures { IfOk result (λ rest. AddsOrigins branch index (expressions_in (piece.now ∷ [])) keys.now (map key_at known.old.items) (map key_at known.new.items) rest.now) }
{
    match piece {
        Piece::Plain(_, _) => Ok(keys),
        Piece::Key(expression) => push_first(alloc, known, expression, branch, index, keys),
    }
}

/// Adds the keys of the expressions among pieces.
fn push_of_pieces(
    alloc: Global,
    known: &mut Vec<KnownKey>,
    pieces: &[Piece],
    branch: usize,
    index: u32,
    keys: &[Key],
) -> Result<(), AllocError>
    ensures { OnOk result (map key_at known.new.items ≡ map key_at known.old.items ++ with_origins branch index (expressions_in pieces.now) keys.now) }
{
    let mut left = keys;
    for piece in pieces {
        left = push_of_piece(alloc, known, piece, branch, index, left)?;
    }
    Ok(())
}

/// Adds the keys of a body.
fn push_of_body(
    alloc: Global,
    known: &mut Vec<KnownKey>,
    body: &Body,
    branch: usize,
    index: u32,
    keys: &[Key],
) -> Result<(), AllocError>
    ensures { OnOk result (map key_at known.new.items ≡ map key_at known.old.items ++ with_origins branch index (expressions_of_body body.now) keys.now) }
{
    match body {
        Body::Miniscript(pieces) => push_of_pieces(alloc, known, pieces, branch, index, keys),
        Body::Sorted(_, pieces) => push_of_pieces(alloc, known, pieces, branch, index, keys),
        Body::Single(expression) => {
            push_first(alloc, known, expression, branch, index, keys)?;
            Ok(())
        }
    }
}

/// The keys of a body at a branch and an index, each with where it comes from.
pub fn known_keys(
    alloc: Global,
    body: &Body,
    branch: usize,
    index: u32,
    keys: &[Key],
) -> Result<Vec<KnownKey>, AllocError>
    ensures { IfOk result (λ known. map key_at known.items ≡ with_origins branch index (expressions_of_body body.now) keys.now) }
{
    let mut known = Vec::new(alloc);
    push_of_body(alloc, &mut known, body, branch, index, keys)?;
    Ok(known)
}
