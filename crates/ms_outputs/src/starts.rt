//! Where the keys of a branch start from: what all steps before the first `*` of each lead to (BIPs 32, 389).

ghost use Rattle.std.specs.Prelude.{◌≡◌, ℕ, [], ◌∷◌, map, None, MatchOption, IfOk, IfSome};
ghost use Rattle.def_derive.specs.Child.{descendant};
ghost use Rattle.def_descriptor.specs.Expression as the_named;
ghost use Rattle.def_descriptor.specs.Gives.{number_at as the_number_at};
ghost use Rattle.ms_point.specs.Standing.{IsAffine};
ghost use Rattle.ms_derive.specs.Nodes.{node_at, extended_at};
ghost use Rattle.ms_paths.specs.Paths.{way_at};
ghost use Rattle.ms_descriptor.specs.Expressions.{named_at, expression_at};
ghost use Rattle.ms_outputs.specs.Keys.{expressions_in, expressions_of_body};
ghost use Rattle.ms_outputs.specs.Starts.{left_number, IsReached, AreStarts, AddsStarts};

use crate::keys::number_at;
use ms_derive::{Extended, Node, child};
use ms_descriptor::{Body, Expression, Named, Piece, Way};
use ms_tree::Key;
use std::alloc::{AllocError, Global};

/// A step that is left at a branch.
#[derive(Clone, Copy)]
pub enum Left {
    /// A number, the same at each index.
    Number(u32),
    /// The index.
    Index,
}

/// What the steps before the first `*` of a key lead to.
#[derive(Drop)]
pub enum Reached {
    /// The key of an expression without steps.
    Key(Key),
    /// A node, and the steps that are left.
    Node(Node, Vec<Left>),
    /// Nothing: a step has no node.
    Nothing,
}

/// Where the key of an expression starts from at each index.
#[derive(Drop)]
pub struct Start {
    /// The place of the expression in the descriptor's text.
    pub at: u32,
    /// What its steps before the first `*` lead to.
    pub reached: Reached,
}

/// The node that the steps before the first `*` lead to, with those that are left: none where one of them has none. Takes no memory.
fn node_before<'a>(first: Node, ways: &'a [Way], branch: usize) -> Option<(Node, &'a [Way])>
    requires { IsAffine first.point }
    ensures path { MatchOption result ((i : ℕ) → None ≡ descendant (map (the_number_at branch i) (map way_at ways.now)) (node_at first))
        (λ part. (i : ℕ) → descendant (map (the_number_at branch i) (map way_at part.1.now)) (node_at part.0) ≡ descendant (map (the_number_at branch i) (map way_at ways.now)) (node_at first)) }
    ensures affine { IfSome result (λ part. IsAffine part.0.point) }
{
    let mut node = first;
    let mut left = ways;
    while let Some((way, rest)) = left.split_first() {
        if let Way::Index = way {
            return Some((node, left));
        }
        node = child(&node, number_at(way, branch, 0))?;
        left = rest;
    }
    Some((node, left))
}

/// What is left of a step at a branch. Takes no memory.
fn left_of(way: &Way, branch: usize) -> Left
    ensures { (i : ℕ) → left_number i result ≡ the_number_at branch i (way_at way.now) }
{
    match way {
        Way::Index => Left::Index,
        _ => Left::Number(number_at(way, branch, 0)),
    }
}

/// What is left of some steps at a branch.
fn left_steps(alloc: Global, ways: &[Way], branch: usize) -> Result<Vec<Left>, AllocError>
    ensures { IfOk result (λ left. (i : ℕ) → map (left_number i) left.items ≡ map (the_number_at branch i) (map way_at ways.now)) }
{
    let mut left = Vec::new(alloc);
    for way in ways {
        left.push(left_of(way, branch))?;
    }
    Ok(left)
}

/// What the steps of an extended key lead to before the first `*`.
fn extended_reached(
    alloc: Global,
    key: &Extended,
    ways: &[Way],
    branch: usize,
) -> Result<Reached, AllocError>
    ensures { IfOk result (IsReached branch (the_named.extended (extended_at key.now) (map way_at ways.now))) }
{
    let Some(first) = key.node() else {
        return Ok(Reached::Nothing);
    };
    let Some((node, rest)) = node_before(first, ways, branch) else {
        return Ok(Reached::Nothing);
    };
    let left = left_steps(alloc, rest, branch)?;
    Ok(Reached::Node(node, left))
}

/// What the steps of a key lead to before the first `*`.
fn reach(alloc: Global, named: &Named, branch: usize) -> Result<Reached, AllocError>
    ensures { IfOk result (IsReached branch (named_at named.now)) }
{
    match named {
        Named::Point(key) => Ok(Reached::Key(*key)),
        Named::Extended(key, ways) => extended_reached(alloc, key, ways, branch),
    }
}

/// Adds where the key of an expression starts from.
fn push_start(
    alloc: Global,
    starts: &mut Vec<Start>,
    expression: &Expression,
    branch: usize,
) -> Result<(), AllocError>
    ensures { AddsStarts branch (expression_at expression.now ∷ []) starts.old.items starts.new.items result }
{
    let reached = reach(alloc, &expression.named, branch)?;
    starts.push(Start {
        at: expression.at,
        reached,
    })?;
    Ok(())
}

/// Adds where the key of a piece starts from, if it is an expression.
fn push_of_piece(
    alloc: Global,
    starts: &mut Vec<Start>,
    piece: &Piece,
    branch: usize,
) -> Result<(), AllocError>
    ensures { AddsStarts branch (expressions_in (piece.now ∷ [])) starts.old.items starts.new.items result }
{
    match piece {
        Piece::Plain(_, _) => Ok(()),
        Piece::Key(expression) => push_start(alloc, starts, expression, branch),
    }
}

/// Adds where the keys of the expressions among pieces start from.
fn push_of_pieces(
    alloc: Global,
    starts: &mut Vec<Start>,
    pieces: &[Piece],
    branch: usize,
) -> Result<(), AllocError>
    ensures { AddsStarts branch (expressions_in pieces.now) starts.old.items starts.new.items result }
{
    for piece in pieces {
        push_of_piece(alloc, starts, piece, branch)?;
    }
    Ok(())
}

/// Where the keys of a body start from at each index of a branch, in the order of the text.
pub fn starts_of(alloc: Global, body: &Body, branch: usize) -> Result<Vec<Start>, AllocError>
    ensures { IfOk result (λ starts. AreStarts branch (expressions_of_body body.now) starts.items) }
{
    let mut starts = Vec::new(alloc);
    match body {
        Body::Miniscript(pieces) => push_of_pieces(alloc, &mut starts, pieces, branch)?,
        Body::Sorted(_, pieces) => push_of_pieces(alloc, &mut starts, pieces, branch)?,
        Body::Single(expression) => push_start(alloc, &mut starts, expression, branch)?,
    }
    Ok(starts)
}
