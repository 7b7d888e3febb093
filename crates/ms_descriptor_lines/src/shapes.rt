//! The lines of what a descriptor is.

ghost use Rattle.std.specs.Prelude.{◌≡◌, ◌++◌, [], length, map, take, unwrap_or, OnOk};
ghost use Rattle.std.specs.List.{list_any};
ghost use Rattle.def_script.specs.Bytes.{Bytes};
ghost use Rattle.def_address.specs.DescriptorSum.{descriptor_sum as the_sum};
ghost use Rattle.def_descriptor.specs.ReadKey.{NOTHING_SEEN};
ghost use Rattle.def_descriptor.specs.Gives.{is_index as the_is_index, goes_by_index as the_goes_by_index, is_ranged as the_is_ranged, branch_count as the_branch_count, seen_in};
ghost use Rattle.def_descriptor_answer.specs.Lines.{descriptor_line, form_name as the_form_name, kind_line, keys_line, ranged_line, branches_line, yes_or_no as the_yes_or_no, shape_lines};
ghost use Rattle.ms_paths.specs.Paths.{way_at};
ghost use Rattle.ms_descriptor.specs.Expressions.{seen_at, named_at};
ghost use Rattle.ms_descriptor.specs.Bodies.{body_at};
ghost use Rattle.ms_outputs.specs.Keys.{expressions_in, expressions_of_body};

use crate::pieces::{push_number_line, push_text, push_text_line};
use ms_address::descriptor_sum;
use ms_descriptor::{Body, Expression, Named, Piece, Seen, Way};
use std::alloc::AllocError;

/// The front of a text, of this length.
fn front(text: &[u8], length: usize) -> &[u8]
    ensures { result.now ≡ take length text.now }
{
    if length < text.len() {
        return &text[..length];
    }
    text
}

/// Adds the checksum of a text, where all its characters are of the alphabet.
fn push_sum(report: &mut Vec<u8>, text: &[u8]) -> Result<(), AllocError>
    ensures { OnOk result (report.new.items ≡ report.old.items ++ unwrap_or (the_sum text.now) []) }
{
    match descriptor_sum(text) {
        Some(sum) => report.extend_from_slice(&sum),
        None => Ok(()),
    }
}

/// Adds the line of a text without its checksum, of this length, and of its checksum. `AllocError` comes only where memory is
/// wanting.
pub fn push_descriptor_line(
    report: &mut Vec<u8>,
    text: &[u8],
    length: usize,
) -> Result<(), AllocError>
    ensures { OnOk result (report.new.items ≡ report.old.items ++ descriptor_line text.now length) }
{
    let own = front(text, length);
    push_text(report, "descriptor ")?;
    report.extend_from_slice(own)?;
    push_text(report, "#")?;
    push_sum(report, own)?;
    push_text(report, "\n")
}

/// The name of a kind of descriptor.
fn form_name(body: &Body) -> &'static str
    ensures { (text : Bytes) → result.now ≡ the_form_name (body_at text body.now) }
{
    match body {
        Body::Miniscript(_) => "wsh",
        Body::Sorted(_, _) => "wsh",
        Body::Single(_) => "wpkh",
    }
}

/// Adds the line of a descriptor's kind.
fn push_kind_line(report: &mut Vec<u8>, under: bool, body: &Body) -> Result<(), AllocError>
    ensures { (text : Bytes) → OnOk result (report.new.items ≡ report.old.items ++ kind_line under (body_at text body.now)) }
{
    if !under {
        return push_text_line(report, "kind ", form_name(body).as_bytes());
    }
    push_text(report, "kind sh(")?;
    push_text_line(report, form_name(body), b")")
}

/// How many key expressions are among pieces.
fn count_in(pieces: &[Piece]) -> usize
    ensures { result ≡ length (expressions_in pieces.now) }
{
    let mut count = 0;
    for piece in pieces {
        if let Piece::Key(_) = piece {
            count += 1;
        }
    }
    count
}

/// How many key expressions stand in a body.
fn key_count(body: &Body) -> usize
    ensures { result ≡ length (expressions_of_body body.now) }
{
    match body {
        Body::Miniscript(pieces) => count_in(pieces),
        Body::Sorted(_, pieces) => count_in(pieces),
        Body::Single(_) => 1,
    }
}

/// Whether one of some steps is the index.
fn has_index(ways: &[Way]) -> bool
    ensures { result ≡ list_any the_is_index (map way_at ways.now) }
{
    for way in ways {
        if let Way::Index = way {
            return true;
        }
    }
    false
}

/// Whether a key goes by the index.
fn goes_by_index(expression: &Expression) -> bool
    ensures { result ≡ the_goes_by_index (named_at expression.now.named) }
{
    match &expression.named {
        Named::Point(_) => false,
        Named::Extended(_, ways) => has_index(ways),
    }
}

/// Whether a key among pieces goes by the index.
fn is_ranged_in(pieces: &[Piece]) -> bool
    ensures { result ≡ list_any (λ expression. the_goes_by_index expression.named) (expressions_in pieces.now) }
{
    for piece in pieces {
        if let Piece::Key(expression) = piece {
            if goes_by_index(expression) {
                return true;
            }
        }
    }
    false
}

/// Whether a key of a body goes by the index.
fn has_ranged_key(body: &Body) -> bool
    ensures { result ≡ list_any (λ expression. the_goes_by_index expression.named) (expressions_of_body body.now) }
{
    match body {
        Body::Miniscript(pieces) => is_ranged_in(pieces),
        Body::Sorted(_, pieces) => is_ranged_in(pieces),
        Body::Single(expression) => goes_by_index(expression),
    }
}

/// Whether a key of a body goes by the index. Takes no memory.
pub fn is_ranged(body: &Body) -> bool
    ensures { (text : Bytes) → result ≡ the_is_ranged (body_at text body.now) }
{
    has_ranged_key(body)
}

/// What the keys among pieces fix behind others.
fn seen_in_pieces(pieces: &[Piece]) -> Seen
    ensures { seen_at result ≡ seen_in NOTHING_SEEN (expressions_in pieces.now) }
{
    let mut seen = Seen::nothing();
    for piece in pieces {
        if let Piece::Key(expression) = piece {
            seen = seen.with(expression);
        }
    }
    seen
}

/// What the keys of a body fix.
fn seen_of(body: &Body) -> Seen
    ensures { seen_at result ≡ seen_in NOTHING_SEEN (expressions_of_body body.now) }
{
    match body {
        Body::Miniscript(pieces) => seen_in_pieces(pieces),
        Body::Sorted(_, pieces) => seen_in_pieces(pieces),
        Body::Single(expression) => Seen::nothing().with(expression),
    }
}

/// The length of a body's multipaths: 1 without any. Takes no memory.
pub fn branch_count(body: &Body) -> usize
    ensures { (text : Bytes) → result ≡ the_branch_count (body_at text body.now) }
{
    seen_of(body).length.unwrap_or(1)
}

/// `yes` or `no`.
fn yes_or_no(holds: bool) -> &'static str
    ensures { result.now ≡ the_yes_or_no holds }
{
    if holds { "yes" } else { "no" }
}

/// Adds the line of how many keys a body has.
fn push_keys_line(report: &mut Vec<u8>, body: &Body) -> Result<(), AllocError>
    ensures { (text : Bytes) → OnOk result (report.new.items ≡ report.old.items ++ keys_line (body_at text body.now)) }
{
    push_number_line(report, "keys ", key_count(body) as u64)
}

/// Adds the line of whether a body goes by the index.
fn push_ranged_line(report: &mut Vec<u8>, body: &Body) -> Result<(), AllocError>
    ensures { (text : Bytes) → OnOk result (report.new.items ≡ report.old.items ++ ranged_line (body_at text body.now)) }
{
    push_text_line(report, "ranged ", yes_or_no(is_ranged(body)).as_bytes())
}

/// Adds the line of how many branches a body has.
fn push_branches_line(report: &mut Vec<u8>, body: &Body) -> Result<(), AllocError>
    ensures { (text : Bytes) → OnOk result (report.new.items ≡ report.old.items ++ branches_line (body_at text body.now)) }
{
    push_number_line(report, "branches ", branch_count(body) as u64)
}

/// Adds the lines of what a descriptor is: its kind, how many keys it has, whether it goes by the index, and how many
/// branches it has. `AllocError` comes only where memory is wanting.
pub fn push_shape_lines(report: &mut Vec<u8>, under: bool, body: &Body) -> Result<(), AllocError>
    ensures { (text : Bytes) → OnOk result (report.new.items ≡ report.old.items ++ shape_lines under (body_at text body.now)) }
{
    push_kind_line(report, under, body)?;
    push_keys_line(report, body)?;
    push_ranged_line(report, body)?;
    push_branches_line(report, body)
}
