//! Why a descriptor has no sane tree at a branch and an index, as reports tell it.

ghost use Rattle.std.specs.Prelude.{◌≡◌, ◌≤◌, ◌++◌, length, map, OnOk, IfOk};
ghost use Rattle.def_text.specs.Refusal.{MOST_BYTES};
ghost use Rattle.def_descriptor.specs.Pieces.{place_of};
ghost use Rattle.def_descriptor.specs.Gives.{pieces_in};
ghost use Rattle.def_descriptor_answer.specs.Places.{Reason, no_key as the_no_key, unfit as the_unfit};
ghost use Rattle.def_descriptor_answer.specs.Lines.{reason_line, place_refused_line};
ghost use Rattle.ms_tree.specs.Shape.{shape};
ghost use Rattle.ms_sane.specs.Place.{IsOfTree};
ghost use Rattle.ms_descriptor.specs.Bodies.{body_at, BodyWithin};

use ms_descriptor::{Body, place_in_text};
use ms_descriptor_lines::{push_number, push_number_line, push_text};
use ms_report::unfit_line;
use ms_sane::Unfit;
use ms_text::TextTree;
use std::alloc::{AllocError, Global};

/// How many bytes stand before a reason in the line of a text that is unfit: `refused text `.
const BEHIND: usize = 13;

/// The reason that the expression at a place has no key, with the end of its line.
pub fn no_key(alloc: Global, at: u32) -> Result<Vec<u8>, AllocError>
    ensures { IfOk result (λ line. line.items ≡ reason_line (the_no_key at)) }
{
    let mut line = Vec::new(alloc);
    push_number_line(&mut line, "NoKey at ", at as u64)?;
    Ok(line)
}

/// The places in a descriptor of some places in the text of its miniscript.
fn places_of(
    alloc: Global,
    text: &[u8],
    body: &Body,
    offsets: &[u32],
) -> Result<Vec<u32>, AllocError>
    requires within { BodyWithin text.now body.now }
    requires short { length text.now ≤ MOST_BYTES }
    ensures { IfOk result (λ places. places.items ≡ map (place_of 0 (pieces_in (body_at text.now body.now))) offsets.now) }
{
    let mut places = Vec::new(alloc);
    for offset in offsets {
        places.push(place_in_text(text, body, *offset as usize) as u32)?;
    }
    Ok(places)
}

/// The reason against the tree of a miniscript's text, with the end of its line and with places in the descriptor.
pub fn unfit(
    alloc: Global,
    text: &[u8],
    body: &Body,
    read: &TextTree<'_>,
    why: Unfit,
) -> Result<Vec<u8>, AllocError>
    requires within { BodyWithin text.now body.now }
    requires short { length text.now ≤ MOST_BYTES }
    requires of_tree { IsOfTree (shape read.now.tree) why }
    ensures { IfOk result (λ line. line.items ≡ reason_line (the_unfit (map (place_of 0 (pieces_in (body_at text.now body.now))) read.now.offsets.items) why)) }
{
    let placed = TextTree {
        tree: read.tree,
        offsets: places_of(alloc, text, body, &read.offsets)?,
    };
    let line = unfit_line(alloc, &placed, why)?;
    Vec::from_slice(alloc, &line.as_bytes()[BEHIND..])
}

/// Adds the line that there is no sane tree at a branch and an index, for a reason.
pub fn push_refused_line(
    report: &mut Vec<u8>,
    branch: usize,
    index: u32,
    reason: &[u8],
) -> Result<(), AllocError>
    ensures { (why : Reason) → reason.now ≡ reason_line why → OnOk result (report.new.items ≡ report.old.items ++ place_refused_line branch index why) }
{
    push_text(report, "refused branch ")?;
    push_number(report, branch as u64)?;
    push_text(report, " index ")?;
    push_number(report, index as u64)?;
    push_text(report, " ")?;
    report.extend_from_slice(reason)?;
    Ok(())
}
