//! The outputs of a descriptor, or why there are none.

ghost use Rattle.std.specs.Prelude.{◌≡◌, ◌<◌, ◌^◌, Ok, IfOk};
ghost use Rattle.def_script.specs.Bytes.{Bytes};
ghost use Rattle.def_descriptor.specs.Answer.{Answers};
ghost use Rattle.def_descriptor_answer.specs.Places.{Reason};
ghost use Rattle.def_descriptor_answer.specs.Lines.{reason_line, place_refused_line};
ghost use Rattle.def_descriptor_answer.specs.Reply.{reply};
ghost use Rattle.def_descriptor_answer.specs.Update.{index_count as the_index_count};
ghost use Rattle.ms_descriptor.specs.Bodies.{descriptor_at, BodyWithin};
ghost use Rattle.ms_descriptor_update.specs.Opening.{Opens};
ghost use Rattle.ms_descriptor_update.specs.Scaffolding.Filling.{Fills};

use crate::book::DescriptorBook;
use crate::placing::{Started, put_place, started_at};
use def_descriptor_answer::Status;
use ms_descriptor::{Descriptor, read_descriptor};
use ms_descriptor_lines::{branch_count, is_ranged};
use ms_descriptor_replies::{Reply, push_refused_line, refused};
use ms_outputs::starts_of;
use std::alloc::{AllocError, Global};
use std::collections::BTreeMap;

/// The outputs of a descriptor, or the reply that there are none.
#[derive(Drop)]
pub enum Opened<'a> {
    /// The outputs.
    Book(DescriptorBook<'a>),
    /// The descriptor is refused, or one of its trees.
    Refused(Reply),
}

/// How many indices count: of a descriptor that goes by no index one.
fn index_count(descriptor: &Descriptor, count: u32) -> u32
    requires { 0 < count }
    ensures count { (text : Bytes) → result ≡ the_index_count (descriptor_at text descriptor.now) count }
    ensures some { 0 < result }
{
    if is_ranged(&descriptor.body) {
        count
    } else {
        1
    }
}

/// The reply that there is no sane tree at a branch and an index.
fn nothing_at(
    alloc: Global,
    branch: usize,
    index: usize,
    reason: &[u8],
) -> Result<Reply, AllocError>
    requires { index < 2 ^ 32 }
    ensures { (why : Reason) → reason.now ≡ reason_line why
        → IfOk result (λ made. reply made.status made.report.items ≡ reply Status.Refused (place_refused_line branch index why)) }
{
    let mut report = Vec::new(alloc);
    push_refused_line(&mut report, branch, index as u32, reason)?;
    Ok(Reply {
        status: Status::Refused,
        report,
    })
}

/// The outputs at all places of a descriptor, which is that of the text, at so many indices of each branch.
fn fill<'a>(
    alloc: Global,
    text: &'a str,
    descriptor: Descriptor,
    count: u32,
) -> Result<Opened<'a>, AllocError>
    requires within { BodyWithin text.now descriptor.body }
    requires read { Answers text.now (Ok (descriptor_at text.now descriptor)) }
    requires some { 0 < count }
    ensures { IfOk result (Fills text.now (descriptor_at text.now descriptor) count) }
{
    let Some(all) = branch_count(&descriptor.body).checked_mul(count as usize) else {
        return Err(AllocError);
    };
    let mut places = BTreeMap::new(alloc);
    let first = starts_of(alloc, &descriptor.body, 0)?;
    let mut started = Started {
        branch: 0,
        starts: first,
    };
    for place in 0..all {
        started = started_at(alloc, started, &descriptor.body, place / count as usize)?;
        let starts = &started.starts;
        if let Some(reason) = put_place(
            alloc,
            text,
            &descriptor,
            starts,
            count,
            &mut places,
            place,
        )? {
            let branch = place / count as usize;
            let index = place % count as usize;
            return Ok(Opened::Refused(nothing_at(alloc, branch, index, &reason)?));
        }
    }
    Ok(Opened::Book(DescriptorBook {
        text,
        descriptor,
        count,
        places,
    }))
}

/// The outputs of the descriptor that a text has, at each branch and each index below a count; or the reply to a text that is refused, and to
/// the first place without a sane tree. Refuses for want of memory alone.
pub fn open_book<'a>(alloc: Global, text: &'a str, count: u32) -> Result<Opened<'a>, AllocError>
    requires { 0 < count }
    ensures { IfOk result (Opens text.now count) }
{
    match read_descriptor(alloc, text) {
        Ok(descriptor) => {
            let count = index_count(&descriptor, count);
            fill(alloc, text, descriptor, count)
        }
        Err(why) => Ok(Opened::Refused(refused(alloc, why)?)),
    }
}
