//! `check`: what a descriptor is, and whether its condition is sane.

ghost use Rattle.std.specs.Prelude.{Option, ◌≡◌, ◌++◌, Ok, IfOk};
ghost use Rattle.def_descriptor.specs.Answer.{Descriptor as TheDescriptor, Answers};
ghost use Rattle.def_descriptor_answer.specs.Places.{Place as ThePlace};
ghost use Rattle.def_descriptor_answer.specs.Lines.{judgement_lines};
ghost use Rattle.def_descriptor_answer.specs.Reply.{reply, check_status, RepliesToCheck, RepliesToText};
ghost use Rattle.def_address.specs.declared.Network.{Network};
ghost use Rattle.ms_descriptor.specs.Bodies.{descriptor_at, BodyWithin};
ghost use Rattle.ms_descriptor_replies.specs.Found.{IsFound};

use crate::judging::{Place, place_at};
use crate::reply::{Reply, refused};
use def_descriptor_answer::Status;
use ms_descriptor::{Descriptor, read_descriptor};
use ms_descriptor_lines::{push_descriptor_line, push_shape_lines, push_text};
use std::alloc::{AllocError, Global};

/// Adds the lines of what a descriptor has at branch 0 and index 0, and gives the status.
fn push_judgement(alloc: Global, report: &mut Vec<u8>, place: &Place) -> Result<Status, AllocError>
    ensures { (network : Option Network) (d : TheDescriptor) (own : ThePlace) → IsFound network d own place.now
        → IfOk result (λ status. (status ≡ check_status own) × (report.new.items ≡ report.old.items ++ judgement_lines own)) }
{
    match place {
        Place::Key(_) => Ok(Status::Done),
        Place::Tree(_, measures) => {
            measures.push_lines(alloc, report)?;
            Ok(Status::Done)
        }
        Place::Nothing(reason) => {
            push_text(report, "unfit ")?;
            report.extend_from_slice(reason)?;
            Ok(Status::Unfit)
        }
    }
}

/// The reply to a descriptor, which is that of the text.
fn check_descriptor(alloc: Global, text: &str, descriptor: &Descriptor) -> Result<Reply, AllocError>
    requires within { BodyWithin text.now descriptor.now.body }
    requires read { Answers text.now (Ok (descriptor_at text.now descriptor.now)) }
    ensures { IfOk result (λ made. RepliesToCheck text.now (descriptor_at text.now descriptor.now) (reply made.status made.report.items)) }
{
    let mut report = Vec::new(alloc);
    push_descriptor_line(&mut report, text.as_bytes(), descriptor.length)?;
    push_shape_lines(&mut report, descriptor.under, &descriptor.body)?;
    let place = place_at(alloc, text, descriptor, None, 0, 0)?;
    let status = push_judgement(alloc, &mut report, &place)?;
    Ok(Reply { status, report })
}

/// What `check` replies to a text: its refusal, or what its descriptor is, and whether that has a sane tree at branch 0 and
/// index 0.
pub fn check_reply(alloc: Global, text: &str) -> Result<Reply, AllocError>
    ensures { IfOk result (λ made. RepliesToText text.now (RepliesToCheck text.now) (reply made.status made.report.items)) }
{
    match read_descriptor(alloc, text) {
        Ok(descriptor) => check_descriptor(alloc, text, &descriptor),
        Err(why) => refused(alloc, why),
    }
}
