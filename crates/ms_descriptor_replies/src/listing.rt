//! `derive`: what a descriptor gives at some indices.

ghost use Rattle.std.specs.Prelude.{Option, ◌≡◌, ◌≤◌, ◌+◌, ◌++◌, ◌^◌, List, Ok, IfOk, OnOk};
ghost use Rattle.def_script.specs.Bytes.{Bytes};
ghost use Rattle.def_address.specs.declared.Network.{Network};
ghost use Rattle.def_tree.specs.Tree.{Key as TheKey};
ghost use Rattle.def_descriptor.specs.Answer.{Answers};
ghost use Rattle.def_descriptor_answer.specs.Places.{Reason};
ghost use Rattle.def_descriptor_answer.specs.Lines.{reason_line, place_refused_line, no_branch_line, not_ranged_line, index_lines};
ghost use Rattle.def_descriptor_answer.specs.Reply.{reply, RepliesToDerive, RepliesToText};
ghost use Rattle.ms_descriptor.specs.Bodies.{descriptor_at, BodyWithin};
ghost use Rattle.ms_outputs.specs.Keys.{expressions_of_body};
ghost use Rattle.ms_outputs.specs.Starts.{AreStarts};
ghost use Rattle.ms_descriptor_replies.specs.Asked.{derivation_at};
ghost use Rattle.ms_descriptor_replies.specs.Found.{condition_of, IsOutput};
ghost use Rattle.ms_descriptor_replies.specs.Scaffolding.Steps.{AddsIndex, RepliesByList};

use crate::asked::Derivation;
use crate::judging::{Place, place_from};
use crate::reasons::push_refused_line;
use crate::reply::{Reply, refused};
use def_descriptor_answer::Status;
use ms_descriptor::{Descriptor, read_descriptor};
use ms_descriptor_lines::{
    branch_count, is_ranged, push_digits_line, push_key_lines, push_no_branch_line,
    push_not_ranged_line, push_number_line, push_output_lines, push_text_line,
};
use ms_outputs::{Given, Start, starts_of};
use std::alloc::{AllocError, Global};

/// Adds the lines of a condition: its Script, and the text that `msat` takes.
fn push_condition(alloc: Global, report: &mut Vec<u8>, given: &Given) -> Result<(), AllocError>
    ensures { OnOk result (report.new.items ≡ report.old.items ++ condition_of given.now.script given.now.text.items) }
{
    let Some(script) = &given.script else {
        return Ok(());
    };
    push_digits_line(alloc, report, "script ", script.as_slice())?;
    push_text_line(report, "text ", &given.text)
}

/// Adds the lines of what a descriptor gives at a branch and an index.
fn push_given(
    alloc: Global,
    report: &mut Vec<u8>,
    descriptor: &Descriptor,
    branch: usize,
    index: u32,
    given: &Given,
) -> Result<(), AllocError>
    ensures { (text : Bytes) (network : Option Network) (program condition : Bytes) (keys : List TheKey)
        → IsOutput network (descriptor_at text descriptor.now) program condition keys given.now
        → OnOk result (report.new.items ≡ report.old.items ++ index_lines network branch (descriptor_at text descriptor.now) index program condition keys) }
{
    push_number_line(report, "index ", index as u64)?;
    push_output_lines(
        alloc,
        report,
        &given.address,
        descriptor.under,
        &given.output,
        &given.program,
    )?;
    push_condition(alloc, report, given)?;
    push_key_lines(alloc, report, &descriptor.body, branch, index, &given.keys)
}

/// Adds the lines of an index, and gives nothing; or gives the reason why there are none.
fn push_index(
    alloc: Global,
    report: &mut Vec<u8>,
    asked: &Derivation<'_>,
    descriptor: &Descriptor,
    starts: &[Start],
    index: u32,
) -> Result<Option<Vec<u8>>, AllocError>
    requires within { BodyWithin asked.now.text.now descriptor.now.body }
    requires read { Answers asked.now.text.now (Ok (descriptor_at asked.now.text.now descriptor.now)) }
    requires starts { AreStarts asked.now.branch (expressions_of_body descriptor.now.body) starts.now }
    ensures { IfOk result (λ found. AddsIndex asked.now.network asked.now.branch (descriptor_at asked.now.text.now descriptor.now) index report.old.items report.new.items found) }
{
    match place_from(
        alloc,
        asked.text,
        descriptor,
        starts,
        asked.network,
        asked.branch,
        index,
    )? {
        Place::Key(given) => {
            push_given(alloc, report, descriptor, asked.branch, index, &given)?;
            Ok(None)
        }
        Place::Tree(given, _) => {
            push_given(alloc, report, descriptor, asked.branch, index, &given)?;
            Ok(None)
        }
        Place::Nothing(reason) => Ok(Some(reason)),
    }
}

/// The reply that there is no sane tree at an index.
fn nothing_at(alloc: Global, branch: usize, index: u32, reason: &[u8]) -> Result<Reply, AllocError>
    ensures { (why : Reason) → reason.now ≡ reason_line why
        → IfOk result (λ made. reply made.status made.report.items ≡ reply Status.Refused (place_refused_line branch index why)) }
{
    let mut report = Vec::new(alloc);
    push_refused_line(&mut report, branch, index, reason)?;
    Ok(Reply {
        status: Status::Refused,
        report,
    })
}

/// The lines of all indices, or the refusal of the first without a sane tree.
fn list(alloc: Global, asked: &Derivation<'_>, descriptor: &Descriptor) -> Result<Reply, AllocError>
    requires within { BodyWithin asked.now.text.now descriptor.now.body }
    requires read { Answers asked.now.text.now (Ok (descriptor_at asked.now.text.now descriptor.now)) }
    requires last { asked.now.index + asked.now.count ≤ 2 ^ 31 }
    ensures { IfOk result (λ made. RepliesByList (descriptor_at asked.now.text.now descriptor.now) (derivation_at asked.now) (reply made.status made.report.items)) }
{
    let starts = starts_of(alloc, &descriptor.body, asked.branch)?;
    let mut report = Vec::new(alloc);
    for index in asked.index..asked.index + asked.count {
        if let Some(reason) = push_index(alloc, &mut report, asked, descriptor, &starts, index)? {
            return nothing_at(alloc, asked.branch, index, &reason);
        }
    }
    Ok(Reply {
        status: Status::Done,
        report,
    })
}

/// The reply that there is no such branch.
fn no_branch(alloc: Global) -> Result<Reply, AllocError>
    ensures { IfOk result (λ made. reply made.status made.report.items ≡ reply Status.Refused no_branch_line) }
{
    let mut report = Vec::new(alloc);
    push_no_branch_line(&mut report)?;
    Ok(Reply {
        status: Status::Refused,
        report,
    })
}

/// The reply that there is no such index.
fn not_ranged(alloc: Global) -> Result<Reply, AllocError>
    ensures { IfOk result (λ made. reply made.status made.report.items ≡ reply Status.Refused not_ranged_line) }
{
    let mut report = Vec::new(alloc);
    push_not_ranged_line(&mut report)?;
    Ok(Reply {
        status: Status::Refused,
        report,
    })
}

/// The reply to a descriptor, which is that of the text. The last index is below 2^31.
fn derive_descriptor(
    alloc: Global,
    asked: &Derivation<'_>,
    descriptor: &Descriptor,
) -> Result<Reply, AllocError>
    requires within { BodyWithin asked.now.text.now descriptor.now.body }
    requires read { Answers asked.now.text.now (Ok (descriptor_at asked.now.text.now descriptor.now)) }
    requires last { asked.now.index + asked.now.count ≤ 2 ^ 31 }
    ensures { IfOk result (λ made. RepliesToDerive (derivation_at asked.now) (descriptor_at asked.now.text.now descriptor.now) (reply made.status made.report.items)) }
{
    if asked.branch >= branch_count(&descriptor.body) {
        return no_branch(alloc);
    }
    if !is_ranged(&descriptor.body) && asked.index + asked.count > 1 {
        return not_ranged(alloc);
    }
    list(alloc, asked, descriptor)
}

/// What `derive` replies: the refusal of the text, that it has no such branch or goes by no index, the first index without a
/// sane tree, or what the descriptor gives at each index. The last index is below 2^31.
pub fn derive_reply(alloc: Global, asked: &Derivation<'_>) -> Result<Reply, AllocError>
    requires { asked.now.index + asked.now.count ≤ 2 ^ 31 }
    ensures { IfOk result (λ made. RepliesToText asked.now.text.now (RepliesToDerive (derivation_at asked.now)) (reply made.status made.report.items)) }
{
    match read_descriptor(alloc, asked.text) {
        Ok(descriptor) => derive_descriptor(alloc, asked, &descriptor),
        Err(why) => refused(alloc, why),
    }
}
