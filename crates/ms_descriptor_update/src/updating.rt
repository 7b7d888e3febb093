//! What `update` replies to a PSBT.

ghost use Rattle.std.specs.Prelude.{◌≡◌, Ok, Err, Bool, IfOk};
ghost use Rattle.def_psbt.specs.declared.Refusal.{Refusal};
ghost use Rattle.def_psbt.specs.Laws.{IsSound};
ghost use Rattle.def_psbt.specs.Map.{Psbt as ThePsbt};
ghost use Rattle.def_psbt.specs.Source.{psbt_of};
ghost use Rattle.def_psbt_answer.specs.Lines.{refusal_line};
ghost use Rattle.def_psbt_answer.specs.Reply.{form_of as the_form_of};
ghost use Rattle.def_update.specs.Updated.{update_of};
ghost use Rattle.def_descriptor_answer.specs.Reply.{reply};
ghost use Rattle.def_descriptor_answer.specs.Update.{conflict_line, updated_reply, known_reply};
ghost use Rattle.ms_update.specs.Outcome.{IsUpdated};
ghost use Rattle.ms_descriptor_update.specs.Opening.{IsOpen};

use crate::book::DescriptorBook;
use def_descriptor_answer::Status;
use def_psbt_answer::{Command, Form, Request};
use def_spend::Verification;
use ms_descriptor_lines::push_number_line;
use ms_descriptor_replies::Reply;
use ms_psbt::{Psbt, ReadStop, has_magic, psbt_bytes, read_psbt};
use ms_psbt_report::request_reply;
use ms_psbt_write::in_form;
use ms_update::{UpdateStop, Updated, update};
use std::alloc::{AllocError, Global};

/// The form of a source.
fn form_of(source: &[u8]) -> Form
    ensures { result ≡ the_form_of source.now }
{
    if has_magic(source) {
        Form::Bytes
    } else {
        Form::Base64
    }
}

/// The reply to a source that is refused: the line of `msat-psbt`.
fn refused(alloc: Global, source: &[u8]) -> Result<Reply, AllocError>
    ensures { (refusal : Refusal) → psbt_of source.now ≡ Err refusal
        → IfOk result (λ made. reply made.status made.report.items ≡ reply Status.PsbtRefused (refusal_line refusal)) }
{
    let made = request_reply(
        alloc,
        Request::One(Command::Inspect(Verification::Unverified)),
        source,
    )?;
    Ok(Reply {
        status: Status::PsbtRefused,
        report: made.report,
    })
}

/// The reply that a pair has the key of one that belongs to its map, and another value.
fn conflict(alloc: Global, place: usize) -> Result<Reply, AllocError>
    ensures { IfOk result (λ made. reply made.status made.report.items ≡ reply Status.PsbtRefused (conflict_line place)) }
{
    let mut report = Vec::new(alloc);
    push_number_line(&mut report, "refused psbt Conflict at ", place as u64)?;
    Ok(Reply {
        status: Status::PsbtRefused,
        report,
    })
}

/// The reply to a PSBT that was updated.
fn updated(alloc: Global, form: Form, made: Updated) -> Result<Reply, AllocError>
    ensures { (whole : ThePsbt × Bool) → IsUpdated made whole → IfOk result (λ made. reply made.status made.report.items ≡ updated_reply form (Ok whole)) }
{
    Ok(Reply {
        status: if made.has_known_input {
            Status::Done
        } else {
            Status::NoInput
        },
        report: in_form(alloc, form, made.psbt)?,
    })
}

/// The reply to a PSBT that came in a form.
fn psbt_reply(
    alloc: Global,
    book: &DescriptorBook<'_>,
    form: Form,
    psbt: &Psbt<'_>,
) -> Result<Reply, AllocError>
    requires book { IsOpen book.now }
    requires sound { IsSound psbt.now }
    ensures { IfOk result (λ made. reply made.status made.report.items ≡ updated_reply form (update_of book.now.known.0 psbt.now)) }
{
    match update(alloc, psbt, book) {
        Ok(made) => updated(alloc, form, made),
        Err(UpdateStop::Conflict(place)) => conflict(alloc, place),
        Err(UpdateStop::Memory) => Err(AllocError),
    }
}

/// What `update` replies to the outputs of a descriptor and what the source holds: the PSBT with what is said of its inputs and outputs, in the
/// form in which it came, or why it is refused. Refuses for want of memory alone.
pub fn update_reply(
    alloc: Global,
    book: &DescriptorBook<'_>,
    source: &[u8],
) -> Result<Reply, AllocError>
    requires { IsOpen book.now }
    ensures { IfOk result (λ made. reply made.status made.report.items ≡ known_reply source.now (Ok book.now.known.0)) }
{
    let bytes = match psbt_bytes(alloc, source) {
        Ok(bytes) => bytes,
        Err(ReadStop::Refused(_)) => return refused(alloc, source),
        Err(ReadStop::Memory) => return Err(AllocError),
    };
    match read_psbt(alloc, bytes.as_slice()) {
        Ok(psbt) => psbt_reply(alloc, book, form_of(source), &psbt),
        Err(ReadStop::Refused(_)) => refused(alloc, source),
        Err(ReadStop::Memory) => Err(AllocError),
    }
}
