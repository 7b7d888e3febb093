//! The reply to what is asked, with the bytes that the source held.
ghost use Rattle.std.specs.Prelude.{◌≡◌, List, IfOk};
ghost use Rattle.def_psbt.specs.Source.{psbt_of};
ghost use Rattle.def_spend.specs.Reading.{Input as TheInput, AreInputs};
ghost use Rattle.def_psbt_answer.specs.Answer.{verification_of, RepliesToSource, RepliesToRequest};
ghost use Rattle.def_psbt_answer.specs.Reply.{reply, form_of as the_form_of, command_reply as the_command_reply};
ghost use Rattle.ms_input.specs.Verified.{HaveAssets};

use crate::hashing::hashes;
use crate::inspecting::inspect;
use crate::verifying::verify;
use combining::combine;
use def_psbt_answer::{Command, Form, Request, Status};
use extracting::extract;
use finalizing::finalize;
use ms_given_laws::laws::given;
use ms_psbt::{Psbt, ReadStop, has_magic, psbt_bytes, read_psbt};
pub use reply::Reply;
use reply::refused;
use std::alloc::{AllocError, Global};

mod combining;
mod extracting;
mod finalizing;
mod reply;

/// The reply to what is asked, with the bytes that the source held. Refuses for want of memory alone.
pub fn request_reply(alloc: Global, request: Request, source: &[u8]) -> Result<Reply, AllocError>
    ensures { IfOk result (λ made. RepliesToRequest request source.now (reply made.status made.report.items)) }
{
    match request {
        Request::One(command) => source_reply(alloc, command, source),
        Request::Combine => combine(alloc, source),
    }
}

/// The reply to a command, with the bytes that the source held: a PSBT (BIP 174, BIP 370) as its bytes or as base64. Refuses for
/// want of memory alone.
#[tactic(auto, unfolding(def_psbt::specs::Source::psbt_of))]
fn source_reply(alloc: Global, command: Command, source: &[u8]) -> Result<Reply, AllocError>
    ensures { IfOk result (λ made. RepliesToSource command (the_form_of source.now) (psbt_of source.now) (reply made.status made.report.items)) }
{
    given();
    let bytes = match psbt_bytes(alloc, source) {
        Ok(bytes) => bytes,
        Err(ReadStop::Refused(refusal)) => return refused(alloc, refusal),
        Err(ReadStop::Memory) => return Err(AllocError),
    };
    match read_psbt(alloc, bytes.as_slice()) {
        Ok(psbt) => command_reply(alloc, command, form_of(source), &psbt),
        Err(ReadStop::Refused(refusal)) => refused(alloc, refusal),
        Err(ReadStop::Memory) => Err(AllocError),
    }
}

/// The form in which a PSBT came.
fn form_of(source: &[u8]) -> Form
    ensures { result ≡ the_form_of source.now }
{
    if has_magic(source) {
        Form::Bytes
    } else {
        Form::Base64
    }
}

/// The reply to a command, with a PSBT that came in a form.
fn command_reply<'p>(
    alloc: Global,
    command: Command,
    form: Form,
    psbt: &'p Psbt<'p>,
) -> Result<Reply, AllocError>
    requires { HaveAssets psbt.now }
    ensures { IfOk result (λ made. (inputs : List TheInput) → AreInputs (verification_of command) psbt.entry.now inputs
        → reply made.status made.report.items ≡ the_command_reply command form psbt.entry.now inputs) }
{
    match command {
        Command::Finalize(verification) => finalize(alloc, verification, form, psbt),
        Command::Inspect(verification) => inspect(alloc, verification, psbt),
        Command::Extract => extract(alloc, psbt),
        Command::Hashes(verification) => Ok(Reply {
            status: Status::Done,
            report: hashes(alloc, verification, psbt)?,
        }),
        Command::Verify => verify(alloc, psbt),
    }
}
