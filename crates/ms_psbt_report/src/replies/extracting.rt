//! `extract`: the network transaction of a PSBT whose inputs are all Final.
ghost use Rattle.std.specs.Prelude.{◌≡◌, List, IfOk};
ghost use Rattle.def_spend.specs.declared.Verification.TheVariants.{Unverified};
ghost use Rattle.def_spend.specs.Reading.{Input as TheInput, AreInputs};
ghost use Rattle.def_psbt_answer.specs.Reply.{reply, extract_reply};

use crate::open::first_open;
use crate::replies::reply::{Reply, not_final};
use def_psbt_answer::Status;
use ms_psbt::Psbt;
use ms_psbt_write::network_line;
use std::alloc::{AllocError, Global};

/// The digits of the network transaction, where there is an input and each is Final; else the first one that isn't.
pub fn extract(alloc: Global, psbt: &Psbt<'_>) -> Result<Reply, AllocError>
    ensures { IfOk result (λ made. (inputs : List TheInput) → AreInputs Unverified psbt.now inputs → reply made.status made.report.items ≡ extract_reply psbt.now inputs) }
{
    if psbt.input_count() == 0 {
        return not_final(alloc, 0);
    }
    match first_open(alloc, psbt)? {
        Some(number) => not_final(alloc, number),
        None => Ok(Reply {
            status: Status::Done,
            report: network_line(alloc, psbt)?,
        }),
    }
}
