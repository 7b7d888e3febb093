//! The line of what an input spends.
ghost use Rattle.std.specs.Prelude.{◌≡◌, ◌++◌, OnOk};
ghost use Rattle.def_psbt_answer.specs.Lines.{amount_line};
ghost use Rattle.ms_input.specs.Spending.{amount_seen};

use crate::lines::{push_claimed_amount_line, push_proved_amount_line, push_unknown_amount_line};
use ms_input::Amount;
use std::alloc::AllocError;

/// Adds the line of an amount.
pub fn push_amount_line(report: &mut Vec<u8>, amount: Amount) -> Result<(), AllocError>
    ensures { OnOk result (report.new.items ≡ report.old.items ++ amount_line (amount_seen amount)) }
{
    match amount {
        Amount::Unknown => push_unknown_amount_line(report),
        Amount::Proved(satoshis) => push_proved_amount_line(report, satoshis),
        Amount::Claimed(satoshis) => push_claimed_amount_line(report, satoshis),
    }
}
