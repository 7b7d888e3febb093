//! The lines of what an input spends.
ghost use Rattle.std.specs.Prelude.{◌≡◌, ◌++◌, OnOk};
ghost use Rattle.def_spend.specs.Amount.{unknown, proved, claimed};
ghost use Rattle.def_psbt_answer.specs.Lines.{amount_line};

use crate::lines::pieces::{push_named, push_text};
use std::alloc::AllocError;

/// Adds the line of an amount, in satoshis, that the previous transaction proves. `AllocError` comes only where memory is
/// wanting.
pub fn push_proved_amount_line(report: &mut Vec<u8>, satoshis: u64) -> Result<(), AllocError>
    ensures { OnOk result (report.new.items ≡ report.old.items ++ amount_line (proved satoshis)) }
{
    push_named(report, "amount ", satoshis)?;
    push_text(report, " proved\n")
}

/// Adds the line of an amount, in satoshis, that the map claims. `AllocError` comes only where memory is wanting.
pub fn push_claimed_amount_line(report: &mut Vec<u8>, satoshis: u64) -> Result<(), AllocError>
    ensures { OnOk result (report.new.items ≡ report.old.items ++ amount_line (claimed satoshis)) }
{
    push_named(report, "amount ", satoshis)?;
    push_text(report, " claimed\n")
}

/// Adds the line of an amount that isn't known. `AllocError` comes only where memory is wanting.
pub fn push_unknown_amount_line(report: &mut Vec<u8>) -> Result<(), AllocError>
    ensures { OnOk result (report.new.items ≡ report.old.items ++ amount_line unknown) }
{
    push_text(report, "amount unknown\n")
}
