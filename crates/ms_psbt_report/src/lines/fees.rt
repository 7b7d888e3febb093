//! The line of a transaction's fee.
ghost use Rattle.std.specs.Prelude.{◌≡◌, ◌++◌, codes, decimal, if◌then◌else◌, OnOk};
ghost use Rattle.def_answer.specs.Lines.{line};
ghost use Rattle.def_psbt_answer.specs.Fee.{fee_line_by};

use crate::lines::pieces::push_text;
use itoa::Buffer;
use std::alloc::AllocError;

/// Adds the line of the fee, in satoshis: what is spent, where all of it is known, beyond what is paid to the outputs. It tells
/// whether all of it is proved. `AllocError` comes only where memory is wanting.
pub fn push_fee_line(
    report: &mut Vec<u8>,
    spent: Option<u128>,
    paid: u128,
    all_proved: bool,
) -> Result<(), AllocError>
    ensures { OnOk result (report.new.items ≡ report.old.items ++ fee_line_by spent paid all_proved) }
{
    match spent {
        None => push_text(report, "fee unknown\n"),
        Some(spent) if spent < paid => push_text(report, "fee negative\n"),
        Some(spent) => push_fee(report, spent - paid, all_proved),
    }
}

/// Adds the line of a fee that is known.
fn push_fee(report: &mut Vec<u8>, fee: u128, all_proved: bool) -> Result<(), AllocError>
    ensures { OnOk result (report.new.items ≡ report.old.items ++ line (codes "fee " ++ decimal fee ++ (if all_proved then codes " proved" else codes " claimed"))) }
{
    let mut buffer = Buffer::new();
    push_text(report, "fee ")?;
    push_text(report, buffer.format(fee))?;
    if all_proved {
        push_text(report, " proved\n")
    } else {
        push_text(report, " claimed\n")
    }
}
