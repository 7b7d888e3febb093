//! What `inspect` prints of a PSBT's transaction.
ghost use Rattle.std.specs.Prelude.{◌≡◌, ◌++◌, IfOk, OnOk};
ghost use Rattle.def_psbt_answer.specs.Fee.{paid as the_paid};
ghost use Rattle.def_psbt_answer.specs.Lines.{psbt_line, output_lines};

use crate::lines::{Summary, push_output_line, push_psbt_line};
use ms_transaction::TransactionRef;
use std::alloc::AllocError;

/// Adds the line of a transaction.
pub fn push_transaction(
    report: &mut Vec<u8>,
    transaction: &TransactionRef<'_>,
) -> Result<(), AllocError>
    ensures { OnOk result (report.new.items ≡ report.old.items ++ psbt_line transaction.now) }
{
    let summary = Summary {
        inputs: transaction.input_count(),
        outputs: transaction.output_count(),
        version: transaction.version(),
        lock_time: transaction.lock_time(),
        id: transaction.id(),
    };
    push_psbt_line(report, &summary)
}

/// Adds a line for each output, and gives what all of them get, in satoshis.
pub fn push_outputs(
    report: &mut Vec<u8>,
    transaction: &TransactionRef<'_>,
) -> Result<u128, AllocError>
    ensures lines { OnOk result (report.new.items ≡ report.old.items ++ output_lines 0 transaction.now.outputs) }
    ensures paid { IfOk result (λ paid. paid ≡ the_paid transaction.now.outputs) }
{
    // Its clause tells how many there are.
    let _count = transaction.output_count();
    let mut paid = 0;
    let mut number = 0;
    for output in transaction.outputs() {
        push_output_line(report, number, output.amount(), output.script())?;
        paid += u128::from(output.amount());
        number += 1;
    }
    Ok(paid)
}
