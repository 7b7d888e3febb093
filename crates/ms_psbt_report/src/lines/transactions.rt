//! The lines of a PSBT's transaction.
ghost use Rattle.std.specs.Prelude.{◌≡◌, ◌++◌, OnOk};
ghost use Rattle.def_psbt.specs.Transaction.{Transaction};
ghost use Rattle.def_psbt_answer.specs.Lines.{psbt_line, final_id_line, output_line};
ghost use Rattle.ms_psbt_report.specs.Told.{IsTold};

use crate::lines::pieces::{push_id, push_item, push_named, push_text};
use std::alloc::AllocError;

/// What the first line tells of a transaction.
#[derive(Clone, Copy, Debug, PartialEq, Eq)]
pub struct Summary {
    /// How many inputs it has.
    pub inputs: u64,
    /// How many outputs it has.
    pub outputs: u64,
    /// Its version.
    pub version: u32,
    /// Its lock time.
    pub lock_time: u32,
    /// Its id, as it lies in the outpoints that name it.
    pub id: [u8; 32],
}

/// Adds the line of a transaction: how many inputs and outputs it has, its version, its lock time and its id. `AllocError`
/// comes only where memory is wanting.
pub fn push_psbt_line(report: &mut Vec<u8>, summary: &Summary) -> Result<(), AllocError>
    ensures { (transaction : Transaction) → IsTold transaction summary.now → OnOk result (report.new.items ≡ report.old.items ++ psbt_line transaction) }
{
    push_named(report, "psbt inputs ", summary.inputs)?;
    push_named(report, " outputs ", summary.outputs)?;
    push_named(report, " version ", summary.version as u64)?;
    push_named(report, " locktime ", summary.lock_time as u64)?;
    push_text(report, " txid ")?;
    push_id(report, &summary.id)?;
    push_text(report, "\n")
}

/// Adds the line of the id that a transaction has with its final scriptSigs, where there is one. `AllocError` comes only where
/// memory is wanting.
pub fn push_final_id_line(report: &mut Vec<u8>, id: Option<[u8; 32]>) -> Result<(), AllocError>
    ensures { OnOk result (report.new.items ≡ report.old.items ++ final_id_line id) }
{
    let Some(id) = id else {
        return Ok(());
    };
    push_text(report, "final txid ")?;
    push_id(report, &id)?;
    push_text(report, "\n")
}

/// Adds the line of an output: its number from 0, its amount in satoshis, and its Script. `AllocError` comes only where
/// memory is wanting.
pub fn push_output_line(
    report: &mut Vec<u8>,
    number: usize,
    amount: u64,
    script: &[u8],
) -> Result<(), AllocError>
    ensures { OnOk result (report.new.items ≡ report.old.items ++ output_line number (record { amount = amount; script = script.now })) }
{
    push_named(report, "output ", number as u64)?;
    push_named(report, " ", amount)?;
    push_text(report, " ")?;
    push_item(report, script)?;
    push_text(report, "\n")
}
