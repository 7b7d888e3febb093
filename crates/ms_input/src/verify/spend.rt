//! What is said of an input with final fields, by what its map holds.

ghost use Rattle.std.specs.Prelude.{◌≡◌, length, slice_get, IfOk};
ghost use Rattle.def_spend.specs.Hashes.{spent_amount};
ghost use Rattle.def_spend.specs.Input.{Spend};
ghost use Rattle.def_verify.specs.Verdict.{final_verdict as the_final_verdict, output_verdict as the_output_verdict};
ghost use Rattle.ms_sighash.specs.Shared.{shared_of, IsOutputText};
ghost use Rattle.ms_input.specs.Spending.{IsSpending};
ghost use Rattle.ms_input.specs.Verdicts.{verdict_seen};
ghost use Rattle.ms_input.specs.Signing.{IsAsked};

use crate::fields::{Fields, bytes_or};
use crate::utxo::{Utxo, utxo_of};
use crate::verify::check::ConsensusCheck;
use crate::verify::verdict::{Verdict, output_verdict};
use def_verify::Flaw;
use ms_oracle::Locks;
use ms_sighash::{SharedHashes, hash_of_output};
use ms_transaction::{InputRef, OutputRef};
use std::alloc::{AllocError, Global};

/// The check of the signatures of an input in the run of this Script: by what the transaction says of it, what it spends in satoshis,
/// what all signatures of the transaction share, and the bytes of the output with its number, where there is one. Takes no memory.
pub fn input_check<'a>(
    input: &InputRef<'a>,
    amount: u64,
    shared: &SharedHashes,
    output: Option<&[u8]>,
    script: &'a [u8],
) -> ConsensusCheck<'a>
    ensures asked { (spend : Spend) → input.now ≡ spend.input → amount ≡ spent_amount spend → shared.now ≡ shared_of spend.transaction
        → IsOutputText (slice_get spend.transaction.outputs spend.number) output.entry → IsAsked spend result }
    ensures script { result.script ≡ script.entry.now }
    ensures long { length result.input ≡ 41 }
{
    ConsensusCheck {
        shared: *shared,
        input: input.bytes(),
        single: hash_of_output(output),
        script,
        amount,
    }
}

/// What is said of an input with final fields: by what the transaction says of it, what its map holds, what all signatures of the
/// transaction share, and the bytes of the output with its number, where there is one. `AllocError` comes where memory is wanting,
/// and where the final witness has over 2^31 items.
pub fn final_verdict<'a>(
    alloc: Global,
    input: &InputRef<'_>,
    fields: &Fields<'a>,
    shared: &SharedHashes,
    output: Option<&[u8]>,
) -> Result<Verdict<'a>, AllocError>
    ensures { (spend : Spend) → IsSpending spend input.now fields.now → shared.now ≡ shared_of spend.transaction
        → IsOutputText (slice_get spend.transaction.outputs spend.number) output.entry → IfOk result (λ verdict. verdict_seen verdict ≡ the_final_verdict spend) }
{
    match utxo_of(input, fields) {
        Utxo::None => Ok(Verdict::Flawed(Flaw::NoUtxo)),
        Utxo::Wrong => Ok(Verdict::Flawed(Flaw::WrongUtxo)),
        Utxo::Proved(spent) | Utxo::Claimed(spent) => {
            spent_verdict(alloc, input, fields, shared, output, &spent)
        }
    }
}

/// The same, where the output that is spent is known.
fn spent_verdict<'a>(
    alloc: Global,
    input: &InputRef<'_>,
    fields: &Fields<'a>,
    shared: &SharedHashes,
    output: Option<&[u8]>,
    spent: &OutputRef<'_>,
) -> Result<Verdict<'a>, AllocError>
    ensures { (spend : Spend) → IsSpending spend input.now fields.now → spent.now.amount ≡ spent_amount spend → shared.now ≡ shared_of spend.transaction
        → IsOutputText (slice_get spend.transaction.outputs spend.number) output.entry → IfOk result (λ verdict. verdict_seen verdict ≡ the_output_verdict spend spent.now) }
{
    let locks = Locks {
        version: shared.version(),
        sequence: input.sequence(),
        locktime: shared.lock_time(),
    };
    output_verdict(
        alloc,
        spent.script(),
        bytes_or(fields.final_script_sig(), &[]),
        bytes_or(fields.final_witness(), &[0]),
        &locks,
        input_check(input, spent.amount(), shared, output, &[]),
    )
}
