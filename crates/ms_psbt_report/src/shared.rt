//! By what the signatures of inputs are verified, where they are.
ghost use Rattle.std.specs.Prelude.{◌≡◌, ℕ, All, slice_get};
ghost use Rattle.def_psbt.specs.Transaction.{Transaction};
ghost use Rattle.def_spend.specs.declared.Verification.{Verification as TheVerification};
ghost use Rattle.ms_sighash.specs.Shared.{shared_of, IsOutputText};
ghost use Rattle.ms_transaction.specs.Unsigned.{IsUnsigned};
ghost use Rattle.ms_psbt_report.specs.Verifying.{shared_by, Verifies};

use def_spend::Verification;
use ms_input::{Verifying, shared_hashes};
use ms_sighash::SharedHashes;
use ms_transaction::TransactionRef;

/// What all signatures of a transaction share, where they are verified: else nothing is hashed. Takes no memory.
pub fn shared_for(
    verification: Verification,
    transaction: &TransactionRef<'_>,
) -> Option<SharedHashes>
    requires { All IsUnsigned transaction.now.inputs }
    ensures { result ≡ shared_by verification transaction.now }
{
    match verification {
        Verification::Verified => Some(shared_hashes(transaction)),
        Verification::Unverified => None,
    }
}

/// By what the signatures of an input are verified, where what all share is hashed, with the bytes of its output with the input's number, where there is one. Takes no
/// memory.
#[tactic(auto, using(crate::proofs::Verified::verified_by, crate::proofs::Verified::unverified_by))]
pub fn verifying_by<'a>(shared: &'a Option<SharedHashes>, output: Option<&'a [u8]>) -> Verifying<'a>
    ensures { (verification : TheVerification) (transaction : Transaction) (number : ℕ) → shared.entry.now ≡ shared_by verification transaction
        → IsOutputText (slice_get transaction.outputs number) output.entry → Verifies verification transaction number result }
{
    match shared {
        Some(shared) => Verifying::Verified { shared, output },
        None => Verifying::Unverified,
    }
}

/// The same where what all signatures share is hashed anyway.
pub fn verifying_with<'a>(
    verification: Verification,
    shared: &'a SharedHashes,
    output: Option<&'a [u8]>,
) -> Verifying<'a>
    ensures { (transaction : Transaction) (number : ℕ) → shared.entry.now ≡ shared_of transaction → IsOutputText (slice_get transaction.outputs number) output.entry
        → Verifies verification transaction number result }
{
    match verification {
        Verification::Verified => Verifying::Verified { shared, output },
        Verification::Unverified => Verifying::Unverified,
    }
}
