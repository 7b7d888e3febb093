//! Whether bytes are those of one transaction.

ghost use Rattle.std.specs.Prelude.{◌≡◌, Some};
ghost use Rattle.std.specs.Str.{bytes_eq};
ghost use Rattle.def_psbt.specs.Transaction.{Transaction, transaction_text};
ghost use Rattle.def_psbt.specs.TransactionReading.{transaction_of};
ghost use Rattle.ms_combine.specs.Scaffolding.Again.{SameOrNot};

/// Whether two transactions, of which these are the bytes, are the same.
pub fn are_same_transaction(own: &[u8], wanted: &[u8]) -> bool
    ensures text { (first second : Transaction) → transaction_of own.now ≡ Some first → transaction_of wanted.now ≡ Some second
        → result ≡ bytes_eq (transaction_text second) (transaction_text first) }
    ensures same { (first second : Transaction) → transaction_of own.now ≡ Some first → transaction_of wanted.now ≡ Some second → SameOrNot result first second }
{
    are_same_bytes(own, wanted)
}

/// Whether bytes are the same.
fn are_same_bytes(first: &[u8], second: &[u8]) -> bool
    ensures { result ≡ bytes_eq first.now second.now }
{
    first == second
}
