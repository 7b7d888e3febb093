//! Amounts.

/// What an input spends, in satoshis.
#[derive(Clone, Copy, Debug, PartialEq, Eq)]
pub enum Amount {
    /// Nothing tells it.
    Unknown,
    /// A previous transaction with the outpoint's id tells it.
    Proved(u64),
    /// The map alone tells it.
    Claimed(u64),
}
