//! Abstract policies.

use ms_hash::HashValue;
use ms_tree::Key;

/// A condition over keys, hash locks and timelocks. Contracts see it through `policy_shape`.
#[derive(Drop)]
pub enum Policy {
    /// Never true.
    Never,
    /// Always true.
    Always,
    /// A signature of the key.
    Key(Key),
    /// A relative timelock with its operand (BIP 112).
    Older(u64),
    /// An absolute timelock with its operand (BIP 65).
    After(u64),
    /// A preimage of the hash value.
    Hash(HashValue),
    /// Each part.
    All(Vec<Policy>),
    /// One part.
    Any(Vec<Policy>),
    /// So many of the parts.
    Thresh(u64, Vec<Policy>),
}
