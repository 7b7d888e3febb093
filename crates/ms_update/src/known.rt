//! What is known of outputs.

ghost use Rattle.std.specs.Prelude.{◌≡◌, List, IfOk, option_map};
ghost use Rattle.def_update.specs.Known.{Known, known_by as the_known_by};
ghost use Rattle.ms_update.specs.Seen.{known_at};

use ms_paths::Origin;
use ms_tree::Key;
use std::alloc::{AllocError, Global};

/// A key of an output, and where it comes from.
#[derive(Drop)]
pub struct KnownKey {
    /// The key.
    pub key: Key,
    /// The fingerprint of the key at the beginning, and the steps from there.
    pub origin: Origin,
}

/// What is known of an output.
#[derive(Drop)]
pub struct KnownOutput {
    /// Its script.
    pub output: Vec<u8>,
    /// Behind P2SH the redeem script.
    pub redeem: Option<Vec<u8>>,
    /// Of the P2WSH kinds the witness script.
    pub witness: Option<Vec<u8>>,
    /// Its keys.
    pub keys: Vec<KnownKey>,
}

/// Outputs of which something is known.
pub trait Book {
    // What is known, in its order: of two with one script the first counts.
    ghost known: { Self → List Known };

    // What holds of a book that is looked into.
    ghost is_open: { Self → Type 0 };

    /// What is known of the output with a script. Refuses for want of memory alone.
    fn known_by(&self, alloc: Global, script: &[u8]) -> Result<Option<KnownOutput>, AllocError>
        requires { is_open self.now }
        ensures { IfOk result (λ found. option_map known_at found ≡ the_known_by (known self.now) script.now) };
}
