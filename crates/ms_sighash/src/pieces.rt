//! Hashes of what lies at one place in each input.

ghost use Rattle.std.specs.Prelude.{◌≡◌, ◌+◌, ◌/◌, ◌≤◌, length};
ghost use Rattle.def_hash.specs.Hash.{hash256};
ghost use Rattle.ms_sighash.specs.Pieces.{pieces};

use ms_hash::sha256;
use sha2::{Digest, Sha256};

/// The bytes of an input without a scriptSig: its outpoint, an empty scriptSig, and its sequence number.
pub const INPUT_SIZE: usize = 41;

/// The hash of so many bytes at one place in each input.
#[tactic(auto, unfolding(def_hash::specs::Hash::hash256))]
pub fn hash_of_pieces(inputs: &[u8], from: usize, size: usize) -> [u8; 32]
    requires { from + size ≤ 41 }
    ensures { result ≡ hash256 (pieces from size (length inputs.now / 41) inputs.now) }
{
    let mut hasher = Sha256::new();
    let count = inputs.len() / INPUT_SIZE;
    'pieces: for i in 0..count {
        let at = INPUT_SIZE * i + from;
        hasher.update(&inputs[at..at + size]);
    }
    sha256(&hasher.finalize())
}
