//! The consensus' own check of signatures.

ghost use Rattle.std.specs.Prelude.{◌≡◌, length};
ghost use Rattle.def_verify.specs.Check.{is_taken as the_is_taken};
ghost use Rattle.ms_input.specs.Checking.{judged_from, check_from};

use crate::fields::last_byte;
use def_curve::Judgement;
use ms_judge::judge::judge;
use ms_oracle::SignatureChecker;
use ms_sighash::SharedHashes;
use std::marker::Model;

/// The check of the signatures of an input (Bitcoin Core: `GenericTransactionSignatureChecker`): a pair of a key and a signature is
/// good where the key has signed what consensus has the signature's last byte sign. Contracts see what is signed beside that byte.
#[derive(Debug, Drop)]
pub struct ConsensusCheck<'a> {
    /// What all signatures of the transaction share.
    pub shared: SharedHashes,
    /// The bytes of the input, without a scriptSig.
    pub input: &'a [u8],
    /// The hash of the output with the input's number, or zeros where there is none.
    pub single: [u8; 32],
    /// The Script that is run.
    pub script: &'a [u8],
    /// What the input spends, in satoshis.
    pub amount: u64,
}

impl<'a> Model for ConsensusCheck<'a> {
    ghost use Rattle.ms_input.specs.Checking.{Asked};

    ghost Value = { Asked };

    ghost view = { λ c. record { shared = c.shared; input = c.input.now; single = c.single; script = c.script.now; amount = c.amount } };
}

impl ConsensusCheck<'_> {
    /// The judgement of a signature by a key, for what consensus has it sign. Takes no memory.
    pub fn judged(&self, key: &[u8], sig: &[u8]) -> Judgement
        requires { length self.now.input ≡ 41 }
        ensures { result ≡ judged_from self.now key.now sig.now }
    {
        let hash = self.shared.consensus_hash(
            last_byte(sig),
            self.input,
            self.single,
            self.script,
            self.amount,
        );
        judge(key, &hash, sig)
    }
}

impl SignatureChecker for ConsensusCheck<'_> {
    ghost checker = { λ check. check_from check };

    ghost IsSound = { λ check. length check.input ≡ 41 };

    /// Whether consensus takes this signature by this key. Takes no memory, and never refuses.
    fn ask(&self, key: &[u8], sig: &[u8]) -> bool {
        is_taken(self.judged(key, sig))
    }
}

/// Whether consensus takes a signature of this judgement.
fn is_taken(judgement: Judgement) -> bool
    ensures { result ≡ the_is_taken judgement }
{
    match judgement {
        Judgement::Bad => false,
        Judgement::High | Judgement::Good => true,
    }
}
