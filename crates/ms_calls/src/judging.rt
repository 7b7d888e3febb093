//! The judgement of a signature, as a number.
ghost use Rattle.std.specs.Prelude.{◌≡◌};
ghost use Rattle.def_curve.specs.Judgement.{judge as the_judge};
ghost use Rattle.ms_calls.specs.Curve.{code_of as the_code_of};

use def_curve::Judgement;
use ms_judge::judge::judge;

/// What a signature with the byte of its hash type behind it is, by a key and for a hash: 1, good, where the key has signed the hash,
/// the signature is in strict DER (BIP 66) and its s is low (BIP 146); 2, high, where it is all this but that s is over half of the
/// order; and else 0, bad. The key is one of 33 bytes, and the hash has 32; by any others a signature is bad. The byte of the hash type
/// has to be there, and isn't looked at.
pub fn signature(key: &[u8], hash: &[u8], sig: &[u8]) -> u32
    ensures { result ≡ the_code_of (the_judge key.now hash.now sig.now) }
{
    code_of(judge(key, hash, sig))
}

/// The number of a judgement.
fn code_of(judgement: Judgement) -> u32
    ensures { result ≡ the_code_of judgement }
{
    match judgement {
        Judgement::Bad => 0,
        Judgement::Good => 1,
        Judgement::High => 2,
    }
}
