//! Signatures in strict DER (BIP 66).

ghost use Rattle.std.specs.Prelude.{◌≡◌, is_some};
ghost use Rattle.def_psbt.specs.Forms.{is_der_number as the_is_der_number, first_der_number, two_numbers, is_der_sequence as the_is_der_sequence, is_signature as the_is_signature};
ghost use Rattle.ms_psbt.specs.Seen.{IsPart, rest_of};

use crate::parts::first_bytes;
use ms_script::MAX_SIGNATURE_SIZE;

fn is_der_number(bytes: &[u8]) -> bool
    ensures { result ≡ the_is_der_number bytes.now }
{
    match *bytes {
        [] => false,
        [b] => b > 0 && b < 128,
        [b, c, ..] => b < 128 && (b > 0 || c >= 128),
    }
}

#[tactic(auto, unfolding(def_psbt::specs::Forms::first_der_number))]
fn skip_der_number(bytes: &[u8]) -> Option<&[u8]>
    ensures { IsPart (λ rest. rest.now) result (rest_of (first_der_number bytes.now)) }
{
    match bytes {
        [tag, size, rest @ ..] => {
            let (number, after) = first_bytes(*size as u64, rest)?;
            if *tag == 2 && is_der_number(number) {
                Some(after)
            } else {
                None
            }
        }
        _ => None,
    }
}

fn are_two_numbers(bytes: &[u8]) -> bool
    ensures { result ≡ is_some (two_numbers bytes.now) }
{
    let Some(rest) = skip_der_number(bytes) else {
        return false;
    };
    let Some(rest) = skip_der_number(rest) else {
        return false;
    };
    rest.len() == 1
}

fn is_der_sequence(bytes: &[u8]) -> bool
    ensures { result ≡ the_is_der_sequence bytes.now }
{
    match bytes {
        [tag, size, rest @ ..] => {
            *tag == 0x30 && *size as usize + 1 == rest.len() && are_two_numbers(rest)
        }
        _ => false,
    }
}

/// Whether bytes are a signature in strict DER with the byte of its hash type behind. Takes no memory.
#[tactic(auto, unfolding(def_psbt::specs::Forms::is_signature))]
pub fn is_signature(bytes: &[u8]) -> bool
    ensures { result ≡ the_is_signature bytes.now }
{
    bytes.len() >= 9 && bytes.len() <= MAX_SIGNATURE_SIZE && is_der_sequence(bytes)
}
