//! The numbers of a signature.

ghost use Rattle.std.specs.Prelude.{◌≡◌};
ghost use Rattle.def_curve.specs.Judgement.{numbers_of as the_numbers_of};
ghost use Rattle.def_psbt.specs.Forms.{is_der_number as the_is_der_number, first_der_number as the_first_der_number, two_numbers as the_two_numbers};
ghost use Rattle.def_psbt.specs.Part.{first_bytes as the_first_bytes};
ghost use Rattle.ms_der.specs.Seen.{IsSeen};

use ms_bytes::MAX_SIGNATURE_SIZE;

/// The bytes of a number without a sign, and not one more than it takes.
fn is_der_number(bytes: &[u8]) -> bool
    ensures { result ≡ the_is_der_number bytes.now }
{
    match *bytes {
        [] => false,
        [b] => b > 0 && b < 128,
        [b, c, ..] => b < 128 && (b > 0 || c >= 128),
    }
}

/// So many bytes, and the bytes behind them.
#[tactic(auto, unfolding(def_psbt::specs::Part::first_bytes))]
fn first_bytes(count: u8, bytes: &[u8]) -> Option<(&[u8], &[u8])>
    ensures { IsSeen (λ part. (part.0.now, part.1.now)) result (the_first_bytes count bytes.now) }
{
    if count as usize <= bytes.len() {
        Some(bytes.split_at(count as usize))
    } else {
        None
    }
}

/// The number at the front, and the bytes behind it.
#[tactic(auto, unfolding(def_psbt::specs::Forms::first_der_number))]
fn first_der_number(bytes: &[u8]) -> Option<(&[u8], &[u8])>
    ensures { IsSeen (λ part. (part.0.now, part.1.now)) result (the_first_der_number bytes.now) }
{
    match bytes {
        [tag, size, rest @ ..] => {
            let (number, after) = first_bytes(*size, rest)?;
            if *tag == 2 && is_der_number(number) {
                Some((number, after))
            } else {
                None
            }
        }
        _ => None,
    }
}

/// Both numbers, with one byte behind them.
fn two_numbers(bytes: &[u8]) -> Option<(&[u8], &[u8])>
    ensures { IsSeen (λ numbers. (numbers.0.now, numbers.1.now)) result (the_two_numbers bytes.now) }
{
    let (first, rest) = first_der_number(bytes)?;
    let (second, rest) = first_der_number(rest)?;
    if rest.len() == 1 {
        Some((first, second))
    } else {
        None
    }
}

/// The numbers r and s of a signature in strict DER with the byte of its hash type behind, the high byte first. Takes no memory.
#[tactic(auto, unfolding(def_psbt::specs::Forms::is_signature))]
pub fn numbers_of(signature: &[u8]) -> Option<(&[u8], &[u8])>
    ensures { IsSeen (λ numbers. (numbers.0.now, numbers.1.now)) result (the_numbers_of signature.now) }
{
    if signature.len() < 9 || signature.len() > MAX_SIGNATURE_SIZE {
        return None;
    }
    match signature {
        [tag, size, rest @ ..] => {
            if *tag != 0x30 || *size as usize + 1 != rest.len() {
                return None;
            }
            two_numbers(rest)
        }
        _ => None,
    }
}
