//! Script numbers and truth values: their spelling and their reading.

ghost use Rattle.std.specs.Prelude.{◌≡◌, ℕ, ◌+◌, ◌^◌, ◌<◌, ◌≤◌, nat_abs, pos, neg_ℤ, ◌≤ℤ◌, IfOk, List, length, take, Ok};
ghost use Rattle.def_script.specs.Numbers.{sign_bit, signed_bytes as the_signed_bytes, number_bytes};
ghost use Rattle.def_script.specs.Decode.{magnitude as the_magnitude, is_negative as the_is_negative, is_minimal as the_is_minimal, num_decode as the_num_decode, truth as the_truth};

use def_script::NumFault;
use std::marker::Model;

/// The spelling of a Script number. Contracts see it as a list of at most five bytes.
#[derive(Debug, Drop)]
pub struct NumBytes {
    bytes: [u8; 5],
    len: usize,
}

impl Model for NumBytes {
    ghost use Rattle.std.specs.Prelude.{List, ℕ, take, ◌≤◌};

    ghost Value = { List ℕ };

    ghost view = { λ n. take n.len n.bytes };

    ghost invariant = { λ n. n.len ≤ 5 };
}

impl NumBytes {
    /// The bytes, low byte first.
    pub fn as_slice(&self) -> &[u8]
        ensures { result.now ≡ self.now }
    {
        &self.bytes[..self.len]
    }
}

/// The shortest spelling of a Script number (Bitcoin Core: `CScriptNum::serialize`). It has at most five
/// bytes, which hold the numbers between -2^39 and 2^39; of a greater number the low bytes alone are written.
/// Takes no memory and never refuses.
pub fn num_encode(value: i64) -> NumBytes
    ensures spelling { result ≡ number_bytes value }
    ensures decoded { nat_abs value < 2 ^ 39 → the_num_decode 5 result ≡ Ok value }
{
    if value == 0 {
        return NumBytes {
            bytes: [0; 5],
            len: 0,
        };
    }
    signed_bytes(value < 0, value.unsigned_abs())
}

/// The spelling of a magnitude other than zero and its sign.
fn signed_bytes(negative: bool, magnitude: u64) -> NumBytes
    ensures { result ≡ the_signed_bytes 5 negative magnitude }
{
    let mut bytes = [0; 5];
    let mut len = 0;
    let mut left = magnitude;
    while len < 5 {
        if left < 128 {
            bytes[len] = last_byte(negative, left as u8);
            return NumBytes {
                bytes,
                len: len + 1,
            };
        }
        bytes[len] = (left % 256) as u8;
        left /= 256;
        len += 1;
    }
    NumBytes { bytes, len }
}

/// The last byte, which holds the sign.
fn last_byte(negative: bool, left: u8) -> u8
    requires { left < 128 }
    ensures { result ≡ left + sign_bit negative }
{
    if negative { left + 128 } else { left }
}

/// The number that at most `max` bytes, which is at most 5, spell in their shortest spelling (Bitcoin Core:
/// `CScriptNum`). Low byte first, with the sign in the top bit of the last byte. Takes no memory.
///
/// `TooLong` comes exactly where there are more bytes, and else `NotMinimal` exactly where a shorter spelling
/// stands for the same number.
pub fn num_decode(bytes: &[u8], max: usize) -> Result<i64, NumFault>
    requires { max ≤ 5 }
    ensures value { result ≡ the_num_decode max bytes.now }
    ensures room { IfOk result (λ n. (neg_ℤ (pos (2 ^ 39)) ≤ℤ n) × (n ≤ℤ pos (2 ^ 39))) }
{
    if bytes.len() > max {
        return Err(NumFault::TooLong);
    }
    if !is_minimal(bytes) {
        return Err(NumFault::NotMinimal);
    }
    let size = magnitude(bytes) as i64;
    Ok(if is_negative(bytes) { -size } else { size })
}

/// The magnitude of a number: its bytes, low byte first, without the top bit of the last one.
fn magnitude(bytes: &[u8]) -> u64
    requires { length bytes.now ≤ 5 }
    ensures value { result ≡ the_magnitude bytes.now }
    ensures room { result < 2 ^ 39 }
{
    match *bytes {
        [] => 0,
        [a] => (a % 128) as u64,
        [a, b] => u64::from_le_bytes([a, b % 128, 0, 0, 0, 0, 0, 0]),
        [a, b, c] => u64::from_le_bytes([a, b, c % 128, 0, 0, 0, 0, 0]),
        [a, b, c, d] => u64::from_le_bytes([a, b, c, d % 128, 0, 0, 0, 0]),
        [a, b, c, d, e] => u64::from_le_bytes([a, b, c, d, e % 128, 0, 0, 0]),
        _ => unreachable!(),
    }
}

/// Whether the top bit of the last byte, which is the sign, is set.
fn is_negative(bytes: &[u8]) -> bool
    requires { length bytes.now ≤ 5 }
    ensures { result ≡ the_is_negative bytes.now }
{
    match *bytes {
        [] => false,
        [last] => last >= 128,
        [_, last] => last >= 128,
        [_, _, last] => last >= 128,
        [_, _, _, last] => last >= 128,
        [_, _, _, _, last] => last >= 128,
        _ => unreachable!(),
    }
}

/// Whether no shorter spelling stands for the same number.
fn is_minimal(bytes: &[u8]) -> bool
    requires { length bytes.now ≤ 5 }
    ensures { result ≡ the_is_minimal bytes.now }
{
    match *bytes {
        [] => true,
        [last] => last % 128 != 0,
        [before, last] => last % 128 != 0 || before >= 128,
        [_, before, last] => last % 128 != 0 || before >= 128,
        [_, _, before, last] => last % 128 != 0 || before >= 128,
        [_, _, _, before, last] => last % 128 != 0 || before >= 128,
        _ => unreachable!(),
    }
}

/// Whether a string is true: false are those of zeros alone, also before a last byte `80`, which is a
/// negative zero (Bitcoin Core: `CastToBool`). Takes no memory and never refuses.
pub fn truth(bytes: &[u8]) -> bool
    ensures { result ≡ the_truth bytes.now }
{
    let mut at = 0;
    while at < bytes.len() {
        let byte = bytes[at];
        at += 1;
        if byte != 0 {
            return at < bytes.len() || byte != 0x80;
        }
    }
    false
}
