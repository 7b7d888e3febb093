//! The addresses of programs of witness version 0 (BIP 173).

ghost use Rattle.std.specs.Prelude.{◌≡◌, ◌/◌, ◌%◌, ◌^◌, ◌<◌, ◌≤◌, ◌++◌, length, map, fold, All, IfOk, OnOk};
ghost use Rattle.def_address.specs.Digits.{number_in, fixed_digits, spelled};
ghost use Rattle.def_address.specs.Remainder.{remainder_with};
ghost use Rattle.def_address.specs.Bech32.{bech32_alphabet, bech32_generators, in_fives, program_address};

use crate::letters::bech32_letter;
use crate::remainder::address_with;
use std::alloc::{AllocError, Global};

/// The remainder with some values more.
fn with_values(first: u64, values: &[u8]) -> u64
    ensures { result ≡ fold (remainder_with 25 bech32_generators) first values.now }
{
    let mut remainder = first;
    for value in values {
        remainder = address_with(remainder, *value as u64);
    }
    remainder
}

/// The remainder with the upper bits of some letters.
fn with_upper_bits(first: u64, letters: &[u8]) -> u64
    ensures { result ≡ fold (remainder_with 25 bech32_generators) first (map (λ letter. letter / 32) letters.now) }
{
    let mut remainder = first;
    for letter in letters {
        remainder = address_with(remainder, (*letter / 32) as u64);
    }
    remainder
}

/// The remainder with their lower bits.
fn with_lower_bits(first: u64, letters: &[u8]) -> u64
    ensures { result ≡ fold (remainder_with 25 bech32_generators) first (map (λ letter. letter % 32) letters.now) }
{
    let mut remainder = first;
    for letter in letters {
        remainder = address_with(remainder, (*letter % 32) as u64);
    }
    remainder
}

/// Adds so many values of 5 bits of a number, the highest first.
#[tactic(auto, unfolding(def_address::specs::Digits::fixed_digits))]
fn push_values(values: &mut Vec<u8>, count: usize, number: u64) -> Result<(), AllocError>
    ensures { OnOk result (values.new.items ≡ values.old.items ++ fixed_digits 32 count number) }
{
    if count == 0 {
        return Ok(());
    }
    push_values(values, count - 1, number / 32)?;
    values.push((number % 32) as u8)?;
    Ok(())
}

/// The number of at most five bytes, the highest first.
fn number_of(bytes: &[u8]) -> u64
    requires { length bytes.now ≤ 5 }
    ensures number { result ≡ number_in 256 bytes.now }
    ensures below { result < 256 ^ length bytes.now }
{
    let mut number = 0;
    for byte in bytes {
        number = number * 256 + *byte as u64;
    }
    number
}

/// Adds the bits of some bytes in groups of 5: five bytes fill eight of them.
fn push_fives(values: &mut Vec<u8>, bytes: &[u8]) -> Result<(), AllocError>
    ensures { OnOk result (values.new.items ≡ values.old.items ++ in_fives bytes.now) }
{
    let mut rest = bytes;
    'chunks: while rest.len() >= 5 {
        let (chunk, more) = rest.split_at(5);
        push_values(values, 8, number_of(chunk))?;
        rest = more;
    }
    let count = (8 * rest.len() + 4) / 5;
    push_values(
        values,
        count,
        number_of(rest) << (5 * count - 8 * rest.len()),
    )
}

/// Adds the characters of some values.
fn push_letters(text: &mut Vec<u8>, values: &[u8]) -> Result<(), AllocError>
    requires { All (λ value. value < 32) values.now }
    ensures { OnOk result (text.new.items ≡ text.old.items ++ spelled bech32_alphabet values.now) }
{
    for value in values {
        text.push(bech32_letter(*value as u64))?;
    }
    Ok(())
}

/// The address of a program of version 0 behind a human-readable part. The only refusal is want of memory.
pub fn program_address(alloc: Global, human: &[u8], program: &[u8]) -> Result<Vec<u8>, AllocError>
    ensures { IfOk result (λ text. text.items ≡ program_address human.now program.now) }
{
    let mut values = Vec::new(alloc);
    values.push(0)?;
    push_fives(&mut values, program)?;
    let upper = with_upper_bits(1, human);
    let zero = address_with(upper, 0);
    let lower = with_lower_bits(zero, human);
    let counted = with_values(lower, &values);
    let closed = with_values(counted, &[0; 6]);
    push_values(&mut values, 6, closed ^ 1)?;
    let mut text = Vec::from_slice(alloc, human)?;
    text.push(b'1')?;
    push_letters(&mut text, &values)?;
    Ok(text)
}
