//! The checksum of a descriptor's text (BIP 380).

ghost use Rattle.std.specs.Prelude.{◌≡◌, ◌<◌, ◌+◌, ◌*◌, ◌/◌, ◌%◌, [], ◌∷◌, replicate};
ghost use Rattle.def_address.specs.Digits.{fixed_digits, spelled};
ghost use Rattle.def_address.specs.Bech32.{bech32_alphabet};
ghost use Rattle.def_address.specs.DescriptorSum.{descriptor_sum};
ghost use Rattle.ms_address.specs.After.{with_values, after};

use crate::letters::{bech32_letter, descriptor_place};
use crate::remainder::descriptor_with;

/// The remainder with three characters more: their places in their groups, and the number of their groups.
fn with_three(remainder: u64, a: usize, b: usize, c: usize) -> u64
    requires a { a < 95 }
    requires b { b < 95 }
    requires c { c < 95 }
    ensures { result ≡ with_values remainder (a % 32 ∷ b % 32 ∷ c % 32 ∷ (a / 32 * 9 + b / 32 * 3 + c / 32) ∷ []) }
{
    let one = descriptor_with(remainder, (a % 32) as u64);
    let two = descriptor_with(one, (b % 32) as u64);
    let three = descriptor_with(two, (c % 32) as u64);
    descriptor_with(three, (a / 32 * 9 + b / 32 * 3 + c / 32) as u64)
}

/// The remainder with the last two characters.
fn with_two(remainder: u64, a: usize, b: usize) -> u64
    requires a { a < 95 }
    requires b { b < 95 }
    ensures { result ≡ with_values remainder (a % 32 ∷ b % 32 ∷ (a / 32 * 3 + b / 32) ∷ []) }
{
    let one = descriptor_with(remainder, (a % 32) as u64);
    let two = descriptor_with(one, (b % 32) as u64);
    descriptor_with(two, (a / 32 * 3 + b / 32) as u64)
}

/// The remainder with the last character.
fn with_one(remainder: u64, a: usize) -> u64
    requires { a < 95 }
    ensures { result ≡ with_values remainder (a % 32 ∷ a / 32 ∷ []) }
{
    let one = descriptor_with(remainder, (a % 32) as u64);
    descriptor_with(one, (a / 32) as u64)
}

/// The remainder with a whole text, where all its characters are a descriptor's.
fn with_text(text: &[u8]) -> Option<u64>
    ensures { result ≡ after 1 text.now }
{
    let mut remainder = 1;
    let mut rest = text;
    'threes: loop {
        match rest {
            [] => return Some(remainder),
            [a] => {
                let a = descriptor_place(*a)?;
                return Some(with_one(remainder, a));
            }
            [a, b] => {
                let a = descriptor_place(*a)?;
                let b = descriptor_place(*b)?;
                return Some(with_two(remainder, a, b));
            }
            [a, b, c, more @ ..] => {
                let a = descriptor_place(*a)?;
                let b = descriptor_place(*b)?;
                let c = descriptor_place(*c)?;
                remainder = with_three(remainder, a, b, c);
                rest = more;
            }
        }
    }
}

/// The remainder with eight zeros behind.
fn closed(remainder: u64) -> u64
    ensures { result ≡ with_values remainder (replicate 8 0) }
{
    let one = descriptor_with(remainder, 0);
    let two = descriptor_with(one, 0);
    let three = descriptor_with(two, 0);
    let four = descriptor_with(three, 0);
    let five = descriptor_with(four, 0);
    let six = descriptor_with(five, 0);
    let seven = descriptor_with(six, 0);
    descriptor_with(seven, 0)
}

/// The eight characters of a number.
#[tactic(auto, unfolding(def_address::specs::Digits::fixed_digits))]
fn eight_letters(number: u64) -> [u8; 8]
    ensures { result ≡ spelled bech32_alphabet (fixed_digits 32 8 number) }
{
    let one = number / 32;
    let two = one / 32;
    let three = two / 32;
    let four = three / 32;
    let five = four / 32;
    let six = five / 32;
    let seven = six / 32;
    [
        bech32_letter(seven % 32),
        bech32_letter(six % 32),
        bech32_letter(five % 32),
        bech32_letter(four % 32),
        bech32_letter(three % 32),
        bech32_letter(two % 32),
        bech32_letter(one % 32),
        bech32_letter(number % 32),
    ]
}

/// The checksum of a descriptor's text, where all its characters are of BIP 380's set. Takes no memory.
pub fn descriptor_sum(text: &[u8]) -> Option<[u8; 8]>
    ensures { result ≡ descriptor_sum text.now }
{
    let remainder = with_text(text)?;
    Some(eight_letters(closed(remainder) ^ 1))
}
