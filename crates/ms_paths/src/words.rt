//! What the tokens of steps say.

ghost use Rattle.std.specs.Prelude.{◌≡◌, ◌<◌, ◌^◌, IfSome};
ghost use Rattle.std.specs.Option.{option_map};
ghost use Rattle.def_descriptor.specs.Steps.{step_number as the_step_number, step_of as the_step_of, numbered as the_numbered};
ghost use Rattle.def_descriptor.specs.ReadKey.{print_of as the_print_of};
ghost use Rattle.ms_paths.specs.Paths.{step_at};

use ms_text::{decoded, number_spelled};

/// Hardened numbers have 2^31 added (BIP 32).
const HARDENED: u32 = 0x8000_0000;

/// A number below 2^31, and whether it is hardened.
#[derive(Clone, Copy)]
pub struct Step {
    /// The number.
    pub number: u32,
    /// Whether it is hardened.
    pub hardened: bool,
}

impl Step {
    /// The number as a path has it.
    pub fn numbered(self) -> u32
        requires { self.number < 2 ^ 31 }
        ensures { result ≡ the_numbered (step_at self) }
    {
        if self.hardened {
            self.number + HARDENED
        } else {
            self.number
        }
    }
}

/// The number below 2^31 that a word spells.
fn step_number(word: &[u8]) -> Option<u32>
    ensures number { result ≡ the_step_number word.now }
    ensures small { IfSome result (λ number. number < 2 ^ 31) }
{
    let number = number_spelled(word)?;
    if number >= HARDENED as u64 {
        return None;
    }
    Some(number as u32)
}

/// The step that a word spells: a number, with or without an `h` behind it.
pub fn step_of(word: &[u8]) -> Option<Step>
    ensures step { option_map step_at result ≡ the_step_of word.now }
    ensures small { IfSome result (λ step. step.number < 2 ^ 31) }
{
    let last = word.len().saturating_sub(1);
    let hardened = &word[last..] == b"h".as_slice();
    let digits = if hardened { &word[..last] } else { word };
    let number = step_number(digits)?;
    Some(Step { number, hardened })
}

/// The fingerprint that a word of eight hexadecimal digits spells.
pub fn print_of(word: &[u8]) -> Option<[u8; 4]>
    ensures { result ≡ the_print_of word.now }
{
    decoded::<4>(word)
}
