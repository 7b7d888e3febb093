//! Where keys come from (BIP 380, "Key Expressions").

ghost use Rattle.def_descriptor.specs.ReadKey.{read_print as the_read_print, read_origin as the_read_origin};
ghost use Rattle.ms_paths.specs.Places.{IsPlace, tokens_at, Reads};
ghost use Rattle.ms_paths.specs.Paths.{some_origin, origins_at};

use crate::steps::read_steps;
use crate::tokens::{behind_mark, token_at};
use crate::words::print_of;
use def_descriptor::DescriptorFault;
use std::alloc::Global;

/// Where a key comes from.
#[derive(Drop)]
pub struct Origin {
    /// The fingerprint of the key at the beginning.
    pub print: [u8; 4],
    /// The numbers of the steps from there: hardened ones have 2^31 added.
    pub steps: Vec<u32>,
}

/// The fingerprint at a place, the steps behind it and a `]`.
fn read_print(alloc: Global, text: &[u8], at: usize) -> Result<(Origin, usize), DescriptorFault>
    requires { IsPlace text.now at }
    ensures { Reads text.now at (the_read_print (tokens_at text.now at)) some_origin result }
{
    let word = token_at(text, at);
    let Some(print) = print_of(word) else {
        return Err(DescriptorFault::Syntax(at as u32));
    };
    let (steps, end) = read_steps(alloc, text, at + word.len())?;
    let Some(behind) = behind_mark(text, end, b']') else {
        return Err(DescriptorFault::Syntax(end as u32));
    };
    Ok((Origin { print, steps }, behind))
}

/// The origin at a place, if one stands there.
pub fn read_origin(
    alloc: Global,
    text: &[u8],
    at: usize,
) -> Result<(Option<Origin>, usize), DescriptorFault>
    requires { IsPlace text.now at }
    ensures { Reads text.now at (the_read_origin (tokens_at text.now at)) origins_at result }
{
    let Some(next) = behind_mark(text, at, b'[') else {
        return Ok((None, at));
    };
    let (origin, end) = read_print(alloc, text, next)?;
    Ok((Some(origin), end))
}
