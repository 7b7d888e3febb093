//! The numbers of a `<..>` (BIP 389).

ghost use Rattle.std.specs.Prelude.{◌≡◌, ◌≤◌, nat_eq, [], drop};
ghost use Rattle.std.specs.List.{list_any};
ghost use Rattle.def_descriptor.specs.Steps.{MOST_BRANCHES as THE_MOST_BRANCHES, read_numbers as the_read_numbers};
ghost use Rattle.ms_paths.specs.Places.{IsPlace, tokens_at, Reads};
ghost use Rattle.ms_paths.specs.Paths.{closed_read, branches_read};

use crate::steps::read_plain;
use crate::tokens::behind_mark;
use def_descriptor::DescriptorFault;
use std::alloc::Global;

/// The most numbers of a `<..>`.
const MOST_BRANCHES: usize = 16;

/// Whether a number is one of some.
fn is_among(number: u32, numbers: &[u32]) -> bool
    ensures { result ≡ list_any (nat_eq number) numbers.now }
{
    numbers.iter().any(|other| number == *other)
}

/// The numbers of a `<..>` up to the last one, and the place behind the `>` that has to stand behind two or more.
fn closed(text: &[u8], at: usize, numbers: Vec<u32>) -> Result<(Vec<u32>, usize), DescriptorFault>
    requires { IsPlace text.now at }
    ensures { Reads text.now at (closed_read numbers.items (tokens_at text.now at)) (λ all. all.items) result }
{
    let Some(end) = behind_mark(text, at, b'>') else {
        return Err(DescriptorFault::Syntax(at as u32));
    };
    if numbers.len() < 2 {
        return Err(DescriptorFault::Syntax(at as u32));
    }
    Ok((numbers, end))
}

/// The numbers of a `<..>`, the first of which stands at a place.
fn read_numbers(alloc: Global, text: &[u8], at: usize) -> Result<(Vec<u32>, usize), DescriptorFault>
    requires { IsPlace text.now at }
    ensures { Reads text.now at (the_read_numbers THE_MOST_BRANCHES [] (tokens_at text.now at)) (λ numbers. numbers.items) result }
{
    let mut numbers = Vec::new(alloc);
    let mut place = at;
    for _ in 0..MOST_BRANCHES {
        let (number, behind) = read_plain(text, place)?;
        if is_among(number, &numbers) {
            return Err(DescriptorFault::Multipath(place as u32));
        }
        numbers.push(number)?;
        let Some(next) = behind_mark(text, behind, b';') else {
            return closed(text, behind, numbers);
        };
        place = next;
    }
    let (_number, _behind) = read_plain(text, place)?;
    Err(DescriptorFault::Multipath(place as u32))
}

/// The numbers of the `<..>` at a place, which are as many as an earlier key fixed. The first stands at `first`.
pub fn read_branches(
    alloc: Global,
    text: &[u8],
    at: usize,
    first: usize,
    fixed: Option<usize>,
) -> Result<(Vec<u32>, usize), DescriptorFault>
    requires at { IsPlace text.now at }
    requires first { IsPlace text.now first }
    requires after { at ≤ first }
    requires behind { drop 1 (tokens_at text.now at) ≡ tokens_at text.now first }
    ensures { Reads text.now at (branches_read fixed (tokens_at text.now at)) (λ numbers. numbers.items) result }
{
    let (numbers, end) = read_numbers(alloc, text, first)?;
    if let Some(count) = fixed {
        if numbers.len() != count {
            return Err(DescriptorFault::Multipath(at as u32));
        }
    }
    Ok((numbers, end))
}
