//! The steps of origins and of extended keys (BIPs 380, 389).

ghost use Rattle.std.specs.Prelude.{◌≡◌, ◌≢◌, ◌<◌, ◌≤◌, ◌^◌, ◌-◌, false, drop, IfOk};
ghost use Rattle.def_descriptor.specs.Steps.{MOST_STEPS as THE_MOST_STEPS, read_step as the_read_step, read_steps as the_read_steps, read_plain as the_read_plain, read_ways as the_read_ways};
ghost use Rattle.ms_paths.specs.Places.{IsPlace, tokens_at, Reads};
ghost use Rattle.ms_paths.specs.Paths.{step_at, way_at, ways_at, step_over as the_step_over, way_over as the_way_over, index_read, way_read};

use crate::branches::read_branches;
use crate::tokens::{behind_mark, is_mark, token_at};
use crate::words::{Step, step_of};
use def_descriptor::DescriptorFault;
use std::alloc::Global;

/// The most steps of a path: a depth is one byte (BIP 32).
const MOST_STEPS: u8 = 255;

/// A step behind an extended key.
#[derive(Drop)]
pub enum Way {
    /// A number.
    Number(u32),
    /// The number of the branch, of these: `<..;..>`.
    Branches(Vec<u32>),
    /// The index: `*`.
    Index,
}

/// The step at a place.
pub fn read_step(text: &[u8], at: usize) -> Result<(Step, usize), DescriptorFault>
    requires { IsPlace text.now at }
    ensures reads { Reads text.now at (the_read_step (tokens_at text.now at)) step_at result }
    ensures small { IfOk result (λ read. read.0.number < 2 ^ 31) }
{
    let word = token_at(text, at);
    let Some(step) = step_of(word) else {
        return Err(DescriptorFault::Syntax(at as u32));
    };
    let end = at + word.len();
    if step.hardened {
        return Ok((step, end));
    }
    let Some(behind) = behind_mark(text, end, b'\'') else {
        return Ok((step, end));
    };
    let hardened = Step {
        number: step.number,
        hardened: true,
    };
    Ok((hardened, behind))
}

/// Why one step more than there may be is refused.
fn step_over(text: &[u8], at: usize) -> DescriptorFault
    requires { IsPlace text.now at }
    ensures { result ≢ DescriptorFault.Memory → the_step_over (tokens_at text.now at) ≡ result }
{
    match read_step(text, at) {
        Ok(_) => DescriptorFault::Depth(at as u32),
        Err(fault) => fault,
    }
}

/// The steps of an origin, each behind a `/`.
pub fn read_steps(
    alloc: Global,
    text: &[u8],
    at: usize,
) -> Result<(Vec<u32>, usize), DescriptorFault>
    requires { IsPlace text.now at }
    ensures { Reads text.now at (the_read_steps THE_MOST_STEPS (tokens_at text.now at)) (λ steps. steps.items) result }
{
    let mut steps = Vec::new(alloc);
    let mut end = at;
    for _ in 0..MOST_STEPS {
        let Some(next) = behind_mark(text, end, b'/') else {
            return Ok((steps, end));
        };
        let (step, behind) = read_step(text, next)?;
        steps.push(step.numbered())?;
        end = behind;
    }
    let Some(next) = behind_mark(text, end, b'/') else {
        return Ok((steps, end));
    };
    Err(step_over(text, next))
}

/// The step at a place, which may not be hardened.
pub fn read_plain(text: &[u8], at: usize) -> Result<(u32, usize), DescriptorFault>
    requires { IsPlace text.now at }
    ensures { Reads text.now at (the_read_plain (tokens_at text.now at)) (λ number. number) result }
{
    let (step, end) = read_step(text, at)?;
    if step.hardened {
        return Err(DescriptorFault::Hardened(at as u32));
    }
    Ok((step.number, end))
}

/// The index at a place, behind which no mark of hardened numbers may stand.
fn read_index(text: &[u8], at: usize, end: usize) -> Result<(Way, usize), DescriptorFault>
    requires at { IsPlace text.now at }
    requires end { IsPlace text.now end }
    requires after { at ≤ end }
    requires behind { drop 1 (tokens_at text.now at) ≡ tokens_at text.now end }
    ensures { Reads text.now at (index_read (tokens_at text.now at)) way_at result }
{
    if is_mark(text, end, b'h') {
        return Err(DescriptorFault::Hardened(at as u32));
    }
    if is_mark(text, end, b'\'') {
        return Err(DescriptorFault::Hardened(at as u32));
    }
    Ok((Way::Index, end))
}

/// The step behind an extended key at a place. A `<..>` may stand there where none stands before, with as many numbers as an earlier key fixed.
fn read_way(
    alloc: Global,
    text: &[u8],
    at: usize,
    fixed: Option<usize>,
    had: bool,
) -> Result<(Way, usize), DescriptorFault>
    requires { IsPlace text.now at }
    ensures { Reads text.now at (way_read fixed had (tokens_at text.now at)) way_at result }
{
    if let Some(end) = behind_mark(text, at, b'*') {
        return read_index(text, at, end);
    }
    if let Some(next) = behind_mark(text, at, b'<') {
        if had {
            return Err(DescriptorFault::Multipath(at as u32));
        }
        let (numbers, end) = read_branches(alloc, text, at, next, fixed)?;
        return Ok((Way::Branches(numbers), end));
    }
    let (number, end) = read_plain(text, at)?;
    Ok((Way::Number(number), end))
}

/// Why one step behind an extended key more than there may be is refused.
fn way_over(text: &[u8], at: usize) -> DescriptorFault
    requires { IsPlace text.now at }
    ensures { result ≢ DescriptorFault.Memory → the_way_over (tokens_at text.now at) ≡ result }
{
    if is_mark(text, at, b'*') {
        return DescriptorFault::Depth(at as u32);
    }
    if is_mark(text, at, b'<') {
        return DescriptorFault::Depth(at as u32);
    }
    step_over(text, at)
}

/// The steps behind an extended key of some depth, each behind a `/`: the index is the last one.
pub fn read_ways(
    alloc: Global,
    text: &[u8],
    at: usize,
    depth: u8,
    fixed: Option<usize>,
) -> Result<(Vec<Way>, usize), DescriptorFault>
    requires { IsPlace text.now at }
    ensures { Reads text.now at (the_read_ways (THE_MOST_STEPS - depth) fixed false (tokens_at text.now at)) ways_at result }
{
    let mut ways = Vec::new(alloc);
    let mut had = false;
    let mut end = at;
    for _ in depth..MOST_STEPS {
        let Some(next) = behind_mark(text, end, b'/') else {
            return Ok((ways, end));
        };
        let (way, behind) = read_way(alloc, text, next, fixed, had)?;
        match way {
            Way::Index => {
                ways.push(Way::Index)?;
                return Ok((ways, behind));
            }
            Way::Number(number) => ways.push(Way::Number(number))?,
            Way::Branches(numbers) => {
                ways.push(Way::Branches(numbers))?;
                had = true;
            }
        }
        end = behind;
    }
    let Some(next) = behind_mark(text, end, b'/') else {
        return Ok((ways, end));
    };
    Err(way_over(text, next))
}
