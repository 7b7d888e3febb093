//! Sizes, keys, values and pairs at their places in a PSBT.

ghost use Rattle.std.specs.Prelude.{◌≡◌, ◌<◌, ◌≤◌, length, IfOk};
ghost use Rattle.def_psbt.specs.Reading.{fault_of_size, size_at as the_size_at, string_at as the_string_at, pair_at as the_pair_at};
ghost use Rattle.def_psbt.specs.Map.{type_of, data_of};
ghost use Rattle.ms_psbt.specs.Seen.{Reads};

use crate::parts::first_size;
use def_psbt::{PsbtFault, Refusal};
use ms_script::{SizeFault, read_size};
use std::marker::Model;

/// A pair of a map, which lies in the bytes of the PSBT.
#[derive(Debug, Drop)]
pub struct PairRef<'a> {
    key: &'a [u8],
    value: &'a [u8],
}

impl<'a> Model for PairRef<'a> {
    ghost use Rattle.def_psbt.specs.Map.{Pair};

    ghost Value = { Pair };

    ghost view = { λ p. record { key = p.key.now; value = p.value.now } };
}

impl<'a> PairRef<'a> {
    /// The pair of this key and this value.
    pub(crate) fn new(key: &'a [u8], value: &'a [u8]) -> PairRef<'a>
        ensures key { result.key ≡ key.entry.now }
        ensures value { result.value ≡ value.entry.now }
    {
        PairRef { key, value }
    }

    /// The key, its type and its data. Takes no memory.
    pub fn key(&self) -> &'a [u8]
        ensures { result.now ≡ self.now.key }
    {
        self.key
    }

    /// The value. Takes no memory.
    pub fn value(&self) -> &'a [u8]
        ensures { result.now ≡ self.now.value }
    {
        self.value
    }

    /// The type at the front of the key. Takes no memory.
    pub fn key_type(&self) -> u64
        ensures { result ≡ type_of self.now.key }
    {
        match first_size(self.key) {
            Some((type_number, _)) => type_number,
            None => 0,
        }
    }

    /// The data of the key, behind its type. Takes no memory.
    pub fn key_data(&self) -> &'a [u8]
        ensures { result.now ≡ data_of self.now.key }
    {
        match first_size(self.key) {
            Some((_, key_data)) => key_data,
            None => &[],
        }
    }
}

fn fault_of(fault: SizeFault) -> PsbtFault
    ensures { result ≡ fault_of_size fault }
{
    match fault {
        SizeFault::Truncated => PsbtFault::Truncated,
        SizeFault::NotShortest => PsbtFault::Size,
    }
}

/// The size at a place, and the place behind it. Nearly all sizes are of one byte.
#[inline(always)]
#[tactic(auto, unfolding(def_psbt::specs::Reading::size_at, def_script::specs::Sizes::read_size))]
pub fn size_at(psbt: &[u8], at: usize) -> Result<(u64, usize), Refusal>
    requires { at ≤ length psbt.now }
    ensures reading { result ≡ the_size_at psbt.now at }
    ensures within { IfOk result (λ read. read.1 ≤ length psbt.now) }
    ensures later { IfOk result (λ read. at < read.1) }
{
    match &psbt[at..] {
        [size @ 0..=0xfc, ..] => Ok((*size as u64, at + 1)),
        _ => wide_size_at(psbt, at),
    }
}

#[tactic(auto, unfolding(def_psbt::specs::Reading::size_at))]
fn wide_size_at(psbt: &[u8], at: usize) -> Result<(u64, usize), Refusal>
    requires { at ≤ length psbt.now }
    ensures reading { result ≡ the_size_at psbt.now at }
    ensures within { IfOk result (λ read. read.1 ≤ length psbt.now) }
    ensures later { IfOk result (λ read. at < read.1) }
{
    match read_size(psbt, at) {
        Ok(read) => Ok(read),
        Err(fault) => Err(Refusal::At(fault_of(fault), at)),
    }
}

/// A key, or a value, behind its size at a place, and the place behind it.
#[inline(always)]
#[tactic(auto, unfolding(def_psbt::specs::Reading::string_at, def_psbt::specs::Reading::bytes_at))]
pub fn string_at(psbt: &[u8], at: usize) -> Result<(&[u8], usize), Refusal>
    requires { at ≤ length psbt.now }
    ensures reading { Reads (λ read. (read.0.now, read.1)) result (the_string_at psbt.now at) }
    ensures within { IfOk result (λ read. read.1 ≤ length psbt.now) }
    ensures later { IfOk result (λ read. at < read.1) }
    ensures short { IfOk result (λ read. length read.0.now ≤ length psbt.now) }
{
    let (size, from) = size_at(psbt, at)?;
    let rest = &psbt[from..];
    if (rest.len() as u64) < size {
        return Err(Refusal::At(PsbtFault::Truncated, from));
    }
    let size = size as usize;
    Ok((&rest[..size], from + size))
}

/// The pair at a place, and the place behind it.
#[inline(always)]
#[tactic(auto, unfolding(def_psbt::specs::Reading::pair_at))]
pub fn pair_at(psbt: &[u8], at: usize) -> Result<(PairRef<'_>, usize), Refusal>
    requires { at ≤ length psbt.now }
    ensures reading { result ≡ the_pair_at psbt.now at }
    ensures within { IfOk result (λ read. read.1 ≤ length psbt.now) }
    ensures later { IfOk result (λ read. at < read.1) }
    ensures short { IfOk result (λ read. length read.0.value ≤ length psbt.now) }
{
    let (key, from) = string_at(psbt, at)?;
    let (value, end) = string_at(psbt, from)?;
    Ok((PairRef { key, value }, end))
}
