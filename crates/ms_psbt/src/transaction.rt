//! Transactions, which are tested and not copied.

ghost use Rattle.std.specs.Prelude.{◌≡◌, ◌^◌, ◌<◌, ◌≤◌, true, [], length, is_some, option_map, Some, IfOk, IfSome};
ghost use Rattle.std.specs.List.{list_all};
ghost use Rattle.def_psbt.specs.Transaction.{Transaction};
ghost use Rattle.def_psbt.specs.Part.{first_bytes as the_first_bytes, first_string as the_first_string};
ghost use Rattle.def_psbt.specs.TransactionReading.{transaction_of, witnessed_transaction_of, network_transaction_of};
ghost use Rattle.def_psbt.specs.Forms.{has_no_script_sig, outpoint_texts, is_unsigned as the_is_unsigned, output_of, witness_of};
ghost use Rattle.ms_psbt.specs.Seen.{IsPart, rest_of};
ghost use Rattle.ms_psbt.specs.Scaffolding.Skips.{skip_of, skips, list_skip, witness_skip, sides_skip, counts_read, witnessed_skip, input_skip, output_skip, is_all as the_is_all, counts_of};
ghost use Rattle.ms_psbt.specs.Scaffolding.Repeats.{AreMarked, places_of};
ghost use Rattle.ms_psbt.specs.Scaffolding.Outpoints.{Places, empties, first_at, first_repeated, number_from, is_empty_input as the_is_empty_input};

use crate::parts::{first_bytes, first_size, first_string};
use crate::repeats::{Keys, Marked, first_repeat, marked_outpoint};
use ms_script::read_size;
use std::alloc::{AllocError, Global};

/// A part of a transaction.
#[derive(Clone, Copy)]
pub enum Kind {
    /// An input: an outpoint, a scriptSig, a sequence number.
    Input,
    /// An output: an amount and a Script.
    Output,
    /// An item of a witness, behind its size.
    Item,
}

/// The bytes behind a part of this kind.
pub fn skip(kind: Kind, bytes: &[u8]) -> Option<&[u8]>
    ensures { IsPart (λ rest. rest.now) result (skip_of kind bytes.now) }
{
    match kind {
        Kind::Input => skip_input(bytes),
        Kind::Output => skip_output(bytes),
        Kind::Item => skip_string(bytes),
    }
}

fn skip_string(bytes: &[u8]) -> Option<&[u8]>
    ensures { IsPart (λ rest. rest.now) result (rest_of (the_first_string bytes.now)) }
{
    let (_, rest) = first_string(bytes)?;
    Some(rest)
}

fn skip_bytes(count: u64, bytes: &[u8]) -> Option<&[u8]>
    ensures { IsPart (λ rest. rest.now) result (rest_of (the_first_bytes count bytes.now)) }
{
    let (_, rest) = first_bytes(count, bytes)?;
    Some(rest)
}

#[tactic(auto, unfolding(crate::specs::Scaffolding::Skips::input_skip))]
fn skip_input(bytes: &[u8]) -> Option<&[u8]>
    ensures { IsPart (λ rest. rest.now) result (input_skip bytes.now) }
{
    let rest = skip_bytes(32, bytes)?;
    let rest = skip_bytes(4, rest)?;
    let rest = skip_string(rest)?;
    skip_bytes(4, rest)
}

#[tactic(auto, unfolding(crate::specs::Scaffolding::Skips::output_skip))]
fn skip_output(bytes: &[u8]) -> Option<&[u8]>
    ensures { IsPart (λ rest. rest.now) result (output_skip bytes.now) }
{
    let rest = skip_bytes(8, bytes)?;
    skip_string(rest)
}

/// The bytes behind so many parts of a kind.
fn skip_many(kind: Kind, count: u64, bytes: &[u8]) -> Option<&[u8]>
    ensures { IsPart (λ rest. rest.now) result (skips (skip_of kind) count bytes.now) }
{
    let mut rest = bytes;
    for _ in 0..count {
        rest = skip(kind, rest)?;
    }
    Some(rest)
}

/// The number of parts, and the bytes behind them.
#[tactic(auto, unfolding(crate::specs::Scaffolding::Skips::list_skip))]
pub fn skip_list(kind: Kind, bytes: &[u8]) -> Option<(u64, &[u8])>
    ensures { IsPart (λ part. (part.0, part.1.now)) result (list_skip (skip_of kind) bytes.now) }
{
    let (count, rest) = first_size(bytes)?;
    let rest = skip_many(kind, count, rest)?;
    Some((count, rest))
}

/// The bytes behind a witness.
fn skip_witness(bytes: &[u8]) -> Option<&[u8]>
    ensures { IsPart (λ rest. rest.now) result (witness_skip bytes.now) }
{
    let (_, rest) = skip_list(Kind::Item, bytes)?;
    Some(rest)
}

/// The bytes behind so many witnesses.
pub fn skip_each_witness(count: u64, bytes: &[u8]) -> Option<&[u8]>
    ensures { IsPart (λ rest. rest.now) result (skips witness_skip count bytes.now) }
{
    let mut rest = bytes;
    for _ in 0..count {
        rest = skip_witness(rest)?;
    }
    Some(rest)
}

/// The numbers of inputs and of outputs, and the bytes behind them.
#[tactic(auto, unfolding(crate::specs::Scaffolding::Skips::sides_skip))]
fn skip_sides(bytes: &[u8]) -> Option<((u64, u64), &[u8])>
    ensures { IsPart (λ part. (part.0, part.1.now)) result (sides_skip bytes.now) }
{
    let (inputs, rest) = skip_list(Kind::Input, bytes)?;
    let (outputs, rest) = skip_list(Kind::Output, rest)?;
    Some(((inputs, outputs), rest))
}

/// The numbers of inputs and of outputs of a transaction without witnesses, which is all of the bytes. Takes no memory.
pub fn transaction_counts(bytes: &[u8]) -> Option<(u64, u64)>
    ensures { result ≡ option_map counts_of (transaction_of bytes.now) }
{
    read_counts(bytes)
}

#[tactic(auto, unfolding(crate::specs::Scaffolding::Skips::counts_read))]
fn read_counts(bytes: &[u8]) -> Option<(u64, u64)>
    ensures { result ≡ counts_read bytes.now }
{
    let rest = skip_bytes(4, bytes)?;
    let (counts, rest) = skip_sides(rest)?;
    let rest = skip_bytes(4, rest)?;
    if rest.is_empty() { Some(counts) } else { None }
}

#[tactic(auto, unfolding(crate::specs::Scaffolding::Skips::witnessed_skip))]
fn skip_witnessed(bytes: &[u8]) -> Option<&[u8]>
    ensures { IsPart (λ rest. rest.now) result (witnessed_skip bytes.now) }
{
    let rest = skip_bytes(4, bytes)?;
    let (marker, rest) = first_bytes(2, rest)?;
    let (counts, rest) = skip_sides(rest)?;
    let rest = skip_each_witness(counts.0, rest)?;
    let rest = skip_bytes(4, rest)?;
    if marker[1] == 1 && counts.0 > 0 {
        Some(rest)
    } else {
        None
    }
}

/// Whether nothing is left.
fn is_all(rest: Option<&[u8]>) -> bool
    ensures { result ≡ the_is_all (option_map (λ r. r.now) rest.entry) }
{
    match rest {
        Some(rest) => rest.is_empty(),
        None => false,
    }
}

fn is_witnessed(bytes: &[u8]) -> bool
    ensures { result ≡ is_some (witnessed_transaction_of bytes.now) }
{
    is_all(skip_witnessed(bytes))
}

/// Whether bytes are a transaction with or without witnesses, whole.
#[tactic(auto, unfolding(def_psbt::specs::TransactionReading::network_transaction_of))]
pub fn is_network_transaction(bytes: &[u8]) -> bool
    ensures { result ≡ is_some (network_transaction_of bytes.now) }
{
    if bytes.len() > 4 && bytes[4] == 0 {
        is_witnessed(bytes)
    } else {
        transaction_counts(bytes).is_some()
    }
}

/// Whether bytes are an output, whole. Takes no memory.
pub fn is_output(bytes: &[u8]) -> bool
    ensures { result ≡ is_some (output_of bytes.now) }
{
    is_all(skip_output(bytes))
}

/// Whether bytes are a witness, whole. Takes no memory.
pub fn is_witness(bytes: &[u8]) -> bool
    ensures { result ≡ is_some (witness_of bytes.now) }
{
    is_all(skip_witness(bytes))
}

/// The places of the outpoints of so many inputs from a place on, where their scriptSigs are empty: each then has 41 bytes.
fn empty_inputs(
    alloc: Global,
    bytes: &[u8],
    count: u64,
    from: usize,
) -> Result<Option<Vec<Marked>>, AllocError>
    requires from { from ≤ length bytes.now }
    requires room { length bytes.now < 2 ^ 32 }
    ensures places { IfOk result (λ places. option_map (λ v. places_of v.items) places ≡ empties bytes.now count from) }
    ensures marks { IfOk result (λ places. IfSome places (λ v. AreMarked Keys.Outpoints bytes.now v.items)) }
{
    let mut places = Vec::new(alloc);
    let mut at = from;
    for _ in 0..count {
        let is_empty = is_empty_input(bytes, at);
        if is_empty {
            places.push(marked_outpoint(bytes, at))?;
            at += 41;
        } else {
            return Ok(None);
        }
    }
    Ok(Some(places))
}

/// Whether an input at a place has 41 bytes, of which that of the size of its scriptSig is 0.
fn is_empty_input(bytes: &[u8], at: usize) -> bool
    requires { at ≤ length bytes.now }
    ensures { result ≡ the_is_empty_input bytes.now at }
{
    let rest = &bytes[at..];
    rest.len() >= 41 && rest[36] == 0
}

/// The places of the outpoints of a transaction whose inputs have empty scriptSigs; none where one hasn't.
fn outpoint_places(alloc: Global, bytes: &[u8]) -> Result<Option<Vec<Marked>>, AllocError>
    requires { length bytes.now < 2 ^ 32 }
    ensures places { IfOk result (λ places. Places bytes.now (transaction_of bytes.now) (option_map (λ v. places_of v.items) places)) }
    ensures marks { IfOk result (λ places. IfSome places (λ v. AreMarked Keys.Outpoints bytes.now v.items)) }
{
    if bytes.len() < 4 {
        return Ok(None);
    }
    match read_size(bytes, 4) {
        Ok((count, from)) => input_places(alloc, bytes, count, from),
        Err(_) => Ok(None),
    }
}

fn input_places(
    alloc: Global,
    bytes: &[u8],
    count: u64,
    from: usize,
) -> Result<Option<Vec<Marked>>, AllocError>
    requires room { length bytes.now < 2 ^ 32 }
    ensures places { IfOk result (λ places. from ≤ length bytes.now → option_map (λ v. places_of v.items) places ≡ empties bytes.now count from) }
    ensures marks { IfOk result (λ places. IfSome places (λ v. AreMarked Keys.Outpoints bytes.now v.items)) }
{
    if from > bytes.len() {
        return Ok(None);
    }
    empty_inputs(alloc, bytes, count, from)
}

/// The number of the first input whose outpoint is that of one before it, in a transaction whose inputs have empty scriptSigs.
pub fn repeated_outpoint(alloc: Global, bytes: &[u8]) -> Result<Option<usize>, AllocError>
    ensures { (transaction : Transaction) → transaction_of bytes.now ≡ Some transaction → list_all has_no_script_sig transaction.inputs ≡ true
        → IfOk result (λ number. number ≡ first_repeated [] (outpoint_texts transaction.inputs)) }
{
    if bytes.len() >= 1 << 32 {
        return Err(AllocError);
    }
    if transaction_counts(bytes).is_none() {
        return Ok(None);
    }
    let from = first_input_place(bytes);
    match outpoint_places(alloc, bytes)? {
        Some(mut places) => Ok(number_at(first_repeat(Keys::Outpoints, bytes, &mut places), from)),
        None => Ok(None),
    }
}

/// Where the first input stands in a transaction: behind the version and the number of inputs.
fn first_input_place(bytes: &[u8]) -> usize
    ensures { 4 ≤ length bytes.now → result ≡ first_at bytes.now }
{
    if bytes.len() < 4 {
        return 0;
    }
    match read_size(bytes, 4) {
        Ok((_, from)) => from,
        Err(_) => 0,
    }
}

/// Which input stands at a place, where the first one stands at another: each has 41 bytes.
fn number_at(place: Option<u32>, from: usize) -> Option<usize>
    ensures { result ≡ number_from from place }
{
    match place {
        Some(place) => Some((place as usize).saturating_sub(from) / 41),
        None => None,
    }
}

/// Whether bytes are a transaction without witnesses, whole, whose inputs have empty scriptSigs, and of which no outpoint
/// stands twice.
pub fn is_unsigned(alloc: Global, bytes: &[u8]) -> Result<bool, AllocError>
    requires { length bytes.now < 2 ^ 32 }
    ensures { IfOk result (λ is. is ≡ the_is_unsigned (transaction_of bytes.now)) }
{
    if transaction_counts(bytes).is_none() {
        return Ok(false);
    }
    match outpoint_places(alloc, bytes)? {
        Some(mut places) => Ok(first_repeat(Keys::Outpoints, bytes, &mut places).is_none()),
        None => Ok(false),
    }
}
