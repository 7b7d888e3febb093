//! A PSBT that was read, which lies in the bytes.

ghost use Rattle.std.specs.Prelude.{◌≡◌, ℕ, ◌^◌, ◌<◌, ◌≤◌, true, List, [], ◌∷◌, ◌-◌, ◌++◌, length, map, take, drop, slice_get, slice_index, Some, option_map, Ok, IfOk, IsTrue};
ghost use Rattle.std.specs.List.{flat_map, list_any};
ghost use Rattle.def_psbt.specs.declared.PsbtVersion.TheVariants.{Two};
ghost use Rattle.def_psbt.specs.Fields.{input_of, version_of, transaction_of_fields, has_lock};
ghost use Rattle.def_psbt.specs.Forms.{is_unsigned};
ghost use Rattle.def_psbt.specs.Laws.{IsSound, IsSoundMap};
ghost use Rattle.def_psbt.specs.Listed.{global_form, input_form};
ghost use Rattle.def_psbt.specs.Map.{Map, magic as the_magic, has_types, map_text, psbt_text};
ghost use Rattle.def_psbt.specs.Reading.{input_rules, output_rules, map_at, unless, at_place, or_else, input_count, output_count, outline_in, transaction_by, Outline as TheOutline, unjoined as the_unjoined, read_psbt as the_read_psbt};
ghost use Rattle.def_psbt.specs.Source.{MAX_SOURCE_SIZE, has_magic};
ghost use Rattle.def_psbt.specs.Transaction.{Transaction, transaction_text};
ghost use Rattle.def_psbt.specs.TransactionReading.{transaction_of as the_transaction_of};
ghost use Rattle.ms_psbt.specs.Seen.{ReadsOr};
ghost use Rattle.ms_psbt.specs.Scaffolding.Kept.{bytes_of};
ghost use Rattle.ms_psbt.specs.Scaffolding.Maps.{Placed, InputsAt, OutputsAt};
ghost use Rattle.ms_psbt.specs.Scaffolding.Outlines.{IsOutline};

use crate::listed::MapKind;
use crate::locks::unserved;
use crate::map::Pairs;
use crate::maps::{map_end, maps_end};
use crate::outline::{GLOBAL_PLACE, Outline, outline_at, version_in};
use crate::stop::ReadStop;
use crate::transaction::repeated_outpoint;
use crate::written::written_transaction;
use def_psbt::{PsbtFault, Refusal};
use std::alloc::{AllocError, Global};
use std::marker::Model;

/// The bytes of a transaction.
#[derive(Debug, Drop)]
pub enum TransactionBytes<'a> {
    /// Those in the global map of version 0.
    Given(&'a [u8]),
    /// Those that were written from the fields of version 2.
    Written(Vec<u8>),
}

impl<'a> TransactionBytes<'a> {
    /// The bytes.
    fn as_slice(&self) -> &[u8]
        ensures { result.now ≡ bytes_of self.now }
    {
        match self {
            TransactionBytes::Given(bytes) => bytes,
            TransactionBytes::Written(bytes) => bytes.as_slice(),
        }
    }
}

/// A PSBT that was read. It keeps the bytes, and copies none of them but those of the transaction of version 2. Contracts see
/// what the PSBT holds.
#[derive(Debug, Drop)]
pub struct Psbt<'a> {
    bytes: &'a [u8],
    transaction: TransactionBytes<'a>,
    /// The places of the maps of inputs, and the place behind them.
    places: Vec<u32>,
}

impl<'a> Model for Psbt<'a> {
    ghost use Rattle.def_psbt.specs.Map.{Psbt as Held};
    ghost use Rattle.ms_psbt.specs.Scaffolding.Kept.{bytes_of, IsRead};
    ghost use Rattle.ms_psbt.specs.Whole.{psbt_seen};

    ghost Value = { Held };

    ghost view = { λ p. psbt_seen p.bytes.now };

    ghost invariant = { λ p. IsRead p.bytes.now (bytes_of p.transaction) p.places.items };
}

impl<'a> Psbt<'a> {
    /// All its bytes. Takes no memory.
    pub fn bytes(&self) -> &'a [u8]
        ensures { result.now ≡ psbt_text self.now.global self.now.inputs self.now.outputs }
    {
        self.bytes
    }

    /// The bytes of its transaction, which has no witnesses; its inputs have empty scriptSigs, and no outpoint stands twice.
    /// Takes no memory.
    pub fn transaction_bytes(&self) -> &[u8]
        ensures transaction { the_transaction_of result.now ≡ Some self.now.transaction }
        ensures unsigned { IsTrue (is_unsigned (Some self.now.transaction)) }
    {
        self.transaction.as_slice()
    }

    /// How many inputs there are, and so many maps of inputs. Takes no memory.
    pub fn input_count(&self) -> usize
        ensures maps { result ≡ length self.now.inputs }
        ensures inputs { result ≡ length self.now.transaction.inputs }
    {
        self.places.len() - 1
    }

    /// The map of the input with this number, from 0. It demands that there is such an input. Takes no memory, and as long for
    /// each input.
    pub fn input_map(&self, number: usize) -> Pairs<'a>
        requires { number < length self.now.inputs }
        ensures map { slice_get self.now.inputs number ≡ Some result }
        ensures sound { IsSoundMap (input_form (version_of self.now.global)) [] result }
    {
        let from = place_at(&self.places, number);
        let to = place_at(&self.places, number + 1);
        Pairs::new(part(self.bytes, from, to))
    }

    /// The bytes before the map of the first input: the magic and the global map. Takes no memory.
    pub fn before_inputs(&self) -> &'a [u8]
        ensures { result.now ≡ the_magic ++ map_text self.now.global }
    {
        part(self.bytes, 0, place_at(&self.places, 0))
    }

    /// The bytes behind the map of the last input: the maps of outputs. Takes no memory.
    pub fn after_inputs(&self) -> &'a [u8]
        ensures { result.now ≡ flat_map map_text self.now.outputs }
    {
        let last = place_at(&self.places, self.places.len() - 1);
        part(self.bytes, last, self.bytes.len())
    }
}

/// The place with this number.
fn place_at(places: &[u32], number: usize) -> usize
    requires { number < length places.now }
    ensures { result ≡ slice_index places.now number }
{
    places[number] as usize
}

/// The bytes from one place to another.
fn part(bytes: &[u8], from: usize, to: usize) -> &[u8]
    requires up { from ≤ to }
    requires inside { to ≤ length bytes.now }
    ensures { result.now ≡ take (to - from) (drop from bytes.now) }
{
    &bytes[from..to]
}

/// The place with this number; 0 where there is none.
fn nth_place(places: &[u32], number: usize) -> u32
    ensures { result ≡ slice_index places.now number }
{
    match places.get(number) {
        Some(place) => *place,
        None => 0,
    }
}

/// The place with this number, where there is a number.
fn numbered(places: &[u32], number: Option<usize>) -> Option<u32>
    ensures { result ≡ option_map (slice_index places.now) number }
{
    match number {
        Some(number) => Some(nth_place(places, number)),
        None => None,
    }
}

/// What is wrong with the inputs together: at the one place the first one begins whose outpoint is that of one before it, at the
/// other the first one up to which no lock time serves all.
fn refusal_at(repeated: Option<u32>, lacking: Option<u32>) -> Option<Refusal>
    ensures { result ≡ or_else (at_place PsbtFault.RepeatedOutpoint repeated) (at_place PsbtFault.LockTime lacking) }
{
    match repeated {
        Some(place) => Some(Refusal::At(PsbtFault::RepeatedOutpoint, place as usize)),
        None => match lacking {
            Some(place) => Some(Refusal::At(PsbtFault::LockTime, place as usize)),
            None => None,
        },
    }
}

/// What is wrong with the inputs of version 2 together, whose maps begin at these places: `transaction` are the bytes of the
/// transaction, and it is told whether one of the inputs has a time or a height.
fn unjoined(
    alloc: Global,
    psbt: &[u8],
    transaction: &[u8],
    is_locked: bool,
    places: &[u32],
) -> Result<Option<Refusal>, AllocError>
    requires locked { (at : ℕ) (inputs : List Map) → InputsAt psbt.now at places.now inputs → is_locked ≡ list_any has_lock inputs }
    requires room { length psbt.now < 2 ^ 32 }
    ensures { (at : ℕ) (inputs : List Map) (made : Transaction) → InputsAt psbt.now at places.now inputs → the_transaction_of transaction.now ≡ Some made
        → made.inputs ≡ map input_of inputs → IfOk result (λ refusal. refusal ≡ the_unjoined Two at inputs) }
{
    let number = repeated_outpoint(alloc, transaction)?;
    let repeated = numbered(places, number);
    let lacking = unserved(psbt, is_locked, places);
    Ok(refusal_at(repeated, lacking))
}

/// The bytes of the transaction of version 2, where nothing is wrong with the inputs together.
fn joined_transaction(
    alloc: Global,
    psbt: &[u8],
    inputs: &[u32],
    outputs: &[u32],
) -> Result<Vec<u8>, ReadStop>
    requires room { length psbt.now < 2 ^ 32 }
    ensures { (global : Map × ℕ) (at middle : ℕ) (input_maps output_maps : List Map) → map_at global_form psbt.now 5 ≡ Ok global → has_types (0x02 ∷ []) global.0 ≡ true
        → InputsAt psbt.now at inputs.now input_maps → OutputsAt psbt.now middle outputs.now output_maps
        → the_transaction_of (transaction_text (transaction_of_fields global.0 input_maps output_maps)) ≡ Some (transaction_of_fields global.0 input_maps output_maps)
        → ReadsOr (λ out. out.items) result (unless (the_unjoined Two at input_maps) (Ok (transaction_text (transaction_of_fields global.0 input_maps output_maps)))) }
{
    let written = written_transaction(alloc, psbt, inputs, outputs)?;
    let wrong = unjoined(
        alloc,
        psbt,
        written.bytes.as_slice(),
        written.is_locked,
        inputs,
    )?;
    match wrong {
        Some(refusal) => Err(ReadStop::Refused(refusal)),
        None => Ok(written.bytes),
    }
}

/// The bytes of the transaction, where nothing is wrong with the inputs together.
fn transaction_of<'a>(
    alloc: Global,
    psbt: &[u8],
    outline: Outline<'a>,
    inputs: &[u32],
    outputs: &[u32],
) -> Result<TransactionBytes<'a>, ReadStop>
    requires room { length psbt.now < 2 ^ 32 }
    ensures { (global : Map × ℕ) (said : TheOutline) (input_number output_number middle : ℕ) (input_maps output_maps : List Map) → map_at global_form psbt.now 5 ≡ Ok global
        → outline_in (version_of global.0) global.0 ≡ Some said → IsOutline outline.entry input_number output_number said
        → Placed (input_rules (version_of global.0)) psbt.now global.1 inputs.now input_maps → length input_maps ≡ input_count said
        → Placed (output_rules (version_of global.0)) psbt.now middle outputs.now output_maps → length output_maps ≡ output_count said
        → ReadsOr (λ made. the_transaction_of (bytes_of made)) result
        (unless (the_unjoined (version_of global.0) global.1 input_maps) (Ok (Some (transaction_by said global.0 input_maps output_maps)))) }
{
    match outline {
        Outline::Given(bytes) => Ok(TransactionBytes::Given(bytes)),
        Outline::Counted => {
            let bytes = joined_transaction(alloc, psbt, inputs, outputs)?;
            Ok(TransactionBytes::Written(bytes))
        }
    }
}

/// Reads a PSBT from its bytes (BIP 174, version 0; BIP 370, version 2). It demands that they begin with the magic, and that
/// there are at most 16,777,216 of them, as in what `psbt_bytes` gives.
///
/// `Refused` comes with the first fault and its place, in the order of the bytes; only `Memory` may come in place of any
/// answer. No byte of the PSBT is copied in version 0, and in version 2 once what its transaction consists of.
pub fn read_psbt(alloc: Global, bytes: &[u8]) -> Result<Psbt<'_>, ReadStop>
    requires magic { IsTrue (has_magic bytes.now) }
    requires short { length bytes.now ≤ MAX_SOURCE_SIZE }
    ensures reading { ReadsOr (λ psbt. psbt) result (the_read_psbt bytes.now) }
    ensures sound { IfOk result (λ psbt. IsSound psbt) }
    ensures text { IfOk result (λ psbt. bytes.now ≡ psbt_text psbt.global psbt.inputs psbt.outputs) }
{
    let after = map_end(
        alloc,
        MapKind::Global,
        bytes,
        GLOBAL_PLACE,
        &mut Vec::new(alloc),
    )?;
    let version = version_in(bytes);
    let outlined = outline_at(version, bytes, after)?;
    let mut places = Vec::new(alloc);
    let middle = maps_end(
        alloc,
        MapKind::Input(version),
        bytes,
        outlined.inputs,
        after,
        &mut places,
    )?;
    let mut others = Vec::new(alloc);
    let last = maps_end(
        alloc,
        MapKind::Output(version),
        bytes,
        outlined.outputs,
        middle,
        &mut others,
    )?;
    if last < bytes.len() {
        return Err(ReadStop::Refused(Refusal::At(PsbtFault::Trailing, last)));
    }
    let transaction = transaction_of(
        alloc,
        bytes,
        outlined.outline,
        places.as_slice(),
        others.as_slice(),
    )?;
    places.push(middle as u32)?;
    Ok(Psbt {
        bytes,
        transaction,
        places,
    })
}
