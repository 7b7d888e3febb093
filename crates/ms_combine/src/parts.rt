//! The PSBTs of the lines, which all have one version and one transaction.

ghost use Rattle.std.specs.Prelude.{◌≡◌, ◌+◌, ◌≤◌, ◌∷◌, ◌++◌, [], List, length, Some, IfOk, OnOk, IsTrue};
ghost use Rattle.base64.specs.Engines.{standard};
ghost use Rattle.base64.specs.GeneralPurpose.{decode_of};
ghost use Rattle.def_psbt.specs.Fields.{version_number};
ghost use Rattle.def_psbt.specs.Laws.{IsSoundMap, IsSound};
ghost use Rattle.def_psbt.specs.Listed.{global_form};
ghost use Rattle.def_psbt.specs.Map.{Psbt as ThePsbt, psbt_text};
ghost use Rattle.def_psbt.specs.Reading.{read_psbt as the_read_psbt};
ghost use Rattle.def_psbt.specs.Source.{MAX_SOURCE_SIZE as the_max_source_size, has_magic as the_has_magic, decoded};
ghost use Rattle.def_psbt.specs.TransactionReading.{transaction_of};
ghost use Rattle.def_combine.specs.Combine.{line_parts, line_psbt as the_line_psbt, other_psbt, other_fault as the_other_fault};
ghost use Rattle.ms_combine.specs.Outcome.{CombinesOr};
ghost use Rattle.ms_combine.specs.Scaffolding.Kept.{AreKept, OfLine, texts_size, parts_with};
ghost use Rattle.ms_combine.specs.Scaffolding.Left.{HasRoom, texts_left, text_of};

use crate::lines::{Line, LinesLeft, next_text};
use crate::stop::CombineStop;
use crate::transactions::are_same_transaction;
use crate::versions::version_in;
use base64::DecodeAllocError;
use base64::engine::general_purpose::STANDARD;
use def_combine::{CombineRefusal, LineFault};
use def_psbt::Refusal;
use ms_psbt::{Psbt, ReadStop, has_magic, read_psbt};
use std::alloc::Global;

/// The place of the global map, behind the magic.
const GLOBAL_PLACE: usize = 5;

/// PSBTs that go together.
#[derive(Debug, Drop)]
pub struct Parts {
    /// Their bytes, one after the other.
    pub bytes: Vec<u8>,
    /// The places of their global maps.
    pub places: Vec<usize>,
    /// The place behind the first one.
    pub first_end: usize,
    /// The version that each has.
    pub version: u32,
    /// The bytes of the transaction that each has.
    pub transaction: Vec<u8>,
}

/// The PSBTs of the lines that are left; the first line that is refused stops it. There is room for so many bytes from the start.
pub fn read_parts(
    alloc: Global,
    room: usize,
    left: &mut LinesLeft<'_>,
) -> Result<Parts, CombineStop>
    requires room { HasRoom left.old }
    requires short { texts_size (texts_left left.old) ≤ the_max_source_size }
    ensures parts { CombinesOr (λ kept parts. AreKept kept parts.first parts.others) result (line_parts (texts_left left.old)) }
    ensures short { IfOk result (λ kept. length kept.bytes.items ≤ the_max_source_size) }
{
    let line = match next_text(alloc, left)? {
        Some(line) => line,
        None => return Err(CombineStop::Refused(CombineRefusal::NoPsbt)),
    };
    let mut parts = first_part(alloc, room, line)?;
    add_parts(alloc, &mut parts, left)?;
    Ok(parts)
}

/// Adds the PSBTs of the lines that are left behind the others.
fn add_parts(alloc: Global, parts: &mut Parts, left: &mut LinesLeft<'_>) -> Result<(), CombineStop>
    requires room { HasRoom left.old }
    requires short { length parts.old.bytes.items + texts_size (texts_left left.old) ≤ the_max_source_size }
    ensures parts { (first : ThePsbt) (others : List ThePsbt) → AreKept parts.old first others
        → CombinesOr (λ _ all. AreKept parts.new all.first all.others) result (parts_with first others (texts_left left.old)) }
    ensures short { OnOk result (length parts.new.bytes.items ≤ the_max_source_size) }
{
    'lines: while let Some(line) = next_text(alloc, left)? {
        add_part(alloc, parts, line)?;
    }
    Ok(())
}

/// The PSBT of the first line.
fn first_part(alloc: Global, room: usize, line: Line) -> Result<Parts, CombineStop>
    requires { length line.text.items ≤ the_max_source_size }
    ensures part { CombinesOr (λ kept first. AreKept kept first []) result (the_line_psbt (text_of line)) }
    ensures short { IfOk result (λ kept. length kept.bytes.items ≤ length line.text.items) }
{
    let decoded = decoded_text(alloc, line.number, line.text.as_slice())?;
    let psbt = psbt_of(alloc, line.number, decoded.as_slice())?;
    let version = version_in(psbt.before_inputs());
    let transaction = Vec::from_slice(alloc, psbt.transaction_bytes())?;
    let mut bytes = Vec::with_capacity(alloc, room)?;
    bytes.extend_from_slice(decoded.as_slice())?;
    let mut places = Vec::new(alloc);
    places.push(GLOBAL_PLACE)?;
    let first_end = bytes.len();
    Ok(Parts {
        bytes,
        places,
        first_end,
        version,
        transaction,
    })
}

/// Adds the PSBT of a line behind the others.
fn add_part(alloc: Global, parts: &mut Parts, line: Line) -> Result<(), CombineStop>
    requires text { length line.text.items ≤ the_max_source_size }
    requires short { length parts.old.bytes.items ≤ the_max_source_size }
    ensures part { (first : ThePsbt) (others : List ThePsbt) → AreKept parts.old first others
        → CombinesOr (λ _ other. AreKept parts.new first (others ++ other ∷ [])) result (other_psbt first (text_of line)) }
    ensures short { OnOk result (length parts.new.bytes.items ≤ length parts.old.bytes.items + length line.text.items) }
{
    let decoded = decoded_text(alloc, line.number, line.text.as_slice())?;
    let psbt = psbt_of(alloc, line.number, decoded.as_slice())?;
    if let Some(fault) = other_fault(parts.version, parts.transaction.as_slice(), &psbt) {
        return Err(CombineStop::Refused(CombineRefusal::Line(line.number, fault)));
    }
    let from = length_of(parts.bytes.as_slice());
    parts.bytes.extend_from_slice(decoded.as_slice())?;
    parts.places.push(from + GLOBAL_PLACE)?;
    Ok(())
}

/// How many bytes there are.
fn length_of(bytes: &[u8]) -> usize
    ensures { result ≡ length bytes.now }
{
    bytes.len()
}

/// What the base64 of the line with this number gives, which begins with the magic.
fn decoded_text(alloc: Global, number: usize, text: &[u8]) -> Result<Vec<u8>, CombineStop>
    ensures reading { OfLine (λ bytes. bytes.items) number result (decoded (decode_of standard text.now)) }
    ensures magic { IfOk result (λ bytes. IsTrue (the_has_magic bytes.items)) }
    ensures short { IfOk result (λ bytes. length bytes.items ≤ length text.now) }
{
    match STANDARD.decode(alloc, text) {
        Ok(bytes) => {
            if has_magic(bytes.as_slice()) {
                Ok(bytes)
            } else {
                Err(refused(number, Refusal::Magic))
            }
        }
        Err(DecodeAllocError::OutOfMemory) => Err(CombineStop::Memory),
        Err(DecodeAllocError::DecodeError(_)) => Err(refused(number, Refusal::NotBase64)),
    }
}

/// The PSBT of the line with this number, which bytes with the magic give.
fn psbt_of(alloc: Global, number: usize, bytes: &[u8]) -> Result<Psbt<'_>, CombineStop>
    requires magic { IsTrue (the_has_magic bytes.now) }
    requires short { length bytes.now ≤ the_max_source_size }
    ensures reading { OfLine (λ psbt. psbt) number result (the_read_psbt bytes.now) }
    ensures sound { IfOk result (λ psbt. IsSound psbt) }
    ensures text { IfOk result (λ psbt. bytes.now ≡ psbt_text psbt.global psbt.inputs psbt.outputs) }
{
    match read_psbt(alloc, bytes) {
        Ok(psbt) => Ok(psbt),
        Err(ReadStop::Refused(refusal)) => Err(refused(number, refusal)),
        Err(ReadStop::Memory) => Err(CombineStop::Memory),
    }
}

/// That the PSBT of the line with this number is refused.
fn refused(number: usize, refusal: Refusal) -> CombineStop
    ensures { result ≡ CombineStop.Refused (CombineRefusal.Line number (LineFault.Psbt refusal)) }
{
    CombineStop::Refused(CombineRefusal::Line(number, LineFault::Psbt(refusal)))
}

/// Why a PSBT doesn't go together with those of a version and a transaction.
fn other_fault(version: u32, transaction: &[u8], other: &Psbt<'_>) -> Option<LineFault>
    requires { IsSoundMap global_form [] other.now.global }
    ensures { (first : ThePsbt) → version ≡ version_number first.global → transaction_of transaction.now ≡ Some first.transaction → result ≡ the_other_fault first other.now }
{
    if version_in(other.before_inputs()) != version {
        Some(LineFault::OtherVersion)
    } else if !are_same_transaction(other.transaction_bytes(), transaction) {
        Some(LineFault::OtherTransaction)
    } else {
        None
    }
}
