//! The members of a file, but for their hexadecimal digits.

ghost use Rattle.std.specs.Prelude.{◌≡◌, ◌⊎◌, ◌^◌, ◌<◌, length, map, None, Some, option_map, IfOk, IfErr, MatchResult};
ghost use Rattle.std.specs.List.{list_all};
ghost use Rattle.serde_json.specs.Find.{get};
ghost use Rattle.serde_json.specs.View.{view};
ghost use Rattle.def_files.specs.Json.{reading, member_name as the_member_name, find_member, number_of as the_number_of, number_or as the_number_or, elements_or_empty, is_list_of, text_at as the_text_at};
ghost use Rattle.def_files.specs.Parts.{locks, format as the_format, list as the_list, elements, is_pair as the_is_pair, is_text as the_is_text};
ghost use Rattle.def_files.specs.Refusals.{unless, no_format, no_list_of};
ghost use Rattle.ms_assets.specs.Parts.{first, lock_refusals, Reads, ReadsOr, ReadsOrMemory};

use def_files::{AssetFault, Format, Member};
use ms_oracle::Locks;
use serde_json::Value;
use std::alloc::Global;

/// The value of a file's bytes. `not_json` is the fault of bytes that have none, and `memory` that of want of memory.
pub fn read_json<E: Copy>(alloc: Global, bytes: &[u8], not_json: E, memory: E) -> Result<Value, E>
    ensures { MatchResult result (λ file. reading bytes.now ≡ Some (view file)) (λ why. (why ≡ memory) ⊎ ((why ≡ not_json) × (reading bytes.now ≡ None))) }
{
    match Value::from_slice(alloc, bytes) {
        Ok(file) => Ok(file),
        Err(e) if e.is_memory() => Err(memory),
        Err(_) => Err(not_json),
    }
}

/// The name of a member in a file, as reports print it too. The file as a whole is `file`. Takes no memory.
pub fn member_name(member: Member) -> &'static str
    ensures { result.now ≡ the_member_name member }
{
    match member {
        Member::Whole => "file",
        Member::Version => "version",
        Member::Sequence => "sequence",
        Member::Locktime => "locktime",
        Member::Signatures => "signatures",
        Member::Preimages => "preimages",
        Member::Script => "script",
        Member::Witness => "witness",
        Member::Format => "format",
    }
}

/// A member of a file, where it is there.
fn find_member(file: &Value, member: Member) -> Option<&Value>
    ensures { option_map (λ value. view value.now) result ≡ find_member member (view file.now) }
{
    file.get(member_name(member))
}

/// The whole number from 0 to 2^32 - 1 that a value is, written with no fraction, no exponent and no minus sign. Takes no
/// memory.
pub fn number_of(value: &Value) -> Option<u32>
    ensures { result ≡ the_number_of (view value.now) }
{
    let number = value.as_u64()?;
    if number > 0xffff_ffff {
        return None;
    }
    Some(number as u32)
}

/// The number that a member is, or the one that stands for a missing one.
fn number_or(file: &Value, member: Member, default: u32) -> Option<u32>
    ensures { result ≡ the_number_or default (find_member member (view file.now)) }
{
    match find_member(file, member) {
        None => Some(default),
        Some(value) => number_of(value),
    }
}

/// The values of the locks: version 2, sequence number 4294967294 and locktime 0 where they are missing. Each of the three
/// has a fault of its own, for a member that is no whole number below 2^32.
pub fn read_locks<E: Copy>(
    file: &Value,
    no_version: E,
    no_sequence: E,
    no_locktime: E,
) -> Result<Locks, E>
    ensures { Reads (first (lock_refusals (view file.now) no_version no_sequence no_locktime)) (λ locks. locks) (locks (view file.now)) result }
{
    let Some(version) = number_or(file, Member::Version, 2) else {
        return Err(no_version);
    };
    let Some(sequence) = number_or(file, Member::Sequence, 4_294_967_294) else {
        return Err(no_sequence);
    };
    let Some(locktime) = number_or(file, Member::Locktime, 0) else {
        return Err(no_locktime);
    };
    Ok(Locks {
        version,
        sequence,
        locktime,
    })
}

/// The format of an asset file, which is 1 where it is missing.
pub fn read_format(file: &Value) -> Result<Format, AssetFault>
    ensures { Reads (no_format (view file.now)) (λ format. Some format) (the_format (view file.now)) result }
{
    match number_or(file, Member::Format, 1) {
        Some(1) => Ok(Format::One),
        Some(2) => Ok(Format::Two),
        _ => Err(AssetFault::Number(Member::Format)),
    }
}

/// The elements of a member, none of a missing one, or `None` where it is no list.
fn list(file: &Value, member: Member) -> Option<&[Value]>
    ensures { option_map (λ elements. map view elements.now) result ≡ the_list member (view file.now) }
{
    list_at(file, member_name(member))
}

/// The elements of the member of this name, none of a missing one, or `None` where it is no list. Takes no memory.
pub fn list_at<'a>(file: &'a Value, name: &str) -> Option<&'a [Value]>
    ensures { option_map (λ elements. map view elements.now) result ≡ elements_or_empty (get name.now (view file.now)) }
{
    match file.get(name) {
        None => Some(&[]),
        Some(value) => {
            let elements = value.as_array()?;
            Some(elements.as_slice())
        }
    }
}

/// The text of an object's member. Takes no memory.
pub fn text_at<'a>(value: &'a Value, name: &str) -> Option<&'a str>
    ensures { option_map (λ text. text.now) result ≡ the_text_at name.now (view value.now) }
{
    value.get(name)?.as_str()
}

/// Whether an element is an object with the texts `key` and `sig`.
fn is_pair(element: &Value) -> bool
    ensures { result ≡ the_is_pair (view element.now) }
{
    text_at(element, "key").is_some() && text_at(element, "sig").is_some()
}

fn are_pairs(elements: &[Value]) -> bool
    ensures { result ≡ list_all the_is_pair (map view elements.now) }
{
    for element in elements {
        if !is_pair(element) {
            return false;
        }
    }
    true
}

fn are_texts(elements: &[Value]) -> bool
    ensures { result ≡ list_all the_is_text (map view elements.now) }
{
    for element in elements {
        if !element.is_string() {
            return false;
        }
    }
    true
}

/// The elements of the signatures, each an object with the texts `key` and `sig`.
pub fn pair_list(file: &Value) -> Result<&[Value], AssetFault>
    ensures elements { ReadsOrMemory (no_list_of the_is_pair Member.Signatures (view file.now)) (λ list. map view list.now) (elements Member.Signatures (view file.now)) result }
    ensures few { IfOk result (λ list. length list.now < 2 ^ 32) }
{
    match list(file, Member::Signatures) {
        Some(elements) if are_pairs(elements) => few(elements, AssetFault::Memory),
        _ => Err(AssetFault::Shape(Member::Signatures)),
    }
}

/// The elements of a member that is a list of texts. `shape` is the fault of a member that is none, and `memory` that of
/// want of memory.
pub fn text_list<E: Copy>(file: &Value, member: Member, shape: E, memory: E) -> Result<&[Value], E>
    ensures elements { ReadsOr memory (unless (is_list_of the_is_text (the_list member (view file.now))) shape) (λ list. map view list.now) (elements member (view file.now)) result }
    ensures few { IfOk result (λ list. length list.now < 2 ^ 32) }
{
    match list(file, member) {
        Some(elements) if are_texts(elements) => few(elements, memory),
        _ => Err(shape),
    }
}

/// The elements, where their places fit 32 bits. More of them would be want of memory, which is this fault: no file of 2^31
/// bytes has so many.
pub fn few<E: Copy>(elements: &[Value], memory: E) -> Result<&[Value], E>
    ensures same { IfOk result (λ list. list ≡ elements.entry) }
    ensures few { IfOk result (λ list. length list.now < 2 ^ 32) }
    ensures memory { IfErr result (λ why. why ≡ memory) }
{
    if elements.len() > 0xffff_ffff {
        return Err(memory);
    }
    Ok(elements)
}
