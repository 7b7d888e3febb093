//! The texts of a file that spell bytes by hexadecimal digits.

ghost use Rattle.std.specs.Prelude.{◌≡◌, ◌^◌, ◌<◌, [], ◌∷◌, ◌++◌, length, map, Some, option_map, IsTrue, IfOk};
ghost use Rattle.serde_json.specs.View.{view};
ghost use Rattle.def_files.specs.Json.{spelled as the_spelled, text_at as the_text_at};
ghost use Rattle.def_files.specs.Parts.{is_hex, is_hex_pair, key_of, sig_of, bytes_of};
ghost use Rattle.ms_assets.specs.Parts.{first_refused, ReadsOr, ReadsOrMemory};

use crate::list_fault::ListFault;
use crate::members::text_at;
use def_files::{AssetFault, Member};
use hex::FromHexError;
use ms_bytes::{Blob, Stack};
use ms_oracle::{Pairs, SigPair};
use serde_json::Value;
use std::alloc::{AllocError, Global};

/// The bytes that a text spells by two hexadecimal digits each, in either case, or `None` where it spells none. Refuses for
/// want of memory alone.
pub fn spelled(alloc: Global, text: &str) -> Result<Option<Vec<u8>>, AllocError>
    ensures { IfOk result (λ made. option_map (λ bytes. bytes.items) made ≡ the_spelled (Some text.now)) }
{
    match hex::decode(alloc, text) {
        Ok(bytes) => Ok(Some(bytes)),
        Err(FromHexError::OutOfMemory) => Err(AllocError),
        Err(_) => Ok(None),
    }
}

/// The bytes that an object's member spells, or `None` where it spells none. Refuses for want of memory alone.
pub fn spelled_at(alloc: Global, value: &Value, name: &str) -> Result<Option<Vec<u8>>, AllocError>
    ensures { IfOk result (λ made. option_map (λ bytes. bytes.items) made ≡ the_spelled (the_text_at name.now (view value.now))) }
{
    match text_at(value, name) {
        Some(text) => spelled(alloc, text),
        None => Ok(None),
    }
}

/// Adds the key and the signature that an element spells, and answers whether it spells both.
fn push_pair(alloc: Global, pairs: &mut Pairs, element: &Value) -> Result<bool, AllocError>
    ensures spells { IfOk result (λ spells. spells ≡ is_hex_pair (view element.now)) }
    ensures pushed { IfOk result (λ spells. IsTrue spells → pairs.new ≡ pairs.old ++ (key_of (view element.now), sig_of (view element.now)) ∷ []) }
{
    let Some(key) = spelled_at(alloc, element, "key")? else {
        return Ok(false);
    };
    let Some(sig) = spelled_at(alloc, element, "sig")? else {
        return Ok(false);
    };
    pairs.push_pair(SigPair::of(Blob::from_vec(key), Blob::from_vec(sig)))?;
    Ok(true)
}

/// Adds the bytes that an element spells, and answers whether it spells any.
fn push_string(alloc: Global, strings: &mut Stack, element: &Value) -> Result<bool, AllocError>
    ensures spells { IfOk result (λ spells. spells ≡ is_hex (view element.now)) }
    ensures pushed { IfOk result (λ spells. IsTrue spells → strings.new ≡ strings.old ++ bytes_of (view element.now) ∷ []) }
{
    let Some(text) = element.as_str() else {
        return Ok(false);
    };
    let Some(bytes) = spelled(alloc, text)? else {
        return Ok(false);
    };
    strings.push_blob(Blob::from_vec(bytes))?;
    Ok(true)
}

/// The keys and signatures that the elements of a list spell.
pub fn read_pairs(alloc: Global, elements: &[Value]) -> Result<Pairs, AssetFault>
    requires { length elements.now < 2 ^ 32 }
    ensures { ReadsOrMemory (first_refused is_hex_pair (AssetFault.Hex Member.Signatures) (map view elements.now)) (λ pairs. pairs) (map (λ e. (key_of e, sig_of e)) (map view elements.now)) result }
{
    let mut pairs = Pairs::new(alloc);
    let mut place = 0;
    for element in elements {
        if !push_pair(alloc, &mut pairs, element)? {
            return Err(AssetFault::Hex(Member::Signatures, place));
        }
        place += 1;
    }
    Ok(pairs)
}

/// The byte strings that the elements of a member spell.
pub fn read_strings(alloc: Global, elements: &[Value], member: Member) -> Result<Stack, AssetFault>
    requires { length elements.now < 2 ^ 32 }
    ensures { ReadsOrMemory (first_refused is_hex (AssetFault.Hex member) (map view elements.now)) (λ strings. strings) (map bytes_of (map view elements.now)) result }
{
    match strings_of(alloc, elements) {
        Ok(strings) => Ok(strings),
        Err(ListFault::At(place)) => Err(AssetFault::Hex(member, place)),
        Err(ListFault::Memory) => Err(AssetFault::Memory),
    }
}

/// The byte strings that elements spell by hexadecimal digits, or the place of the first that spells none.
pub fn strings_of(alloc: Global, elements: &[Value]) -> Result<Stack, ListFault>
    requires { length elements.now < 2 ^ 32 }
    ensures { ReadsOr ListFault.Memory (first_refused is_hex ListFault.At (map view elements.now)) (λ strings. strings) (map bytes_of (map view elements.now)) result }
{
    let mut strings = Stack::new(alloc);
    let mut place = 0;
    for element in elements {
        if !push_string(alloc, &mut strings, element)? {
            return Err(ListFault::At(place));
        }
        place += 1;
    }
    Ok(strings)
}
