//! Writing a witness as bytes.

ghost use Rattle.std.specs.Prelude.{◌≡◌, ◌≤◌, ◌++◌, [], length, IfOk, OnOk};
ghost use Rattle.def_script.specs.Sizes.{size_bytes};
ghost use Rattle.def_script.specs.Witness.{sized, items_text, witness_text};
ghost use Rattle.ms_witness.specs.Reading.{FitsWitness};

use ms_script::{Blob, Stack, compact_size};
use std::alloc::{AllocError, Global};

/// The witness of a P2WSH input (BIP 141): the number of items, and then each item of the stack, bottom first, after
/// its length, with the Script as the last item.
///
/// It demands that the stack has at most 9,999 items, and that each of them and the Script have at most 10,000 bytes.
/// `AllocError` comes only where memory is wanting.
pub fn witness_bytes(alloc: Global, stack: &Stack, script: &[u8]) -> Result<Blob, AllocError>
    requires { FitsWitness stack.now script.now }
    ensures { IfOk result (λ bytes. bytes ≡ witness_text stack.now script.now) }
{
    let mut bytes = Vec::with_capacity(alloc, room(stack, script))?;
    push_size(&mut bytes, stack.len() + 1)?;
    for i in 0..stack.len() {
        push_item(&mut bytes, stack.item(i))?;
    }
    push_item(&mut bytes, script)?;
    Ok(Blob::from_vec(bytes))
}

/// The witness of a P2WPKH input (BIP 141): the number of items, and then each item of the stack, bottom first, after its length.
///
/// It demands that the stack has at most 9,999 items, and that each of them has at most 10,000 bytes. `AllocError` comes only where
/// memory is wanting.
pub fn stack_bytes(alloc: Global, stack: &Stack) -> Result<Blob, AllocError>
    requires { FitsWitness stack.now [] }
    ensures { IfOk result (λ bytes. bytes ≡ items_text stack.now) }
{
    let mut bytes = Vec::with_capacity(alloc, room(stack, &[]))?;
    push_size(&mut bytes, stack.len())?;
    for number in 0..stack.len() {
        push_item(&mut bytes, stack.item(number))?;
    }
    Ok(Blob::from_vec(bytes))
}

/// The most bytes of a size of a witness here.
const SIZE_WIDTH: usize = 3;

/// Room for the bytes of a witness.
fn room(stack: &Stack, script: &[u8]) -> usize
    requires { FitsWitness stack.now script.now }
    ensures { length (witness_text stack.now script.now) ≤ result }
{
    let mut room = 2 * SIZE_WIDTH + script.len();
    for i in 0..stack.len() {
        room += SIZE_WIDTH + stack.item(i).len();
    }
    room
}

/// Adds an item after its length.
fn push_item(bytes: &mut Vec<u8>, item: &[u8]) -> Result<(), AllocError>
    ensures { OnOk result (bytes.new.items ≡ bytes.old.items ++ sized item.now) }
{
    push_size(bytes, item.len())?;
    bytes.extend_from_slice(item)
}

/// Adds the shortest spelling of a size. Most are a byte, which is added without a call.
#[tactic(auto, unfolding(def_script::specs::Sizes::size_bytes))]
fn push_size(bytes: &mut Vec<u8>, size: usize) -> Result<(), AllocError>
    ensures { OnOk result (bytes.new.items ≡ bytes.old.items ++ size_bytes size) }
{
    if size < 0xfd {
        bytes.push(size as u8)?;
        return Ok(());
    }
    bytes.extend_from_slice(compact_size(size as u64).as_slice())
}
