//! Reading a Script back as a text, by keys that lie one after the other.
ghost use Rattle.std.specs.Prelude.{◌≡◌, ◌≢◌, ◌⊎◌, true, false, None, Ok, is_some, IfOk, IfSome};
ghost use Rattle.def_script.specs.Key.{is_key};
ghost use Rattle.def_text.specs.Print.{printed};
ghost use Rattle.def_tree.specs.Tree.{Tree as TheTree};
ghost use Rattle.def_decode.specs.Decoded.{IsReading, IsDecoded};
ghost use Rattle.ms_calls.specs.Readings.{are_keys, keys_in, TellsDecoded, HasNoReading};

use crate::answering::NO_MEMORY;
use crate::copying::write_over;
use crate::stopping::DONE;
use bumpalo::Bump;
use ms_print::copy_out;
use ms_tree::Key;
use std::alloc::{AllocError, Global};

/// The code where the keys are none, as the program's own for words of no form.
const USAGE: u32 = 1;

/// The code where a Script can't be read, as the program's own.
const NO_READING: u32 = 10;

/// How many bytes a key has.
const KEY_SIZE: usize = 33;

/// The text, valid by the limits of policy, that a Script is read back as. The keys are those that its hashes of keys may be of: of
/// 33 bytes each, one after the other.
///
/// The text's beginning is written over the buffer's, as far as there is room, and `needed` is how many bytes it has. The answer
/// is 0; 1 where the keys aren't compressed keys; 7 where memory was wanting; and 10 where no valid miniscript, whose `pk_h` keys
/// are all listed, has these bytes as its Script. After all but 0 the buffer and `needed` are as they were.
pub fn decode(alloc: Global, script: &[u8], keys: &[u8], text: &mut [u8], needed: &mut usize) -> u32
    ensures code { (result ≡ 0) ⊎ ((result ≡ 1) ⊎ ((result ≡ 7) ⊎ (result ≡ 10))) }
    ensures decoded { result ≡ 0 → TellsDecoded (keys_in keys.now) script.now text.old text.new needed.new }
    ensures none { result ≡ 10 → HasNoReading (keys_in keys.now) script.now }
    ensures keys { (result ≡ 0) ⊎ (result ≡ 10) → are_keys keys.now ≡ true }
    ensures usage { result ≡ 1 → are_keys keys.now ≡ false }
    ensures kept { result ≢ 0 → text.new ≡ text.old }
    ensures kept_needed { result ≢ 0 → needed.new ≡ needed.old }
{
    let keys = match read_keys(alloc, keys) {
        Ok(Some(keys)) => keys,
        Ok(None) => return USAGE,
        Err(AllocError) => return NO_MEMORY,
    };
    match decoded(alloc, script, &keys) {
        Ok(Some(found)) => {
            *needed = found.len();
            let _count = write_over(&found, text);
            DONE
        }
        Ok(None) => NO_READING,
        Err(AllocError) => NO_MEMORY,
    }
}

/// The text that a Script is read back as, or none exactly where it can't be read. Refuses for want of memory alone.
fn decoded(alloc: Global, script: &[u8], keys: &[Key]) -> Result<Option<Vec<u8>>, AllocError>
    ensures some { IfOk result (λ o. IfSome o (λ text. (tree : TheTree) × IsDecoded keys.now script.now tree × (text.items ≡ printed tree))) }
    ensures none { result ≡ Ok None → (tree : TheTree) → IsReading keys.now script.now tree → ⊥ }
{
    let arena = Bump::new(alloc);
    match ms_decode::decode(alloc, &arena, script, keys) {
        Ok(Some(valid)) => match copy_out(alloc, &valid.tree) {
            Ok(text) => Ok(Some(text)),
            Err(AllocError) => Err(AllocError),
        },
        Ok(None) => Ok(None),
        Err(AllocError) => Err(AllocError),
    }
}

/// The keys, or none exactly where the bytes aren't keys one after the other. Refuses for want of memory alone.
fn read_keys(alloc: Global, bytes: &[u8]) -> Result<Option<Vec<Key>>, AllocError>
    ensures some { IfOk result (λ o. IfSome o (λ keys. (are_keys bytes.now ≡ true) × (keys.items ≡ keys_in bytes.now))) }
    ensures none { result ≡ Ok None → are_keys bytes.now ≡ false }
{
    if bytes.len() % KEY_SIZE != 0 {
        return Ok(None);
    }
    let mut keys = Vec::new(alloc);
    let mut rest = bytes;
    for _ in 0..bytes.len() / KEY_SIZE {
        let (first, others) = rest.split_at(KEY_SIZE);
        let Some(key) = key_in(first) else {
            return Ok(None);
        };
        keys.push(key)?;
        rest = others;
    }
    Ok(Some(keys))
}

/// The key that these bytes are, or none exactly where they haven't its form.
fn key_in(bytes: &[u8]) -> Option<Key>
    ensures form { is_some result ≡ is_key bytes.now }
    ensures value { IfSome result (λ key. key ≡ bytes.now) }
{
    Key::from_bytes(bytes)
}
