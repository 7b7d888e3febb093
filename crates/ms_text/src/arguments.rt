//! Arguments that are one word, and lists of keys.
ghost use Rattle.std.specs.Prelude.{◌≡◌, ℕ, ◌+◌, ◌<◌, ◌≤◌, true, length, take, drop, List, All, IfOk, IfSome};
ghost use Rattle.std.specs.Option.{option_map};
ghost use Rattle.def_tree.specs.Range.{IsKey, IsWritable, TEN_DIGITS};
ghost use Rattle.def_text.specs.Scaffolding.Reader.{State, leaf_of as spelled_by};
ghost use Rattle.def_text.specs.Refusal.{MOST_BYTES};
ghost use Rattle.def_text.specs.Word.{number_of, key_of};
ghost use Rattle.ms_text.specs.Scaffolding.Forms.{ReadsLeaf, ReadsKeys};
ghost use Rattle.ms_text.specs.Scaffolding.Leaves.{leaf_tree, takes_key, leaf_of_key};
ghost use Rattle.ms_text.specs.Scaffolding.Names.{leaf_of};
ghost use Rattle.ms_text.specs.Scaffolding.Place.{IsPlace, Takes, Answers, machine_from, word_read};
ghost use Rattle.ms_tree.specs.Shape.{leaf_shape};

use crate::names::LeafName;
use crate::tokens::{Mark, Separator, behind_mark, is_word_at, separator_at, word_at};
use crate::words::{hash_spelled, key_spelled, number_spelled};
use def_text::TextFault;
use ms_tree::{Key, Leaf};
use std::alloc::Global;

/// What a word spells, and the place behind it.
#[derive(Clone, Copy)]
pub struct Spelled<T> {
    /// What the word spells.
    pub value: T,
    /// The place behind the word, in bytes from the text's beginning.
    pub end: usize,
}

/// The number that has to stand here.
pub fn number_at(text: &[u8], at: usize) -> Result<Spelled<u64>, TextFault>
    requires { IsPlace text.now at }
    ensures after { IfOk result (λ r. at < r.end) }
    ensures place { IfOk result (λ r. IsPlace text.now r.end) }
    ensures writable { IfOk result (λ r. r.value < TEN_DIGITS) }
    ensures reads { (s : State) (next : ℕ → State) → Takes (word_read number_of) s next → Answers (machine_from s text.now at) result (λ r. machine_from (next r.value) text.now r.end) }
{
    let word = word_at(text, at);
    let Some(value) = number_spelled(word) else {
        return Err(TextFault::Syntax(at as u32));
    };
    Ok(Spelled {
        value,
        end: at + word.len(),
    })
}

/// How many hexadecimal digits a key has.
const KEY_DIGITS: usize = 66;

/// As many bytes as a key has digits, from a place on, or fewer where the text ends.
fn key_digits_at(text: &[u8], at: usize) -> &[u8]
    requires within { at ≤ length text.now }
    requires short { length text.now ≤ MOST_BYTES }
    ensures { result.now ≡ take KEY_DIGITS (drop at text.now) }
{
    let end = text.len().min(at + KEY_DIGITS);
    &text[at..end]
}

/// The key that has to stand here. It is read before it is known where the word ends, so that no byte is looked at twice.
pub fn key_at(text: &[u8], at: usize) -> Result<Spelled<Key>, TextFault>
    requires { IsPlace text.now at }
    ensures after { IfOk result (λ r. at < r.end) }
    ensures place { IfOk result (λ r. IsPlace text.now r.end) }
    ensures writable { IfOk result (λ r. IsKey r.value) }
    ensures reads { (s : State) (next : List ℕ → State) → Takes (word_read key_of) s next → Answers (machine_from s text.now at) result (λ r. machine_from (next r.value) text.now r.end) }
{
    let digits = key_digits_at(text, at);
    let end = at + digits.len();
    let Some(value) = key_spelled(digits) else {
        return Err(TextFault::Syntax(at as u32));
    };
    if is_word_at(text, end) {
        return Err(TextFault::Syntax(at as u32));
    }
    Ok(Spelled { value, end })
}

/// The leaf that a word spells as the argument of this fragment.
fn leaf_spelled(name: LeafName, word: &[u8]) -> Option<Leaf>
    ensures value { option_map (leaf_tree name) result ≡ spelled_by (leaf_of name) word.now }
    ensures writable { IfSome result (λ leaf. IsWritable (leaf_shape leaf)) }
{
    match name {
        LeafName::PkK | LeafName::Pk => Some(Leaf::PkK(key_spelled(word)?)),
        LeafName::PkH | LeafName::Pkh => Some(Leaf::PkH(key_spelled(word)?)),
        LeafName::Older => Some(Leaf::Older(number_spelled(word)?)),
        LeafName::After => Some(Leaf::After(number_spelled(word)?)),
        LeafName::Hash(kind) => Some(Leaf::Hash(hash_spelled(kind, word)?)),
    }
}

/// Whether the argument of a fragment is a key.
fn is_of_key(name: LeafName) -> bool
    ensures { result ≡ takes_key name }
{
    match name {
        LeafName::PkK | LeafName::PkH | LeafName::Pk | LeafName::Pkh => true,
        LeafName::Older | LeafName::After | LeafName::Hash(_) => false,
    }
}

/// The leaf of a fragment whose argument is this key.
fn key_leaf(name: LeafName, key: Key) -> Leaf
    ensures { result ≡ leaf_of_key name key }
{
    match name {
        LeafName::PkH | LeafName::Pkh => Leaf::PkH(key),
        _ => Leaf::PkK(key),
    }
}

/// The key that has to stand here as the argument of this fragment.
fn key_argument_at(text: &[u8], at: usize, name: LeafName) -> Result<Spelled<Leaf>, TextFault>
    requires place { IsPlace text.now at }
    requires name { takes_key name ≡ true }
    ensures after { IfOk result (λ r. at < r.end) }
    ensures place { IfOk result (λ r. IsPlace text.now r.end) }
    ensures writable { IfOk result (λ r. IsWritable (leaf_shape r.value)) }
    ensures reads { ReadsLeaf name text.now at result }
{
    let key = key_at(text, at)?;
    Ok(Spelled {
        value: key_leaf(name, key.value),
        end: key.end,
    })
}

/// The argument of this fragment that has to stand here.
pub fn argument_at(text: &[u8], at: usize, name: LeafName) -> Result<Spelled<Leaf>, TextFault>
    requires { IsPlace text.now at }
    ensures after { IfOk result (λ r. at < r.end) }
    ensures place { IfOk result (λ r. IsPlace text.now r.end) }
    ensures writable { IfOk result (λ r. IsWritable (leaf_shape r.value)) }
    ensures reads { ReadsLeaf name text.now at result }
{
    if is_of_key(name) {
        return key_argument_at(text, at, name);
    }
    let word = word_at(text, at);
    let Some(value) = leaf_spelled(name, word) else {
        return Err(TextFault::Syntax(at as u32));
    };
    Ok(Spelled {
        value,
        end: at + word.len(),
    })
}

/// Keys, and the place behind the `)` that ends them.
#[derive(Drop)]
pub struct Keys {
    /// The keys, first one first.
    pub keys: Vec<Key>,
    /// The place behind the `)`.
    pub end: usize,
}

/// One or more keys that have to stand here, each behind a comma, and the `)` behind them.
pub fn key_list(alloc: Global, text: &[u8], at: usize) -> Result<Keys, TextFault>
    requires { IsPlace text.now at }
    ensures after { IfOk result (λ r. at < r.end) }
    ensures place { IfOk result (λ r. IsPlace text.now r.end) }
    ensures some { IfOk result (λ r. 1 ≤ length r.keys.items) }
    ensures measure { IfOk result (λ r. length r.keys.items + at ≤ r.end) }
    ensures writable { IfOk result (λ r. All IsKey r.keys.items) }
    ensures reads { ReadsKeys text.now at result }
{
    let mut keys = Vec::new(alloc);
    let mut at = behind_mark(text, at, Mark::Comma)?;
    loop {
        let read = key_at(text, at)?;
        keys.push(read.value)?;
        let found = separator_at(text, read.end)?;
        at = read.end + 1;
        if found == Separator::Close {
            return Ok(Keys { keys, end: at });
        }
    }
}
