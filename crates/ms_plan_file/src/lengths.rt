//! Keys, and the lengths that their signatures are estimated to have.
ghost use Rattle.std.specs.Prelude.{◌≡◌, ◌↔◌, IsTrue};
ghost use Rattle.def_plan.specs.Lengths.{AreLengths, length_of};
ghost use Rattle.ms_plan_file.specs.Scaffolding.Entries.{CanStandBefore};

use ms_bytes::is_signature_size;
use ms_tree::Key;
use std::marker::Model;

/// A key that can sign, and how many bytes its signature is estimated to have. Contracts see the pair of both.
#[derive(Clone, Copy, Debug, PartialEq, Eq)]
pub struct KeyLength {
    /// The key.
    pub key: Key,
    /// How many bytes its signature is estimated to have, with the hash type.
    pub length: u8,
}

impl Model for KeyLength {
    ghost use Rattle.std.specs.Prelude.{ℕ, List};

    ghost Value = { List ℕ × ℕ };

    ghost view = { λ e. (e.key, e.length) };

    ghost inverse = { λ entry. record { key = entry.0; length = entry.1 } };
}

/// Keys in order. Contracts see the list of them.
#[derive(Debug, Drop)]
pub struct Keys {
    keys: Vec<Key>,
}

impl Model for Keys {
    ghost use Rattle.std.specs.Prelude.{ℕ, List};

    ghost Value = { List (List ℕ) };

    ghost view = { λ k. k.keys.items };
}

impl Keys {
    /// These keys. Takes no memory.
    pub fn from_vec(keys: Vec<Key>) -> Keys
        ensures { result ≡ keys.items }
    {
        Keys { keys }
    }

    /// The keys, first one first. Takes no memory.
    pub fn as_slice(&self) -> &[Key]
        ensures { result.now ≡ self.now }
    {
        &self.keys
    }

    /// The same keys. Takes no memory.
    pub fn into_vec(self) -> Vec<Key>
        ensures { result.items ≡ self }
    {
        self.keys
    }
}

/// Keys that can sign with the estimated lengths of their signatures, in order. Contracts see the list of the pairs.
#[derive(Debug, Drop)]
pub struct KeyLengths {
    entries: Vec<KeyLength>,
}

impl Model for KeyLengths {
    ghost use Rattle.std.specs.Prelude.{ℕ, List};

    ghost Value = { List (List ℕ × ℕ) };

    ghost view = { λ k. k.entries.items };
}

impl KeyLengths {
    /// These entries. Takes no memory.
    pub fn from_vec(entries: Vec<KeyLength>) -> KeyLengths
        ensures { result ≡ entries.items }
    {
        KeyLengths { entries }
    }

    /// The entries, first one first. Takes no memory.
    pub fn as_slice(&self) -> &[KeyLength]
        ensures { result.now ≡ self.now }
    {
        &self.entries
    }

    /// The same entries. Takes no memory.
    pub fn into_vec(self) -> Vec<KeyLength>
        ensures { result.items ≡ self }
    {
        self.entries
    }
}

/// How many keys a table has at most.
pub const MOST_KEYS: usize = 256;

/// The length of a key's signature in a table, in bytes: the first entry's, or `None` without one. Takes no memory, and
/// never refuses.
pub fn length_in(table: &[KeyLength], key: &Key) -> Option<u8>
    ensures { result ≡ length_of table.now key.now }
{
    for entry in table {
        if entry.key.as_bytes() == key.as_bytes() {
            return Some(entry.length);
        }
    }
    None
}

/// Whether a table can be estimated by: at most 256 entries, no key twice, and lengths of 1 to 73 bytes. Takes no memory,
/// and never refuses.
pub fn are_lengths(table: &[KeyLength]) -> bool
    ensures { IsTrue result ↔ AreLengths table.now }
{
    if table.len() > MOST_KEYS {
        return false;
    }
    for place in 0..table.len() {
        if !can_stand_before(&table[place], &table[place + 1..]) {
            return false;
        }
    }
    true
}

/// Whether an entry has a length of a signature, and its key isn't that of a later one.
fn can_stand_before(entry: &KeyLength, later: &[KeyLength]) -> bool
    ensures { IsTrue result ↔ CanStandBefore entry.now later.now }
{
    // Its clause tells what a key always is.
    let _bytes = entry.key.as_bytes();
    is_signature_size(entry.length as usize) && length_in(later, &entry.key).is_none()
}
