//! What an input's map of a PSBT holds for spending it: its fields, gathered pair by pair, and its assets.

ghost use Rattle.std.specs.Prelude.{◌≡◌, ◌≤◌, ◌||◌, nat_lt, [], ◌∷◌, ◌++◌, length, slice_index, OnOk, IfOk, Ok, None, option_map, unwrap_or, map};
ghost use Rattle.std.specs.Int.{w32, from_le_bytes};
ghost use Rattle.def_spend.specs.Fields.{asked};
ghost use Rattle.def_spend.specs.Reading.{has_byte as the_has_byte, has_item as the_has_item};
ghost use Rattle.def_spend.specs.States.{has_other_type as the_has_other_type, is_sighash_wrong as the_is_sighash_wrong, MOST_HELD as the_most_held};
ghost use Rattle.def_psbt.specs.Map.{type_of, data_of};
ghost use Rattle.def_script.specs.Bytes.{Bytes};
ghost use Rattle.def_files.specs.Laws.{AreFewAssets};
ghost use Rattle.ms_held.specs.Adding.{another_stop, Answers};
ghost use Rattle.ms_input.specs.Adding.{added, with_key, first_of as the_first_of};
ghost use Rattle.ms_input.specs.Held.{all_assets, held_in, Adds};

pub use hash_types::{hash_type_of, last_byte};
use kind::{Kind, kind_of};
use ms_held::{AddStop, Assets};
use ms_oracle::Locks;
use ms_tree::Key;
pub use signed::SignedRef;
use std::alloc::{AllocError, Global};
use std::marker::Model;

mod hash_types;
mod kind;
mod signed;

/// How many signatures, and how many preimages, are taken.
const MOST_HELD: usize = 256;

/// For how many keys there is room from the first on: those of the signatures and the derivations of a small script.
const FEW_KEYS: usize = 8;

/// What an input's map holds that counts for spending it. Nothing is copied but keys.
#[derive(Debug, Drop)]
pub struct Fields<'a> {
    previous: Option<&'a [u8]>,
    output: Option<&'a [u8]>,
    asked: Option<&'a [u8]>,
    redeem: Option<&'a [u8]>,
    script: Option<&'a [u8]>,
    final_script_sig: Option<&'a [u8]>,
    final_witness: Option<&'a [u8]>,
    pairs: Vec<SignedRef<'a>>,
    keys: Vec<Key>,
    preimages: Vec<&'a [u8; 32]>,
}

impl<'a> Model for Fields<'a> {
    ghost use Rattle.std.specs.Prelude.{option_map, map};
    ghost use Rattle.ms_input.specs.Held.{Held};

    ghost Value = { Held };

    ghost view = { λ f. record {
      previous = option_map (λ b. b.now) f.previous;
      output = option_map (λ b. b.now) f.output;
      asked = option_map (λ b. b.now) f.asked;
      redeem = option_map (λ b. b.now) f.redeem;
      script = option_map (λ b. b.now) f.script;
      final_script_sig = option_map (λ b. b.now) f.final_script_sig;
      final_witness = option_map (λ b. b.now) f.final_witness;
      pairs = f.pairs.items;
      keys = f.keys.items;
      preimages = map (λ b. b.now) f.preimages.items;
    } };
}

impl<'a> Fields<'a> {
    /// Those of a map without pairs. Takes no memory.
    pub fn new(alloc: Global) -> Fields<'a>
        ensures { result ≡ held_in [] }
    {
        Fields {
            previous: None,
            output: None,
            asked: None,
            redeem: None,
            script: None,
            final_script_sig: None,
            final_witness: None,
            pairs: Vec::new(alloc),
            keys: Vec::new(alloc),
            preimages: Vec::new(alloc),
        }
    }

    /// Adds a pair, which stands behind the others: a key of this type with these data, and its value. Refuses for want of
    /// memory alone.
    pub fn add(
        &mut self,
        type_number: u64,
        data: &'a [u8],
        value: &'a [u8],
    ) -> Result<(), AllocError>
        ensures { (key : Bytes) → type_of key ≡ type_number → data_of key ≡ «data».entry.now → OnOk result (Adds self.old self.new key value.entry.now) }
    {
        self.add_as(kind_of(type_number), data, value)
    }

    // Adds a pair of this kind.
    fn add_as(&mut self, kind: Kind, data: &'a [u8], value: &'a [u8]) -> Result<(), AllocError>
        ensures { OnOk result (self.new ≡ added kind self.old «data».entry.now value.entry.now) }
    {
        match kind {
            Kind::Previous => self.previous = first_of(self.previous, value),
            Kind::Output => self.output = first_of(self.output, value),
            Kind::Asked => self.asked = first_of(self.asked, value),
            Kind::Redeem => self.redeem = first_of(self.redeem, value),
            Kind::Script => self.script = first_of(self.script, value),
            Kind::FinalScriptSig => self.final_script_sig = first_of(self.final_script_sig, value),
            Kind::FinalWitness => self.final_witness = first_of(self.final_witness, value),
            Kind::Signature => return self.add_signature(data, value),
            Kind::Derivation => return self.add_key(data),
            Kind::Preimage => return self.add_preimage(value),
            Kind::Other => {}
        }
        Ok(())
    }

    // Adds a key with its signature, where it is compressed.
    fn add_signature(&mut self, data: &'a [u8], sig: &'a [u8]) -> Result<(), AllocError>
        ensures { OnOk result (self.new ≡ added Kind.Signature self.old «data».entry.now sig.entry.now) }
    {
        if let Some(key) = Key::from_bytes(data) {
            self.push_key(key)?;
            self.pairs.push(SignedRef::new(key, sig))?;
        }
        Ok(())
    }

    // Adds a key, where it is compressed.
    fn add_key(&mut self, data: &'a [u8]) -> Result<(), AllocError>
        ensures { OnOk result (self.new ≡ added Kind.Derivation self.old «data».entry.now []) }
    {
        if let Some(key) = Key::from_bytes(data) {
            self.push_key(key)?;
        }
        Ok(())
    }

    // Adds a key behind the others.
    fn push_key(&mut self, key: Key) -> Result<(), AllocError>
        ensures { OnOk result (self.new ≡ with_key self.old key) }
    {
        if self.keys.is_empty() {
            self.keys.reserve(FEW_KEYS)?;
        }
        self.keys.push(key)?;
        Ok(())
    }

    // Adds a preimage, where it has 32 bytes.
    fn add_preimage(&mut self, value: &'a [u8]) -> Result<(), AllocError>
        ensures { OnOk result (self.new ≡ added Kind.Preimage self.old [] value.entry.now) }
    {
        if let Ok(preimage) = <&[u8; 32]>::try_from(value) {
            self.preimages.push(preimage)?;
        }
        Ok(())
    }

    /// The previous transaction. Takes no memory.
    pub fn previous(&self) -> Option<&'a [u8]>
        ensures { option_map (λ b. b.now) result ≡ self.now.previous }
    {
        self.previous
    }

    /// The spent output. Takes no memory.
    pub fn output(&self) -> Option<&'a [u8]>
        ensures { option_map (λ b. b.now) result ≡ self.now.output }
    {
        self.output
    }

    /// The redeem script. Takes no memory.
    pub fn redeem(&self) -> Option<&'a [u8]>
        ensures { option_map (λ b. b.now) result ≡ self.now.redeem }
    {
        self.redeem
    }

    /// The witness script. Takes no memory.
    pub fn script(&self) -> Option<&'a [u8]>
        ensures { option_map (λ b. b.now) result ≡ self.now.script }
    {
        self.script
    }

    /// The final scriptSig. Takes no memory.
    pub fn final_script_sig(&self) -> Option<&'a [u8]>
        ensures { option_map (λ b. b.now) result ≡ self.now.final_script_sig }
    {
        self.final_script_sig
    }

    /// The final witness. Takes no memory.
    pub fn final_witness(&self) -> Option<&'a [u8]>
        ensures { option_map (λ b. b.now) result ≡ self.now.final_witness }
    {
        self.final_witness
    }

    /// The compressed keys of signatures and derivations, in the map's order. Takes no memory.
    pub fn keys(&self) -> &[Key]
        ensures { result.now ≡ self.now.keys }
    {
        &self.keys
    }

    /// The compressed keys with their signatures, in the map's order. Takes no memory.
    pub fn pairs(&self) -> &[SignedRef<'a>]
        ensures { result.now ≡ self.now.pairs }
    {
        &self.pairs
    }

    /// Whether it has a final scriptSig with a byte, or a final witness with an item. Takes no memory.
    pub fn is_final(&self) -> bool
        ensures { result ≡ (the_has_byte self.now.final_script_sig || the_has_item self.now.final_witness) }
    {
        has_byte(self.final_script_sig) || has_item(self.final_witness)
    }

    /// The number of the hash type that is asked, that of ALL where none is. Takes no memory.
    pub fn asked_type(&self) -> u32
        ensures { result ≡ asked self.now.asked }
    {
        match self.asked {
            Some(value) => number_in(value),
            None => 1,
        }
    }

    /// Whether there is a signature, and what is asked is no hash type or a signature has another one. Takes no memory.
    pub fn is_sighash_wrong(&self) -> bool
        ensures { result ≡ the_is_sighash_wrong (asked self.now.asked) self.now.pairs }
    {
        let asked = self.asked_type();
        !self.pairs.is_empty()
            && (hash_type_of(asked).is_none() || has_other_type(asked, &self.pairs))
    }

    /// Whether there are over 256 signatures or over 256 preimages. Takes no memory.
    pub fn are_too_many(&self) -> bool
        ensures { result ≡ (nat_lt the_most_held (length self.now.pairs) || nat_lt the_most_held (length self.now.preimages)) }
    {
        self.pairs.len() > MOST_HELD || self.preimages.len() > MOST_HELD
    }

    /// The assets that the signatures and the preimages are, under these locks. It demands that they are assets, and few. Refuses for
    /// want of memory alone.
    pub fn assets(&self, alloc: Global, locks: Locks) -> Result<Assets, AllocError>
        requires { AreFewAssets (all_assets locks self.now) }
        ensures { IfOk result (λ made. made ≡ all_assets locks self.now) }
    {
        let mut assets = self.unsigned_assets(alloc, locks)?;
        'pairs: for pair in &self.pairs {
            add_pair(&mut assets, pair)?;
        }
        Ok(assets)
    }

    /// The assets that the preimages alone are, under these locks. It demands that they are few. Refuses for want of memory alone.
    pub fn unsigned_assets(&self, alloc: Global, locks: Locks) -> Result<Assets, AllocError>
        requires { length self.now.preimages ≤ 256 }
        ensures { IfOk result (λ made. made ≡ record (all_assets locks self.now) { pairs = [] }) }
    {
        let mut assets = Assets::new(alloc, locks);
        'preimages: for preimage in &self.preimages {
            added(assets.add_preimage(preimage))?;
        }
        Ok(assets)
    }
}

// The first value of a type counts.
fn first_of<'a>(former: Option<&'a [u8]>, value: &'a [u8]) -> Option<&'a [u8]>
    ensures { option_map (λ b. b.now) result ≡ the_first_of (option_map (λ b. b.now) former.entry) value.entry.now }
{
    match former {
        Some(former) => Some(former),
        None => Some(value),
    }
}

/// Adds a key with its signature, against which nothing stands. Refuses for want of memory alone.
pub fn add_pair(assets: &mut Assets, pair: &SignedRef<'_>) -> Result<(), AllocError>
    requires { another_stop assets.old pair.now.0 pair.now.1 ≡ None }
    ensures { OnOk result (assets.new ≡ record assets.old { pairs = assets.old.pairs ++ pair.now ∷ [] }) }
{
    added(assets.add_another(pair.key(), pair.sig()))
}

// Nothing but want of memory keeps a signature or a preimage out.
fn added(answer: Result<(), AddStop>) -> Result<(), AllocError>
    requires { Answers None answer }
    ensures { OnOk result (answer ≡ Ok tt) }
{
    match answer {
        Ok(()) => Ok(()),
        Err(AddStop::Memory) => Err(AllocError),
        Err(AddStop::SigLength | AddStop::TooMany | AddStop::RepeatedKey) => unreachable!(),
    }
}

/// The bytes of a field, or others where there is none.
pub fn bytes_or<'a>(bytes: Option<&'a [u8]>, others: &'a [u8]) -> &'a [u8]
    ensures { result.now ≡ unwrap_or (option_map (λ b. b.now) bytes.entry) others.entry.now }
{
    match bytes {
        Some(bytes) => bytes,
        None => others,
    }
}

// Whether a final scriptSig has a byte.
fn has_byte(value: Option<&[u8]>) -> bool
    ensures { result ≡ the_has_byte (option_map (λ b. b.now) value.entry) }
{
    match value {
        Some(value) => !value.is_empty(),
        None => false,
    }
}

// Whether a final witness has an item.
fn has_item(value: Option<&[u8]>) -> bool
    ensures { result ≡ the_has_item (option_map (λ b. b.now) value.entry) }
{
    match value {
        Some(value) => value != b"\0".as_slice(),
        None => false,
    }
}

// A number of four bytes, low byte first; bytes that aren't there are 0.
fn number_in(value: &[u8]) -> u32
    ensures { result ≡ from_le_bytes w32 value.now }
{
    u32::from_le_bytes([
        byte_at(value, 0),
        byte_at(value, 1),
        byte_at(value, 2),
        byte_at(value, 3),
    ])
}

fn byte_at(value: &[u8], i: usize) -> u8
    ensures { result ≡ slice_index value.now i }
{
    match value.get(i) {
        Some(byte) => *byte,
        None => 0,
    }
}

// Whether some signature has another hash type.
fn has_other_type(asked: u32, pairs: &[SignedRef<'_>]) -> bool
    ensures { result ≡ the_has_other_type asked pairs.now }
{
    pairs
        .iter()
        .any(|pair| last_byte(pair.sig()) as u32 != asked)
}
