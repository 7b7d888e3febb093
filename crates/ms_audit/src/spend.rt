//! A stack with what decides about it, and what fragments without children do with its top.
ghost use Rattle.std.specs.Prelude.{◌≡◌, ◌≤◌, ◌-◌, ◌&&◌, length, reverse, take};
ghost use Rattle.std.specs.Str.{bytes_eq};
ghost use Rattle.def_hash.specs.Hash.{hash160};
ghost use Rattle.std.specs.List.{list_all};
ghost use Rattle.def_machine.specs.MultiSig.{is_good as the_is_good};
ghost use Rattle.def_machine.specs.Stacks.{is_empty};
ghost use Rattle.def_script.specs.Key.{is_key};
ghost use Rattle.def_tree.specs.Tree as tree;
ghost use Rattle.ms_audit_laws.specs.Walk.{are_found as the_are_found};
ghost use Rattle.ms_audit.specs.Scaffolding.Walking.{below, TakesAs, Pops, Selects, Chooses};
ghost use Rattle.ms_hash.specs.Value.{kind_of, bytes_of};
ghost use Rattle.ms_interp.specs.Answering.{given_by};
ghost use Rattle.ms_tree.specs.Shape.{leaf_shape};

use crate::course::WalkStop;
use crate::row::{Row, forced, of_hash, of_key, of_multi, of_sig};
use ms_hash::{HashValue, hash_of, hash160};
use ms_oracle::{Locks, SignatureChecker};
use ms_script::{Stack, is_key};
use ms_tree::{Key, Leaf, Wrapper};

/// A stack, the timelocks of its spending, and the check of its signatures.
#[derive(Drop)]
pub struct Spend<'t, C: SignatureChecker> {
    /// The stack, bottom first.
    pub stack: &'t Stack,
    /// The values that timelocks are compared with.
    pub locks: &'t Locks,
    /// The check that answers for the good signatures.
    pub sigs: &'t C,
}

impl<C: SignatureChecker> Spend<'_, C> {
    /// The top of what is left of the stack.
    pub fn top(&self, left: usize) -> Result<&[u8], WalkStop>
        requires { left ≤ length self.now.stack.now }
        ensures { Pops result (below self.now.stack.now left) (below self.now.stack.now (left - 1)) }
    {
        if left == 0 {
            return Err(WalkStop::NoRow);
        }
        Ok(self.stack.item(left - 1))
    }

    /// Takes the top.
    pub fn pop(&self, left: &mut usize) -> Result<&[u8], WalkStop>
        requires { left.old ≤ length self.now.stack.now }
        ensures item { Pops result (below self.now.stack.now left.old) (below self.now.stack.now left.new) }
        ensures left { left.new ≤ length self.now.stack.now }
    {
        let top = self.top(*left)?;
        *left -= 1;
        Ok(top)
    }

    /// Takes a selector, and answers whether it is the byte 1. The other one is the empty string.
    pub fn select(&self, left: &mut usize) -> Result<bool, WalkStop>
        requires { left.old ≤ length self.now.stack.now }
        ensures choice { Selects result (below self.now.stack.now left.old) (below self.now.stack.now left.new) }
        ensures left { left.new ≤ length self.now.stack.now }
    {
        match *self.pop(left)? {
            [1] => Ok(true),
            [] => Ok(false),
            _ => Err(WalkStop::NoRow),
        }
    }

    /// Takes the item that chooses at a wrapper, where there is one: whether it is the byte 1. The other one is empty.
    #[tactic(auto, unfolding(crate::specs::Scaffolding::Parts::verdict_of_wrap))]
    pub fn choice(&self, wrapper: Wrapper, left: &mut usize) -> Result<Option<bool>, WalkStop>
        requires { left.old ≤ length self.now.stack.now }
        ensures item { Chooses wrapper result (below self.now.stack.now left.old) (below self.now.stack.now left.new) }
        ensures left { left.new ≤ length self.now.stack.now }
    {
        match wrapper {
            Wrapper::A | Wrapper::S | Wrapper::C | Wrapper::V | Wrapper::N => Ok(None),
            Wrapper::D => Ok(Some(self.select(left)?)),
            Wrapper::J => {
                if !self.top(*left)?.is_empty() {
                    return Ok(None);
                }
                *left -= 1;
                Ok(Some(false))
            }
        }
    }

    /// What a fragment without children takes.
    pub fn leaf(&self, leaf: Leaf, left: &mut usize) -> Result<Option<Row>, WalkStop>
        requires sound { C.IsSound self.now.sigs.now }
        requires left { left.old ≤ length self.now.stack.now }
        ensures row { TakesAs (given_by (C.checker self.now.sigs.now) self.now.locks.now) self.now.stack.now (leaf_shape leaf) left.old left.new result }
        ensures left { left.new ≤ length self.now.stack.now }
    {
        match leaf {
            Leaf::Zero => Ok(Some(Row::canonical(false))),
            Leaf::One => Ok(Some(Row::canonical(true))),
            Leaf::PkK(key) => self.pk_k(&key, left),
            Leaf::PkH(key) => self.pk_h(&key, left),
            Leaf::Older(n) => Ok(forced(self.locks.older_holds(n))),
            Leaf::After(n) => Ok(forced(self.locks.after_holds(n))),
            Leaf::Hash(value) => self.hash(&value, left),
        }
    }

    fn pk_k(&self, key: &Key, left: &mut usize) -> Result<Option<Row>, WalkStop>
        requires sound { C.IsSound self.now.sigs.now }
        requires left { left.old ≤ length self.now.stack.now }
        ensures row { TakesAs (given_by (C.checker self.now.sigs.now) self.now.locks.now) self.now.stack.now (tree.pk_k key.now) left.old left.new result }
        ensures left { left.new ≤ length self.now.stack.now }
    {
        let sig = self.pop(left)?;
        Ok(of_sig(self.is_good(key.as_bytes(), sig), sig.is_empty()))
    }

    fn pk_h(&self, key: &Key, left: &mut usize) -> Result<Option<Row>, WalkStop>
        requires sound { C.IsSound self.now.sigs.now }
        requires left { left.old ≤ length self.now.stack.now }
        ensures row { TakesAs (given_by (C.checker self.now.sigs.now) self.now.locks.now) self.now.stack.now (tree.pk_h key.now) left.old left.new result }
        ensures left { left.new ≤ length self.now.stack.now }
    {
        let other = self.pop(left)?;
        let sig = self.pop(left)?;
        Ok(of_key(
            has_hash_of(other, key.as_bytes()),
            other == key.as_bytes(),
            self.is_good(other, sig),
            sig.is_empty(),
        ))
    }

    fn hash(&self, value: &HashValue, left: &mut usize) -> Result<Option<Row>, WalkStop>
        requires left { left.old ≤ length self.now.stack.now }
        ensures row { TakesAs (given_by (C.checker self.now.sigs.now) self.now.locks.now) self.now.stack.now (tree.hash (kind_of value.now) (bytes_of value.now)) left.old left.new result }
        ensures left { left.new ≤ length self.now.stack.now }
    {
        let item = self.pop(left)?;
        let digest = hash_of(value.kind(), item);
        Ok(of_hash(
            item.len() == 32,
            digest.as_bytes() == value.as_bytes(),
            item == [0; 32].as_slice(),
        ))
    }

    /// What `multi(k,key1,..,keyn)` takes: as many signatures as it asks for, and one item more.
    pub fn multi(&self, k: u64, keys: &[Key], left: &mut usize) -> Result<Option<Row>, WalkStop>
        requires sound { C.IsSound self.now.sigs.now }
        requires left { left.old ≤ length self.now.stack.now }
        ensures row { TakesAs (given_by (C.checker self.now.sigs.now) self.now.locks.now) self.now.stack.now (tree.multi k keys.now) left.old left.new result }
        ensures left { left.new ≤ length self.now.stack.now }
    {
        let top = *left;
        if top as u64 <= k {
            return Err(WalkStop::NoRow);
        }
        let bottom = top - k as usize;
        *left = bottom - 1;
        let dummy = self.stack.item(bottom - 1);
        Ok(of_multi(
            dummy.is_empty(),
            self.are_found(keys, bottom, top),
            self.are_empty(bottom, top),
        ))
    }

    /// Whether the items between two places are signatures of the keys, each of the first key left that takes it.
    /// Signatures and keys are tried from the last one.
    fn are_found(&self, keys: &[Key], bottom: usize, top: usize) -> bool
        requires sound { C.IsSound self.now.sigs.now }
        requires bottom { bottom ≤ top }
        requires top { top ≤ length self.now.stack.now }
        ensures { result ≡ the_are_found (C.checker self.now.sigs.now) (reverse keys.now) (take (top - bottom) (below self.now.stack.now top)) }
    {
        let mut end = top;
        let mut count = keys.len();
        while count > 0 {
            if end == bottom {
                return true;
            }
            count -= 1;
            if self.is_good(keys[count].as_bytes(), self.stack.item(end - 1)) {
                end -= 1;
            }
        }
        end == bottom
    }

    /// Whether the items between two places are empty.
    fn are_empty(&self, bottom: usize, top: usize) -> bool
        requires bottom { bottom ≤ top }
        requires top { top ≤ length self.now.stack.now }
        ensures { result ≡ list_all is_empty (take (top - bottom) (below self.now.stack.now top)) }
    {
        let mut end = top;
        while bottom < end {
            if !self.stack.item(end - 1).is_empty() {
                return false;
            }
            end -= 1;
        }
        true
    }

    /// Whether the signature is good for the key; an empty one is never asked for.
    fn is_good(&self, key: &[u8], sig: &[u8]) -> bool
        requires { C.IsSound self.now.sigs.now }
        ensures { result ≡ the_is_good (C.checker self.now.sigs.now) key.now sig.now }
    {
        !sig.is_empty() && self.sigs.ask(key, sig)
    }
}

/// Whether bytes are a key with the same hash as another.
fn has_hash_of(other: &[u8], own: &[u8]) -> bool
    ensures { result ≡ (is_key other.now && bytes_eq (hash160 other.now) (hash160 own.now)) }
{
    is_key(other) && hash160(other) == hash160(own)
}
