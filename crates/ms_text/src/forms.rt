//! The rest of a fragment that holds no expression, behind its name.
ghost use Rattle.std.specs.Prelude.{◌≡◌, ℕ, ◌+◌, ◌<◌, ◌≤◌, ◌^◌, [], ◌∷◌, ◌++◌, IfOk, IfErr, OnOk};
ghost use Rattle.def_tree.specs.Range.{IsWritable};
ghost use Rattle.def_text.specs.Refusal.{MOST_WRITTEN_DEPTH};
ghost use Rattle.def_text.specs.Scaffolding.Reader as machine;
ghost use Rattle.ms_text.specs.Scaffolding.Forms.{ReadsAnywhere, ReadsMarkedLeaf};
ghost use Rattle.ms_text.specs.Scaffolding.Names.{leaf_of};
ghost use Rattle.ms_text.specs.Scaffolding.Place.{IsPlace};
ghost use Rattle.ms_text.specs.Scaffolding.Room.{IsPart};
ghost use Rattle.ms_tree.specs.Shape.{shape, leaf_shape};

use crate::arguments::{Spelled, argument_at, key_list, number_at};
use crate::build::{add_leaf_offsets, add_offset, named_leaf, new_multi};
use crate::names::LeafName;
use crate::reader::Reader;
use crate::tokens::{Mark, behind_mark};
use def_text::TextFault;
use ms_tree::{Leaf, Tree};

/// A tree that was read, and the place behind it.
#[derive(Clone, Copy)]
pub struct Part<'a> {
    /// The tree, in the reader's arena.
    pub tree: Tree<'a>,
    /// The place behind it, in bytes from the text's beginning.
    pub end: usize,
}

/// `0` or `1`, which is this tree.
pub fn bare_form<'a>(
    tree: Tree<'a>,
    name: usize,
    at: usize,
    offsets: &mut Vec<u32>,
) -> Result<Part<'a>, TextFault>
    requires short { name < 2 ^ 32 }
    ensures part { IfOk result (λ r. (shape r.tree ≡ shape tree.entry) × (r.end ≡ at)) }
    ensures added { OnOk result (offsets.new.items ≡ offsets.old.items ++ name ∷ []) }
    ensures memory { IfErr result (λ e. e ≡ TextFault.Memory) }
{
    add_offset(offsets, name)?;
    Ok(Part { tree, end: at })
}

/// The argument of this fragment in parentheses, which has to stand here. Its end is the place behind the `)`.
fn argument_in_marks(text: &[u8], at: usize, leaf: LeafName) -> Result<Spelled<Leaf>, TextFault>
    requires { IsPlace text.now at }
    ensures after { IfOk result (λ r. at + 2 ≤ r.end) }
    ensures place { IfOk result (λ r. IsPlace text.now r.end) }
    ensures writable { IfOk result (λ r. IsWritable (leaf_shape r.value)) }
    ensures reads { ReadsMarkedLeaf leaf text.now at result }
{
    let at = behind_mark(text, at, Mark::Open)?;
    let argument = argument_at(text, at, leaf)?;
    let end = behind_mark(text, argument.end, Mark::Close)?;
    Ok(Spelled {
        value: argument.value,
        end,
    })
}

impl<'a> Reader<'a, '_> {
    /// The rest of a fragment whose argument is one word.
    pub fn leaf_form(
        &self,
        leaf: LeafName,
        name: usize,
        at: usize,
        offsets: &mut Vec<u32>,
    ) -> Result<Part<'a>, TextFault>
        requires place { IsPlace self.now.text.now at }
        requires before { name < at }
        ensures part { IfOk result (λ r. (depth : ℕ) → depth < MOST_WRITTEN_DEPTH → IsPart self.now.text.now name depth (shape r.tree) r.end) }
        ensures reads { ReadsAnywhere (machine.leaf_open (leaf_of leaf)) (offsets.old.items ++ machine.leaf_offsets (leaf_of leaf) name) offsets.new.items self.now.text.now at result }
    {
        let argument = argument_in_marks(self.text, at, leaf)?;
        let tree = named_leaf(self.arena, leaf, argument.value)?;
        add_leaf_offsets(offsets, leaf, name)?;
        Ok(Part {
            tree,
            end: argument.end,
        })
    }

    /// The rest of `multi(k,key1,..,keyn)`.
    pub fn multi_form(
        &self,
        name: usize,
        at: usize,
        offsets: &mut Vec<u32>,
    ) -> Result<Part<'a>, TextFault>
        requires place { IsPlace self.now.text.now at }
        requires before { name < at }
        ensures part { IfOk result (λ r. (depth : ℕ) → depth < MOST_WRITTEN_DEPTH → IsPart self.now.text.now name depth (shape r.tree) r.end) }
        ensures reads { ReadsAnywhere machine.multi_open (offsets.old.items ++ name ∷ []) offsets.new.items self.now.text.now at result }
    {
        let at = behind_mark(self.text, at, Mark::Open)?;
        let k = number_at(self.text, at)?;
        let read = key_list(self.alloc, self.text, k.end)?;
        let tree = new_multi(self.arena, k.value, read.keys)?;
        add_offset(offsets, name)?;
        Ok(Part {
            tree,
            end: read.end,
        })
    }
}
