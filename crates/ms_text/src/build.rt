//! What is written while a text is read: nodes, and their offsets.
ghost use Rattle.std.specs.Prelude.{◌≡◌, ◌<◌, ◌^◌, [], ◌∷◌, ◌++◌, IfOk, IfErr, OnOk};
ghost use Rattle.def_tree.specs.Range.{IsWritable};
ghost use Rattle.def_tree.specs.InRange.{IsInRange};
ghost use Rattle.def_tree.specs.Tree as model;
ghost use Rattle.def_text.specs.Letter.{letter_tree};
ghost use Rattle.def_text.specs.Scaffolding.Reader.{leaf_offsets, pair_tree, pair_offsets, offsets_behind};
ghost use Rattle.ms_text.specs.Scaffolding.Leaves.{leaf_tree};
ghost use Rattle.ms_text.specs.Scaffolding.Names.{leaf_of, pair_of, letter_of};
ghost use Rattle.ms_text.specs.Scaffolding.Room.{HasRoom, HaveRoom};
ghost use Rattle.ms_tree.specs.Shape.{shape, shapes, leaf_shape};

use crate::names::{LeafName, Letter, Pair};
use crate::reader::Reader;
use bumpalo::Bump;
use def_text::TextFault;
use ms_tree::{Key, Leaf, Tree, Two, Wrapper, and_or, leaf, multi, thresh, two, wrap};
use std::alloc::Global;

/// Adds the offset of a node.
pub fn add_offset(offsets: &mut Vec<u32>, at: usize) -> Result<(), TextFault>
    requires { at < 2 ^ 32 }
    ensures added { OnOk result (offsets.new.items ≡ offsets.old.items ++ at ∷ []) }
    ensures memory { IfErr result (λ e. e ≡ TextFault.Memory) }
{
    offsets.push(at as u32)?;
    Ok(())
}

/// Adds the offset of both nodes of a piece of sugar.
fn add_twice(offsets: &mut Vec<u32>, at: usize) -> Result<(), TextFault>
    requires { at < 2 ^ 32 }
    ensures added { OnOk result (offsets.new.items ≡ offsets.old.items ++ at ∷ at ∷ []) }
    ensures memory { IfErr result (λ e. e ≡ TextFault.Memory) }
{
    add_offset(offsets, at)?;
    add_offset(offsets, at)
}

/// Adds the offsets of a fragment whose argument is a word.
pub fn add_leaf_offsets(offsets: &mut Vec<u32>, name: LeafName, at: usize) -> Result<(), TextFault>
    requires { at < 2 ^ 32 }
    ensures added { OnOk result (offsets.new.items ≡ offsets.old.items ++ leaf_offsets (leaf_of name) at) }
    ensures memory { IfErr result (λ e. e ≡ TextFault.Memory) }
{
    match name {
        LeafName::Pk | LeafName::Pkh => add_twice(offsets, at),
        LeafName::PkK | LeafName::PkH | LeafName::Older | LeafName::After | LeafName::Hash(_) => {
            add_offset(offsets, at)
        }
    }
}

/// Adds the offsets of a fragment of two children.
pub fn add_pair_offsets(offsets: &mut Vec<u32>, pair: Pair, at: usize) -> Result<(), TextFault>
    requires { at < 2 ^ 32 }
    ensures added { OnOk result (offsets.new.items ≡ offsets.old.items ++ pair_offsets (pair_of pair) at) }
    ensures memory { IfErr result (λ e. e ≡ TextFault.Memory) }
{
    match pair {
        Pair::Two(_) => add_offset(offsets, at),
        Pair::AndN => add_twice(offsets, at),
    }
}

/// The tree of a leaf.
pub fn new_leaf<'a>(arena: &'a Bump<Global>, value: Leaf) -> Result<Tree<'a>, TextFault>
    requires { IsWritable (leaf_shape value) }
    ensures tree { IfOk result (λ t. shape t ≡ leaf_shape value) }
    ensures memory { IfErr result (λ e. e ≡ TextFault.Memory) }
{
    Ok(leaf(arena, value)?)
}

/// The tree of a fragment whose argument is this leaf's.
pub fn named_leaf<'a>(
    arena: &'a Bump<Global>,
    name: LeafName,
    value: Leaf,
) -> Result<Tree<'a>, TextFault>
    requires { IsWritable (leaf_shape value) }
    ensures tree { IfOk result (λ t. shape t ≡ leaf_tree name value) }
    ensures memory { IfErr result (λ e. e ≡ TextFault.Memory) }
{
    let x = new_leaf(arena, value)?;
    match name {
        LeafName::Pk | LeafName::Pkh => new_wrap(arena, Wrapper::C, x),
        LeafName::PkK | LeafName::PkH | LeafName::Older | LeafName::After | LeafName::Hash(_) => {
            Ok(x)
        }
    }
}

/// Adds the offsets of the nodes that a letter puts behind its expression.
fn add_letter_offsets(offsets: &mut Vec<u32>, letter: Letter, at: usize) -> Result<(), TextFault>
    requires { at < 2 ^ 32 }
    ensures added { OnOk result (offsets.new.items ≡ offsets.old.items ++ offsets_behind (letter_of letter) at) }
    ensures memory { IfErr result (λ e. e ≡ TextFault.Memory) }
{
    match letter {
        Letter::Wrapper(_) | Letter::L => add_offset(offsets, at),
        Letter::T | Letter::U => add_twice(offsets, at),
    }
}

impl<'a> Reader<'a, '_> {
    /// An expression with a letter before it, which stands here. The offsets of the nodes that it puts behind the expression
    /// are added.
    pub fn with_letter(
        &self,
        letter: Letter,
        at: usize,
        x: Tree<'a>,
        offsets: &mut Vec<u32>,
    ) -> Result<Tree<'a>, TextFault>
        requires room { HasRoom (shape x) }
        requires short { at < 2 ^ 32 }
        ensures tree { IfOk result (λ t. shape t ≡ letter_tree (letter_of letter) (shape x.entry)) }
        ensures added { OnOk result (offsets.new.items ≡ offsets.old.items ++ offsets_behind (letter_of letter) at) }
        ensures memory { IfErr result (λ e. e ≡ TextFault.Memory) }
    {
        add_letter_offsets(offsets, letter, at)?;
        self.new_lettered(letter, x)
    }

    /// The tree of an expression with a letter before it.
    fn new_lettered(&self, letter: Letter, x: Tree<'a>) -> Result<Tree<'a>, TextFault>
        requires { HasRoom (shape x) }
        ensures tree { IfOk result (λ t. shape t ≡ letter_tree (letter_of letter) (shape x.entry)) }
        ensures memory { IfErr result (λ e. e ≡ TextFault.Memory) }
    {
        match letter {
            Letter::Wrapper(wrapper) => new_wrap(self.arena, wrapper, x),
            Letter::T => new_two(self.arena, Two::AndV, x, self.one()),
            Letter::L => new_two(self.arena, Two::OrI, self.zero(), x),
            Letter::U => new_two(self.arena, Two::OrI, x, self.zero()),
        }
    }

    /// The tree of a fragment of two children.
    pub fn new_pair(&self, pair: Pair, x: Tree<'a>, y: Tree<'a>) -> Result<Tree<'a>, TextFault>
        requires { HaveRoom (shape x) (shape y) }
        ensures tree { IfOk result (λ t. shape t ≡ pair_tree (pair_of pair) (shape x.entry) (shape y.entry)) }
        ensures memory { IfErr result (λ e. e ≡ TextFault.Memory) }
    {
        match pair {
            Pair::Two(kind) => new_two(self.arena, kind, x, y),
            Pair::AndN => new_and_or(self.arena, x, y, self.zero()),
        }
    }
}

/// The tree of a wrapper.
fn new_wrap<'a>(
    arena: &'a Bump<Global>,
    wrapper: Wrapper,
    x: Tree<'a>,
) -> Result<Tree<'a>, TextFault>
    requires { IsInRange (model.wrap wrapper (shape x)) }
    ensures tree { IfOk result (λ t. shape t ≡ model.wrap wrapper (shape x.entry)) }
    ensures memory { IfErr result (λ e. e ≡ TextFault.Memory) }
{
    Ok(wrap(arena, wrapper, x)?)
}

/// The tree of a fragment of two children of this kind.
fn new_two<'a>(
    arena: &'a Bump<Global>,
    kind: Two,
    x: Tree<'a>,
    y: Tree<'a>,
) -> Result<Tree<'a>, TextFault>
    requires { IsInRange (model.two kind (shape x) (shape y)) }
    ensures tree { IfOk result (λ t. shape t ≡ model.two kind (shape x.entry) (shape y.entry)) }
    ensures memory { IfErr result (λ e. e ≡ TextFault.Memory) }
{
    Ok(two(arena, kind, x, y)?)
}

/// The tree `andor(x,y,z)`.
pub fn new_and_or<'a>(
    arena: &'a Bump<Global>,
    x: Tree<'a>,
    y: Tree<'a>,
    z: Tree<'a>,
) -> Result<Tree<'a>, TextFault>
    requires { IsInRange (model.and_or (shape x) (shape y) (shape z)) }
    ensures tree { IfOk result (λ t. shape t ≡ model.and_or (shape x.entry) (shape y.entry) (shape z.entry)) }
    ensures memory { IfErr result (λ e. e ≡ TextFault.Memory) }
{
    Ok(and_or(arena, x, y, z)?)
}

/// The tree `thresh(k,..)` of these children.
pub fn new_thresh<'a>(
    arena: &'a Bump<Global>,
    k: u64,
    children: Vec<Tree<'a>>,
) -> Result<Tree<'a>, TextFault>
    requires { IsInRange (model.thresh k (shapes children.items)) }
    ensures tree { IfOk result (λ t. shape t ≡ model.thresh k (shapes children.entry.items)) }
    ensures memory { IfErr result (λ e. e ≡ TextFault.Memory) }
{
    Ok(thresh(arena, k, children)?)
}

/// The tree `multi(k,..)` of these keys.
pub fn new_multi<'a>(arena: &'a Bump<Global>, k: u64, keys: Vec<Key>) -> Result<Tree<'a>, TextFault>
    requires { IsInRange (model.multi k keys.items) }
    ensures tree { IfOk result (λ t. shape t ≡ model.multi k keys.items) }
    ensures memory { IfErr result (λ e. e ≡ TextFault.Memory) }
{
    Ok(multi(arena, k, keys)?)
}

/// Adds a child.
pub fn add_child<'a>(children: &mut Vec<Tree<'a>>, x: Tree<'a>) -> Result<(), TextFault>
    ensures added { OnOk result (children.new.items ≡ children.old.items ++ x.entry ∷ []) }
    ensures memory { IfErr result (λ e. e ≡ TextFault.Memory) }
{
    children.push(x)?;
    Ok(())
}
