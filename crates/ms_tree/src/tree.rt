//! Trees, and what is seen of one at its root.
ghost use Rattle.def_tree.specs.InRange.{IsInRange};

use crate::key::Key;
use def_tree::{Two, Wrapper};
use ms_hash::HashValue;

/// A miniscript expression with its arguments (BIP 379, translation table), without sugar: a reference to its
/// root, which lies in an arena with all its parts. Contracts see it through `shape`. Calls ask that it is in
/// range: at most 131,072 nodes and keys of `multi`, at most 257 nodes deep, numbers of at most ten digits, and no
/// empty list. The builders give such trees.
#[cycle(tree)]
#[derive(Clone, Copy)]
pub struct Tree<'a> {
    /// The root.
    pub node: &'a Node<'a>,
}

/// The root of a tree: a fragment or a wrapper with its arguments, in the order of the text.
#[cycle(tree)]
#[derive(Clone, Copy)]
pub enum Node<'a> {
    /// A fragment without children.
    Leaf(&'a Leaf),
    /// `andor(x,y,z)`.
    AndOr(Tree<'a>, Tree<'a>, Tree<'a>),
    /// A fragment with two children, `and_v(x,y)` to `or_i(x,z)`.
    Two(Two, Tree<'a>, Tree<'a>),
    /// `thresh(k,x1,..,xn)`.
    Thresh(u64, &'a [Tree<'a>]),
    /// `multi(k,key1,..,keyn)`.
    Multi(u64, &'a [Key]),
    /// A wrapper and what it is put on.
    Wrap(Wrapper, Tree<'a>),
}

/// A fragment without children: `0`, `1`, `pk_k(K)`, `pk_h(K)`, `older(n)`, `after(n)`, or a hash lock.
#[derive(Clone, Copy, Debug, PartialEq, Eq)]
pub enum Leaf {
    /// `0`.
    Zero,
    /// `1`.
    One,
    /// `pk_k(key)`.
    PkK(Key),
    /// `pk_h(key)`.
    PkH(Key),
    /// `older(n)`, with the operand as it is written (BIP 112). Its range is a rule of the types.
    Older(u64),
    /// `after(n)`, with the operand as it is written (BIP 65). Its range is a rule of the types.
    After(u64),
    /// `sha256(h)`, `hash256(h)`, `ripemd160(h)` or `hash160(h)`.
    Hash(HashValue),
}

/// What a tree is at its root: a leaf, or a fragment and its parts, in the order of the text.
#[derive(Clone, Copy)]
pub enum View<'t> {
    /// A fragment without children.
    Leaf(Leaf),
    /// `andor(x,y,z)`.
    AndOr(&'t Tree<'t>, &'t Tree<'t>, &'t Tree<'t>),
    /// A fragment with two children, `and_v(x,y)` to `or_i(x,z)`.
    Two(Two, &'t Tree<'t>, &'t Tree<'t>),
    /// `thresh(k,x1,..,xn)`.
    Thresh(u64, &'t [Tree<'t>]),
    /// `multi(k,key1,..,keyn)`.
    Multi(u64, &'t [Key]),
    /// A wrapper and what it is put on.
    Wrap(Wrapper, &'t Tree<'t>),
}

impl Tree<'_> {
    ghost use Rattle.ms_tree.specs.Shape.{shape};
    ghost use Rattle.ms_tree.specs.View.{Shows, PartsAreInRange};

    /// The root and its parts, which are in range as the tree is. Takes no memory.
    pub fn view(&self) -> View<'_>
        requires { IsInRange (shape self.now) }
        ensures shows { Shows result (shape self.now) }
        ensures in_range { PartsAreInRange result }
    {
        self.root()
    }

    fn root(&self) -> View<'_>
        ensures { Shows result (shape self.now) }
    {
        match self.node {
            Node::Leaf(leaf) => View::Leaf(**leaf),
            Node::AndOr(x, y, z) => View::AndOr(x, y, z),
            Node::Two(kind, x, z) => View::Two(*kind, x, z),
            Node::Thresh(k, children) => View::Thresh(*k, children),
            Node::Multi(k, keys) => View::Multi(*k, keys),
            Node::Wrap(wrapper, x) => View::Wrap(*wrapper, x),
        }
    }
}
