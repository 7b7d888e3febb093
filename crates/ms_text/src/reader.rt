//! What reads a text: the text, and the arena in which the nodes of its tree lie.
ghost use Rattle.std.specs.Prelude.{◌≡◌, true, IfOk, IfErr};
ghost use Rattle.def_tree.specs.Tree as model;
ghost use Rattle.ms_tree.specs.Shape.{shape};
ghost use Rattle.ms_text.specs.Scaffolding.Bare.{is_just_0, is_just_1};

use bumpalo::Bump;
use def_text::TextFault;
use ms_tree::{Leaf, Tree, leaf};
use std::alloc::Global;

/// A reader of a text. What it reads is told by places, which are byte offsets.
#[derive(Drop)]
pub struct Reader<'a, 't> {
    /// The allocator of what lies outside the arena.
    pub alloc: Global,
    /// The arena of the tree's nodes.
    pub arena: &'a Bump<Global>,
    /// The bytes of the text.
    pub text: &'t [u8],
    zero: Tree<'a>,
    one: Tree<'a>,
    ghost zero_is: { is_just_0 (shape zero) ≡ true },
    ghost one_is: { is_just_1 (shape one) ≡ true },
}

impl<'a, 't> Reader<'a, 't> {
    /// A reader of this text.
    pub fn new(
        alloc: Global,
        arena: &'a Bump<Global>,
        text: &'t [u8],
    ) -> Result<Reader<'a, 't>, TextFault>
        ensures text { IfOk result (λ reader. reader.text.now ≡ text.now) }
        ensures memory { IfErr result (λ e. e ≡ TextFault.Memory) }
    {
        let zero = leaf(arena, Leaf::Zero)?;
        let one = leaf(arena, Leaf::One)?;
        Ok(Reader {
            alloc,
            arena,
            text,
            zero,
            one,
        })
    }

    /// The tree `0`, which is made once.
    #[tactic(auto, using(crate::proofs::BareLemmas::just_0_is))]
    pub fn zero(&self) -> Tree<'a>
        ensures { shape result ≡ model.just_0 }
    {
        self.zero
    }

    /// The tree `1`, which is made once.
    #[tactic(auto, using(crate::proofs::BareLemmas::just_1_is))]
    pub fn one(&self) -> Tree<'a>
        ensures { shape result ≡ model.just_1 }
    {
        self.one
    }
}
