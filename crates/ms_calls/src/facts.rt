//! What is known of a sane text, as plain numbers.
ghost use Rattle.std.specs.Prelude.{◌≡◌};
ghost use Rattle.ms_calls.specs.Facts.{facts_by, code_of_base as the_code_of_base};

use ms_sane::SaneTree;
use ms_types::Base;

/// The limits, the height and the type of a sane text.
#[repr(C)]
#[derive(Clone, Copy, Debug, PartialEq, Eq)]
pub struct Facts {
    /// The bytes of the Script.
    pub size: u64,
    /// The most opcodes that count in a run of it.
    pub ops: u64,
    /// The most items of a canonical satisfaction.
    pub items: u64,
    /// The most that a canonical satisfaction weighs.
    pub weight: u64,
    /// The most elements that the stacks hold together while a canonical one is run.
    pub height: u64,
    /// The base type: 0 is B, 1 is V, 2 is K and 3 is W. A sane text is B.
    pub base: u32,
    /// The letter z: it takes no item of the stack.
    pub z: bool,
    /// The letter o: it takes one item.
    pub o: bool,
    /// The letter n: no satisfaction has an empty item on top.
    pub n: bool,
    /// The letter d: it can be dissatisfied without a signature.
    pub d: bool,
    /// The letter u: satisfied, it leaves a 1.
    pub u: bool,
    /// The letter s: each satisfaction has a signature.
    pub s: bool,
    /// The letter f: each dissatisfaction has a signature.
    pub f: bool,
    /// The letter e: one dissatisfaction has no signature.
    pub e: bool,
}

impl Facts {
    /// Of what is known of a sane tree, and its height. Takes no memory.
    pub fn new(sane: &SaneTree<'_>, height: u64) -> Facts
        ensures { result ≡ facts_by sane.now.valid.ty sane.now.malleability_of sane.now.valid.limits height }
    {
        let (ty, malleability_of, limits) = (
            sane.valid.ty,
            sane.malleability_of,
            sane.valid.limits,
        );
        Facts {
            size: limits.size,
            ops: limits.ops,
            items: limits.items,
            weight: limits.weight,
            height,
            base: code_of_base(ty.base),
            z: ty.z,
            o: ty.o,
            n: ty.n,
            d: ty.d,
            u: ty.u,
            s: malleability_of.s,
            f: malleability_of.f,
            e: malleability_of.e,
        }
    }
}

fn code_of_base(base: Base) -> u32
    ensures { result ≡ the_code_of_base base }
{
    match base {
        Base::B => 0,
        Base::V => 1,
        Base::K => 2,
        Base::W => 3,
    }
}
