//! The names of what the two type systems require.

/// A requirement, by the fragment that has it: first those of correctness, then those of
/// malleability, each in the order in which they are tested. `X`, `Y` and `Z` are the requirements on
/// that argument, `E` is one on the property e, and `S` one on s.
#[derive(Clone, Copy, Debug, PartialEq, Eq)]
pub enum Rule {
    /// The number of `older` is 1 to 2^31 - 1.
    OlderRange,
    /// The number of `after` is 1 to 2^31 - 1.
    AfterRange,
    /// X of `andor` is B d u.
    AndOrX,
    /// Y and Z of `andor` are both B, both K or both V.
    AndOrYZ,
    /// X of `and_v` is V.
    AndVX,
    /// Y of `and_v` is B, K or V.
    AndVY,
    /// X of `and_b` is B.
    AndBX,
    /// Y of `and_b` is W.
    AndBY,
    /// X of `or_b` is B d.
    OrBX,
    /// Z of `or_b` is W d.
    OrBZ,
    /// X of `or_c` is B d u.
    OrCX,
    /// Z of `or_c` is V.
    OrCZ,
    /// X of `or_d` is B d u.
    OrDX,
    /// Z of `or_d` is B.
    OrDZ,
    /// X and Z of `or_i` are both B, both K or both V.
    OrIXZ,
    /// The number of `thresh` is 1 to that of its children.
    ThreshRange,
    /// The first child of `thresh` is B d u.
    ThreshFirst,
    /// Each other child of `thresh` is W d u.
    ThreshOther,
    /// The number of `multi` is 1 to that of its keys, of which there are at most 20.
    MultiRange,
    /// The child of `a` is B.
    WrapA,
    /// The child of `s` is B o.
    WrapS,
    /// The child of `c` is K.
    WrapC,
    /// The child of `d` is V z.
    WrapD,
    /// The child of `v` is B.
    WrapV,
    /// The child of `j` is B n.
    WrapJ,
    /// The child of `n` is B.
    WrapN,
    /// X of `andor` is e.
    AndOrE,
    /// One of X, Y and Z of `andor` is s.
    AndOrS,
    /// X and Z of `or_b` are e.
    OrBE,
    /// X or Z of `or_b` is s.
    OrBS,
    /// X of `or_c` is e.
    OrCE,
    /// X or Z of `or_c` is s.
    OrCS,
    /// X of `or_d` is e.
    OrDE,
    /// X or Z of `or_d` is s.
    OrDS,
    /// X or Z of `or_i` is s.
    OrIS,
    /// All children of `thresh` are e.
    ThreshE,
    /// No more children of `thresh` than its number aren't s.
    ThreshS,
}

/// A requirement that is false, and the number of the node that has it.
#[derive(Clone, Copy, Debug, PartialEq, Eq)]
pub struct RuleAt {
    /// The number of the node, from 0; children come before their parents, from left to right.
    pub node: u32,
    /// The requirement.
    pub rule: Rule,
}
