//! The five words over which RIPEMD-160 works.

ghost use Rattle.std.specs.Prelude.{ℕ, List, [], ◌∷◌, slice_index};

use std::marker::Model;

/// Five words: a hash value h0, .., h4, or the variables A, .., E of a line. Contracts see the list
/// of them.
#[derive(Clone, Copy)]
pub struct State {
    /// h0 or A.
    pub a: u32,
    /// h1 or B.
    pub b: u32,
    /// h2 or C.
    pub c: u32,
    /// h3 or D.
    pub d: u32,
    /// h4 or E.
    pub e: u32,
}

impl Model for State {
    ghost Value = { List ℕ };

    ghost view = { λ s. s.a ∷ s.b ∷ s.c ∷ s.d ∷ s.e ∷ [] };

    ghost inverse = { λ v. record {
      a = slice_index v 0;
      b = slice_index v 1;
      c = slice_index v 2;
      d = slice_index v 3;
      e = slice_index v 4;
    } };
}
