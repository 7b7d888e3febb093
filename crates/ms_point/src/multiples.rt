//! Multiples of a point, by double and add from the highest bit on.

ghost use Rattle.std.specs.Prelude.{ℕ, suc, ◌+◌, ◌*◌, ◌^◌, ◌≤◌};
ghost use Rattle.def_curve.specs.Point.{multiple, times as the_times};
ghost use Rattle.ms_field.specs.Limbs.{value};
ghost use Rattle.ms_point.specs.Standing.{StandsFor, IsReduced, IsAffine, point_at};

use crate::point::{Affine, INFINITY, Jacobian};
use crate::sums::{add_affine, double};
use ms_field::Limbs;

/// The multiple with one bit more.
fn next(a: Jacobian, point: Affine, bit: u64) -> Jacobian
    requires reduced { IsReduced a }
    requires affine { IsAffine point }
    requires bit { bit ≤ 1 }
    ensures reduced { IsReduced result }
    ensures multiple { (bits k : ℕ) → StandsFor a (multiple bits k (point_at point)) →
        StandsFor result (multiple (suc bits) (2 * k + bit) (point_at point)) }
{
    let even = double(a);
    if bit == 0 {
        return even;
    }
    add_affine(even, point)
}

/// The multiple with the bits of a word more.
fn next_word(first: Jacobian, point: Affine, word: u64) -> Jacobian
    requires reduced { IsReduced first }
    requires affine { IsAffine point }
    ensures reduced { IsReduced result }
    ensures multiple { (bits k : ℕ) → StandsFor first (multiple bits k (point_at point)) →
        StandsFor result (multiple (bits + 64) (k * 2 ^ 64 + word) (point_at point)) }
{
    let mut a = first;
    for i in 0..64u32 {
        a = next(a, point, (word >> (63 - i)) & 1);
    }
    a
}

/// k times a point.
pub fn times(k: Limbs, point: Affine) -> Jacobian
    requires { IsAffine point }
    ensures reduced { IsReduced result }
    ensures multiple { StandsFor result (the_times (value k) (point_at point)) }
{
    let a = next_word(INFINITY, point, k.fourth);
    let b = next_word(a, point, k.third);
    let c = next_word(b, point, k.second);
    next_word(c, point, k.first)
}
