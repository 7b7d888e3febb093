//! The check of a signature (SEC 1, 4.1.4).

ghost use Rattle.std.specs.Prelude.{◌≡◌, ◌<◌};
ghost use Rattle.def_curve.specs.Curve.{n as order};
ghost use Rattle.def_curve.specs.Point.{Point};
ghost use Rattle.def_curve.specs.Ecdsa.{has_x as the_has_x, is_signature_by as the_is_signature_by};
ghost use Rattle.ms_field.specs.Limbs.{value};
ghost use Rattle.ms_point.specs.Standing.{StandsFor, IsReduced, IsAffine, point_at};

use crate::inverse::inverse;
use ms_field::comparisons::{is_below, is_same, is_zero};
use ms_field::field::{add, multiply, square};
use ms_field::scalar::{ORDER, is_scalar};
use ms_field::{Limbs, scalar};
use ms_point::multiples::times;
use ms_point::sums::add_points;
use ms_point::{Affine, Jacobian};

/// The generator of the curve.
pub const GENERATOR: Affine = Affine {
    x: Limbs {
        first: 0x59f2_815b_16f8_1798,
        second: 0x029b_fcdb_2dce_28d9,
        third: 0x55a0_6295_ce87_0b07,
        fourth: 0x79be_667e_f9dc_bbac,
    },
    y: Limbs {
        first: 0x9c47_d08f_fb10_d4b8,
        second: 0xfd17_b448_a685_5419,
        third: 0x5da4_fbfc_0e11_08a8,
        fourth: 0x483a_da77_26a3_c465,
    },
};

/// p - n.
const PRIME_OVER_ORDER: Limbs = Limbs {
    first: 0x402d_a172_2fc9_baee,
    second: 0x4551_2319_50b7_5fc4,
    third: 1,
    fourth: 0,
};

/// Whether a point isn't infinity and its x modulo n is r: so x is r, or r + n where that is below p. With x times z^2 no inverse is needed.
fn has_x(a: Jacobian, r: Limbs) -> bool
    requires reduced { IsReduced a }
    requires scalar { value r < order }
    ensures { (P : Point) → StandsFor a P → result ≡ the_has_x P (value r) }
{
    if is_zero(a.z) {
        return false;
    }
    let zz = square(a.z);
    let first = multiply(r, zz);
    if is_same(first, a.x) {
        return true;
    }
    if !is_below(r, PRIME_OVER_ORDER) {
        return false;
    }
    let other = add(r, ORDER);
    let second = multiply(other, zz);
    is_same(second, a.x)
}

/// Whether r and s are a signature by the key of the hash that is the number e.
pub fn is_signature_by(key: Affine, e: Limbs, r: Limbs, s: Limbs) -> bool
    requires { IsAffine key }
    ensures { result ≡ the_is_signature_by (point_at key) (value e) (value r) (value s) }
{
    if !is_scalar(r) {
        return false;
    }
    if !is_scalar(s) {
        return false;
    }
    let w = inverse(s);
    let first = times(scalar::multiply(e, w), GENERATOR);
    let second = times(scalar::multiply(r, w), key);
    has_x(add_points(first, second), r)
}
