//! The coordinates of a point.

ghost use Rattle.std.specs.Prelude.{◌≡◌, IfSome};
ghost use Rattle.def_curve.specs.Point.{Point};
ghost use Rattle.ms_point.specs.Standing.{StandsFor, IsReduced, IsAffine};
ghost use Rattle.ms_curve.specs.Answers.{point_or_infinity};

use crate::root::inverse;
use ms_field::comparisons::is_zero;
use ms_field::field::{multiply, square};
use ms_point::{Affine, Jacobian};

/// A point by its coordinates: infinity has none.
pub fn to_affine(a: Jacobian) -> Option<Affine>
    requires { IsReduced a }
    ensures point { (P : Point) → StandsFor a P → point_or_infinity result ≡ P }
    ensures affine { IfSome result IsAffine }
{
    if is_zero(a.z) {
        return None;
    }
    let w = inverse(a.z);
    let ww = square(w);
    let www = multiply(ww, w);
    let x = multiply(a.x, ww);
    let y = multiply(a.y, www);
    Some(Affine { x, y })
}
