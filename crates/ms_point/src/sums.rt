//! Twice a point, and the sum of a point and an affine one.

ghost use Rattle.std.specs.Prelude.{◌≡◌, ℕ, ◌*◌, ◌%◌, ◌<◌};
ghost use Rattle.def_curve.specs.Curve.{p};
ghost use Rattle.def_curve.specs.Point.{Point, affine, ◌⊕◌, chord};
ghost use Rattle.ms_field.specs.Limbs.{value};
ghost use Rattle.ms_point.specs.Scaffolding.Crossing.{Crosses, Differs};
ghost use Rattle.ms_point.specs.Standing.{StandFor, StandsFor, IsReduced, IsAffine, point_at};

use crate::point::{Affine, INFINITY, Jacobian};
use ms_field::Limbs;
use ms_field::comparisons::is_zero;
use ms_field::field::{add, half, multiply, square, subtract};
use ms_field::limbs::ONE;

/// An affine point.
pub fn from_affine(point: Affine) -> Jacobian
    requires { IsAffine point }
    ensures reduced { IsReduced result }
    ensures point { StandsFor result (point_at point) }
{
    Jacobian {
        x: point.x,
        y: point.y,
        z: ONE,
    }
}

/// Twice a point.
pub fn double(a: Jacobian) -> Jacobian
    requires { IsReduced a }
    ensures reduced { IsReduced result }
    ensures sum { (P : Point) → StandsFor a P → StandsFor result (P ⊕ P) }
{
    let xx = square(a.x);
    let yy = square(a.y);
    let yyyy = square(yy);
    let s = multiply(a.x, yy);
    let half_xx = half(xx);
    let m = add(half_xx, xx);
    let mm = square(m);
    let less_s = subtract(mm, s);
    let x = subtract(less_s, s);
    let d = subtract(s, x);
    let md = multiply(m, d);
    let y = subtract(md, yyyy);
    let z = multiply(a.y, a.z);
    Jacobian { x, y, z }
}

/// The sum of two points with different x: h and r are the differences of their x, times z^2, and of their y, times z^3.
#[inline(always)]
fn add_by_line(a: Jacobian, h: Limbs, r: Limbs) -> Jacobian
    requires reduced { IsReduced a }
    requires h { value h < p }
    requires r { value r < p }
    ensures reduced { IsReduced result }
    ensures line { (x y x' y' : ℕ) → Crosses (value a.x) (value a.y) (value a.z) (value h) (value r) x y x' y' →
        StandFor (value result.x) (value result.y) (value result.z) (chord x y x' y') }
{
    let hh = square(h);
    let hhh = multiply(hh, h);
    let s = multiply(a.x, hh);
    let t = multiply(a.y, hhh);
    let rr = square(r);
    let less_hhh = subtract(rr, hhh);
    let less_s = subtract(less_hhh, s);
    let x = subtract(less_s, s);
    let d = subtract(s, x);
    let rd = multiply(r, d);
    let y = subtract(rd, t);
    let z = multiply(a.z, h);
    Jacobian { x, y, z }
}

/// The sum of a point that isn't infinity and another one, by the differences of their x, times z^2, and of their y, times z^3.
#[inline(always)]
fn add_by_differences(a: Jacobian, h: Limbs, r: Limbs) -> Jacobian
    requires reduced { IsReduced a }
    requires some { 0 < value a.z }
    requires h { value h < p }
    requires r { value r < p }
    ensures reduced { IsReduced result }
    ensures sum { (x' y' : ℕ) → Differs (value a.x) (value a.y) (value a.z) (value h) (value r) x' y' → (P : Point) → StandsFor a P →
        StandsFor result (P ⊕ affine x' y') }
{
    if !is_zero(h) {
        return add_by_line(a, h, r);
    }
    if is_zero(r) { double(a) } else { INFINITY }
}

/// The sum of a point and an affine one.
pub fn add_affine(a: Jacobian, point: Affine) -> Jacobian
    requires reduced { IsReduced a }
    requires affine { IsAffine point }
    ensures reduced { IsReduced result }
    ensures sum { (P : Point) → StandsFor a P → StandsFor result (P ⊕ point_at point) }
{
    if is_zero(a.z) {
        return from_affine(point);
    }
    let zz = square(a.z);
    let zzz = multiply(zz, a.z);
    let u = multiply(point.x, zz);
    let v = multiply(point.y, zzz);
    let h = subtract(u, a.x);
    let r = subtract(v, a.y);
    add_by_differences(a, h, r)
}

/// The same point with z times another number.
fn scaled(a: Jacobian, w: Limbs) -> Jacobian
    requires reduced { IsReduced a }
    requires below { value w < p }
    requires some { 0 < value w }
    ensures reduced { IsReduced result }
    ensures point { (P : Point) → StandsFor a P → StandsFor result P }
    ensures z { value result.z ≡ value a.z * value w % p }
{
    let ww = square(w);
    let www = multiply(ww, w);
    let x = multiply(a.x, ww);
    let y = multiply(a.y, www);
    let z = multiply(a.z, w);
    Jacobian { x, y, z }
}

/// The sum of two points.
pub fn add_points(a: Jacobian, b: Jacobian) -> Jacobian
    requires first { IsReduced a }
    requires second { IsReduced b }
    ensures reduced { IsReduced result }
    ensures sum { (P Q : Point) → StandsFor a P → StandsFor b Q → StandsFor result (P ⊕ Q) }
{
    if is_zero(b.z) {
        return a;
    }
    if is_zero(a.z) {
        return b;
    }
    let first = scaled(a, b.z);
    let zz = square(a.z);
    let zzz = multiply(zz, a.z);
    let u = multiply(b.x, zz);
    let v = multiply(b.y, zzz);
    let h = subtract(u, first.x);
    let r = subtract(v, first.y);
    add_by_differences(first, h, r)
}
