//! The judgement of a signature.

ghost use Rattle.std.specs.Prelude.{◌≡◌, ◌*◌, nat_lt};
ghost use Rattle.def_curve.specs.Curve.{n as order};
ghost use Rattle.def_curve.specs.Key.{number_of as the_number_of};
ghost use Rattle.def_curve.specs.Judgement.{judge as the_judge, judged as the_judged};
ghost use Rattle.ms_field.specs.Limbs.{value};
ghost use Rattle.ms_point.specs.Standing.{IsAffine, point_at};

use crate::numbers::limbs_of;
use def_curve::Judgement;
use ms_curve::ecdsa::is_signature_by;
use ms_curve::key::{number_of, point_of};
use ms_der::numbers_of;
use ms_field::Limbs;
use ms_field::comparisons::is_below;
use ms_point::Affine;

/// (n - 1) / 2.
const HALF_ORDER: Limbs = Limbs {
    first: 0xdfe9_2f46_681b_20a0,
    second: 0x5d57_6e73_57a4_501d,
    third: 0xffff_ffff_ffff_ffff,
    fourth: 0x7fff_ffff_ffff_ffff,
};

/// Whether a number is over half of the order.
fn is_high(s: Limbs) -> bool
    ensures { result ≡ nat_lt order (2 * value s) }
{
    is_below(HALF_ORDER, s)
}

/// What r and s are, by a key and of the number of a hash.
fn judged(key: Affine, e: Limbs, r: Limbs, s: Limbs) -> Judgement
    requires { IsAffine key }
    ensures { result ≡ the_judged (point_at key) (value e) (value r) (value s) }
{
    if !is_signature_by(key, e, r, s) {
        return Judgement::Bad;
    }
    if is_high(s) {
        Judgement::High
    } else {
        Judgement::Good
    }
}

/// The same, of their bytes. What is 2^256 or more is no scalar.
fn judged_bytes(key: Affine, e: Limbs, r: &[u8], s: &[u8]) -> Judgement
    requires { IsAffine key }
    ensures { result ≡ the_judged (point_at key) (value e) (the_number_of r.now) (the_number_of s.now) }
{
    let Some(first) = limbs_of(r) else {
        return Judgement::Bad;
    };
    let Some(second) = limbs_of(s) else {
        return Judgement::Bad;
    };
    judged(key, e, first, second)
}

/// What a signature with the byte of its hash type behind is, by a key and for a hash, of any lengths. Takes no memory.
pub fn judge(key: &[u8], hash: &[u8], signature: &[u8]) -> Judgement
    ensures { result ≡ the_judge key.now hash.now signature.now }
{
    let Some((r, s)) = numbers_of(signature) else {
        return Judgement::Bad;
    };
    if hash.len() != 32 {
        return Judgement::Bad;
    }
    match point_of(key) {
        Some(point) => judged_bytes(point, number_of(hash), r, s),
        None => Judgement::Bad,
    }
}
