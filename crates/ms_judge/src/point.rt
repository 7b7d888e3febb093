//! The point of a key, as bytes, and those of a coordinate.

ghost use Rattle.std.specs.Prelude.{◌≡◌};
ghost use Rattle.def_curve.specs.Encoding.{coordinate as the_coordinate, point_bytes};
ghost use Rattle.ms_field.specs.Limbs.{value};

use ms_curve::key::point_of;
use ms_field::Limbs;

/// The bytes of a number, the highest first. Takes no memory.
pub fn coordinate(x: Limbs) -> [u8; 32]
    ensures { result ≡ the_coordinate (value x) }
{
    let mut bytes = [0; 32];
    bytes[0..8].copy_from_slice(&x.fourth.to_be_bytes());
    bytes[8..16].copy_from_slice(&x.third.to_be_bytes());
    bytes[16..24].copy_from_slice(&x.second.to_be_bytes());
    bytes[24..32].copy_from_slice(&x.first.to_be_bytes());
    bytes
}

/// The point of a key: 04 and its coordinates. Takes no memory.
pub fn point(key: &[u8]) -> Option<[u8; 65]>
    ensures { result ≡ point_bytes key.now }
{
    let point = point_of(key)?;
    let mut bytes = [4; 65];
    bytes[1..33].copy_from_slice(&coordinate(point.x));
    bytes[33..65].copy_from_slice(&coordinate(point.y));
    Some(bytes)
}
