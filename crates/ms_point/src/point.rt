//! Points in affine and in Jacobian coordinates.

use ms_field::Limbs;
use ms_field::limbs::{ONE, ZERO};

/// A point with its coordinates.
#[derive(Clone, Copy)]
pub struct Affine {
    /// The first coordinate.
    pub x: Limbs,
    /// The second one.
    pub y: Limbs,
}

/// The point with x / z^2 and y / z^3 for its coordinates, or infinity where z is 0.
#[derive(Clone, Copy)]
pub struct Jacobian {
    /// The first coordinate, times z^2.
    pub x: Limbs,
    /// The second one, times z^3.
    pub y: Limbs,
    /// What they are multiplied by.
    pub z: Limbs,
}

/// Infinity.
pub const INFINITY: Jacobian = Jacobian {
    x: ONE,
    y: ONE,
    z: ZERO,
};
