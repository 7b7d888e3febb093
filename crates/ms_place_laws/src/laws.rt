//! What the definitions imply.

ghost use Rattle.ms_place_laws.specs.Laws.{ReasonsDependOnNoKey, PlacesAreAsGood};
ghost use Rattle.ms_place_laws.specs.Points.{KeysHavePoints, PrivateIsRefused, AddressesGiveOutputs, AddressesAreOfOneOutput};

use ms_curve_laws::laws as curve;

/// Miniscripts that differ in their keys alone are as good, but for repeated keys; so are those of a descriptor at two places.
pub fn reasons()
    ensures reasons { ReasonsDependOnNoKey }
    ensures places { PlacesAreAsGood }
{}

/// Each key that a descriptor gives is that of a point, and what looks like a private key is refused in its place.
pub fn keys()
    ensures points { KeysHavePoints }
    ensures private { PrivateIsRefused }
{
    curve::keys();
}

/// The address of a descriptor's output gives the output's script, and so is the address of no other.
pub fn addresses()
    ensures output { AddressesGiveOutputs }
    ensures one { AddressesAreOfOneOutput }
{}
