//! What the definitions imply.

ghost use Rattle.def_address.specs.Laws.{Base58CheckIsRead, Base58CheckIsOnly, AddressGivesOutput, AddressIsOfOneOutput};

/// Base58Check reads what it writes, and no other text of the same bytes.
pub fn texts()
    ensures read { Base58CheckIsRead }
    ensures only { Base58CheckIsOnly }
{}

/// The address of an output gives its script, so that no two outputs have an address in common.
pub fn addresses()
    ensures output { AddressGivesOutput }
    ensures one { AddressIsOfOneOutput }
{}
