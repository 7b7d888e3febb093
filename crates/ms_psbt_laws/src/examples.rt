//! Examples of the definitions.

ghost use Rattle.ms_psbt_laws.specs.Network.{SomeWitnesses};

/// The witnesses of transactions.
pub fn witnesses()
    ensures some { SomeWitnesses }
{}
