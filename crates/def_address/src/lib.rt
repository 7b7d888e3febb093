//! Definitions of addresses: Base58Check, Bech32, the addresses of outputs, and the checksum of a descriptor's text.
#![tactic(auto)]

pub mod examples;
pub mod laws;

/// A network whose addresses are told apart (Bitcoin Core, chainparams.cpp).
#[derive(Clone, Copy, Debug, PartialEq, Eq)]
pub enum Network {
    /// The main network.
    Main,
    /// The test networks.
    Test,
    /// A private network for tests.
    Regtest,
}
