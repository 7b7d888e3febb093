//! What is derived.

use def_address::Network;

/// What is derived, and where.
#[derive(Clone, Copy, Debug)]
pub struct Derivation<'a> {
    /// The network of the addresses, where one is named.
    pub network: Option<Network>,
    /// The branch.
    pub branch: usize,
    /// The descriptor's text.
    pub text: &'a str,
    /// The first index.
    pub index: u32,
    /// How many indices.
    pub count: u32,
}
