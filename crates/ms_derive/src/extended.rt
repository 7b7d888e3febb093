//! Extended public keys and their texts (BIP 32, "Serialization format").

ghost use Rattle.std.specs.Prelude.{◌≡◌, true, false, length, MatchOption, IfOk, IfSome};
ghost use Rattle.std.specs.Option.{option_map};
ghost use Rattle.def_address.specs.Digits.{number_in};
ghost use Rattle.def_derive.specs.Extended.{is_version, is_rooted as the_is_rooted, read_extended as the_read_extended, extended_of as the_extended_of};
ghost use Rattle.def_derive.specs.Child.{node_of};
ghost use Rattle.ms_point.specs.Standing.{IsAffine};
ghost use Rattle.ms_derive.specs.Nodes.{node_at, version_number, extended_at};

use crate::steps::Node;
use ms_address::read_base58_check;
use ms_bytes::is_key;
use ms_curve::key::point_of;
use std::alloc::{AllocError, Global};

/// The version of an extended public key, which tells its network.
#[derive(Clone, Copy, PartialEq, Eq)]
pub enum Version {
    /// `xpub`, of the main network.
    Xpub,
    /// `tpub`, of the others.
    Tpub,
}

/// An extended public key: what its text says.
#[derive(Clone, Copy)]
pub struct Extended {
    /// Its version.
    pub version: Version,
    /// How many steps lead to it from the root.
    pub depth: u8,
    /// The fingerprint of its parent.
    pub parent: [u8; 4],
    /// The number of the last step.
    pub number: u32,
    /// Its chain code.
    pub chain_code: [u8; 32],
    /// Its compressed key.
    pub key: [u8; 33],
}

/// The version with a number, if there is one.
fn version_of(number: u32) -> Option<Version>
    ensures { MatchOption result (is_version number ≡ false) (λ version. (is_version number ≡ true) × (number ≡ version_number version)) }
{
    match number {
        0x0488_b21e => Some(Version::Xpub),
        0x0435_87cf => Some(Version::Tpub),
        _ => None,
    }
}

/// Whether there is no parent and no number at depth 0.
fn is_rooted(depth: u8, number: u32, parent: &[u8]) -> bool
    ensures { result ≡ the_is_rooted depth number parent.now }
{
    depth != 0 || (number == 0 && parent == [0; 4].as_slice())
}

/// Some bytes as an array of as many.
fn array_of<const N: usize>(bytes: &[u8]) -> [u8; N]
    requires { length bytes.now ≡ N }
    ensures { result ≡ bytes.now }
{
    let mut all = [0; N];
    all.copy_from_slice(bytes);
    all
}

/// The number of four bytes, the highest first.
fn number_of(bytes: &[u8]) -> u32
    requires { length bytes.now ≡ 4 }
    ensures { result ≡ number_in 256 bytes.now }
{
    u32::from_be_bytes(array_of(bytes))
}

/// The extended key of some bytes, if they are one. Its point isn't looked at. Takes no memory.
pub fn read_extended(bytes: &[u8]) -> Option<Extended>
    ensures { option_map extended_at result ≡ the_read_extended bytes.now }
{
    if bytes.len() != 78 {
        return None;
    }
    let version = version_of(number_of(&bytes[0..4]))?;
    let depth = bytes[4];
    let parent = array_of(&bytes[5..9]);
    let number = number_of(&bytes[9..13]);
    if !is_rooted(depth, number, &parent) {
        return None;
    }
    let chain_code = array_of(&bytes[13..45]);
    let key = array_of(&bytes[45..78]);
    if !is_key(&key) {
        return None;
    }
    Some(Extended {
        version,
        depth,
        parent,
        number,
        chain_code,
        key,
    })
}

/// The extended key of a text, if it is one. The only refusal is want of memory.
pub fn extended_of(alloc: Global, text: &[u8]) -> Result<Option<Extended>, AllocError>
    ensures { IfOk result (λ found. option_map extended_at found ≡ the_extended_of text.now) }
{
    let Some(bytes) = read_base58_check(alloc, text)? else {
        return Ok(None);
    };
    Ok(read_extended(&bytes))
}

impl Extended {
    /// Its point with its chain code, where its key has a point. Takes no memory.
    pub fn node(&self) -> Option<Node>
        ensures node { option_map node_at result ≡ node_of (extended_at self.now) }
        ensures affine { IfSome result (λ node. IsAffine node.point) }
    {
        let point = point_of(&self.key)?;
        Some(Node {
            point,
            chain_code: self.chain_code,
        })
    }
}
