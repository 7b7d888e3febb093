//! The children of a point with a chain code (BIP 32: CKDpub).

ghost use Rattle.std.specs.Prelude.{◌≡◌, take, drop, IfSome};
ghost use Rattle.std.specs.Option.{option_map};
ghost use Rattle.def_curve.specs.Encoding.{compressed as the_compressed};
ghost use Rattle.def_curve.specs.Key.{number_of as the_number_of};
ghost use Rattle.def_derive.specs.Child.{halves as the_halves, child_by as the_child_by, child as the_child, descendant as the_descendant};
ghost use Rattle.ms_point.specs.Standing.{IsAffine, point_at};
ghost use Rattle.ms_derive.specs.Nodes.{node_at};

use crate::hmac::hmac_sha512;
use ms_curve::affine::to_affine;
use ms_curve::ecdsa::GENERATOR;
use ms_curve::key::number_of;
use ms_field::comparisons::is_below;
use ms_field::scalar::ORDER;
use ms_judge::point::coordinate;
use ms_point::Affine;
use ms_point::multiples::times;
use ms_point::sums::add_affine;

/// 2^31: hardened numbers are those from there on.
const HARDENED: u32 = 0x8000_0000;

/// A point and its chain code.
#[derive(Clone, Copy)]
pub struct Node {
    /// The point.
    pub point: Affine,
    /// The chain code.
    pub chain_code: [u8; 32],
}

/// The bytes of a point: 02 or 03 by the parity of y, and x.
pub fn compressed(point: Affine) -> [u8; 33]
    ensures { result ≡ the_compressed (point_at point) }
{
    let mut bytes = [2 + (point.y.first % 2) as u8; 33];
    bytes[1..33].copy_from_slice(&coordinate(point.x));
    bytes
}

/// The HMAC-SHA512, by the chain code, of the key and a number.
fn halves(parent: &Node, number: u32) -> [u8; 64]
    ensures { result ≡ the_halves number (node_at parent.now) }
{
    let mut message = [0; 37];
    message[0..33].copy_from_slice(&compressed(parent.point));
    message[33..37].copy_from_slice(&number.to_be_bytes());
    hmac_sha512(&parent.chain_code, &message)
}

/// The child by its left half times the generator, and by its right half.
fn child_by(digest: &[u8; 64], parent: Affine) -> Option<Node>
    requires { IsAffine parent }
    ensures node { option_map node_at result ≡ the_child_by (the_number_of (take 32 digest.now)) (drop 32 digest.now) (point_at parent) }
    ensures affine { IfSome result (λ node. IsAffine node.point) }
{
    let left = number_of(&digest[0..32]);
    if !is_below(left, ORDER) {
        return None;
    }
    let multiple = times(left, GENERATOR);
    let sum = add_affine(multiple, parent);
    let point = to_affine(sum)?;
    let mut chain_code = [0; 32];
    chain_code.copy_from_slice(&digest[32..64]);
    Some(Node { point, chain_code })
}

/// The child with a number. There is none of a hardened number, from 2^31 on, nor where the left half isn't below the order or the sum is infinity.
/// Takes no memory.
pub fn child(parent: &Node, number: u32) -> Option<Node>
    requires { IsAffine parent.now.point }
    ensures node { option_map node_at result ≡ the_child number (node_at parent.now) }
    ensures affine { IfSome result (λ node. IsAffine node.point) }
{
    if number >= HARDENED {
        return None;
    }
    child_by(&halves(parent, number), parent.point)
}

/// The node that a path of numbers leads to. There is none where one of its steps has none. Takes no memory.
pub fn descendant(first: Node, numbers: &[u32]) -> Option<Node>
    requires { IsAffine first.point }
    ensures node { option_map node_at result ≡ the_descendant numbers.now (node_at first) }
    ensures affine { IfSome result (λ node. IsAffine node.point) }
{
    let mut node = first;
    for number in numbers {
        node = child(&node, *number)?;
    }
    Some(node)
}
