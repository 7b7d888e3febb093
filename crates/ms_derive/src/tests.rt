//! Published values: RFC 4231's of HMAC-SHA512, and BIP 32's test vectors 1 and 2.

ghost use Rattle.std.specs.Prelude.{IfSome};
ghost use Rattle.ms_point.specs.Standing.{IsAffine};

use crate::{Extended, Node, child, descendant, extended_of, hmac_sha512};
use ms_curve::key::point_of;
use ms_field::comparisons::is_same;
use std::alloc::Global;

/// Keys and messages of RFC 4231 (4.2, 4.3 and 4.7), and their codes: the last key is longer than a block.
const CODES: [(&str, &str, &str); 3] = [
    (
        "0b0b0b0b0b0b0b0b0b0b0b0b0b0b0b0b0b0b0b0b",
        "4869205468657265",
        "87aa7cdea5ef619d4ff0b4241a1d6cb02379f4e2ce4ec2787ad0b30545e17cdedaa833b7d6b8a702038b274eaea3f4e4be9d914eeb61f1702e696c203a126854",
    ),
    (
        "4a656665",
        "7768617420646f2079612077616e7420666f72206e6f7468696e673f",
        "164b7a7bfcf819e2e395fbe73b56e0a387bd64222e831fd610270cd7ea2505549758bf75c05a994a6d034f65f8f0e6fdcaeab1a34d4a6b4b636e070a38bce737",
    ),
    (
        "aaaaaaaaaaaaaaaaaaaaaaaaaaaaaaaaaaaaaaaaaaaaaaaaaaaaaaaaaaaaaaaaaaaaaaaaaaaaaaaaaaaaaaaaaaaaaaaaaaaaaaaaaaaaaaaaaaaaaaaaaaaaaaaaaaaaaaaaaaaaaaaaaaaaaaaaaaaaaaaaaaaaaaaaaaaaaaaaaaaaaaaaaaaaaaaaaaaaaaaaaaaaaaaaaaaaaaaaaaaaaaaaaaaaaaaaaaaaaaaaaaaaaaaaaaaaaaaaaaaaaa",
        "54657374205573696e67204c6172676572205468616e20426c6f636b2d53697a65204b6579202d2048617368204b6579204669727374",
        "80b24263c7c1a3ebb71493c1dd7be8b49b46d1f41b4aeec1121b013783f8f3526b56d037e05f2598bd0fd2215d6a1e5295e64f73f63f0aec8b915a985d786598",
    ),
];

/// A node, as the hex digits of its chain code and of its key.
type Digits = (&'static str, &'static str);

/// Test vector 1's m/0h/1/2h and, two steps further, m/0h/1/2h/2/1000000000.
const FIRST: Digits = (
    "04466b9cc8e161e966409ca52986c584f07e9dc81f735db683c3ff6ec7b1503f",
    "0357bfe1e341d01c69fe5654309956cbea516822fba8a601743a012a7896ee8dc2",
);

const FIRST_BELOW: Digits = (
    "c783e67b921d2beb8f6b389cc646d7263b4145701dadd2161548a8b078e65e9e",
    "022a471424da5e657499d1ff51cb43c47481a03b1e77f951fe64cec9f5a48f7011",
);

/// Test vector 2's m, and m/0.
const SECOND: Digits = (
    "60499f801b896d83179a4374aeb7822aaeaceaa0db1f85ee3e904c4defbd9689",
    "03cbcaa9c98c877a26977d00825c956a238e8dddfbd322cce4f74b0b5bd6ace4a7",
);

const SECOND_BELOW: Digits = (
    "f0909affaa7ee7abe5dd4e100598d4dc53cd709d5a5c2cac40e7412f232f7c9c",
    "02fc9e5af0ac8d9b3cecfe2a888e2117ba3d089d8585886c9c826b6b22a98d12ea",
);

/// Test vector 1's m/0h and, a step further, m/0h/1; test vector 2's m and m/0.
const TEXTS: [(&str, u32, &str); 2] = [
    (
        "xpub68Gmy5EdvgibQVfPdqkBBCHxA5htiqg55crXYuXoQRKfDBFA1WEjWgP6LHhwBZeNK1VTsfTFUHCdrfp1bgwQ9xv5ski8PX9rL2dZXvgGDnw",
        1,
        "xpub6ASuArnXKPbfEwhqN6e3mwBcDTgzisQN1wXN9BJcM47sSikHjJf3UFHKkNAWbWMiGj7Wf5uMash7SyYq527Hqck2AxYysAA7xmALppuCkwQ",
    ),
    (
        "xpub661MyMwAqRbcFW31YEwpkMuc5THy2PSt5bDMsktWQcFF8syAmRUapSCGu8ED9W6oDMSgv6Zz8idoc4a6mr8BDzTJY47LJhkJ8UB7WEGuduB",
        0,
        "xpub69H7F5d8KSRgmmdJg2KhpAK8SR3DjMwAdkxj3ZuxV27CprR9LgpeyGmXUbC6wb7ERfvrnKZjXoUmmDznezpbZb7ap6r1D3tgFxHmwMkQTPH",
    ),
];

/// Texts that are no extended public key: test vector 5's with a parent, and with a number at depth 0, one of another version (SLIP-132),
/// and one with another letter.
const NO_KEYS: [&str; 4] = [
    "xpub661no6RGEX3uJkY4bNnPcw4URcQTrSibUZ4NqJEw5eBkv7ovTwgiT91XX27VbEXGENhYRCf7hyEbWrR3FewATdCEebj6znwMfQkhRYHRLpJ",
    "xpub661MyMwAuDcm6CRQ5N4qiHKrJ39Xe1R1NyfouMKTTWcguwVcfrZJaNvhpebzGerh7gucBvzEQWRugZDuDXjNDRmXzSZe4c7mnTK97pTvGS8",
    "zpub6rFR7y4Q2AijBEqTUquhVz398htDFrtymD9xYYfG1m4wAcvPhXNfE3EfH1r1ADqtfSdVCToUG868RvUUkgDKf31mGDtKsAYz2oz2AGutZYs",
    "xpub661MyMwAqRbcFtXgS5sYJABqqG9yLmC4Q1Rdap9gSE8NqtwybGhePY2gZ29ESFjqJoCu1Rupje8YtGqsefD265TMg7usUDFdp6W1EGMcet8",
];

/// Test vector 5's key that is no point.
const NO_POINT: &str =
    "xpub661MyMwAqRbcEYS8w7XLSVeEsBXy79zSzH1J8vCdxAZningWLdN3zgtU6Q5JXayek4PRsn35jii4veMimro1xefsM58PgBMrvdYre8QyULY";

/// Whether a message has this code by a key.
fn has_code(alloc: Global, key: &str, message: &str, code: &str) -> Option<bool> {
    let key = hex::decode(alloc, key).ok()?;
    let message = hex::decode(alloc, message).ok()?;
    let code = hex::decode(alloc, code).ok()?;
    Some(hmac_sha512(&key, &message).as_slice() == code.as_slice())
}

fn node_of(alloc: Global, digits: Digits) -> Option<Node>
    ensures { IfSome result (λ node. IsAffine node.point) }
{
    let chain_code = hex::decode(alloc, digits.0).ok()?;
    let key = hex::decode(alloc, digits.1).ok()?;
    let point = point_of(&key)?;
    if chain_code.len() != 32 {
        return None;
    }
    let mut bytes = [0; 32];
    bytes.copy_from_slice(&chain_code);
    Some(Node {
        point,
        chain_code: bytes,
    })
}

/// Whether a path leads from one node to another.
fn leads(alloc: Global, from: Digits, numbers: &[u32], to: Digits) -> Option<bool> {
    let found = descendant(node_of(alloc, from)?, numbers)?;
    let wanted = node_of(alloc, to)?;
    let same = is_same(found.point.x, wanted.point.x) && is_same(found.point.y, wanted.point.y);
    Some(same && found.chain_code == wanted.chain_code)
}

/// Whether a path leads nowhere.
fn ends(alloc: Global, from: Digits, numbers: &[u32]) -> Option<bool> {
    Some(descendant(node_of(alloc, from)?, numbers).is_none())
}

/// The extended key of a text.
fn read(alloc: Global, text: &str) -> Option<Extended> {
    extended_of(alloc, text.as_bytes()).ok()?
}

/// Whether a number leads from the key of one text to that of another.
fn is_child(alloc: Global, parent: &str, number: u32, text: &str) -> Option<bool> {
    let parent = read(alloc, parent)?;
    let wanted = read(alloc, text)?;
    let found = child(&parent.node()?, number)?;
    let point = wanted.node()?.point;
    let same = is_same(found.point.x, point.x) && is_same(found.point.y, point.y);
    let below = wanted.number == number && u16::from(wanted.depth) == u16::from(parent.depth) + 1;
    Some(same && below && found.chain_code == wanted.chain_code)
}

#[test]
fn texts_lead_to_texts(rt: HostRuntime) {
    for (parent, number, text) in TEXTS {
        assert!(rt;
            is_child(rt.alloc(), parent, number, text) == Some(true),
            "{text}"
        );
    }
}

#[test]
fn other_texts_are_no_keys(rt: HostRuntime) {
    for text in NO_KEYS {
        assert!(rt; read(rt.alloc(), text).is_none(), "{text}");
    }
}

#[test]
fn key_without_a_point_has_no_node(rt: HostRuntime) {
    let key = read(rt.alloc(), NO_POINT);
    assert!(rt; key.is_some());
    assert!(rt; key.is_some_and(|key| key.node().is_none()));
}

#[test]
fn messages_have_their_codes(rt: HostRuntime) {
    for (key, message, code) in CODES {
        assert!(rt;
            has_code(rt.alloc(), key, message, code) == Some(true),
            "{key}"
        );
    }
}

#[test]
fn paths_lead_to_their_nodes(rt: HostRuntime) {
    assert_eq!(rt;
        leads(rt.alloc(), FIRST, &[2, 1_000_000_000], FIRST_BELOW),
        Some(true)
    );
    assert_eq!(rt; leads(rt.alloc(), SECOND, &[0], SECOND_BELOW), Some(true));
}

#[test]
fn hardened_steps_lead_nowhere(rt: HostRuntime) {
    assert_eq!(rt; ends(rt.alloc(), SECOND, &[0x8000_0000]), Some(true));
    assert_eq!(rt; ends(rt.alloc(), FIRST, &[2, 0xffff_ffff, 0]), Some(true));
}
