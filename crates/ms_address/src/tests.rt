//! Addresses, texts and checksums that are published, or that Bitcoin Core writes.

use crate::{address_of, base58_check, descriptor_sum, read_base58_check};
use def_address::Network;
use std::alloc::Global;

/// Outputs of BIPs 173, 49 and 84, with the networks and their addresses.
const OUTPUTS: [(Network, &str, &str); 6] = [
    (
        Network::Main,
        "0014751e76e8199196d454941c45d1b3a323f1433bd6",
        "bc1qw508d6qejxtdg4y5r3zarvary0c5xw7kv8f3t4",
    ),
    (
        Network::Test,
        "0014751e76e8199196d454941c45d1b3a323f1433bd6",
        "tb1qw508d6qejxtdg4y5r3zarvary0c5xw7kxpjzsx",
    ),
    (
        Network::Main,
        "00201863143c14c5166804bd19203356da136c985678cd4d27a1b8c6329604903262",
        "bc1qrp33g0q5c5txsp9arysrx4k6zdkfs4nce4xj0gdcccefvpysxf3qccfmv3",
    ),
    (
        Network::Test,
        "00201863143c14c5166804bd19203356da136c985678cd4d27a1b8c6329604903262",
        "tb1qrp33g0q5c5txsp9arysrx4k6zdkfs4nce4xj0gdcccefvpysxf3q0sl5k7",
    ),
    (
        Network::Test,
        "a914336caa13e08b96080a32b5d818d59b4ab3b3674287",
        "2Mww8dCYPUpKHofjgcXcBCEGmniw9CoaiD2",
    ),
    (
        Network::Main,
        "76a914751e76e8199196d454941c45d1b3a323f1433bd688ac",
        "",
    ),
];

/// Extended keys of BIP 32's test vectors 1 and 2, and texts that are none: with another last character, and with a character of no digit.
const TEXTS: [(&str, &str); 4] = [
    (
        "xpub661MyMwAqRbcFtXgS5sYJABqqG9YLmC4Q1Rdap9gSE8NqtwybGhePY2gZ29ESFjqJoCu1Rupje8YtGqsefD265TMg7usUDFdp6W1EGMcet8",
        "0488b21e000000000000000000873dff81c02f525623fd1fe5167eac3a55a049de3d314bb42ee227ffed37d5080339a36013301597daef41fbe593a02cc513d0b55527ec2df1050e2e8ff49c85c2",
    ),
    (
        "xpub661MyMwAqRbcFW31YEwpkMuc5THy2PSt5bDMsktWQcFF8syAmRUapSCGu8ED9W6oDMSgv6Zz8idoc4a6mr8BDzTJY47LJhkJ8UB7WEGuduB",
        "0488b21e00000000000000000060499f801b896d83179a4374aeb7822aaeaceaa0db1f85ee3e904c4defbd968903cbcaa9c98c877a26977d00825c956a238e8dddfbd322cce4f74b0b5bd6ace4a7",
    ),
    (
        "xpub661MyMwAqRbcFtXgS5sYJABqqG9YLmC4Q1Rdap9gSE8NqtwybGhePY2gZ29ESFjqJoCu1Rupje8YtGqsefD265TMg7usUDFdp6W1EGMcet9",
        "",
    ),
    ("2Mww8dCYPUpKHofjgcXcBCEGmniw9CoaiD0", ""),
];

/// Descriptors and their checksums: one of BIP 380, the account of BIP 84's example, and one with a character that is none of a descriptor's.
const SUMS: [(&str, &str); 3] = [
    ("raw(deadbeef)", "89f8spxm"),
    (
        "wpkh(xpub6CatWdiZiodmUeTDp8LT5or8nmbKNcuyvz7WyksVFkKB4RHwCD3XyuvPEbvqAQY3rAPshWcMLoP2fMFMKHPJ4ZeZXYVUhLv1VMrjPC7PW6V/0/*)",
        "kj7aqcx6",
    ),
    ("raw(deadbeef)\n", ""),
];

/// Whether an output has this address, or none where that is empty.
fn has_address(alloc: Global, network: Network, script: &str, address: &str) -> Option<bool> {
    let script = hex::decode(alloc, script).ok()?;
    let found = address_of(alloc, network, &script).ok()?;
    Some(found.map_or(
        address.is_empty(),
        |text| text.as_slice() == address.as_bytes(),
    ))
}

/// Whether a text is of these bytes and these are of it, or it is of none where there are none.
fn is_text(alloc: Global, text: &str, bytes: &str) -> Option<bool> {
    let bytes = hex::decode(alloc, bytes).ok()?;
    let Some(found) = read_base58_check(alloc, text.as_bytes()).ok()? else {
        return Some(bytes.is_empty());
    };
    let written = base58_check(alloc, &bytes).ok()?;
    Some(found == bytes && written.as_slice() == text.as_bytes())
}

/// Whether a descriptor has this checksum, or none where that is empty.
fn has_sum(text: &str, sum: &str) -> bool {
    let found = descriptor_sum(text.as_bytes());
    found.map_or(
        sum.is_empty(),
        |letters| letters.as_slice() == sum.as_bytes(),
    )
}

#[test]
fn outputs_have_their_addresses(rt: HostRuntime) {
    for (network, script, address) in OUTPUTS {
        assert!(rt;
            has_address(rt.alloc(), network, script, address) == Some(true),
            "{script}"
        );
    }
}

#[test]
fn texts_have_their_bytes(rt: HostRuntime) {
    for (text, bytes) in TEXTS {
        assert!(rt; is_text(rt.alloc(), text, bytes) == Some(true), "{text}");
    }
}

#[test]
fn descriptors_have_their_checksums(rt: HostRuntime) {
    for (text, sum) in SUMS {
        assert!(rt; has_sum(text, sum), "{text}");
    }
}
