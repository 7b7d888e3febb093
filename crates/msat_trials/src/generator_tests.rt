//! What `gen` makes of a number.

use ms_hash::{HashValue, sha256};
use ms_oracle::{Locks, SigPair};
use msat_cli::generated;
use std::test::Fail;

// The hash value is the SHA-256 of 32 bytes 03, by Python's hashlib over OpenSSL.
const TEXT: &str = "thresh(2,\
    pk(020101010101010101010101010101010101010101010101010101010101010101),\
    s:pk(020202020202020202020202020202020202020202020202020202020202020202),\
    s:pk(020303030303030303030303030303030303030303030303030303030303030303),\
    aj:and_v(v:sha256(648aa5c579fb30f38af744d97d6ec840c7a91277a499a0d780f3e7314eca090b),1))";

#[test]
fn text_of_four_children(rt: HostRuntime) -> Result<(), Fail> {
    let (text, _) = generated(rt.alloc(), 4)?;
    assert_eq!(rt; text.as_str(), TEXT);
    Ok(())
}

/// Whether this is a pair of this signature and of the key with 32 such bytes behind a first byte 02.
fn is_pair(pair: Option<&SigPair>, byte: u8, sig: &[u8]) -> bool {
    let mut key = [byte; 33];
    key[0] = 2;
    match pair {
        Some(pair) => pair.key() == key.as_slice() && pair.sig() == sig,
        None => false,
    }
}

#[test]
fn assets_of_four_children(rt: HostRuntime) -> Result<(), Fail> {
    let (_, assets) = generated(rt.alloc(), 4)?;
    let locks = Locks {
        version: 2,
        sequence: 4_294_967_294,
        locktime: 0,
    };
    assert_eq!(rt; assets.locks(), locks);
    assert_eq!(rt; assets.pairs().len(), 4);
    let wanted: [(u8, &[u8]); 4] = [(1, &[0; 70]), (2, &[1; 71]), (3, &[2; 72]), (4, &[3; 73])];
    for (at, (byte, sig)) in wanted.iter().enumerate() {
        assert!(rt; is_pair(assets.pairs().get(at), *byte, sig));
    }
    for i in 0..4_u8 {
        let value = HashValue::Sha256(sha256(&[i; 32]));
        assert_eq!(rt; assets.preimage_of(&value), Some([i; 32].as_slice()));
    }
    let value = HashValue::Sha256(sha256(&[4; 32]));
    assert_eq!(rt; assets.preimage_of(&value), None);
    Ok(())
}
