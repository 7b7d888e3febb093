//! Tests of which signature of a key with several is found, among few and among many that are added one by one. Those of a file
//! are rows of `examples/rows/satisfy.rows`.

use ms_held::Assets;
use ms_oracle::Locks;
use ms_tree::Key;
use std::test::Fail;

const LOCKS: Locks = Locks {
    version: 2,
    sequence: 0,
    locktime: 0,
};

/// The byte of the signatures of each round, how many bytes they have, and the byte of the shortest from then on.
const ROUNDS: [(u8, usize, u8); 4] = [(1, 72, 1), (2, 70, 2), (3, 71, 2), (4, 70, 2)];

/// How many keys have a signature of each round: the second round ends where signatures are few for the last time.
const KEYS: u8 = 8;

/// Bytes of a key by its number.
fn key_bytes(number: u8) -> [u8; 33] {
    let mut bytes = [2; 33];
    bytes[32] = number;
    bytes
}

/// The first byte of the signature that is found for a key with a number, or 0 where none is.
fn found(assets: &Assets, number: u8) -> u8 {
    let Some(key) = Key::from_bytes(&key_bytes(number)) else {
        return 0;
    };
    match assets.sig_of(&key) {
        Some(sig) => sig.first().copied().unwrap_or(0),
        None => 0,
    }
}

/// Adds a signature to each key. Refuses where one isn't added.
fn add_round(assets: &mut Assets, sig: &[u8]) -> Result<(), &'static str> {
    for number in 0..KEYS {
        let key = Key::from_bytes(&key_bytes(number)).ok_or("a key")?;
        if assets.add_another(&key, sig).is_err() {
            return Err("another signature");
        }
    }
    Ok(())
}

#[test]
fn the_shortest_is_found_among_few_and_among_many(rt: HostRuntime) -> Result<(), Fail> {
    let mut assets = Assets::new(rt.alloc(), LOCKS);
    for (byte, length, shortest) in ROUNDS {
        add_round(&mut assets, &[byte; 72][..length.min(72)])?;
        assert!(rt; (0..KEYS).all(|number| found(&assets, number) == shortest));
        assert_eq!(rt; found(&assets, KEYS), 0);
    }
    assert_eq!(rt; assets.pairs().len(), 32);
    Ok(())
}
