//! Tests of witnesses that are given as bytes: which are refused, and which replays. What is written and replayed of a
//! satisfaction are rows of `examples/rows/satisfy.rows`.

use ms_interp::ScriptFault;
use ms_oracle::{Locks, Pairs, SigCheck, member};
use ms_witness::{ReplayStop, WitnessFault, read_witness, replay};
use std::alloc::Global;
use std::test::Fail;

const LOCKS: Locks = Locks {
    version: 2,
    sequence: 0,
    locktime: 0,
};

#[test]
fn witnesses_are_refused(rt: HostRuntime) {
    let cases: [(&[u8], WitnessFault); 8] = [
        (b"", WitnessFault::Truncated),
        (b"\x00", WitnessFault::Empty),
        (b"\x00\x51", WitnessFault::Empty),
        (b"\xfd\x01\x00", WitnessFault::NonMinimalSize),
        (b"\xfd\x11\x27", WitnessFault::TooLong),
        (b"\x01\xfd\x11\x27", WitnessFault::TooLong),
        (b"\x01\x02\xaa", WitnessFault::Truncated),
        (b"\x01\x01\x51\x00", WitnessFault::Trailing),
    ];
    for (bytes, fault) in cases {
        assert_eq!(rt; read_witness(rt.alloc(), bytes).err(), Some(fault));
    }
}

#[test]
fn each_front_of_a_witness_is_truncated(rt: HostRuntime) -> Result<(), Fail> {
    let witness = b"\x03\x02\xaa\xbb\x00\x04\x51\x52\x53\x54";
    for length in 0..10 {
        let fault = read_witness(rt.alloc(), &witness[..length]).err();
        assert_eq!(rt; fault, Some(WitnessFault::Truncated));
    }
    let (stack, script) = read_witness(rt.alloc(), witness)?;
    assert_eq!(rt; stack.len(), 2);
    assert_eq!(rt; script.as_slice(), b"\x51\x52\x53\x54".as_slice());
    Ok(())
}

// The program of the Script 51 by Python's hashlib over OpenSSL.
const OF_ONE: [u8; 34] =
    *b"\x00\x20\x4a\xe8\x15\x72\xf0\x6e\x1b\x88\xfd\x5c\xed\x7a\x1a\x00\x09\x45\x43\x2e\x83\xe1\x55\x1e\x6f\x72\x1e\xe9\xc0\x0b\x8c\xc3\x32\x60";

// Why a witness's replay is refused where no signature is good.
fn refused(alloc: Global, program: &[u8; 34], bytes: &[u8]) -> Option<ReplayStop> {
    let pairs = Pairs::new(alloc);
    let table = pairs.as_slice();
    let sigs = SigCheck::new(table, |key: &[u8], sig: &[u8]| member(table, key, sig));
    replay(alloc, program, bytes, &LOCKS, &sigs).err()
}

#[test]
fn replays_are_refused(rt: HostRuntime) {
    let wrong = ReplayStop::WrongProgram {
        wanted: [0; 34],
        found: OF_ONE,
    };
    let trailing = ReplayStop::Witness(WitnessFault::Trailing);
    let unclean = ReplayStop::Refused(ScriptFault::CleanStack, 1);
    let cases: [([u8; 34], &[u8], Option<ReplayStop>); 5] = [
        ([0; 34], b"\x01\x01\x51", Some(wrong)),
        ([0; 34], b"\x01\x01\x51\x00", Some(trailing)),
        ([0; 34], b"\x02\x00\x01\x51", Some(wrong)),
        (OF_ONE, b"\x02\x00\x01\x51", Some(unclean)),
        (OF_ONE, b"\x01\x01\x51", None),
    ];
    for (program, bytes, stop) in cases {
        assert_eq!(rt; refused(rt.alloc(), &program, bytes), stop);
    }
}
