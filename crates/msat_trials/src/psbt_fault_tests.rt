//! Tests of `msat-psbt` where a read or a write fails.

use crate::asking::{failing_sink, failing_source, words_of};
use psbt_cli::{Status, msat_psbt};
use std::alloc::Global;
use std::test::Fail;

/// A PSBT without inputs, of one output.
const NO_INPUTS: &[u8] =
    b"psbt\xff\x01\x00\x29\x02\x00\x00\x00\x00\x01\x90\x5f\x01\x00\x00\x00\x00\x00\x16\x00\x14\x07\x07\x07\x07\x07\x07\x07\x07\x07\x07\x07\x07\x07\x07\x07\x07\x07\x07\x07\x07\x00\x00\x00\x00\x00\x00";

/// The status, and whether these bytes are written, where the source gives sixteen bytes a call, the sink takes five, and these
/// calls fail.
fn called(
    alloc: Global,
    word: &str,
    failing_read: u64,
    failing_write: u64,
    wanted: &[u8],
) -> Result<(Status, bool), Fail> {
    let words = words_of(alloc, word)?;
    let mut source = failing_source(alloc, NO_INPUTS, 16, failing_read)?;
    let mut sink = failing_sink(alloc, 5, failing_write)?;
    let status = msat_psbt(alloc, &words, &mut source, &mut sink);
    Ok((status, sink.written() == wanted))
}

#[test]
fn each_read_of_a_psbt_can_fail(rt: HostRuntime) -> Result<(), Fail> {
    // Four reads give the fifty-one bytes, and one more finds the end.
    for failing in 0..5 {
        let answer = called(rt.alloc(), "finalize", failing, 99, b"")?;
        assert_eq!(rt; answer, (Status::ReadFault, true));
    }
    let answer = called(rt.alloc(), "finalize", 5, 99, NO_INPUTS)?;
    assert_eq!(rt; answer, (Status::Done, true));
    Ok(())
}

#[test]
fn each_write_of_a_report_can_fail(rt: HostRuntime) -> Result<(), Fail> {
    let cases: [(u64, &[u8], Status); 4] = [
        (0, b"", Status::WriteFault),
        (1, b"not f", Status::WriteFault),
        (2, b"not final ", Status::WriteFault),
        (3, b"not final 0\n", Status::Open),
    ];
    for (failing, wanted, ends) in cases {
        let answer = called(rt.alloc(), "extract", 99, failing, wanted)?;
        assert_eq!(rt; answer, (ends, true));
    }
    Ok(())
}
