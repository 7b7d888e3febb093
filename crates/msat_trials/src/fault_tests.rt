//! Tests of `msat` where a read or a write fails.

use crate::asking::{failing_sink, failing_source, words_of};
use ms_io::{ByteSource, MemSink, MemSource, NullSink};
use msat_cli::{Status, msat, msat_without_faults};
use std::alloc::Global;
use std::test::Fail;

/// A number of no call.
const NEVER: u64 = 99;

/// Each command that reads, and a file for it: four reads give its bytes, and one more finds the end.
const READS: &str = "satisfy --malleable older(9)|{\"sequence\":9}
satisfy 0|{\"version\":2}
plan 0|{\"version\":2}
audit 0|{\"version\":2}
run|{\"script\":\"51\"}";

/// The status, and whether nothing is written, where four bytes are read a call, and the call of this number fails.
fn read_in_fours(alloc: Global, row: &str, failing: u64) -> Result<(Status, bool), Fail> {
    let (line, file) = row.split_once('|').ok_or("a row")?;
    let words = words_of(alloc, line)?;
    let mut source = failing_source(alloc, file.as_bytes(), 4, failing)?;
    let mut sink = failing_sink(alloc, 4_096, NEVER)?;
    let status = msat(alloc, &words, &mut source, &mut sink);
    Ok((status, sink.written().is_empty()))
}

#[test]
fn each_read_can_fail(rt: HostRuntime) -> Result<(), Fail> {
    for row in READS.lines() {
        for failing in 0..5 {
            let answer = read_in_fours(rt.alloc(), row, failing)?;
            assert_eq!(rt; answer, (Status::ReadFault, true), "{row}");
        }
        let (status, is_empty) = read_in_fours(rt.alloc(), row, 5)?;
        assert!(rt; status != Status::ReadFault && !is_empty, "{row}");
    }
    Ok(())
}

/// The status of `script older(9)`, and whether these bytes are written, into a sink.
fn written(alloc: Global, mut sink: MemSink, wanted: &str) -> Result<(Status, bool), Fail> {
    let words = words_of(alloc, "script older(9)")?;
    let mut source = MemSource::new(Vec::new(alloc), 1, Vec::new(alloc));
    let status = msat(alloc, &words, &mut source, &mut sink);
    Ok((status, sink.written() == wanted.as_bytes()))
}

#[test]
fn each_write_can_fail(rt: HostRuntime) -> Result<(), Fail> {
    let cases = [
        (0, "", Status::WriteFault),
        (1, "59", Status::WriteFault),
        (2, "59b2", Status::WriteFault),
        (3, "59b2\n", Status::Done),
    ];
    for (failing, wanted, ends) in cases {
        let sink = failing_sink(rt.alloc(), 2, failing)?;
        assert_eq!(rt; written(rt.alloc(), sink, wanted)?, (ends, true));
    }
    Ok(())
}

#[test]
fn a_fault_of_the_sink_leaves_a_prefix(rt: HostRuntime) -> Result<(), Fail> {
    let cases: [(u8, &str, Status); 4] = [
        (0, "", Status::WriteFault),
        (3, "59b", Status::WriteFault),
        (4, "59b2", Status::WriteFault),
        (5, "59b2\n", Status::Done),
    ];
    for (room, wanted, ends) in cases {
        let sink = MemSink::new(rt.alloc(), usize::from(room), 2, &[])?;
        assert_eq!(rt; written(rt.alloc(), sink, wanted)?, (ends, true));
    }
    Ok(())
}

#[test]
fn nothing_fails_over_memory(rt: HostRuntime) -> Result<(), Fail> {
    let words = words_of(rt.alloc(), "script older(9)")?;
    let mut source = ByteSource::new(&[]);
    let status = msat_without_faults(rt.alloc(), &words, &mut source, &mut NullSink::new());
    assert_eq!(rt; status.code(), 0);
    Ok(())
}
