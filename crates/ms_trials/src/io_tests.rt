//! Tests of reads and writes in pieces, and of those that fail, over memory and over std. Whole files and reports that go through
//! std are rows of `examples/`.

ghost use Rattle.std.specs.Prelude.{◌≤◌, ◌^◌, IfOk};

use ms_io::*;
use std::alloc::{AllocError, Global};
use std::io::{self, Cursor, ErrorKind, Read, Write};
use std::process::Abort;
use std::test::Fail;

#[test]
fn a_full_writer_is_a_fault(rt: HostRuntime) -> Result<(), Fail> {
    let mut room = [0; 4];
    let mut sink = StdSink::new(room.as_mut_slice());
    assert_eq!(rt; put_all(&mut sink, b"abcde"), Err(SinkFailed));
    assert_eq!(rt; sink.faults, 1);
    Ok(())
}

// A reader or a writer that moves at most `chunk` bytes a call. The call of the number `fails`, from 0, fails.
#[derive(Drop)]
struct Halting<T> {
    inner: T,
    chunk: usize,
    fails: u8,
    calls: u8,
}

impl<T> Halting<T> {
    fn new(inner: T, chunk: usize, fails: u8) -> Halting<T> {
        Halting {
            inner,
            chunk,
            fails,
            calls: 0,
        }
    }

    // How many of so many bytes the next call may move.
    fn moved(&mut self, most: usize) -> io::Result<usize>
        ensures { IfOk result (λ n. n ≤ most) }
    {
        let call = self.calls;
        self.calls = self.calls.saturating_add(1);
        if call == self.fails {
            return Err(io::Error::from(ErrorKind::WouldBlock));
        }
        Ok(self.chunk.min(most))
    }
}

impl<T: Read> Read for Halting<T> {
    fn read(&mut self, buf: &mut [u8]) -> io::Result<usize> {
        let count = self.moved(buf.len())?;
        self.inner.read(&mut buf[..count])
    }
}

impl<T: Write> Write for Halting<T> {
    fn write(&mut self, buf: &[u8]) -> io::Result<usize> {
        let count = self.moved(buf.len())?;
        self.inner.write(&buf[..count])
    }

    fn flush(&mut self) -> io::Result<()> {
        self.inner.flush()
    }
}

// A number of no call.
const NEVER: u8 = 255;

#[test]
fn std_sources_are_read_whole(rt: HostRuntime) -> Result<(), Fail> {
    // bytes a call, limit, what stops the reading
    let cases: [(usize, usize, Option<ReadStop>); 4] = [
        (9, 7, None),
        (1, 7, None),
        (3, 9, None),
        (3, 6, Some(ReadStop::TooLong)),
    ];
    for (chunk, limit, stop) in cases {
        assert!(rt; limit <= 9);
        let reader = Halting::new(Cursor::new(b"abcdefg"), chunk, NEVER);
        let mut source = StdSource::new(reader);
        match read_all(rt.alloc(), &mut source, limit) {
            Ok(bytes) => {
                assert_eq!(rt; stop, None);
                assert_eq!(rt; bytes.as_slice(), b"abcdefg".as_slice());
            }
            Err(why) => assert_eq!(rt; stop, Some(why)),
        }
        assert_eq!(rt; source.faults, 0);
    }
    Ok(())
}

#[test]
fn a_reader_that_fails_is_a_fault(rt: HostRuntime) -> Result<(), Fail> {
    let reader = Halting::new(Cursor::new(b"abcdefghij"), 6, 1);
    let mut source = StdSource::new(reader);
    let mut buf = [0; 8];
    assert_eq!(rt; source.read(&mut buf), Ok(6));
    assert_eq!(rt; &buf[..6], b"abcdef".as_slice());
    assert_eq!(rt; source.faults, 0);
    assert_eq!(rt; source.read(&mut buf), Err(SourceFailed));
    assert_eq!(rt; source.faults, 1);
    assert_eq!(rt; source.read(&mut buf), Ok(4));
    assert_eq!(rt; &buf[..4], b"ghij".as_slice());
    assert_eq!(rt; source.faults, 1);
    let reader = Halting::new(Cursor::new(b"abcdefg"), 3, 2);
    let mut source = StdSource::new(reader);
    let read = read_all(rt.alloc(), &mut source, 7);
    assert_eq!(rt; read.map(|bytes| bytes.len()), Err(ReadStop::Fault));
    assert_eq!(rt; source.faults, 1);
    Ok(())
}

#[test]
fn a_writer_that_fails_is_a_fault(rt: HostRuntime) -> Result<(), Fail> {
    let writer = Halting::new(Vec::new(rt.alloc()), 3, 1);
    let mut sink = StdSink::new(writer);
    assert_eq!(rt; put_all(&mut sink, b"abcdefg"), Err(SinkFailed));
    assert_eq!(rt; sink.writer.inner.as_slice(), b"abc".as_slice());
    assert_eq!(rt; sink.faults, 1);
    assert_eq!(rt; put_all(&mut sink, b"defg"), Ok(()));
    assert_eq!(rt; sink.writer.inner.as_slice(), b"abcdefg".as_slice());
    assert_eq!(rt; sink.faults, 1);
    Ok(())
}

#[test]
fn a_byte_source_gives_all(rt: HostRuntime) -> Result<(), Fail> {
    let mut source = ByteSource::new(b"abcde");
    let mut buf = [0; 4];
    assert_eq!(rt; source.read(&mut buf), Ok(4));
    assert_eq!(rt; buf, *b"abcd");
    assert_eq!(rt; source.read(&mut buf), Ok(1));
    assert_eq!(rt; source.read(&mut buf), Ok(0));
    assert_eq!(rt; put_all(&mut NullSink::new(), b"abc"), Ok(()));
    Ok(())
}

#[test]
fn a_memory_sink_keeps_to_its_bounds(rt: HostRuntime) -> Result<(), Fail> {
    // room, chunk, failing calls, whether all of `abcdefg` goes in, and what does
    let cases: [(usize, usize, &[u64], bool, &[u8]); 7] = [
        (7, 7, &[], true, b"abcdefg"),
        (7, 2, &[], true, b"abcdefg"),
        (6, 7, &[], false, b"abcdef"),
        (0, 7, &[], false, b""),
        (9, 3, &[0], false, b""),
        (9, 3, &[2], false, b"abcdef"),
        (9, 3, &[3], true, b"abcdefg"),
    ];
    for (room, chunk, fail_at, all, want) in cases {
        assert!(rt; 1 <= chunk && room <= 9);
        let mut sink = MemSink::new(rt.alloc(), room, chunk, fail_at)?;
        assert_eq!(rt; put_all(&mut sink, b"abcdefg").is_ok(), all);
        assert_eq!(rt; sink.written(), want);
    }
    Ok(())
}

// What a read gives: how many bytes, and four bytes of zeros with these in front.
type Given = (usize, [u8; 4]);

// Compares what a read of so many bytes, up to four, gives; none where it fails, and then no byte is changed.
fn gives(rt: &impl Abort, source: &mut MemSource, size: usize, wanted: Option<Given>) {
    let mut buf = [0; 4];
    match (source.read(&mut buf[..size.min(4)]), wanted) {
        (Ok(count), Some(given)) => assert_eq!(rt; (count, buf), given),
        (Err(SourceFailed), None) => assert_eq!(rt; buf, [0; 4]),
        _ => assert!(rt; false),
    }
}

#[test]
fn a_memory_source_keeps_to_its_bounds(rt: HostRuntime) -> Result<(), Fail> {
    let bytes = Vec::from_slice(rt.alloc(), b"abcdefg")?;
    let fail_at = Vec::from_slice(rt.alloc(), &[1, 3])?;
    let mut source = MemSource::new(bytes, 3, fail_at);
    let reads: [(usize, Option<Given>); 6] = [
        (4, Some((3, *b"abc\0"))),
        (4, None),
        (2, Some((2, *b"de\0\0"))),
        (4, None),
        (4, Some((2, *b"fg\0\0"))),
        (4, Some((0, [0; 4]))),
    ];
    for (size, wanted) in reads {
        gives(&rt, &mut source, size, wanted);
    }
    Ok(())
}

// What reading `abcdefg` from memory answers.
fn read_letters(
    alloc: Global,
    chunk: usize,
    fail_at: &[u64],
    limit: usize,
) -> Result<Result<Vec<u8>, ReadStop>, AllocError>
    requires chunk { 1 ≤ chunk }
    requires limit { limit ≤ 2 ^ 31 }
{
    let bytes = Vec::from_slice(alloc, b"abcdefg")?;
    let fail_at = Vec::from_slice(alloc, fail_at)?;
    let mut source = MemSource::new(bytes, chunk, fail_at);
    Ok(read_all(alloc, &mut source, limit))
}

#[test]
fn reads_to_the_end(rt: HostRuntime) -> Result<(), Fail> {
    // chunk, failing calls, limit, what stops the reading
    let cases: [(usize, &[u64], usize, Option<ReadStop>); 9] = [
        (9, &[], 7, None),
        (7, &[], 9, None),
        (1, &[], 7, None),
        (3, &[4], 7, None),
        (3, &[], 6, Some(ReadStop::TooLong)),
        (9, &[], 0, Some(ReadStop::TooLong)),
        (3, &[0], 7, Some(ReadStop::Fault)),
        (3, &[2], 7, Some(ReadStop::Fault)),
        (3, &[3], 7, Some(ReadStop::Fault)),
    ];
    for (chunk, fail_at, limit, stop) in cases {
        assert!(rt; 1 <= chunk && limit <= 9);
        match read_letters(rt.alloc(), chunk, fail_at, limit)? {
            Ok(bytes) => {
                assert_eq!(rt; stop, None);
                assert_eq!(rt; bytes.as_slice(), b"abcdefg".as_slice());
            }
            Err(why) => assert_eq!(rt; stop, Some(why)),
        }
    }
    Ok(())
}
