//! The top call: the answer to words, written to a sink.

ghost use Rattle.std.specs.Prelude.{◌≡◌, ◌≤◌};
ghost use Rattle.ms_io.specs.Endings.{Writes};
ghost use Rattle.ms_io.specs.Sides.{call, side, Rose};
ghost use Rattle.ms_io.specs.Reads.{ReadsFront, IsUnread};
ghost use Rattle.descriptor_cli.specs.Ends.{AsksUpdate, Ends, EndsAsUsage, EndsAsAnswered, IsReadFor};
ghost use Rattle.descriptor_cli.specs.Scaffolding.Steps.{WritesResult};

use crate::answer::{Stop, answer_words};
use def_descriptor_answer::Status;
use def_descriptor_answer::laws::one_answer;
use ms_descriptor_replies::Reply;
use ms_io::{Sink, Source, put_report};
use ms_words::Word;
use std::alloc::Global;

const USAGE: &[u8] = b"refused usage\n";

const TOO_LONG: &[u8] = b"refused psbt TooLong\n";

/// Answers the words of a command line: makes the report, writes it to the sink by one call of `put_report`, and gives the
/// status. The words are `check D`, `derive [--testnet or --regtest] [--branch B] D INDEX [COUNT]`, or `update D COUNT`. The source is
/// read for `update` alone, where D and its trees aren't refused: it holds a PSBT, as its bytes or as base64 (BIP 174, BIP 370).
pub fn msat_descriptor<S: Source, K: Sink>(
    alloc: Global,
    words: &[Word],
    source: &mut S,
    sink: &mut K,
) -> Status
    // How the call ends: the answer to the words and the source, written whole, or a fault, or want of memory.
    ensures end { Ends (call words.now (side S.left S.faults source.old source.new) (side K.written K.faults sink.old sink.new) result) }
    ensures usage { EndsAsUsage (call words.now (side S.left S.faults source.old source.new) (side K.written K.faults sink.old sink.new) result) }
    ensures answered { EndsAsAnswered (call words.now (side S.left S.faults source.old source.new) (side K.written K.faults sink.old sink.new) result) }

    // Faults are counted, and come only where the count rose.
    ensures read_fault { result ≡ Status.ReadFault → Rose (S.faults source.old) (S.faults source.new) }
    ensures write_fault { result ≡ Status.WriteFault → Rose (K.faults sink.old) (K.faults sink.new) }
    ensures read_faults_later { S.faults source.old ≤ S.faults source.new }
    ensures write_faults_later { K.faults sink.old ≤ K.faults sink.new }

    // The source is read to its end for an update, and stays as it is for anything else, and where the descriptor or a tree is refused.
    ensures front { ReadsFront (S.left source.old) (S.left source.new) }
    ensures read { AsksUpdate words.now → IsReadFor result (side S.left S.faults source.old source.new) }
    ensures unread { (AsksUpdate words.now → ⊥) → IsUnread (side S.left S.faults source.old source.new) }
    ensures refused { result ≡ Status.Refused → IsUnread (side S.left S.faults source.old source.new) }
{
    one_answer();
    let reply = answer_words(alloc, words, source);
    write_reply(sink, reply)
}

/// Writes the report of a reply, and gives its status.
fn write_reply<K: Sink>(sink: &mut K, reply: Result<Reply, Stop>) -> Status
    ensures end { WritesResult reply (side K.written K.faults sink.old sink.new) result }
    ensures faults_later { K.faults sink.old ≤ K.faults sink.new }
{
    match reply {
        Ok(reply) => write(sink, reply.status, reply.report.as_slice()),
        Err(Stop::Usage) => write(sink, Status::Usage, USAGE),
        Err(Stop::TooLong) => write(sink, Status::PsbtRefused, TOO_LONG),
        Err(Stop::ReadFault) => Status::ReadFault,
        Err(Stop::Memory) => Status::Memory,
    }
}

/// Writes a report with this status.
fn write<K: Sink>(sink: &mut K, status: Status, report: &[u8]) -> Status
    ensures end { Writes Status.WriteFault status report.now (side K.written K.faults sink.old sink.new) result }
    ensures faults_later { K.faults sink.old ≤ K.faults sink.new }
{
    put_report(sink, report, status, Status::WriteFault)
}
