//! The top call: the answer to words and a source, written to a sink.

ghost use Rattle.std.specs.Prelude.{◌≡◌, ◌≢◌, ◌≤◌, None};
ghost use Rattle.def_psbt_answer.specs.Words.{request_of};
ghost use Rattle.ms_io.specs.Endings.{Writes};
ghost use Rattle.ms_io.specs.Sides.{call, side, Rose};
ghost use Rattle.ms_io.specs.Reads.{ReadsFront, IsUnread};
ghost use Rattle.psbt_cli.specs.Ends.{Ends, EndsAsUsage, EndsAsAnswered, IsReadFor};
ghost use Rattle.psbt_cli.specs.Shown.{ShowsFinalized, ShowsInspected, ShowsExtracted, ShowsHashes, ShowsVerified, RefusesSource, ShowsCombined};
ghost use Rattle.psbt_cli.specs.Promises.{LosesNothing, ShowsWitnesses, TellsLacking, AnswersAlike, ComparesForms, ExtractsTransaction, CombinesParts};
ghost use Rattle.psbt_cli.specs.Scaffolding.Steps.{WritesResult};

use crate::answer::{Stop, answer_words};
use def_psbt_answer::Status;
use ms_combine_laws::laws::combined;
use ms_io::{Sink, Source, put_report};
use ms_psbt_laws::laws::{network, written};
use ms_psbt_report::Reply;
use ms_spend_laws::laws::{ready, tried, unsatisfied, verified};
use ms_words::Word;
use std::alloc::Global;

const USAGE: &[u8] = b"refused usage\n";

const TOO_LONG: &[u8] = b"refused psbt TooLong\n";

/// Answers the words of a command line: makes the report, writes it to the sink by one call of `put_report`, and gives the status.
/// The words are one of `finalize`, `inspect`, `extract`, `hashes` and `verify`, or `--unverified` behind `finalize`, `inspect` or `hashes`: no
/// signature is looked at. The source holds a PSBT, as its bytes or as base64 (BIP 174, BIP 370). Or the word is `combine`, and each line of
/// the source has the base64 of one. The source is read only for these words.
pub fn msat_psbt<S: Source, K: Sink>(
    alloc: Global,
    words: &[Word],
    source: &mut S,
    sink: &mut K,
) -> Status
    // How the call ends: the answer to the words and to the source, written whole, or a fault, or want of memory.
    ensures end { Ends (call words.now (side S.left S.faults source.old source.new) (side K.written K.faults sink.old sink.new) result) }
    ensures usage { EndsAsUsage (call words.now (side S.left S.faults source.old source.new) (side K.written K.faults sink.old sink.new) result) }
    ensures answered { EndsAsAnswered (call words.now (side S.left S.faults source.old source.new) (side K.written K.faults sink.old sink.new) result) }

    // Faults are counted, and come only where the count rose.
    ensures read_fault { result ≡ Status.ReadFault → Rose (S.faults source.old) (S.faults source.new) }
    ensures write_fault { result ≡ Status.WriteFault → Rose (K.faults sink.old) (K.faults sink.new) }
    ensures read_faults_later { S.faults source.old ≤ S.faults source.new }
    ensures write_faults_later { K.faults sink.old ≤ K.faults sink.new }

    // The source is read to its end for words that name a command, and stays as it is for others.
    ensures front { ReadsFront (S.left source.old) (S.left source.new) }
    ensures read { request_of words.now ≢ None → IsReadFor result (side S.left S.faults source.old source.new) }
    ensures unread { request_of words.now ≡ None → IsUnread (side S.left S.faults source.old source.new) }

    // What is written, for each command, of the PSBT that the source holds; and a source that holds none is refused by its first
    // wrong place.
    ensures finalized { ShowsFinalized (call words.now (side S.left S.faults source.old source.new) (side K.written K.faults sink.old sink.new) result) }
    ensures inspected { ShowsInspected (call words.now (side S.left S.faults source.old source.new) (side K.written K.faults sink.old sink.new) result) }
    ensures extracted { ShowsExtracted (call words.now (side S.left S.faults source.old source.new) (side K.written K.faults sink.old sink.new) result) }
    ensures hashes { ShowsHashes (call words.now (side S.left S.faults source.old source.new) (side K.written K.faults sink.old sink.new) result) }
    ensures verified { ShowsVerified (call words.now (side S.left S.faults source.old source.new) (side K.written K.faults sink.old sink.new) result) }
    ensures refused { RefusesSource (call words.now (side S.left S.faults source.old source.new) (side K.written K.faults sink.old sink.new) result) }
    ensures combined { ShowsCombined (call words.now (side S.left S.faults source.old source.new) (side K.written K.faults sink.old sink.new) result) }

    // Each input that is made final has a canonical satisfaction, and these are the tried ones of which one exists; the interpreter
    // accepts its witness, without the option also under exactly the check of consensus, and nobody can change it. An Unsatisfied one has nothing to accept; where it has no plan no signatures would
    // be enough, and where each key that is asked signs it is Ready.
    ensures witnesses { ShowsWitnesses (call words.now (side S.left S.faults source.old source.new) (side K.written K.faults sink.old sink.new) result) }
    ensures lacking { TellsLacking (call words.now (side S.left S.faults source.old source.new) (side K.written K.faults sink.old sink.new) result) }

    // What `finalize` writes is read again with nothing lost, and answered again by the same bytes; what `extract` writes is read
    // again as the transaction with each final scriptSig and each final witness.
    ensures nothing_lost { LosesNothing (call words.now (side S.left S.faults source.old source.new) (side K.written K.faults sink.old sink.new) result) }
    ensures transaction { ExtractsTransaction (call words.now (side S.left S.faults source.old source.new) (side K.written K.faults sink.old sink.new) result) }

    // Where each signature is good, the answer of `finalize` is one with the option and without it, and `inspect` finds one state,
    // satisfaction and plan. An input of two states is Ready with the option, and Unsatisfied without it.
    ensures alike { AnswersAlike (call words.now (side S.left S.faults source.old source.new) (side K.written K.faults sink.old sink.new) result) }
    ensures compared { ComparesForms (call words.now (side S.left S.faults source.old source.new) (side K.written K.faults sink.old sink.new) result) }

    // What `combine` writes is read again, with the version, the transaction and exactly the keys of its parts; and combined again with
    // its parts it stays the same.
    ensures parts { CombinesParts (call words.now (side S.left S.faults source.old source.new) (side K.written K.faults sink.old sink.new) result) }
{
    tried();
    ready();
    unsatisfied();
    verified();
    written();
    network();
    combined();
    let reply = answer_words(alloc, words, source);
    write_reply(sink, reply)
}

/// Writes the report of a reply, and gives its status.
fn write_reply<K: Sink>(sink: &mut K, reply: Result<Reply, Stop>) -> Status
    ensures end { WritesResult reply (side K.written K.faults sink.old sink.new) result }
    ensures faults_later { K.faults sink.old ≤ K.faults sink.new }
{
    match reply {
        Ok(reply) => write(sink, reply.status, reply.report.as_slice()),
        Err(Stop::Usage) => write(sink, Status::Usage, USAGE),
        Err(Stop::TooLong) => write(sink, Status::Refused, TOO_LONG),
        Err(Stop::ReadFault) => Status::ReadFault,
        Err(Stop::Memory) => Status::Memory,
    }
}

/// Writes a report with this status.
fn write<K: Sink>(sink: &mut K, status: Status, report: &[u8]) -> Status
    ensures end { Writes Status.WriteFault status report.now (side K.written K.faults sink.old sink.new) result }
    ensures faults_later { K.faults sink.old ≤ K.faults sink.new }
{
    put_report(sink, report, status, Status::WriteFault)
}
