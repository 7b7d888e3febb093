//! `msat` as a program of words.
ghost use Rattle.def_answer.specs.Answer.{Answer};
ghost use Rattle.def_answer.specs.Status.{code_of};
ghost use Rattle.msat_lines.specs.Frame.{status_of as the_status_of};
ghost use Rattle.msat_cli.specs.Promises.{IsCallOfMsat};

use def_answer::Status;
use ms_frame::OfWords;
use ms_io::{Sink, Source};
use ms_lines::Ending;
use msat_cli::{Word, msat};
use std::alloc::Global;

/// `msat`.
#[derive(Clone, Copy, Debug)]
pub struct Msat;

impl OfWords for Msat {
    type Status = Status;

    ghost answers = { Answer };

    ghost code = { code_of };

    ghost status_of = { the_status_of };

    ghost promises = { IsCallOfMsat };

    fn call<S: Source, K: Sink>(
        &self,
        alloc: Global,
        words: &[Word],
        source: &mut S,
        sink: &mut K,
    ) -> Status {
        msat(alloc, words, source, sink)
    }

    fn is_whole(status: Status) -> bool {
        match status {
            Status::Memory | Status::ReadFault | Status::WriteFault => false,
            _ => true,
        }
    }

    fn code(status: Status) -> u8 {
        status.code()
    }

    fn status_of(ending: Ending) -> Status {
        match ending {
            Ending::Done => Status::Done,
            Ending::ReadFault => Status::ReadFault,
            Ending::WriteFault => Status::WriteFault,
            Ending::Memory => Status::Memory,
        }
    }
}
