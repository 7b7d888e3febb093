//! `msat_psbt` as a program of words.
ghost use Rattle.def_psbt_answer.specs.Answer.{Answer};
ghost use Rattle.def_psbt_answer.specs.Status.{code_of};
ghost use Rattle.psbt_lines.specs.Frame.{status_of as the_status_of};
ghost use Rattle.psbt_lines.specs.Promises.{IsCallOfPsbt};

use def_psbt_answer::Status;
use ms_frame::OfWords;
use ms_io::{Sink, Source};
use ms_lines::Ending;
use psbt_cli::{Word, msat_psbt};
use std::alloc::Global;

/// `msat_psbt`.
#[derive(Clone, Copy, Debug)]
pub struct Psbt;

impl OfWords for Psbt {
    type Status = Status;

    ghost answers = { Answer };

    ghost code = { code_of };

    ghost status_of = { the_status_of };

    ghost promises = { IsCallOfPsbt };

    fn call<S: Source, K: Sink>(
        &self,
        alloc: Global,
        words: &[Word],
        source: &mut S,
        sink: &mut K,
    ) -> Status {
        msat_psbt(alloc, words, source, sink)
    }

    fn is_whole(status: Status) -> bool {
        match status {
            Status::Memory | Status::ReadFault | Status::WriteFault => false,
            _ => true,
        }
    }

    fn code(status: Status) -> u8 {
        status.code()
    }

    fn status_of(ending: Ending) -> Status {
        match ending {
            Ending::Done => Status::Done,
            Ending::ReadFault => Status::ReadFault,
            Ending::WriteFault => Status::WriteFault,
            Ending::Memory => Status::Memory,
        }
    }
}
