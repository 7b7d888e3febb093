//! The top call where nothing fails, and what a policy tells of satisfactions.
ghost use Rattle.std.specs.Prelude.{◌≡◌, ◌⊎◌, ℕ, List, Some};
ghost use Rattle.def_answer.specs.Answer.{Answer};
ghost use Rattle.def_answer.specs.Sources.{ReadsSource};
ghost use Rattle.def_answer.specs.Words.{HasNoForm};
ghost use Rattle.msat_cli.specs.Policies.{TellsSatisfied};
ghost use Rattle.ms_io.specs.Reads.{ReadsFront};

use crate::program::msat;
use def_answer::Status;
use ms_io::{ByteSource, NullSink};
use ms_words::Word;
use std::alloc::Global;

/// `msat` over a source and a sink that never fail: the words and what the source holds tell the status, want of
/// memory aside.
pub fn msat_without_faults(
    alloc: Global,
    words: &[Word],
    source: &mut ByteSource<'_>,
    sink: &mut NullSink,
) -> Status
    ensures usage { HasNoForm words.now → result ≡ Status.Usage }
    ensures answered { (s : Status) (report : List ℕ) → Answer words.now source.old s report → (result ≡ s) ⊎ (result ≡ Status.Memory) }
    ensures front { ReadsFront (Some source.old) (Some source.new) }
    ensures unread { ¬ ReadsSource words.now → source.new ≡ source.old }
{
    msat(alloc, words, source, sink)
}

/// The policy that `policy TEXT` prints is true of what a file holds exactly where `satisfy TEXT` finds a satisfaction
/// with that file.
pub fn policy_tells_satisfied()
    ensures { TellsSatisfied }
{}
