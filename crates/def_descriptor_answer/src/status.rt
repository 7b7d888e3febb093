//! How a call of `msat-descriptor` ended.
ghost use Rattle.std.specs.Prelude.{◌≡◌};
ghost use Rattle.def_descriptor_answer.specs.Status.{code_of};

/// How a call of `msat-descriptor` ended. `Done`, `Usage`, `Refused`, `PsbtRefused`, `Unfit` and `NoInput` are answers to
/// the words and the source, with a report; the others come of a fault and of want of memory.
#[derive(Clone, Copy, Debug, PartialEq, Eq)]
pub enum Status {
    /// What was asked for was written.
    Done,
    /// The words are those of no command.
    Usage,
    /// The text is no descriptor, or it doesn't give what was asked for.
    Refused,
    /// The source holds no PSBT, or one with a pair that bars what the descriptor says.
    PsbtRefused,
    /// The descriptor has no sane tree at branch 0 and index 0.
    Unfit,
    /// The PSBT was written, and no input of it is of the descriptor.
    NoInput,
    /// A read of the source failed, and nothing was written.
    ReadFault,
    /// The sink failed, and has a front of the report.
    WriteFault,
    /// Memory was wanting, and nothing was written.
    Memory,
}

impl Status {
    /// The status as the program's exit code. Takes no memory.
    pub fn code(&self) -> u8
        ensures { result ≡ code_of self.now }
    {
        match self {
            Status::Done => 0,
            Status::Usage => 1,
            Status::Refused => 2,
            Status::PsbtRefused => 3,
            Status::Unfit => 4,
            Status::NoInput => 4,
            Status::ReadFault => 5,
            Status::WriteFault => 6,
            Status::Memory => 7,
        }
    }
}
