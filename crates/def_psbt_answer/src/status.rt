//! How a call of `msat-psbt` ended.
ghost use Rattle.std.specs.Prelude.{◌≡◌};
ghost use Rattle.def_psbt_answer.specs.Status.{code_of};

/// How a call of `msat-psbt` ended. `Done`, `Usage`, `Refused` and `Open` are answers to the words and the source, with a
/// report; the others come of faults and of want of memory.
#[derive(Clone, Copy, Debug, PartialEq, Eq)]
pub enum Status {
    /// What was asked for was written, and no input stays open.
    Done,
    /// The words are those of no command.
    Usage,
    /// The source gives no PSBT.
    Refused,
    /// Some input stays open.
    Open,
    /// The source failed, and nothing was written.
    ReadFault,
    /// The sink failed, and has a front of the report.
    WriteFault,
    /// Memory was wanting, and nothing was written.
    Memory,
}

impl Status {
    /// The status as the program's exit code. Takes no memory.
    pub fn code(&self) -> u8
        ensures { result ≡ code_of self.now }
    {
        match self {
            Status::Done => 0,
            Status::Usage => 1,
            Status::Refused => 3,
            Status::Open => 4,
            Status::ReadFault => 5,
            Status::WriteFault => 6,
            Status::Memory => 7,
        }
    }
}
