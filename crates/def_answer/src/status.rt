//! How a call of the program ended.
ghost use Rattle.std.specs.Prelude.{◌≡◌};
ghost use Rattle.def_answer.specs.Status.{code_of};

/// How a call of the program ended, in the order of the exit codes, from 0 on. `Done`, `Usage`, `TextRefused`,
/// `FileRefused`, `NoSatisfaction`, `ScriptRefused`, `NotAccepted` and `NoReading` are answers to the words and the source, with a report;
/// the others come of faults and of want of memory.
#[derive(Clone, Copy, Debug, PartialEq, Eq)]
pub enum Status {
    /// What was asked for was written whole.
    Done,
    /// The words are those of no command.
    Usage,
    /// The text has no tree, or there is a reason against its tree, of those that the command asks for.
    TextRefused,
    /// The asset file, the run file or the plan file is refused, or has over 1,048,576 bytes.
    FileRefused,
    /// No canonical satisfaction of the text exists with the file's assets, or none even where all keys of a plan file sign.
    NoSatisfaction,
    /// The source failed where a file is wanted, and nothing was written.
    ReadFault,
    /// The sink failed, and has a front of the report.
    WriteFault,
    /// Memory was wanting, and nothing was written.
    Memory,
    /// The interpreter refused the script of a run file.
    ScriptRefused,
    /// The run file's script isn't the text's, or the interpreter refused its stack.
    NotAccepted,
    /// No miniscript that is valid by the limits of policy, whose keys of `pk_h` are listed, has the Script that was given.
    NoReading,
}

impl Status {
    /// The status as the program's exit code: 0 to 10. Takes no memory.
    pub fn code(&self) -> u8
        ensures { result ≡ code_of self.now }
    {
        match self {
            Status::Done => 0,
            Status::Usage => 1,
            Status::TextRefused => 2,
            Status::FileRefused => 3,
            Status::NoSatisfaction => 4,
            Status::ReadFault => 5,
            Status::WriteFault => 6,
            Status::Memory => 7,
            Status::ScriptRefused => 8,
            Status::NotAccepted => 9,
            Status::NoReading => 10,
        }
    }
}
