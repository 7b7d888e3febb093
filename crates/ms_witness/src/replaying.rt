//! The replay of a witness: the run of its Script on its stack, as the spending of an output does it.

ghost use Rattle.std.specs.Prelude.{◌≡◌};
ghost use Rattle.ms_interp.specs.Answering.{given_by};
ghost use Rattle.ms_witness.specs.Replaying.{replay as the_replay};
ghost use Rattle.ms_witness.specs.Answering.{Replays, stop_of_fault, stop_of_run};

use crate::fault::WitnessFault;
use crate::reading::read_witness;
use ms_interp::{RunReport, RunStop, ScriptFault, run};
use ms_oracle::{Locks, SignatureChecker};
use ms_program::program_of;
use std::alloc::Global;

/// Why the replay of a witness gives no report.
#[derive(Clone, Copy, Debug, PartialEq, Eq)]
pub enum ReplayStop {
    /// The bytes are no witness, for this reason, which is never its `Memory`: want of memory is `Memory` below.
    Witness(WitnessFault),
    /// The witness's Script has another program than the output.
    WrongProgram {
        /// The output's program.
        wanted: [u8; 34],
        /// The program of the witness's Script.
        found: [u8; 34],
    },
    /// The run of the Script is refused, at the instruction with this number, from 0.
    Refused(ScriptFault, u32),
    /// Memory was wanting.
    Memory,
}

impl From<WitnessFault> for ReplayStop {
    ghost from_gives = { λ fault stop. stop ≡ stop_of_fault fault };

    fn from(fault: WitnessFault) -> ReplayStop {
        match fault {
            WitnessFault::Memory => ReplayStop::Memory,
            fault => ReplayStop::Witness(fault),
        }
    }
}

impl From<RunStop> for ReplayStop {
    ghost from_gives = { λ run stop. stop ≡ stop_of_run run };

    fn from(stop: RunStop) -> ReplayStop {
        match stop {
            RunStop::Refused(fault, place) => ReplayStop::Refused(fault, place),
            RunStop::Memory => ReplayStop::Memory,
        }
    }
}

/// Reads a witness, and runs its Script on its stack, as the spending of an output with this program does (BIP 141;
/// Bitcoin Core: `VerifyWitnessProgram`). `locks` tells the timelocks of the spending input, and `sigs` which
/// signatures are good. It demands that the check in `sigs` is sound for its table.
///
/// The bytes are read first, as by `read_witness`, whose faults are `Witness`. Then `WrongProgram` comes exactly where
/// the program of the Script isn't the output's, and `Refused` exactly where the run is refused, as by `run`. Only
/// `Memory` may come in place of any answer.
pub fn replay<C: SignatureChecker>(
    alloc: Global,
    program: &[u8; 34],
    bytes: &[u8],
    locks: &Locks,
    sigs: &C,
) -> Result<RunReport, ReplayStop>
    requires sound { C.IsSound sigs.now }
    ensures { Replays result (the_replay (given_by (C.checker sigs.now) locks.now) program.now bytes.now) }
{
    let (stack, script) = read_witness(alloc, bytes)?;
    let found = program_of(script.as_slice());
    if found != *program {
        return Err(ReplayStop::WrongProgram {
            wanted: *program,
            found,
        });
    }
    Ok(run(alloc, script.as_slice(), &stack, locks, sigs)?)
}
