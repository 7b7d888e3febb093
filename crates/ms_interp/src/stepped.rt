//! A run that is taken instruction by instruction, by a caller who looks at it in between.
ghost use Rattle.std.specs.Prelude.{◌≡◌, ◌+◌, ◌<◌, ◌≤◌, length, reverse, take, IfOk};
ghost use Rattle.def_script.specs.Limits.{MAX_SCRIPT_SIZE as max_script_size};
ghost use Rattle.def_machine.specs.Machine.{State, is_live as the_is_live, step as the_step};
ghost use Rattle.def_machine.specs.Run.{start as the_start, ended as the_ended};
ghost use Rattle.ms_script.specs.Reads.{item_of};
ghost use Rattle.ms_interp.specs.Answering.{given_by, Answers};
ghost use Rattle.ms_interp.specs.Stepping.{IsAt, main_of, alt_of, checks_of, live_of, open_of, StartsAs, StepsAs};

use crate::machine::Machine;
use crate::report::{RunReport, RunStop};
use crate::runs::{ended, started, stopped};
use def_machine::Locks;
use ms_oracle::{SigPair, SignatureChecker};
use ms_script::{Blob, InstrRef, Stack};
use std::alloc::Global;

/// A run of a Script on a stack, which its caller takes instruction by instruction: what `run` does, cut into its
/// steps. After a step that stopped nothing is said of it.
#[derive(Drop)]
pub struct SteppedRun {
    machine: Machine,
}

impl SteppedRun {
    /// The run before its first instruction. It demands that the stack has at most 2^31 elements. `Refused` comes exactly
    /// where the script or an element is too long, with the place 0; `Memory` only where memory is wanting.
    #[tactic(auto, using(crate::proofs::States::starts_as))]
    pub fn start(alloc: Global, script: &[u8], stack: &Stack) -> Result<SteppedRun, RunStop>
        requires few { length stack.now ≤ 2147483648 }
        ensures value { StartsAs result (the_start script.now (reverse stack.now)) }
        ensures short { IfOk result (λ _. length script.now ≤ max_script_size) }
        ensures closed { IfOk result (λ run. open_of run ≡ 0) }
    {
        let machine = started(alloc, script, stack)?;
        Ok(SteppedRun { machine })
    }

    /// Carries the instruction out, whose number from 0 is `place`. It demands that fewer than 2^64 - 1 branches are open;
    /// a step opens one at most. `Refused` comes exactly where the instruction meets a fault, with `place`; `Memory` only
    /// where memory is wanting.
    pub fn step<C: SignatureChecker>(
        &mut self,
        sigs: &C,
        locks: &Locks,
        instr: InstrRef<'_>,
        place: u32,
    ) -> Result<(), RunStop>
        requires sound { C.IsSound sigs.now }
        requires room { open_of self.old < usize.MAX }
        ensures value { (s : State) → IsAt self.old s → StepsAs result self.new place (the_step (given_by (C.checker sigs.now) locks.now) (item_of instr.entry) s) }
        ensures open { open_of self.new ≤ open_of self.old + 1 }
    {
        match self.machine.step(sigs, locks, instr) {
            Ok(()) => Ok(()),
            Err(stop) => Err(stopped(stop, place)),
        }
    }

    /// What the run comes to behind its last instruction; `place` is the number of instructions. Takes no memory.
    pub fn end(self, place: u32) -> Result<RunReport, RunStop>
        ensures { (s : State) → IsAt self s → Answers result (the_ended place s) }
    {
        ended(self.machine, place)
    }

    /// Whether all open branches are taken. Takes no memory, and never refuses.
    pub fn is_live(&self) -> bool
        ensures value { result ≡ live_of self.now }
        ensures state { (s : State) → IsAt self.now s → result ≡ the_is_live s }
    {
        self.machine.branches.all_taken()
    }

    /// How many elements the main stack has. Takes no memory, and never refuses.
    pub fn main_len(&self) -> usize
        ensures { result ≡ length (main_of self.now) }
    {
        self.machine.main.len()
    }

    /// The upper elements of the main stack, so many of them or as many as there are, the lowest first. Takes no memory,
    /// and never refuses.
    pub fn upper_main(&self, count: usize) -> &[Blob]
        ensures { result.now ≡ reverse (take count (main_of self.now)) }
    {
        self.machine.main.upper(count)
    }

    /// The upper elements of the alternative stack, so many of them or as many as there are, the lowest first. Takes no
    /// memory, and never refuses.
    pub fn upper_alt(&self, count: usize) -> &[Blob]
        ensures { result.now ≡ reverse (take count (alt_of self.now)) }
    {
        self.machine.alt.upper(count)
    }

    /// The pairs of a key and a signature that were found good so far, in that order. Takes no memory, and never refuses.
    pub fn checks(&self) -> &[SigPair]
        ensures { result.now ≡ checks_of self.now }
    {
        self.machine.checks.as_slice()
    }
}
