//! A run: the tests at its start, its instructions in order, and the tests at its end.
ghost use Rattle.std.specs.Prelude.{◌≡◌, ◌≤◌, nat_le, length, reverse, IfOk};
ghost use Rattle.std.specs.List.{list_all};
ghost use Rattle.def_script.specs.Bytes.{Bytes};
ghost use Rattle.def_script.specs.Items.{items};
ghost use Rattle.def_script.specs.Limits.{MAX_SCRIPT_ELEMENT_SIZE as max_script_element_size, MAX_SCRIPT_SIZE as max_script_size};
ghost use Rattle.def_machine.specs.Machine.{fault_of as the_fault_of};
ghost use Rattle.def_machine.specs.Run.{run as the_run, start as the_start};
ghost use Rattle.ms_interp.specs.Answering.{given_by, Answers, IsSmallReport};
ghost use Rattle.ms_interp.specs.declared.report.RunStop.TheVariants.{Refused};
ghost use Rattle.ms_interp.specs.Scaffolding.Stops.{run_stop};
ghost use Rattle.ms_interp.specs.Scaffolding.Starting.{Starts};
ghost use Rattle.ms_interp.specs.Scaffolding.Compact.{ended as the_ended, steps as the_steps};

use crate::machine::Machine;
use crate::pile::Pile;
use crate::report::{RunReport, RunStop};
use crate::stop::Stop;
use def_machine::{Locks, ScriptFault};
use ms_oracle::SignatureChecker;
use ms_script::{InstrFault, MAX_SCRIPT_ELEMENT_SIZE, MAX_SCRIPT_SIZE, Stack, next_instr, truth};
use std::alloc::{AllocError, Global};

/// Runs a Script on a stack, with the limits of Bitcoin Core's `EvalScript` and the rules of
/// `ExecuteWitnessScript` for P2WSH (BIP 141, BIP 143, BIP 146, BIP 147, and minimal pushes, numbers and conditions
/// as Bitcoin Core's policy asks for them).
///
/// `script` is the witness script as bytes, `stack` the elements below it in the witness, the bottom first, at most
/// 2^31 of them. `locks` tells version and locktime of the spending transaction and the sequence number of its
/// input, for BIP 65 and BIP 112. `sigs` tells which signatures are good; of a check of a table that it does so is
/// what `SigCheck::new` promises.
///
/// A run is accepted where it leaves exactly one element, which is true, and no branch is open. `Refused` comes
/// exactly where the run meets a fault, the first in the order of the instructions, with the instruction's number
/// from 0: 0 where the script or an element is too long, the number of instructions where a test at the end fails.
/// `Memory` comes only where memory is wanting, and may come in place of any of these but a script or an element
/// that is too long.
pub fn run<C: SignatureChecker>(
    alloc: Global,
    script: &[u8],
    stack: &Stack,
    locks: &Locks,
    sigs: &C,
) -> Result<RunReport, RunStop>
    requires few { length stack.now ≤ 2147483648 }
    requires sound { C.IsSound sigs.now }
    ensures outcome { Answers result (the_run (given_by (C.checker sigs.now) locks.now) script.now stack.now) }
    ensures small { IfOk result (IsSmallReport (length stack.now)) }
{
    match started(alloc, script, stack) {
        Ok(machine) => steps(machine, script, locks, sigs),
        Err(stop) => Err(stop),
    }
}

/// The machine before the first instruction: the tests at the start, and a copy of the stack.
pub fn started(alloc: Global, script: &[u8], stack: &Stack) -> Result<Machine, RunStop>
    requires few { length stack.now ≤ 2147483648 }
    ensures value { Starts result (the_start script.now (reverse stack.now)) }
    ensures short { IfOk result (λ _. length script.now ≤ max_script_size) }
    ensures closed { IfOk result (λ machine. machine.branches.depth ≡ 0) }
{
    if script.len() > MAX_SCRIPT_SIZE {
        return Err(RunStop::Refused(ScriptFault::ScriptSize, 0));
    }
    if !all_fit(stack) {
        return Err(RunStop::Refused(ScriptFault::ElementSize, 0));
    }
    let Ok(main) = pile_of(alloc, stack) else {
        return Err(RunStop::Memory);
    };
    Ok(Machine::new(alloc, main))
}

/// Whether each item has at most 520 bytes.
fn all_fit(stack: &Stack) -> bool
    ensures { result ≡ list_all (λ (x : Bytes). nat_le (length x) max_script_element_size) stack.now }
{
    for i in 0..stack.len() {
        if stack.item(i).len() > MAX_SCRIPT_ELEMENT_SIZE {
            return false;
        }
    }
    true
}

/// A copy of the stack.
fn pile_of(alloc: Global, stack: &Stack) -> Result<Pile, AllocError>
    ensures { IfOk result (λ pile. pile ≡ reverse stack.now) }
{
    let mut pile = Pile::new(alloc);
    for i in 0..stack.len() {
        pile.put_bytes(stack.item(i))?;
    }
    Ok(pile)
}

/// Carries the instructions out, one after the other.
fn steps<C: SignatureChecker>(
    machine: Machine,
    script: &[u8],
    locks: &Locks,
    sigs: &C,
) -> Result<RunReport, RunStop>
    requires sound { C.IsSound sigs.now }
    requires short { length script.now ≤ max_script_size }
    requires closed { machine.branches.depth ≡ 0 }
    ensures { Answers result (the_steps (given_by (C.checker sigs.now) locks.now) (items script.now) 0 machine) }
{
    let mut machine = machine;
    let mut from = 0;
    let mut place = 0;
    'instructions: loop {
        match next_instr(script, from) {
            Ok(None) => return ended(machine, place),
            Err(fault) => return Err(unread(fault, place)),
            Ok(Some((instr, next))) => {
                match machine.step(sigs, locks, instr) {
                    Ok(()) => {}
                    Err(stop) => return Err(stopped(stop, place)),
                }
                from = next;
                place += 1;
            }
        }
    }
}

/// The report at the end, where no branch is open and exactly one element is left, which is true.
#[tactic(auto, unfolding(crate::specs::Scaffolding::Compact::finish))]
pub fn ended(machine: Machine, place: u32) -> Result<RunReport, RunStop>
    ensures { Answers result (the_ended place machine) }
{
    let mut main = machine.main;
    if !machine.branches.is_empty() {
        return Err(RunStop::Refused(ScriptFault::Unbalanced, place));
    }
    let Some(top) = main.pop() else {
        return Err(RunStop::Refused(ScriptFault::CleanStack, place));
    };
    let None = main.pop() else {
        return Err(RunStop::Refused(ScriptFault::CleanStack, place));
    };
    if !truth(top.as_slice()) {
        return Err(RunStop::Refused(ScriptFault::EvalFalse, place));
    }
    Ok(RunReport {
        ops: machine.ops,
        peak: machine.peak,
        checks: machine.checks,
    })
}

/// The stop of a run at an instruction that can't be read, whose number from 0 is `place`. Takes no memory, and never
/// refuses.
pub fn unread(fault: InstrFault, place: u32) -> RunStop
    ensures { result ≡ Refused (the_fault_of fault) place }
{
    RunStop::Refused(fault_of(fault), place)
}

/// Why an instruction that can't be read refuses the run.
fn fault_of(fault: InstrFault) -> ScriptFault
    ensures { result ≡ the_fault_of fault }
{
    match fault {
        InstrFault::Truncated => ScriptFault::Truncated,
        InstrFault::Unsupported => ScriptFault::Unsupported,
    }
}

/// A stop at an instruction.
pub fn stopped(stop: Stop, place: u32) -> RunStop
    ensures { result ≡ run_stop stop place }
{
    match stop {
        Stop::Fault(fault) => RunStop::Refused(fault, place),
        Stop::Memory => RunStop::Memory,
    }
}
