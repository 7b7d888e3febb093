//! The machine, and one step of it.
ghost use Rattle.std.specs.Prelude.{◌≡◌, ◌+◌, ◌<◌, ◌≤◌, length, [], None};
ghost use Rattle.def_machine.specs.Effects.{verify as the_verify, equal as the_equal, check_sig as the_check_sig};
ghost use Rattle.def_machine.specs.Machine.{is_branching as the_is_branching};
ghost use Rattle.def_machine.specs.MultiSig.{check_multi_sig as the_check_multi_sig};
ghost use Rattle.ms_script.specs.Reads.{item_of};
ghost use Rattle.ms_interp.specs.Scaffolding.Stops.{Leaves};
ghost use Rattle.ms_interp.specs.Answering.{given_by};
ghost use Rattle.ms_interp.specs.Scaffolding.Branches.{turned, closed};
ghost use Rattle.ms_interp.specs.Scaffolding.Compact.{on_main, on_checks, on_multi, on_branches, open_branch as the_open_branch, act as the_act, count_op as the_count_op, pushed, carry_push as the_carry_push, carry_op as the_carry_op, carry_out as the_carry_out, settle as the_settle, step as the_step};

use crate::branches::Branches;
use crate::effects::{
    add, bool_and, bool_or, check_sig, dup, equal, from_alt_stack, hash, if_dup, size, swap,
    to_alt_stack, verify, zero_not_equal,
};
use crate::multi_sig::{check_multi_sig, more_ops};
use crate::operands::condition;
use crate::pile::Pile;
use crate::stop::Stop;
use crate::timelocks::{check_lock_time_verify, check_sequence_verify};
use def_machine::{Locks, ScriptFault};
use ms_hash::HashKind;
use ms_oracle::{Pairs, SignatureChecker};
use ms_script::{InstrRef, MAX_SCRIPT_ELEMENT_SIZE, MAX_STACK_SIZE, Op, num_encode};
use std::alloc::Global;

/// The machine: its stacks, its open branches, and what a report tells.
#[derive(Drop)]
pub struct Machine {
    /// The main stack.
    pub main: Pile,
    /// The alternative stack.
    pub alt: Pile,
    /// The branches that are open.
    pub branches: Branches,
    /// How many opcodes have counted, with the keys of each CHECKMULTISIG that was executed.
    pub ops: u32,
    /// The most elements that both stacks have held together after an instruction, or at the start.
    pub peak: u32,
    /// The pairs of a key and a signature that were found good, in that order.
    pub checks: Pairs,
}

impl Machine {
    /// The machine at the start of a run.
    pub fn new(alloc: Global, main: Pile) -> Machine
        requires { length main ≤ 2147483648 }
        ensures { result ≡ record { main = main; alt = []; branches = record { depth = 0; first_false = None }; ops = 0; peak = length main; checks = [] } }
    {
        let peak = main.len() as u32;
        Machine {
            main,
            alt: Pile::new(alloc),
            branches: Branches::new(),
            ops: 0,
            peak,
            checks: Pairs::new(alloc),
        }
    }

    fn verify(&mut self) -> Result<(), Stop>
        ensures value { Leaves result self.new (on_main the_verify self.old) }
        ensures branches { self.new.branches ≡ self.old.branches }
    {
        verify(&mut self.main)
    }

    fn equal(&mut self) -> Result<(), Stop>
        ensures value { Leaves result self.new (on_main the_equal self.old) }
        ensures branches { self.new.branches ≡ self.old.branches }
    {
        equal(&mut self.main)
    }

    fn check_sig<C: SignatureChecker>(&mut self, sigs: &C) -> Result<(), Stop>
        requires { C.IsSound sigs.now }
        ensures value { Leaves result self.new (on_checks (the_check_sig (C.checker sigs.now)) self.old) }
        ensures branches { self.new.branches ≡ self.old.branches }
    {
        check_sig(&mut self.main, &mut self.checks, sigs)
    }

    fn check_multi_sig<C: SignatureChecker>(&mut self, sigs: &C) -> Result<(), Stop>
        requires { C.IsSound sigs.now }
        ensures value { Leaves result self.new (on_multi (the_check_multi_sig (C.checker sigs.now)) self.old) }
        ensures branches { self.new.branches ≡ self.old.branches }
    {
        check_multi_sig(&mut self.main, &mut self.ops, &mut self.checks, sigs)
    }

    /// IF and NOTIF: opens a branch that is taken where the condition is as wanted.
    #[tactic(auto, unfolding(crate::specs::Scaffolding::Compact::open_branch))]
    fn open_branch(&mut self, wanted: bool) -> Result<(), Stop>
        requires { self.old.branches.depth < usize.MAX }
        ensures value { Leaves result self.new (the_open_branch wanted self.old) }
        ensures depth { self.new.branches.depth ≤ self.old.branches.depth + 1 }
    {
        if !self.branches.all_taken() {
            self.branches.open(false);
            return Ok(());
        }
        let value = condition(&mut self.main)?;
        self.branches.open(if wanted { value } else { !value });
        Ok(())
    }

    fn turn_branch(&mut self) -> Result<(), Stop>
        ensures value { Leaves result self.new (on_branches turned self.old) }
        ensures depth { self.new.branches.depth ≤ self.old.branches.depth + 1 }
    {
        self.branches.turn()?;
        Ok(())
    }

    fn close_branch(&mut self) -> Result<(), Stop>
        ensures value { Leaves result self.new (on_branches closed self.old) }
        ensures depth { self.new.branches.depth ≤ self.old.branches.depth + 1 }
    {
        self.branches.close()?;
        Ok(())
    }

    /// What each opcode does.
    #[tactic(auto, unfolding(crate::specs::Scaffolding::Compact::act), using(crate::proofs::Leaving::leaving))]
    fn act<C: SignatureChecker>(&mut self, sigs: &C, locks: &Locks, op: Op) -> Result<(), Stop>
        requires sound { C.IsSound sigs.now }
        requires room { self.old.branches.depth < usize.MAX }
        ensures value { Leaves result self.new (the_act (given_by (C.checker sigs.now) locks.now) op self.old) }
        ensures depth { self.new.branches.depth ≤ self.old.branches.depth + 1 }
    {
        match op {
            Op::If => self.open_branch(true),
            Op::NotIf => self.open_branch(false),
            Op::Else => self.turn_branch(),
            Op::EndIf => self.close_branch(),
            Op::Verify => verify(&mut self.main),
            Op::ToAltStack => to_alt_stack(&mut self.main, &mut self.alt),
            Op::FromAltStack => from_alt_stack(&mut self.main, &mut self.alt),
            Op::IfDup => if_dup(&mut self.main),
            Op::Dup => dup(&mut self.main),
            Op::Swap => swap(&mut self.main),
            Op::Size => size(&mut self.main),
            Op::Equal => equal(&mut self.main),
            Op::EqualVerify => {
                self.equal()?;
                self.verify()
            }
            Op::ZeroNotEqual => zero_not_equal(&mut self.main),
            Op::Add => add(&mut self.main),
            Op::BoolAnd => bool_and(&mut self.main),
            Op::BoolOr => bool_or(&mut self.main),
            Op::Ripemd160 => hash(&mut self.main, HashKind::Ripemd160),
            Op::Sha256 => hash(&mut self.main, HashKind::Sha256),
            Op::Hash160 => hash(&mut self.main, HashKind::Hash160),
            Op::Hash256 => hash(&mut self.main, HashKind::Hash256),
            Op::CheckSig => self.check_sig(sigs),
            Op::CheckSigVerify => {
                self.check_sig(sigs)?;
                self.verify()
            }
            Op::CheckMultiSig => self.check_multi_sig(sigs),
            Op::CheckMultiSigVerify => {
                self.check_multi_sig(sigs)?;
                self.verify()
            }
            Op::CheckLockTimeVerify => check_lock_time_verify(&mut self.main, locks),
            Op::CheckSequenceVerify => check_sequence_verify(&mut self.main, locks),
        }
    }

    fn count_op(&mut self) -> Result<(), Stop>
        ensures value { Leaves result self.new (the_count_op self.old) }
        ensures branches { self.new.branches ≡ self.old.branches }
    {
        self.ops = more_ops(self.ops, 1)?;
        Ok(())
    }

    /// Counts an opcode, also where the branches aren't taken, and carries it out.
    #[tactic(auto, unfolding(crate::specs::Scaffolding::Compact::carry_op))]
    fn carry_op<C: SignatureChecker>(&mut self, sigs: &C, locks: &Locks, op: Op) -> Result<(), Stop>
        requires sound { C.IsSound sigs.now }
        requires room { self.old.branches.depth < usize.MAX }
        ensures value { Leaves result self.new (the_carry_op (given_by (C.checker sigs.now) locks.now) op self.old) }
        ensures depth { self.new.branches.depth ≤ self.old.branches.depth + 1 }
    {
        self.count_op()?;
        if !is_branching(op) && !self.branches.all_taken() {
            return Ok(());
        }
        self.act(sigs, locks, op)
    }

    /// Puts a string on the main stack where the branches are taken; its push must be minimal then.
    #[tactic(auto, unfolding(crate::specs::Scaffolding::Compact::carry_push, crate::specs::Scaffolding::Compact::pushed))]
    fn carry_push(&mut self, bytes: &[u8], minimal: bool) -> Result<(), Stop>
        ensures value { Leaves result self.new (the_carry_push bytes.now minimal self.old) }
        ensures branches { self.new.branches ≡ self.old.branches }
    {
        if bytes.len() > MAX_SCRIPT_ELEMENT_SIZE {
            return Err(Stop::Fault(ScriptFault::ElementSize));
        }
        if !self.branches.all_taken() {
            return Ok(());
        }
        if !minimal {
            return Err(Stop::Fault(ScriptFault::NonMinimalPush));
        }
        self.main.put_bytes(bytes)?;
        Ok(())
    }

    #[tactic(auto, unfolding(crate::specs::Scaffolding::Compact::carry_out))]
    fn carry_out<C: SignatureChecker>(
        &mut self,
        sigs: &C,
        locks: &Locks,
        instr: InstrRef<'_>,
    ) -> Result<(), Stop>
        requires sound { C.IsSound sigs.now }
        requires room { self.old.branches.depth < usize.MAX }
        ensures value { Leaves result self.new (the_carry_out (given_by (C.checker sigs.now) locks.now) (item_of instr.entry) self.old) }
        ensures depth { self.new.branches.depth ≤ self.old.branches.depth + 1 }
    {
        match instr {
            InstrRef::Push { bytes, minimal } => self.carry_push(bytes, minimal),
            InstrRef::Small(number) => {
                let bytes = num_encode(number);
                self.carry_push(bytes.as_slice(), true)
            }
            InstrRef::Code(op) => self.carry_op(sigs, locks, op),
        }
    }

    /// Tests how high the stacks are, and keeps the greatest height.
    #[tactic(auto, unfolding(crate::specs::Scaffolding::Compact::settle))]
    fn settle(&mut self) -> Result<(), Stop>
        ensures value { Leaves result self.new (the_settle self.old) }
        ensures branches { self.new.branches ≡ self.old.branches }
    {
        let height = self.main.len().saturating_add(self.alt.len());
        if height > MAX_STACK_SIZE {
            return Err(Stop::Fault(ScriptFault::StackSize));
        }
        self.peak = self.peak.max(height as u32);
        Ok(())
    }

    /// One instruction.
    #[tactic(auto, unfolding(crate::specs::Scaffolding::Compact::step))]
    pub fn step<C: SignatureChecker>(
        &mut self,
        sigs: &C,
        locks: &Locks,
        instr: InstrRef<'_>,
    ) -> Result<(), Stop>
        requires sound { C.IsSound sigs.now }
        requires room { self.old.branches.depth < usize.MAX }
        ensures value { Leaves result self.new (the_step (given_by (C.checker sigs.now) locks.now) (item_of instr.entry) self.old) }
        ensures depth { self.new.branches.depth ≤ self.old.branches.depth + 1 }
    {
        self.carry_out(sigs, locks, instr)?;
        self.settle()
    }
}

/// Whether the opcode is carried out whether or not the branches are taken.
fn is_branching(op: Op) -> bool
    ensures { result ≡ the_is_branching op }
{
    matches!(op, Op::If | Op::NotIf | Op::Else | Op::EndIf)
}
