//! Scripts under construction.

ghost use Rattle.std.specs.Prelude.{◌≡◌, List, [], ◌∷◌, ◌++◌, false, IsTrue, MatchOption, OnOk, OnErr};
ghost use Rattle.def_script.specs.Instruction.{Instruction, push, code};
ghost use Rattle.def_script.specs.Verify.{verify_form as the_verify_form, verified, verified_last};
ghost use Rattle.ms_script.specs.Views.{instruction_of, instructions_of};

use def_script::Op;
use smallvec::SmallVec;
use std::alloc::{AllocError, Global};
use std::marker::Model;

/// An instruction of a Script: a push of bytes, or an opcode that isn't a push.
#[derive(Debug, Drop)]
pub enum Instr {
    /// A push of these bytes, whose spelling `encode` chooses. Up to 33, as a key, a digest or a number has, lie in the
    /// instruction itself.
    Push(SmallVec<u8, 33>),
    /// An opcode.
    Code(Op),
}

/// A Script under construction. Contracts see it as a list of instructions.
#[derive(Debug, Drop)]
pub struct Script {
    alloc: Global,
    instrs: Vec<Instr>,
}

impl Model for Script {
    ghost use Rattle.std.specs.Prelude.{List};
    ghost use Rattle.def_script.specs.Instruction.{Instruction};

    ghost Value = { List Instruction };

    ghost use Rattle.ms_script.specs.Views.{instructions_of};

    ghost view = { λ s. instructions_of s.instrs.items };
}

impl Script {
    /// An empty Script. Takes no memory.
    pub fn new(alloc: Global) -> Script
        ensures { result ≡ [] }
    {
        Script {
            alloc,
            instrs: Vec::new(alloc),
        }
    }

    /// The instructions, first one first.
    pub fn instrs(&self) -> &[Instr]
        ensures { instructions_of result.now ≡ self.now }
    {
        &self.instrs
    }

    /// Adds a push of these bytes at the end. Where memory is wanting it answers `AllocError`, and nothing changes.
    pub fn push(&mut self, bytes: &[u8]) -> Result<(), AllocError>
        ensures ok { OnOk result (self.new ≡ self.old ++ push bytes.now ∷ []) }
        ensures err { OnErr result (self.new ≡ self.old) }
    {
        let pushed = SmallVec::from_slice(self.alloc, bytes)?;
        self.instrs.push(Instr::Push(pushed))?;
        Ok(())
    }

    /// Adds an opcode at the end. Where memory is wanting it answers `AllocError`, and nothing changes.
    pub fn code(&mut self, op: Op) -> Result<(), AllocError>
        ensures ok { OnOk result (self.new ≡ self.old ++ code op ∷ []) }
        ensures err { OnErr result (self.new ≡ self.old) }
    {
        self.instrs.push(Instr::Code(op))?;
        Ok(())
    }

    /// Adds VERIFY at the end: the last opcode becomes its VERIFY form where it has one (BIP 379,
    /// translation of `v:X`). Where memory is wanting it answers `AllocError`, and nothing changes.
    pub fn verify(&mut self) -> Result<(), AllocError>
        ensures ok { OnOk result (self.new ≡ verified self.old) }
        ensures err { OnErr result (self.new ≡ self.old) }
    {
        if verify_last(&mut self.instrs) {
            return Ok(());
        }
        self.code(Op::Verify)
    }
}

/// Gives the last instruction its VERIFY form, and tells whether it has one.
fn verify_last(instrs: &mut Vec<Instr>) -> bool
    ensures done { IsTrue result → instructions_of instrs.new.items ≡ verified (instructions_of instrs.old.items) }
    ensures none { result ≡ false → instructions_of instrs.old.items ++ code Op.Verify ∷ [] ≡ verified (instructions_of instrs.old.items) }
    ensures same { result ≡ false → instrs.new.items ≡ instrs.old.items }
{
    let Some(last) = instrs.len().checked_sub(1) else {
        return false;
    };
    let Some(form) = verify_form(&instrs[last]) else {
        return false;
    };
    instrs[last] = Instr::Code(form);
    true
}

/// The form of an instruction that does VERIFY too, where it has one.
fn verify_form(instr: &Instr) -> Option<Op>
    ensures { MatchOption result (verified_last (instruction_of instr.now) ≡ instruction_of instr.now ∷ code Op.Verify ∷ []) (λ form. verified_last (instruction_of instr.now) ≡ code form ∷ []) }
{
    match instr {
        Instr::Code(op) => verify_form_of(*op),
        Instr::Push(_) => None,
    }
}

/// The opcode that does what an opcode does, and VERIFY, where there is one: of EQUAL, CHECKSIG and CHECKMULTISIG
/// (Bitcoin Core: `OP_EQUALVERIFY` and the like). Takes no memory.
pub fn verify_form_of(op: Op) -> Option<Op>
    ensures { result ≡ the_verify_form op }
{
    match op {
        Op::Equal => Some(Op::EqualVerify),
        Op::CheckSig => Some(Op::CheckSigVerify),
        Op::CheckMultiSig => Some(Op::CheckMultiSigVerify),
        _ => None,
    }
}
