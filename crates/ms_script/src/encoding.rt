//! The bytes of a Script, in its shortest spelling.

ghost use Rattle.std.specs.Prelude.{◌≡◌, ◌≤◌, ◌++◌, length, IfOk, OnOk, All, map};
ghost use Rattle.def_script.specs.Spell.{opcode_byte as the_opcode_byte, shortest_push, IsShort, spell_one, spell};
ghost use Rattle.def_script.specs.Items.{items};
ghost use Rattle.def_script.specs.Laws.{item_of};
ghost use Rattle.def_script.specs.Limits.{MAX_SCRIPT_ELEMENT_SIZE};
ghost use Rattle.ms_script.specs.Views.{instruction_of};

use crate::opcodes::opcode_rows;
use crate::pushes::{PushForm, push_form};
use crate::script::{Instr, Script};
use def_script::Op;
use ms_bytes::Blob;
use std::alloc::{AllocError, Global};

/// The byte of each opcode, by the rows of the table.
macro_rules! bytes_of {
    (($op:ident) $([$name:ident $byte:literal])*) => {
        match $op {
            $(Op::$name => $byte,)*
        }
    };
}

/// The bytes of a Script: its instructions, first one first, each push in its shortest spelling (Bitcoin Core:
/// `CheckMinimalPush`). Read as instructions, they give the same ones, with every push minimal.
///
/// It demands that each push has at most 520 bytes. `AllocError` comes only where memory is wanting.
pub fn encode(alloc: Global, script: &Script) -> Result<Blob, AllocError>
    requires { All IsShort script.now }
    ensures spelling { IfOk result (λ bytes. bytes ≡ spell script.now) }
    ensures decoded { IfOk result (λ bytes. items bytes ≡ map item_of script.now) }
{
    let mut bytes = Vec::new(alloc);
    for instr in script.instrs() {
        encode_one(&mut bytes, instr)?;
    }
    Ok(Blob::from_vec(bytes))
}

fn encode_one(bytes: &mut Vec<u8>, instr: &Instr) -> Result<(), AllocError>
    requires { IsShort (instruction_of instr.now) }
    ensures { OnOk result (bytes.new.items ≡ bytes.old.items ++ spell_one (instruction_of instr.now)) }
{
    match instr {
        Instr::Push(pushed) => encode_push(bytes, pushed.as_slice())?,
        Instr::Code(op) => bytes.push(opcode_byte(*op))?,
    }
    Ok(())
}

/// Adds the shortest push of `pushed`.
fn encode_push(bytes: &mut Vec<u8>, pushed: &[u8]) -> Result<(), AllocError>
    requires { length pushed.now ≤ MAX_SCRIPT_ELEMENT_SIZE }
    ensures { OnOk result (bytes.new.items ≡ bytes.old.items ++ shortest_push pushed.now) }
{
    match push_form(pushed) {
        PushForm::Number(byte) => {
            bytes.push(byte)?;
            Ok(())
        }
        PushForm::Direct(length) => {
            bytes.push(length)?;
            bytes.extend_from_slice(pushed)
        }
        PushForm::Data1(length) => {
            bytes.push(0x4c)?;
            bytes.push(length)?;
            bytes.extend_from_slice(pushed)
        }
        PushForm::Data2(length) => {
            bytes.push(0x4d)?;
            bytes.extend_from_slice(&length.to_le_bytes())?;
            bytes.extend_from_slice(pushed)
        }
        PushForm::Data4 => {
            bytes.push(0x4e)?;
            bytes.extend_from_slice(&(pushed.len() as u32).to_le_bytes())?;
            bytes.extend_from_slice(pushed)
        }
    }
}

/// The byte that stands for an opcode (Bitcoin Core: `opcodetype`). Takes no memory.
pub fn opcode_byte(op: Op) -> u8
    ensures { result ≡ the_opcode_byte op }
{
    opcode_rows!(bytes_of!(op))
}
