//! Bytes beside the shortest spelling of instructions, which isn't made.
ghost use Rattle.std.specs.Prelude.{◌≡◌, ◌↔◌, ◌≤◌, ◌++◌, length, All, IsTrue};
ghost use Rattle.def_script.specs.Limits.{MAX_SCRIPT_ELEMENT_SIZE};
ghost use Rattle.def_script.specs.Spell.{shortest_push, IsShort, spell_one, spell};
ghost use Rattle.ms_script.specs.Views.{instruction_of, instructions_of};
ghost use Rattle.ms_reading.specs.Scaffolding.Spelled.{IsBehind};

use ms_script::{Instr, PushForm, opcode_byte, push_form};

/// Whether bytes are these instructions, each in its shortest spelling.
pub fn is_spelling_of(bytes: &[u8], instrs: &[Instr]) -> bool
    requires { All IsShort (instructions_of instrs.now) }
    ensures { IsTrue result ↔ (spell (instructions_of instrs.now) ≡ bytes.now) }
{
    let mut rest = bytes;
    for instr in instrs {
        let Some(next) = behind_instr(instr, rest) else {
            return false;
        };
        rest = next;
    }
    rest.is_empty()
}

/// What stands behind an instruction that bytes begin with, where they do.
fn behind_instr<'s>(instr: &Instr, bytes: &'s [u8]) -> Option<&'s [u8]>
    requires { IsShort (instruction_of instr.now) }
    ensures { IsBehind (spell_one (instruction_of instr.now)) bytes.now result }
{
    match instr {
        Instr::Push(pushed) => behind_push(pushed.as_slice(), bytes),
        Instr::Code(op) => behind(&[opcode_byte(*op)], bytes),
    }
}

/// What stands behind the shortest push of `pushed`, where bytes begin with it.
fn behind_push<'s>(pushed: &[u8], bytes: &'s [u8]) -> Option<&'s [u8]>
    requires { length pushed.now ≤ MAX_SCRIPT_ELEMENT_SIZE }
    ensures { IsBehind (shortest_push pushed.now) bytes.now result }
{
    match push_form(pushed) {
        PushForm::Number(byte) => behind(&[byte], bytes),
        PushForm::Direct(length) => behind_both(&[length], pushed, bytes),
        PushForm::Data1(length) => behind_both(&[0x4c, length], pushed, bytes),
        PushForm::Data2(length) => {
            let [low, high] = length.to_le_bytes();
            behind_both(&[0x4d, low, high], pushed, bytes)
        }
        PushForm::Data4 => {
            let [a, b, c, d] = (pushed.len() as u32).to_le_bytes();
            behind_both(&[0x4e, a, b, c, d], pushed, bytes)
        }
    }
}

/// What stands behind two parts, one after the other, where bytes begin with them.
fn behind_both<'s>(first: &[u8], second: &[u8], bytes: &'s [u8]) -> Option<&'s [u8]>
    ensures { IsBehind (first.now ++ second.now) bytes.now result }
{
    let Some(rest) = behind(first, bytes) else {
        return None;
    };
    behind(second, rest)
}

/// What stands behind a part that bytes begin with, where they do.
fn behind<'s>(part: &[u8], bytes: &'s [u8]) -> Option<&'s [u8]>
    ensures { IsBehind part.now bytes.now result }
{
    bytes.strip_prefix(part)
}
