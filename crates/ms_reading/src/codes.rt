//! The instructions of a Script, read from its bytes.
ghost use Rattle.std.specs.Prelude.{◌≡◌, ◌<◌, ◌≤ℤ◌, ◌⊎◌, pos, negsuc, length, IfOk, IfSome, MatchOption};
ghost use Rattle.def_script.specs.Numbers.{number_bytes as the_number_bytes};
ghost use Rattle.ms_script.specs.Reads.{IsSmallNumber};
ghost use Rattle.ms_reading.specs.Scaffolding.Codes.{IsCode, IsCodeAt, AreCodes, HasNoCodes};
ghost use Rattle.ms_reading.specs.Scaffolding.States.{backwards, popped_code};

use ms_script::{InstrRef, Op, next_instr};
use std::alloc::{AllocError, Global};

/// An instruction: a push of bytes, or an opcode that isn't a push.
#[derive(Clone, Copy)]
pub enum Code<'s> {
    /// A push of these bytes.
    Push(&'s [u8]),
    /// An opcode.
    Op(Op),
}

/// The numbers up to 16, each in a byte.
static NUMBERS: [[u8; 1]; 17] = [
    [0],
    [1],
    [2],
    [3],
    [4],
    [5],
    [6],
    [7],
    [8],
    [9],
    [10],
    [11],
    [12],
    [13],
    [14],
    [15],
    [16],
];

/// The instructions of a Script, first one first, or none where its bytes aren't the spelling of any: where they end
/// inside a push, hold another byte, or a push isn't the shortest.
pub fn read_codes<'s>(alloc: Global, script: &'s [u8]) -> Result<Option<Vec<Code<'s>>>, AllocError>
    ensures { IfOk result (λ o. MatchOption o (HasNoCodes script.now) (λ codes. AreCodes script.now codes.items)) }
{
    // A push of a key or of a hash takes more than 16 bytes, and few other instructions stand between them.
    let mut codes = Vec::with_capacity(alloc, 8 + script.len() / 16)?;
    let mut from = 0;
    while from < script.len() {
        let Some((code, next)) = code_at(script, from) else {
            return Ok(None);
        };
        codes.push(code)?;
        from = next;
    }
    Ok(Some(codes))
}

/// The instruction that begins at a place, and where the next one begins.
fn code_at<'s>(script: &'s [u8], from: usize) -> Option<(Code<'s>, usize)>
    requires { from < length script.now }
    ensures { IsCodeAt script.now from result }
{
    match next_instr(script, from) {
        Ok(Some((instr, next))) => {
            let Some(code) = code_of(instr) else {
                return None;
            };
            Some((code, next))
        }
        Ok(None) => None,
        Err(_) => None,
    }
}

/// The instruction, where it is spelled in the shortest way.
fn code_of<'s>(instr: InstrRef<'s>) -> Option<Code<'s>>
    requires { IsSmallNumber instr }
    ensures { IsCode instr.entry result }
{
    match instr {
        InstrRef::Push {
            bytes,
            minimal: true,
        } => Some(Code::Push(bytes)),
        InstrRef::Push { .. } => None,
        InstrRef::Small(value) => Some(Code::Push(number_bytes(value))),
        InstrRef::Code(op) => Some(Code::Op(op)),
    }
}

/// The byte of a number that an opcode pushes.
fn number_bytes(value: i64) -> &'static [u8]
    requires { (value ≡ negsuc 0) ⊎ ((pos 1 ≤ℤ value) × (value ≤ℤ pos 16)) }
    ensures { result.now ≡ the_number_bytes value }
{
    if value < 0 {
        return &[0x81];
    }
    &NUMBERS[value.unsigned_abs() as usize]
}

/// Takes the last instruction away.
pub fn pop_code<'s>(codes: &mut Vec<Code<'s>>) -> Option<Code<'s>>
    ensures taken { popped_code result (backwards codes.old.items) (backwards codes.new.items) }
    ensures shorter { IfSome result (λ code. length codes.new.items < length codes.old.items) }
{
    codes.pop()
}
