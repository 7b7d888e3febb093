//! Reading the instructions of a Script from its bytes.

ghost use Rattle.std.specs.Prelude.{◌≡◌, ◌<◌, ◌≤◌, length, drop, false, IfOk};
ghost use Rattle.def_script.specs.Items.{read_push as the_read_push, read_number_or_op as the_read_number_or_op, first_item};
ghost use Rattle.def_script.specs.Items.{op_of_byte as the_op_of_byte};
ghost use Rattle.ms_script.specs.Reads.{next_item, seen, taken, IsItems, IsSmallNext, IsSmallNumber, begins_with_number, gives_number, takes_number, is_number_byte};

use crate::opcodes::opcode_rows;
use crate::pushes::push_byte;
use def_script::{InstrFault, Op};

/// An instruction in the bytes of a Script.
#[derive(Clone, Copy, Debug, PartialEq, Eq)]
pub enum InstrRef<'a> {
    /// A push of bytes of the Script, or of none.
    Push {
        /// The bytes that it pushes, first one first.
        bytes: &'a [u8],
        /// Whether it begins as its shortest spelling does (Bitcoin Core: `CheckMinimalPush`).
        minimal: bool,
    },
    /// A push of the number -1 or 1 to 16 by its opcode, the byte `4f` or `51` to `60`.
    Small(i64),
    /// An opcode that isn't a push.
    Code(Op),
}

/// An instruction, and how many bytes it takes after its first one.
#[derive(Clone, Copy)]
struct Reading<'a> {
    instr: InstrRef<'a>,
    taken: usize,
}

/// Reads the instruction that begins at byte `from`, counted from 0, and answers where the next one begins (Bitcoin
/// Core: `GetScriptOp`). It demands that `from` is at most the length; there is no instruction exactly at the end.
/// `Small` comes exactly where the byte is `4f` or `51` to `60`. Takes no memory.
///
/// `Truncated` comes exactly where the bytes end inside the instruction, and `Unsupported` exactly where
/// the byte begins no instruction that Miniscript outputs use.
pub fn next_instr(script: &[u8], from: usize) -> Result<Option<(InstrRef<'_>, usize)>, InstrFault>
    requires { from ≤ length script.now }
    ensures next { seen result ≡ next_item from (drop from script.now) }
    ensures items { IsItems script.now from result }
    ensures small { IsSmallNext result }
    ensures number { gives_number result ≡ begins_with_number (drop from script.now) }
{
    let Some(first) = script.get(from) else {
        return Ok(None);
    };
    match read_instr(*first, &script[from + 1..]) {
        Ok(reading) => Ok(Some((reading.instr, from + 1 + reading.taken))),
        Err(fault) => Err(fault),
    }
}

/// The instruction that begins with the byte `first`.
#[tactic(auto, unfolding(def_script::specs::Items::first_item))]
fn read_instr<'a>(first: u8, rest: &'a [u8]) -> Result<Reading<'a>, InstrFault>
    ensures item { taken result ≡ first_item first rest.now }
    ensures within { IfOk result (λ reading. reading.taken ≤ length rest.now) }
    ensures small { IfOk result (λ reading. IsSmallNumber reading.instr) }
    ensures number { takes_number result ≡ is_number_byte first }
{
    match first {
        0..=75 => read_push(first, 0, first as usize, rest),
        0x4c => {
            let [count, ..] = *rest else {
                return Err(InstrFault::Truncated);
            };
            read_push(first, 1, count as usize, rest)
        }
        0x4d => {
            let [low, high, ..] = *rest else {
                return Err(InstrFault::Truncated);
            };
            read_push(first, 2, u16::from_le_bytes([low, high]) as usize, rest)
        }
        0x4e => {
            let [a, b, c, d, ..] = *rest else {
                return Err(InstrFault::Truncated);
            };
            read_push(first, 4, u32::from_le_bytes([a, b, c, d]) as usize, rest)
        }
        _ => read_number_or_op(first),
    }
}

/// A push of `count` bytes after a length of `field` bytes.
fn read_push<'a>(
    first: u8,
    field: usize,
    count: usize,
    rest: &'a [u8],
) -> Result<Reading<'a>, InstrFault>
    requires short_field { field ≤ 4 }
    requires counted { count < 4294967296 }
    ensures item { taken result ≡ the_read_push first field count rest.now }
    ensures within { IfOk result (λ reading. reading.taken ≤ length rest.now) }
    ensures small { IfOk result (λ reading. IsSmallNumber reading.instr) }
    ensures number { takes_number result ≡ false }
{
    if rest.len() < field + count {
        return Err(InstrFault::Truncated);
    }
    let bytes = &rest[field..field + count];
    let minimal = first == push_byte(bytes);
    Ok(Reading {
        instr: InstrRef::Push { bytes, minimal },
        taken: field + count,
    })
}

/// An instruction of one byte.
fn read_number_or_op(first: u8) -> Result<Reading<'static>, InstrFault>
    ensures item { taken result ≡ the_read_number_or_op first }
    ensures within { IfOk result (λ reading. reading.taken ≡ 0) }
    ensures small { IfOk result (λ reading. IsSmallNumber reading.instr) }
    ensures number { takes_number result ≡ is_number_byte first }
{
    let instr = match first {
        0x4f => InstrRef::Small(-1),
        0x51..=0x60 => InstrRef::Small((first - 0x50) as i64),
        _ => {
            let Some(op) = op_of_byte(first) else {
                return Err(InstrFault::Unsupported);
            };
            InstrRef::Code(op)
        }
    };
    Ok(Reading { instr, taken: 0 })
}

/// The opcode of each byte, by the rows of the table.
macro_rules! opcode_of {
    (($byte:ident) $([$name:ident $value:literal])*) => {
        match $byte {
            $($value => Some(Op::$name),)*
            _ => None,
        }
    };
}

/// The opcode for which a byte stands.
fn op_of_byte(byte: u8) -> Option<Op>
    ensures { result ≡ the_op_of_byte byte }
{
    opcode_rows!(opcode_of!(byte))
}
