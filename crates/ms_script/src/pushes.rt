//! How a push is spelled in the shortest way.

ghost use Rattle.std.specs.Prelude.{◌≡◌, length, slice_index};
ghost use Rattle.def_script.specs.Spell.{shortest_push, sized_push};
ghost use Rattle.ms_script.specs.Pushes.{spelled_by};

/// The shortest spelling of a push (Bitcoin Core: `CheckMinimalPush`).
#[derive(Clone, Copy, Debug, PartialEq, Eq)]
pub enum PushForm {
    /// An opcode that pushes a number, which is this byte alone.
    Number(u8),
    /// The length, at most 75, and then the bytes.
    Direct(u8),
    /// `OP_PUSHDATA1`, the length in one byte, and then the bytes.
    Data1(u8),
    /// `OP_PUSHDATA2`, the length in two bytes, low byte first, and then the bytes.
    Data2(u16),
    /// `OP_PUSHDATA4`, the length in four bytes, low byte first, and then the bytes.
    Data4,
}

/// The shortest spelling of a push of these bytes.
pub fn push_form(bytes: &[u8]) -> PushForm
    ensures { spelled_by result bytes.now ≡ shortest_push bytes.now }
{
    match *bytes {
        [] => PushForm::Number(0x00),
        [byte] if 1 <= byte && byte <= 16 => PushForm::Number(0x50 + byte),
        [0x81] => PushForm::Number(0x4f),
        _ => sized_form(bytes),
    }
}

/// The shortest spelling of a push of these bytes by their length.
fn sized_form(bytes: &[u8]) -> PushForm
    ensures { spelled_by result bytes.now ≡ sized_push bytes.now }
{
    let length = bytes.len();
    if length <= 75 {
        PushForm::Direct(length as u8)
    } else if length <= 255 {
        PushForm::Data1(length as u8)
    } else if length <= 65535 {
        PushForm::Data2(length as u16)
    } else {
        PushForm::Data4
    }
}

/// The byte with which the shortest push of these bytes begins. Takes no memory.
pub fn push_byte(bytes: &[u8]) -> u8
    ensures { result ≡ slice_index (shortest_push bytes.now) 0 }
{
    match push_form(bytes) {
        PushForm::Number(byte) => byte,
        PushForm::Direct(length) => length,
        PushForm::Data1(_) => 0x4c,
        PushForm::Data2(_) => 0x4d,
        PushForm::Data4 => 0x4e,
    }
}

/// How many bytes the shortest push of these bytes has. Takes no memory.
pub fn push_length(bytes: &[u8]) -> u64
    ensures { result ≡ length (shortest_push bytes.now) }
{
    let length = bytes.len() as u64;
    match push_form(bytes) {
        PushForm::Number(_) => 1,
        PushForm::Direct(_) => 1 + length,
        PushForm::Data1(_) => 2 + length,
        PushForm::Data2(_) => 3 + length,
        PushForm::Data4 => 5 + length,
    }
}
