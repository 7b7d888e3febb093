//! Pieces of lines: texts, numbers, digits and ids.
ghost use Rattle.std.specs.Prelude.{◌≡◌, ◌<◌, ◌++◌, [], ◌∷◌, decimal, slice_index, OnOk};
ghost use Rattle.hex.specs.Hex.{encode_lower, lower_digits};
ghost use Rattle.def_answer.specs.Lines.{line};
ghost use Rattle.def_answer.specs.Satisfy.{item_digits};
ghost use Rattle.def_psbt_answer.specs.Lines.{id_digits, hash_digits};

use itoa::Buffer;
use std::alloc::AllocError;

/// Adds a text. `AllocError` comes only where memory is wanting.
pub fn push_text(report: &mut Vec<u8>, text: &str) -> Result<(), AllocError>
    ensures { OnOk result (report.new.items ≡ report.old.items ++ text.now) }
{
    report.extend_from_slice(text.as_bytes())
}

/// Adds a number in decimal.
pub fn push_number(report: &mut Vec<u8>, number: u64) -> Result<(), AllocError>
    ensures { OnOk result (report.new.items ≡ report.old.items ++ decimal number) }
{
    let mut buffer = Buffer::new();
    push_text(report, buffer.format(number))
}

/// Adds a name and a number.
pub fn push_named(report: &mut Vec<u8>, name: &str, number: u64) -> Result<(), AllocError>
    ensures { OnOk result (report.new.items ≡ report.old.items ++ (name.now ++ decimal number)) }
{
    push_text(report, name)?;
    push_number(report, number)
}

/// Adds a name and a number, which end their line.
pub fn push_number_line(report: &mut Vec<u8>, name: &str, number: u64) -> Result<(), AllocError>
    ensures { OnOk result (report.new.items ≡ report.old.items ++ line (name.now ++ decimal number)) }
{
    push_named(report, name, number)?;
    push_text(report, "\n")
}

/// Adds bytes as lower-case digits.
pub fn push_digits(report: &mut Vec<u8>, bytes: &[u8]) -> Result<(), AllocError>
    ensures { OnOk result (report.new.items ≡ report.old.items ++ encode_lower bytes.now) }
{
    for byte in bytes {
        push_byte(report, *byte)?;
    }
    Ok(())
}

/// Adds the id of a transaction, as users know it: the digits of its bytes in reverse order.
pub fn push_id(report: &mut Vec<u8>, id: &[u8]) -> Result<(), AllocError>
    ensures { OnOk result (report.new.items ≡ report.old.items ++ id_digits id.now) }
{
    for i in 0..id.len() {
        push_byte(report, id[id.len() - 1 - i])?;
    }
    Ok(())
}

/// Adds the two digits of a byte.
#[tactic(auto, unfolding(hex::specs::Hex::encode_with))]
fn push_byte(report: &mut Vec<u8>, byte: u8) -> Result<(), AllocError>
    ensures { OnOk result (report.new.items ≡ report.old.items ++ encode_lower (byte ∷ [])) }
{
    report.extend_from_slice(&[digit(byte / 16), digit(byte % 16)])
}

/// The digit of a number below 16.
fn digit(number: u8) -> u8
    requires { number < 16 }
    ensures { result ≡ slice_index lower_digits number }
{
    b"0123456789abcdef"[number as usize]
}

/// Adds bytes as lower-case digits, an empty string as `-`.
pub fn push_item(report: &mut Vec<u8>, item: &[u8]) -> Result<(), AllocError>
    ensures { OnOk result (report.new.items ≡ report.old.items ++ item_digits item.now) }
{
    if item.is_empty() {
        return push_text(report, "-");
    }
    push_digits(report, item)
}

/// Adds a hash, or `-` where there is none.
pub fn push_hash(report: &mut Vec<u8>, hash: Option<[u8; 32]>) -> Result<(), AllocError>
    ensures { OnOk result (report.new.items ≡ report.old.items ++ hash_digits hash) }
{
    match hash {
        Some(hash) => push_digits(report, &hash),
        None => push_text(report, "-"),
    }
}
