//! Keys and signatures for tests, and texts in which capital letters stand for keys and hash values.

use std::alloc::{AllocError, Global};

/// The key that `A` stands for.
pub const A: [u8; 33] = [
    2, 1, 1, 1, 1, 1, 1, 1, 1, 1, 1, 1, 1, 1, 1, 1, 1, 1, 1, 1, 1, 1, 1, 1, 1, 1, 1, 1, 1, 1, 1, 1,
    1,
];

/// The key that `B` stands for: the public key of the private key 1.
pub const B: [u8; 33] = [
    0x02, 0x79, 0xbe, 0x66, 0x7e, 0xf9, 0xdc, 0xbb, 0xac, 0x55, 0xa0, 0x62, 0x95, 0xce, 0x87, 0x0b,
    0x07, 0x02, 0x9b, 0xfc, 0xdb, 0x2d, 0xce, 0x28, 0xd9, 0x59, 0xf2, 0x81, 0x5b, 0x16, 0xf8, 0x17,
    0x98,
];

/// The key that `C` stands for.
pub const C: [u8; 33] = [3; 33];

/// A signature of the first key.
pub const SIG_A: [u8; 71] = [0xaa; 71];

/// A signature of the second key.
pub const SIG_B: [u8; 72] = [0xbb; 72];

/// A signature of the third key.
pub const SIG_C: [u8; 70] = [0xcc; 70];

/// The digits that a capital letter stands for: `A`, `B` and `C` for the keys; `H` for 32 bytes 11; and `X`, `Y` and `Z` for the
/// SHA-256 of 32 bytes 11, 22 and 33.
pub fn digits_of(letter: char) -> Option<&'static str> {
    let digits = match letter {
        'A' => "020101010101010101010101010101010101010101010101010101010101010101",
        'B' => "0279be667ef9dcbbac55a06295ce870b07029bfcdb2dce28d959f2815b16f81798",
        'C' => "030303030303030303030303030303030303030303030303030303030303030303",
        'H' => "1111111111111111111111111111111111111111111111111111111111111111",
        // By Python's hashlib over OpenSSL.
        'X' => "02d449a31fbb267c8f352e9968a79e3e5fc95c1bbeaa502fd6454ebde5a4bedc",
        'Y' => "9f72ea0cf49536e3c66c787f705186df9a4378083753ae9536d65b3ad7fcddc4",
        'Z' => "deb0e38ced1e41de6f92e70e80c418d2d356afaaa99e26f5939dbc7d3ef4772a",
        _ => return None,
    };
    Some(digits)
}

/// A text in which capital letters stand for digits. Refuses for want of memory alone.
pub fn filled(alloc: Global, form: &str) -> Result<String, AllocError> {
    let mut text = String::new(alloc);
    for letter in form.chars() {
        match digits_of(letter) {
            Some(digits) => text.push_str(digits)?,
            None => text.push(letter)?,
        }
    }
    Ok(text)
}

/// A text, a part so many times, and another text. Refuses for want of memory alone.
pub fn repeated(
    alloc: Global,
    first: &str,
    part: &str,
    count: usize,
    last: &str,
) -> Result<String, AllocError> {
    let mut text = String::from_str(alloc, first)?;
    for _ in 0..count {
        text.push_str(part)?;
    }
    text.push_str(last)?;
    Ok(text)
}
