//! The characters of an alphabet.

ghost use Rattle.std.specs.Prelude.{◌≡◌, ◌==◌, ◌<◌, position, slice_index, IfSome};
ghost use Rattle.def_address.specs.Base58.{base58_alphabet};
ghost use Rattle.def_address.specs.Bech32.{bech32_alphabet};
ghost use Rattle.def_address.specs.DescriptorSum.{descriptor_alphabet};

/// The characters of the digits of Base58.
const BASE58: &[u8; 58] = b"123456789ABCDEFGHJKLMNPQRSTUVWXYZabcdefghijkmnopqrstuvwxyz";

/// The characters of values below 32.
const BECH32: &[u8; 32] = b"qpzry9x8gf2tvdw0s3jn54khce6mua7l";

/// The characters of a descriptor.
const DESCRIPTOR: &[u8; 95] =
    b"0123456789()[],'/*abcdefgh@:$%{}IJKLMNOPQRSTUVWXYZ&+-.;<=>?!^_|~ijklmnopqrstuvwxyzABCDEFGH`#\"\\ ";

/// The character of a digit of Base58.
pub fn base58_letter(digit: u8) -> u8
    requires { digit < 58 }
    ensures { result ≡ slice_index base58_alphabet digit }
{
    BASE58[digit as usize]
}

/// The digit of a character.
pub fn base58_place(letter: u8) -> Option<usize>
    ensures place { result ≡ position (λ other. other == letter) base58_alphabet }
    ensures below { IfSome result (λ place. place < 58) }
{
    BASE58.iter().position(|other| *other == letter)
}

/// The character of a value.
pub fn bech32_letter(value: u64) -> u8
    requires { value < 32 }
    ensures { result ≡ slice_index bech32_alphabet value }
{
    BECH32[value as usize]
}

/// The place of a descriptor's character.
pub fn descriptor_place(letter: u8) -> Option<usize>
    ensures place { result ≡ position (λ other. other == letter) descriptor_alphabet }
    ensures below { IfSome result (λ place. place < 95) }
{
    DESCRIPTOR.iter().position(|other| *other == letter)
}
