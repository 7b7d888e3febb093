//! The form of keys.

ghost use Rattle.std.specs.Prelude.{◌≡◌};
ghost use Rattle.def_script.specs.Key.{is_key as the_is_key};

/// Whether bytes are a compressed public key, as BIP 143 asks of P2WSH: 33 of which the first is 02 or 03. That it lies on the
/// curve isn't tested. Takes no memory.
pub fn is_key(bytes: &[u8]) -> bool
    ensures { result ≡ the_is_key bytes.now }
{
    bytes.len() == 33 && (bytes[0] == 0x02 || bytes[0] == 0x03)
}
