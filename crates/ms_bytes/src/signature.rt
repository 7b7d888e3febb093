//! The length of signatures.

ghost use Rattle.std.specs.Prelude.{◌≡◌};
ghost use Rattle.def_script.specs.Signature.{is_signature_size as the_is_signature_size};

/// The most bytes of a signature: 72 in DER (BIP 66), and one for the hash type.
pub const MAX_SIGNATURE_SIZE: usize = 73;

/// Whether a signature can have so many bytes: 1 to 73. Takes no memory, and never refuses.
pub fn is_signature_size(size: usize) -> bool
    ensures { result ≡ the_is_signature_size size }
{
    1 <= size && size <= MAX_SIGNATURE_SIZE
}
