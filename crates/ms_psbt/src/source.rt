//! The bytes of a PSBT that comes as itself or as base64.

ghost use Rattle.std.specs.Prelude.{◌≡◌, ◌≤◌, length, IfOk, IsTrue};
ghost use Rattle.def_psbt.specs.Source.{MAX_SOURCE_SIZE as the_max_source_size, has_magic as the_has_magic, is_blank as the_is_blank, without_blanks as the_without_blanks, psbt_bytes as the_psbt_bytes};
ghost use Rattle.ms_psbt.specs.Seen.{ReadsOr};
ghost use Rattle.ms_psbt.specs.Sources.{bytes_of};

use crate::stop::ReadStop;
use base64::DecodeAllocError;
use base64::engine::general_purpose::STANDARD;
use def_psbt::Refusal;
use std::alloc::{AllocError, Global};

/// The most bytes of a source: 16 MiB.
pub const MAX_SOURCE_SIZE: usize = 16_777_216;

/// The bytes of a PSBT, in the form in which it came.
#[derive(Debug, Drop)]
pub enum PsbtBytes<'a> {
    /// The source itself.
    Given(&'a [u8]),
    /// What its base64 gave.
    Decoded(Vec<u8>),
}

impl<'a> PsbtBytes<'a> {
    /// The bytes.
    pub fn as_slice(&self) -> &[u8]
        ensures { result.now ≡ bytes_of self.now }
    {
        match self {
            PsbtBytes::Given(bytes) => bytes,
            PsbtBytes::Decoded(bytes) => bytes.as_slice(),
        }
    }
}

/// Whether bytes begin with `psbt` and 0xff. Takes no memory.
pub fn has_magic(bytes: &[u8]) -> bool
    ensures { result ≡ the_has_magic bytes.now }
{
    let front = if bytes.len() < 5 { bytes } else { &bytes[..5] };
    front == [0x70, 0x73, 0x62, 0x74, 0xff].as_slice()
}

/// Whether a byte is a space, a tab, CR or LF.
fn is_blank(byte: u8) -> bool
    ensures { result ≡ the_is_blank byte }
{
    byte == 0x20 || byte == 0x09 || byte == 0x0d || byte == 0x0a
}

/// The bytes that aren't blank.
fn without_blanks(alloc: Global, source: &[u8]) -> Result<Vec<u8>, AllocError>
    ensures { IfOk result (λ text. text.items ≡ the_without_blanks source.now) }
{
    let mut text = Vec::with_capacity(alloc, source.len())?;
    'bytes: for byte in source {
        if !is_blank(*byte) {
            text.push(*byte)?;
        }
    }
    Ok(text)
}

/// The bytes of the PSBT that a source is: the source itself where it begins with the magic, and else what its base64
/// (RFC 4648, with padding) gives, spaces, tabs, CR and LF left out.
///
/// `TooLong` comes exactly where the source has over 16,777,216 bytes, then `NotBase64` exactly where it has neither the magic
/// nor is base64, and `Magic` exactly where what it decodes to hasn't the magic. Only `Memory` may come in place of any answer.
#[tactic(auto, unfolding(def_psbt::specs::Source::psbt_bytes))]
pub fn psbt_bytes(alloc: Global, source: &[u8]) -> Result<PsbtBytes<'_>, ReadStop>
    ensures reading { ReadsOr bytes_of result (the_psbt_bytes source.now) }
    ensures magic { IfOk result (λ psbt. IsTrue (the_has_magic (bytes_of psbt))) }
    ensures short { IfOk result (λ psbt. length (bytes_of psbt) ≤ the_max_source_size) }
{
    if source.len() > MAX_SOURCE_SIZE {
        return Err(ReadStop::Refused(Refusal::TooLong));
    }
    if has_magic(source) {
        return Ok(PsbtBytes::Given(source));
    }
    let text = without_blanks(alloc, source)?;
    match STANDARD.decode(alloc, text.as_slice()) {
        Ok(bytes) => {
            if has_magic(bytes.as_slice()) {
                Ok(PsbtBytes::Decoded(bytes))
            } else {
                Err(ReadStop::Refused(Refusal::Magic))
            }
        }
        Err(DecodeAllocError::OutOfMemory) => Err(ReadStop::Memory),
        Err(DecodeAllocError::DecodeError(_)) => Err(ReadStop::Refused(Refusal::NotBase64)),
    }
}
