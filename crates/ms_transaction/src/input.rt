//! An input without a scriptSig.

ghost use Rattle.std.specs.Prelude.{◌≡◌, ◌+◌, ◌≤◌, length, take, drop};
ghost use Rattle.std.specs.Int.{w32, from_le_bytes};
ghost use Rattle.def_psbt.specs.Transaction.{input_text};
ghost use Rattle.ms_transaction.specs.Unsigned.{IsUnsigned};
ghost use Rattle.ms_transaction.specs.Parts.{input_in};
ghost use Rattle.ms_transaction.specs.Scaffolding.Spelled.{IsEmptyInput};

use crate::numbers::part;
use std::marker::Model;

/// An input without a scriptSig, which lies in 41 bytes.
#[derive(Debug, Drop)]
pub struct InputRef<'a> {
    bytes: &'a [u8],
}

impl<'a> Model for InputRef<'a> {
    ghost use Rattle.def_psbt.specs.Transaction.{TransactionInput};

    ghost Value = { TransactionInput };

    ghost use Rattle.ms_transaction.specs.Parts.{input_in};
    ghost use Rattle.ms_transaction.specs.Scaffolding.Spelled.{IsEmptyInput};

    ghost view = { λ i. input_in i.bytes.now };

    ghost invariant = { λ i. IsEmptyInput i.bytes.now };
}

impl<'a> InputRef<'a> {
    pub(crate) fn new(bytes: &'a [u8]) -> InputRef<'a>
        requires { IsEmptyInput bytes.now }
        ensures { result ≡ input_in bytes.entry.now }
    {
        InputRef { bytes }
    }

    /// Its bytes. Takes no memory.
    pub fn bytes(&self) -> &'a [u8]
        ensures text { result.now ≡ input_text self.now }
        ensures long { length result.now ≡ 41 }
        ensures unsigned { IsUnsigned self.now }
    {
        self.bytes
    }

    /// The id of the transaction whose output it spends, as it lies in a transaction. Takes no memory.
    pub fn id(&self) -> &'a [u8]
        ensures id { result.now ≡ self.now.outpoint.id }
        ensures long { length result.now ≡ 32 }
    {
        part(self.bytes, 0, 32)
    }

    /// The number of that output. Takes no memory.
    pub fn index(&self) -> u32
        ensures { result ≡ self.now.outpoint.index }
    {
        number_at(self.bytes, 32)
    }

    /// The sequence number. Takes no memory.
    pub fn sequence(&self) -> u32
        ensures { result ≡ self.now.sequence }
    {
        number_at(self.bytes, 37)
    }
}

// The number of four bytes at a place.
fn number_at(bytes: &[u8], at: usize) -> u32
    requires { at + 4 ≤ length bytes.now }
    ensures { result ≡ from_le_bytes w32 (take 4 (drop at bytes.now)) }
{
    u32::from_le_bytes([bytes[at], bytes[at + 1], bytes[at + 2], bytes[at + 3]])
}
