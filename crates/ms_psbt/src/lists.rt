//! Lists in transactions: how many parts they have, and the bytes behind them.

ghost use Rattle.def_psbt.specs.Part.{first_list, first_many};
ghost use Rattle.def_psbt.specs.TransactionReading.{first_input, first_output, first_witness};
ghost use Rattle.ms_psbt.specs.Seen.{IsPart, counted_part, rest_of};

use crate::transaction::{Kind, skip_each_witness, skip_list};

/// How many inputs there are behind their number, and the bytes behind them; none exactly where they aren't whole. Takes no
/// memory.
pub fn skip_inputs(bytes: &[u8]) -> Option<(u64, &[u8])>
    ensures { IsPart (λ part. (part.0, part.1.now)) result (counted_part (first_list first_input bytes.now)) }
{
    skip_list(Kind::Input, bytes)
}

/// How many outputs there are behind their number, and the bytes behind them; none exactly where they aren't whole. Takes no
/// memory.
pub fn skip_outputs(bytes: &[u8]) -> Option<(u64, &[u8])>
    ensures { IsPart (λ part. (part.0, part.1.now)) result (counted_part (first_list first_output bytes.now)) }
{
    skip_list(Kind::Output, bytes)
}

/// The bytes behind so many witnesses; none exactly where they aren't whole. Takes no memory.
pub fn skip_witnesses(count: u64, bytes: &[u8]) -> Option<&[u8]>
    ensures { IsPart (λ rest. rest.now) result (rest_of (first_many first_witness count bytes.now)) }
{
    skip_each_witness(count, bytes)
}
