//! What the lines of a source give, combined.

ghost use Rattle.std.specs.Prelude.{◌≡◌, ◌≤◌, length, Some, IfOk, IfErr, IsTrue};
ghost use Rattle.def_psbt.specs.Map.{psbt_text};
ghost use Rattle.def_psbt.specs.Source.{MAX_SOURCE_SIZE as the_max_source_size, has_magic};
ghost use Rattle.def_psbt.specs.Transaction.{Transaction};
ghost use Rattle.def_psbt.specs.TransactionReading.{transaction_of};
ghost use Rattle.def_combine.specs.Combine.{combined_of};
ghost use Rattle.ms_combine.specs.Outcome.{CombinesOr};
ghost use Rattle.ms_combine.specs.Scaffolding.Again.{SaysTransaction};

use crate::joined::joined_text;
use crate::lines::all_lines;
use crate::parts::read_parts;
use crate::stop::CombineStop;
use crate::transactions::are_same_transaction;
use def_combine::CombineRefusal;
use def_psbt::laws::psbts;
use ms_given_laws::laws::given;
use ms_psbt::{MAX_SOURCE_SIZE, ReadStop, read_psbt};
use std::alloc::Global;

/// The number of version 2.
const VERSION_TWO: u32 = 2;

/// The PSBT that holds what the PSBTs of all lines hold, each the base64 of one: each of its maps has the pairs of the first one's map
/// in their order, then those of the second's whose keys haven't stood yet, and so on.
///
/// `Refused` comes exactly where the source is too long, where a line is refused, by the first such line, where no line has a PSBT,
/// or where what was put together has another lock time. Only `Memory` may come in place of any answer.
pub fn combine(alloc: Global, source: &[u8]) -> Result<Vec<u8>, CombineStop>
    ensures { CombinesOr (λ text whole. text.items ≡ psbt_text whole.global whole.inputs whole.outputs) result (combined_of source.now) }
{
    if source.len() > MAX_SOURCE_SIZE {
        return Err(CombineStop::Refused(CombineRefusal::TooLong));
    }
    psbts();
    given();
    let mut left = all_lines(source);
    let parts = read_parts(alloc, source.len() / 4 * 3, &mut left)?;
    let version = parts.version;
    let transaction = parts.transaction;
    let places = parts.places;
    let text = joined_text(alloc, parts.bytes.as_slice(), parts.first_end, places)?;
    if version == VERSION_TWO && !has_transaction(alloc, text.as_slice(), transaction.as_slice())? {
        return Err(CombineStop::Refused(CombineRefusal::OtherTransaction));
    }
    Ok(text)
}

/// Whether the bytes of a PSBT, read again, have this transaction.
fn has_transaction(alloc: Global, bytes: &[u8], transaction: &[u8]) -> Result<bool, CombineStop>
    requires magic { IsTrue (has_magic bytes.now) }
    requires short { length bytes.now ≤ the_max_source_size }
    ensures says { (given : Transaction) → transaction_of transaction.now ≡ Some given → IfOk result (λ is. SaysTransaction bytes.now given is) }
    ensures memory { IfErr result (λ why. why ≡ CombineStop.Memory) }
{
    match read_psbt(alloc, bytes) {
        Ok(psbt) => Ok(are_same_transaction(psbt.transaction_bytes(), transaction)),
        Err(ReadStop::Refused(_)) => Ok(false),
        Err(ReadStop::Memory) => Err(CombineStop::Memory),
    }
}
