//! How the signatures of an input are judged, each once.
ghost use Rattle.std.specs.Prelude.{◌≡◌, Bool, Some, slice_get};
ghost use Rattle.def_curve.specs.Judgement.{judge as the_judge};
ghost use Rattle.def_spend.specs.Fields.{signatures_in};
ghost use Rattle.def_spend.specs.Good.{word_of};
ghost use Rattle.def_spend.specs.Input.{Spend};
ghost use Rattle.def_psbt_answer.specs.Report.{told_word};
ghost use Rattle.ms_psbt_report.specs.Scaffolding.Tables.{IsTable};
ghost use Rattle.ms_psbt_report.specs.Scaffolding.Words.{AreWords, bytes_in};

use crate::table::HashTable;
use ms_input::{Judgement, SignedRef, last_byte};
use ms_judge::judge::judge;

/// How the signatures of an input are judged.
#[derive(Clone, Copy, Debug)]
pub enum Words<'a> {
    /// Nobody asks, or it isn't known what they sign.
    Untold,
    /// So, in their order: they were judged where the input was read.
    Judged(&'a [Judgement]),
    /// Each by what its own type signs.
    ByHash(&'a HashTable),
}

impl Words<'_> {
    /// How the signature with this number is judged, where that is told.
    pub fn word(&self, number: usize, pair: &SignedRef<'_>) -> Option<Judgement>
        ensures { (is_known : Bool) (spend : Spend) → AreWords is_known spend self.now → slice_get (signatures_in spend.fields) number ≡ Some pair.now → result ≡ told_word is_known spend pair.now }
    {
        match self {
            Words::Untold => None,
            Words::Judged(words) => word_at(words, number),
            Words::ByHash(table) => Some(judged(table, pair)),
        }
    }
}

/// The word with this number.
fn word_at(words: &[Judgement], number: usize) -> Option<Judgement>
    ensures { result ≡ slice_get words.now number }
{
    match words.get(number) {
        Some(word) => Some(*word),
        None => None,
    }
}

/// The judgement of a signature, for what its own type signs.
fn judged(table: &HashTable, pair: &SignedRef<'_>) -> Judgement
    ensures { (spend : Spend) → IsTable spend table.now → result ≡ word_of spend pair.now }
{
    let hash = table.hash_by(u32::from(last_byte(pair.sig())));
    judged_for(pair, hash)
}

/// The judgement of a signature for a hash: where there is none it is bad.
fn judged_for(pair: &SignedRef<'_>, hash: Option<[u8; 32]>) -> Judgement
    ensures { result ≡ the_judge pair.now.0 (bytes_in hash) pair.now.1 }
{
    match hash {
        Some(hash) => judge(pair.key().as_bytes(), &hash, pair.sig()),
        None => judge(pair.key().as_bytes(), &[], pair.sig()),
    }
}
