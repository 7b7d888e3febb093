//! Which signatures of an input count, and what it takes to judge them.

ghost use Rattle.std.specs.Prelude.{◌≡◌, [], None, IfOk, option_map, unwrap_or};
ghost use Rattle.def_assets.specs.Assets.{AreAssets};
ghost use Rattle.def_spend.specs.declared.Verification.TheVariants.{Verified, Unverified};
ghost use Rattle.def_spend.specs.Fields.{asked_type};
ghost use Rattle.def_spend.specs.Hashes.{hash_by, script_in};
ghost use Rattle.def_spend.specs.Input.{Spend};
ghost use Rattle.def_spend.specs.Utxo.{utxo_of, amount_of};
ghost use Rattle.ms_input.specs.Held.{all_assets};
ghost use Rattle.ms_input.specs.Settled.{IsJudged, input_of};
ghost use Rattle.ms_input.specs.Scaffolding.Kept.{IsFound, IsToldOf, IsSettledBy, asked_by};
ghost use Rattle.ms_tree.specs.Shape.{shape};
ghost use Rattle.ms_input.specs.Verified.{IsVerifying, verification_of as the_verification_of};
ghost use Rattle.ms_input.specs.Spending.{amount_seen, code_found};

use crate::fields::Fields;
use crate::finalize::{Judging, Settled, settle};
use crate::input::signing::signed_hash;
use crate::utxo::{Amount, Spent};
use bumpalo::Bump;
use def_curve::Judgement;
use def_spend::Verification;
use ms_oracle::Locks;
use ms_sighash::SharedHashes;
use ms_transaction::InputRef;
use std::alloc::{AllocError, Global};

/// Which signatures of an input count.
#[derive(Clone, Copy)]
pub enum Verifying<'a> {
    /// Every one, whether it is good or not: none is judged.
    Unverified,
    /// The good ones.
    Verified {
        /// What all signatures of the transaction share.
        shared: &'a SharedHashes,
        /// The bytes of the transaction's output with the input's number, where there is one.
        output: Option<&'a [u8]>,
    },
}

/// Which signatures count. Takes no memory.
pub fn verification_of(verifying: Verifying<'_>) -> Verification
    ensures { result ≡ the_verification_of verifying.entry }
{
    match verifying {
        Verifying::Unverified => Verification::Unverified,
        Verifying::Verified { .. } => Verification::Verified,
    }
}

/// What is found of an input: by what its map holds, what it spends, its locks, the signatures that count, and what those of the asked type
/// sign. It demands that what the map holds are assets. Refuses for want of memory alone.
pub fn settled_by<'t>(
    alloc: Global,
    arena: &'t Bump<Global>,
    fields: &Fields<'_>,
    spent: &Spent<'_>,
    locks: Locks,
    verifying: Verifying<'_>,
    hash: &Option<[u8; 32]>,
) -> Result<Settled<'t>, AllocError>
    requires { AreAssets (all_assets locks fields.now) }
    ensures { IfOk result (λ s. (spend : Spend) → IsSettledBy spend fields.now spent.now locks verifying.entry hash.now → IsFound (input_of spend (option_map shape s.tree)) s) }
{
    match spent.script {
        Ok(script) => {
            let judging = judging(verifying, hash);
            settle(alloc, arena, script.as_slice(), fields, locks, judging)
        }
        Err(state) => Ok(Settled::of(None, state)),
    }
}

/// What a signature of the asked type signs of an input, by what the transaction says of it, what its map holds and what it spends: where
/// signatures are judged, there is a Script, and there is such a hash type. Takes no memory.
pub fn asked_hash(
    verifying: Verifying<'_>,
    input: &InputRef<'_>,
    fields: &Fields<'_>,
    spent: &Spent<'_>,
) -> Option<[u8; 32]>
    ensures { (spend : Spend) → IsToldOf spend input.now fields.now spent.now verifying.entry → result ≡ asked_by (the_verification_of verifying.entry) (code_found spent.now.script) spend }
{
    match spent.script {
        Ok(script) => judged_hash(
            verifying,
            fields.asked_type(),
            input,
            script.as_slice(),
            spent.amount,
        ),
        Err(_) => None,
    }
}

// What a signature of the hash type with this number signs of an input with this Script and amount, where signatures are judged and
// there is such a hash type.
fn judged_hash(
    verifying: Verifying<'_>,
    number: u32,
    input: &InputRef<'_>,
    script: &[u8],
    amount: Amount,
) -> Option<[u8; 32]>
    ensures verified { (spend : Spend) → IsVerifying verifying.entry spend.transaction spend.number → input.now ≡ spend.input → script.now ≡ script_in spend
        → amount_seen amount ≡ amount_of (utxo_of spend.input.outpoint spend.fields) → the_verification_of verifying.entry ≡ Verified → result ≡ hash_by number spend }
    ensures unverified { the_verification_of verifying.entry ≡ Unverified → result ≡ None }
{
    match verifying {
        Verifying::Unverified => None,
        Verifying::Verified { shared, output } => {
            signed_hash(shared, output, number, input, script, amount)
        }
    }
}

// How signatures are judged, where this is what one of the asked type signs.
fn judging<'a>(verifying: Verifying<'_>, hash: &'a Option<[u8; 32]>) -> Judging<'a>
    ensures { (spend : Spend) → spend.verification ≡ the_verification_of verifying.entry
        → (the_verification_of verifying.entry ≡ Verified → hash.entry.now ≡ hash_by (asked_type spend.fields) spend) → IsJudged result spend }
{
    match verifying {
        Verifying::Unverified => Judging::Unverified,
        Verifying::Verified { .. } => Judging::Verified(bytes_of(hash)),
    }
}

// The bytes of a hash, or none where there is none.
fn bytes_of<'a>(hash: &'a Option<[u8; 32]>) -> &'a [u8]
    ensures { result.now ≡ unwrap_or hash.entry.now [] }
{
    match hash {
        Some(hash) => hash.as_slice(),
        None => &[],
    }
}

/// The judgements that are kept. Takes no memory.
pub fn words_of<'a>(words: &'a Option<Vec<Judgement>>) -> Option<&'a [Judgement]>
    ensures { option_map (λ w. w.now) result ≡ option_map (λ w. w.items) words.entry.now }
{
    match words {
        Some(words) => Some(words.as_slice()),
        None => None,
    }
}
