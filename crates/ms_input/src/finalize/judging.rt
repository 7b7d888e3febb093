//! What of an input's map counts for its satisfaction: all of its signatures, or the good ones.

ghost use Rattle.std.specs.Prelude.{◌≡◌, ◌∷◌, ◌++◌, [], false, if◌then◌else◌, Some, None, IfOk, OnOk, option_map, map};
ghost use Rattle.def_spend.specs.Fields.{asked};
ghost use Rattle.def_spend.specs.Good.{is_good, assets_of};
ghost use Rattle.def_spend.specs.Input.{Spend};
ghost use Rattle.def_spend.specs.States.{is_sighash_wrong};
ghost use Rattle.def_files.specs.Laws.{AreFewAssets};
ghost use Rattle.ms_held.specs.Adding.{another_stop};
ghost use Rattle.ms_input.specs.Held.{all_assets};
ghost use Rattle.ms_input.specs.Settled.{IsOf, words_by, word_for, good_for};

use crate::fields::{Fields, SignedRef, add_pair};
use def_curve::Judgement;
use ms_held::Assets;
use ms_judge::judge::judge;
use ms_oracle::Locks;
use std::alloc::{AllocError, Global};

/// Which signatures of an input count.
#[derive(Clone, Copy, Debug)]
pub enum Judging<'a> {
    /// Every one, whether it is good or not: none is judged.
    Unverified,
    /// The good ones: these bytes are what a signature of the asked type signs, or none where that is no hash type.
    Verified(&'a [u8]),
}

/// What of an input's map counts for its satisfaction.
#[derive(Drop)]
pub struct Counted {
    /// The assets.
    pub assets: Assets,
    /// What each signature is, in the map's order, where they were judged.
    pub words: Option<Vec<Judgement>>,
}

/// What of an input's map counts for its satisfaction. Judges each signature once, where the good ones count, and else none. It demands
/// that each is of the asked type, and that what the map holds are assets, and few. Refuses for want of memory alone.
pub fn count(
    alloc: Global,
    fields: &Fields<'_>,
    locks: Locks,
    judging: Judging<'_>,
) -> Result<Counted, AllocError>
    requires types { is_sighash_wrong (asked fields.now.asked) fields.now.pairs ≡ false }
    requires few { AreFewAssets (all_assets locks fields.now) }
    ensures assets { IfOk result (λ c. (spend : Spend) → IsOf spend fields.now locks judging.entry → c.assets ≡ assets_of spend) }
    ensures words { IfOk result (λ c. (spend : Spend) → IsOf spend fields.now locks judging.entry → option_map (λ w. w.items) c.words ≡ words_by spend.verification spend) }
{
    match judging {
        Judging::Unverified => Ok(Counted {
            assets: fields.assets(alloc, locks)?,
            words: None,
        }),
        Judging::Verified(hash) => {
            let unsigned = fields.unsigned_assets(alloc, locks)?;
            judged(alloc, unsigned, fields.pairs(), hash)
        }
    }
}

/// The assets with the signatures that are good for a hash, and what each signature is for it. It demands that with all of them these
/// are assets, and few.
fn judged(
    alloc: Global,
    unsigned: Assets,
    pairs: &[SignedRef<'_>],
    hash: &[u8],
) -> Result<Counted, AllocError>
    requires none { unsigned.pairs ≡ [] }
    requires few { AreFewAssets (record unsigned { pairs = pairs.now }) }
    ensures assets { IfOk result (λ c. c.assets ≡ record unsigned { pairs = unsigned.pairs ++ good_for hash.now pairs.now }) }
    ensures words { IfOk result (λ c. option_map (λ w. w.items) c.words ≡ Some (map (word_for hash.now) pairs.now)) }
{
    let mut assets = unsigned;
    let mut words = Vec::with_capacity(alloc, pairs.len())?;
    'pairs: for pair in pairs {
        let word = judge(pair.key().as_bytes(), hash, pair.sig());
        add_good(&mut assets, pair, word)?;
        words.push(word)?;
    }
    Ok(Counted {
        assets,
        words: Some(words),
    })
}

/// Adds a signature of this judgement, where it is good. It demands that nothing is against it. Refuses for want of memory alone.
fn add_good(assets: &mut Assets, pair: &SignedRef<'_>, word: Judgement) -> Result<(), AllocError>
    requires { another_stop assets.old pair.now.0 pair.now.1 ≡ None }
    ensures { OnOk result (assets.new ≡ record assets.old { pairs = assets.old.pairs ++ (if is_good word then pair.now ∷ [] else []) }) }
{
    match word {
        Judgement::Good => add_pair(assets, pair),
        Judgement::Bad | Judgement::High => Ok(()),
    }
}
