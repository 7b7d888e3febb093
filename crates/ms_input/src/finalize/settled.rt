//! What is found of an input whose Script is known.

ghost use Rattle.std.specs.Prelude.{◌≡◌, ◌≤◌, ◌^◌, None, IfOk, IfSome, option_map};
ghost use Rattle.def_script.specs.Witness.{weight};
ghost use Rattle.def_assets.specs.Assets.{AreAssets};
ghost use Rattle.def_tree.specs.InRange.{IsInRange};
ghost use Rattle.def_spend.specs.Input.{Spend};
ghost use Rattle.def_spend.specs.Reading.{IsReadAs};
ghost use Rattle.def_spend.specs.States.{tree_state};
ghost use Rattle.ms_input.specs.Held.{all_assets};
ghost use Rattle.ms_input.specs.Settled.{IsOf, input_of, assets_in, words_in, chosen_in};
ghost use Rattle.ms_tree.specs.Shape.{shape};

use crate::fields::Fields;
use crate::finalize::judging::{Judging, count};
use bumpalo::Bump;
use def_curve::Judgement;
use def_spend::State;
use ms_bytes::Stack;
use ms_decode::decode;
use ms_held::Assets;
use ms_oracle::Locks;
use ms_sane::SaneTree;
use ms_sat::strict;
use ms_tree::Tree;
use std::alloc::{AllocError, Global};

/// What is found of an input whose Script is known: the miniscript that it is read as, where there is one, its state,
/// what it has for a satisfaction, what its signatures are, and the satisfaction of one that is Ready.
#[derive(Drop)]
pub struct Settled<'a> {
    /// The miniscript.
    pub tree: Option<Tree<'a>>,
    /// The state: NoReading or a later one.
    pub state: State,
    /// The assets of an Unsatisfied or a Ready input.
    pub assets: Option<Assets>,
    /// What each signature of an Unsatisfied or a Ready input is, in the map's order, where they were judged.
    pub words: Option<Vec<Judgement>>,
    /// The strict satisfaction of a Ready input.
    pub stack: Option<Stack>,
}

impl<'a> Settled<'a> {
    /// That of an input in a state in which its assets don't count. Takes no memory.
    pub fn of(tree: Option<Tree<'a>>, state: State) -> Settled<'a>
        ensures { result ≡ record { tree = tree.entry; state = state; assets = None; words = None; stack = None } }
    {
        Settled {
            tree,
            state,
            assets: None,
            words: None,
            stack: None,
        }
    }
}

/// Reads the Script of an input with the keys of its map, tells its state under its locks and by the signatures that count, and where
/// that is Ready chooses its satisfaction. No signature is judged before it is Unsatisfied or Ready, and each once. It demands that
/// what the map holds are assets. Refuses for want of memory alone.
pub fn settle<'a>(
    alloc: Global,
    arena: &'a Bump<Global>,
    script: &[u8],
    fields: &Fields<'_>,
    locks: Locks,
    judging: Judging<'_>,
) -> Result<Settled<'a>, AllocError>
    requires { AreAssets (all_assets locks fields.now) }
    ensures reading { IfOk result (λ s. IsReadAs fields.now.keys script.now (option_map shape s.tree)) }
    ensures in_range { IfOk result (λ s. IfSome s.tree (λ tree. IsInRange (shape tree))) }
    ensures state { IfOk result (λ s. (spend : Spend) → IsOf spend fields.now locks judging.entry → s.state ≡ tree_state (option_map shape s.tree) spend) }
    ensures assets { IfOk result (λ s. (spend : Spend) → IsOf spend fields.now locks judging.entry → s.assets ≡ assets_in s.state spend) }
    ensures words { IfOk result (λ s. (spend : Spend) → IsOf spend fields.now locks judging.entry → option_map (λ w. w.items) s.words ≡ words_in s.state spend) }
    ensures stack { IfOk result (λ s. (spend : Spend) → IsOf spend fields.now locks judging.entry → s.stack ≡ chosen_in s.state (input_of spend (option_map shape s.tree))) }
    ensures light { IfOk result (λ s. IfSome s.stack (λ stack. weight stack ≤ 2 ^ 40)) }
{
    let Some(valid) = decode(alloc, arena, script, fields.keys())? else {
        return Ok(Settled::of(None, State::NoReading));
    };
    let tree = Some(valid.tree);
    let mut sane = match SaneTree::of(valid) {
        Ok(sane) => sane,
        Err(unfit) => return Ok(Settled::of(tree, State::Unfit(unfit))),
    };
    if fields.is_sighash_wrong() {
        return Ok(Settled::of(tree, State::WrongSighash));
    }
    if fields.are_too_many() {
        return Ok(Settled::of(tree, State::TooMany));
    }
    let counted = count(alloc, fields, locks, judging)?;
    counted.assets.are_assets();
    let stack = strict(alloc, &mut sane, &counted.assets)?;
    let state = match stack {
        Some(_) => State::Ready,
        None => State::Unsatisfied,
    };
    Ok(Settled {
        tree,
        state,
        assets: Some(counted.assets),
        words: counted.words,
        stack,
    })
}
