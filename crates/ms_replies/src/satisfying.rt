//! What is answered to an asset file: a satisfaction, its witness, and the replay of the witness.
ghost use Rattle.std.specs.Prelude.{◌≡◌, ◌≤◌, length, IfOk, IfSome};
ghost use Rattle.std.specs.String.{string_bytes};
ghost use Rattle.def_satisfaction.specs.Satisfaction.{Sat};
ghost use Rattle.def_answer.specs.Reply.{chosen_reply, satisfy_reply};
ghost use Rattle.def_answer.specs.Lines.{MOST_FILE};
ghost use Rattle.def_answer.specs.Satisfy.{satisfy_report as the_satisfy_report};
ghost use Rattle.ms_sane.specs.Same.{IsSame};
ghost use Rattle.ms_replies.specs.ChoiceTrees.{valid_in, tree_in, chosen_in};
ghost use Rattle.ms_replies.specs.Answering.{RepliesWith};

use crate::choice_tree::ChoiceTree;
use crate::files::file_answer;
use def_answer::Status;
use ms_assets::{Assets, read_assets};
use ms_oracle::{PairIndex, SigCheck};
use ms_replay::carry;
use ms_report::{Answer, satisfaction_report};
use ms_sat::{cheapest, strict};
use ms_script::Stack;
use std::alloc::{AllocError, Global};

/// The answer to an asset file of these bytes for a tree, as `satisfy` gives it: the file's refusal, or the
/// satisfaction, or that there is none. It demands that the file isn't too long. `AllocError` comes only where memory is wanting.
pub fn assets_answer(
    alloc: Global,
    tree: &mut ChoiceTree<'_>,
    bytes: &[u8],
) -> Result<Answer, AllocError>
    requires { length bytes.now ≤ MOST_FILE }
    ensures { RepliesWith result (satisfy_reply (valid_in tree.old).rules (chosen_in tree.old) bytes.now (tree_in tree.old)) }
{
    match read_assets(alloc, bytes) {
        Ok(assets) => chosen_answer(alloc, tree, &assets),
        Err(fault) => file_answer(alloc, fault),
    }
}

/// The answer to assets: the satisfaction, or that there is none.
fn chosen_answer(
    alloc: Global,
    tree: &mut ChoiceTree<'_>,
    assets: &Assets,
) -> Result<Answer, AllocError>
    ensures { RepliesWith result (chosen_reply (valid_in tree.old).rules (tree_in tree.old) assets.now (chosen_in tree.old (tree_in tree.old) assets.now)) }
{
    match satisfaction(alloc, tree, assets)? {
        Some(stack) => Ok(Answer {
            status: Status::Done,
            report: satisfy_report(alloc, tree, assets, &stack)?,
        }),
        None => Ok(Answer {
            status: Status::NoSatisfaction,
            report: String::from_str(alloc, "no satisfaction\n")?,
        }),
    }
}

/// The satisfaction of a tree by these assets that is chosen, where there is one. `AllocError` comes only where memory is wanting.
pub fn satisfaction(
    alloc: Global,
    tree: &mut ChoiceTree<'_>,
    assets: &Assets,
) -> Result<Option<Stack>, AllocError>
    ensures choice { IfOk result (λ found. found ≡ chosen_in tree.old (tree_in tree.old) assets.now) }
    ensures canonical { IfOk result (λ found. IfSome found (Sat (tree_in tree.old) assets.now)) }
    ensures same { IsSame (valid_in tree.old) (valid_in tree.new) }
{
    match tree {
        ChoiceTree::Strict(sane) => strict(alloc, sane, assets),
        ChoiceTree::Cheapest(valid) => cheapest(alloc, valid, assets),
    }
}

/// The Script, its program, the limits, the satisfaction, its witness, and what the replay of the witness counted.
fn satisfy_report(
    alloc: Global,
    tree: &mut ChoiceTree<'_>,
    assets: &Assets,
    stack: &Stack,
) -> Result<String, AllocError>
    requires { Sat (tree_in tree.old) assets.now stack.now }
    ensures { IfOk result (λ report. string_bytes report ≡ the_satisfy_report (valid_in tree.old).rules (tree_in tree.old) assets.now stack.now) }
{
    assets.are_assets();
    let pairs = assets.pairs();
    let index = PairIndex::new(alloc, pairs)?;
    let sigs = SigCheck::new(pairs, |key: &[u8], sig: &[u8]| index.holds(key, sig));
    let carried = carry(alloc, &tree.tree(), stack, assets, &sigs)?;
    let bounds = tree.bounds();
    satisfaction_report(
        alloc,
        bounds,
        carried.script.as_slice(),
        &carried.program,
        stack,
        carried.witness.as_slice(),
        &carried.report,
    )
}
