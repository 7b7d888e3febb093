//! Which keys to ask for a signature, by what a wallet knows in arrays, without a plan file.
ghost use Rattle.std.specs.Prelude.{◌≡◌, ◌⊎◌, ◌↔◌, ℕ, List, [], flat_map, IsUtf8, IfOk};
ghost use Rattle.def_tree.specs.InRange.{IsInRange};
ghost use Rattle.def_answer.specs.Reading.{read as the_read};
ghost use Rattle.def_sane.specs.Unfit.{IsSane};
ghost use Rattle.def_plan.specs.Lengths.{AreLengths};
ghost use Rattle.ms_tree.specs.Shape.{shape};
ghost use Rattle.ms_calls.specs.Asked.{asked as the_asked, asked_by_file, asked_given, asked_keys, asked_weight, plan_given};
ghost use Rattle.ms_calls.specs.Stops.{Finds, FindsOf, plan_file_refusal as the_plan_file_refusal};
ghost use Rattle.ms_calls.specs.TextReply.{HoldsOfReply, code_given, reason_after, value_after, buffer_after, needed_after, told};

use crate::copying::write_over;
use crate::reason::{Reason, code_of_plan_file};
use crate::stopping::{DONE, Stop};
use crate::texts::{read, sane_of};
use bumpalo::Bump;
use ms_arrays::PlanArrays;
use ms_plan::{Estimate, Plan, PlanFault, PlanFile, length_in};
use ms_sane::{Rules, SaneTree};
use ms_text::TextTree;
use ms_tree::Key;
use std::alloc::{AllocError, Global};
use std::marker::Model;

/// The keys of a plan, one after the other, and its weight.
#[derive(Drop)]
pub struct Asked {
    /// The bytes of the keys.
    pub keys: Vec<u8>,
    /// What the satisfaction weighs, without the Script.
    pub weight: u64,
}

impl Model for Asked {
    ghost use Rattle.ms_calls.specs.Asked.{Asked as Seen};

    ghost Value = { Seen };

    ghost view = { λ a. record { keys = a.keys.items; weight = a.weight } };
}

/// Which keys to ask for a signature for a text that is sane by the limits of policy, and what its satisfaction weighs at most then
/// where no signature is longer than estimated, without the Script. What is known lies in arrays.
///
/// The keys to ask lie one after the other, in the order of the nodes and, in a `multi`, of its positions: as much of them as there
/// is room for is written over the beginning of `asked`, and `needed` is how many bytes all of them have. The answer is 0; 2 where
/// the text is refused and 3 where the arrays are, for the reason for which a plan file is; 4 where the signatures of all keys
/// aren't enough; 7 where memory was wanting; and 11 where the text isn't UTF-8. What an answer doesn't speak of is as it was.
pub fn plan(
    alloc: Global,
    text: &[u8],
    arrays: &PlanArrays<'_>,
    asked: &mut [u8],
    needed: &mut usize,
    weight: &mut u64,
    reason: &mut Reason,
) -> u32
    ensures code { HoldsOfReply text.now result (plan_given arrays.now) (λ given. result ≡ code_given given) }
    ensures asked { HoldsOfReply text.now result (plan_given arrays.now) (λ given. asked.new ≡ buffer_after asked.old (asked_keys given)) }
    ensures needed { HoldsOfReply text.now result (plan_given arrays.now) (λ given. needed.new ≡ needed_after needed.old (asked_keys given)) }
    ensures weight { HoldsOfReply text.now result (plan_given arrays.now) (λ given. weight.new ≡ value_after weight.old (asked_weight given)) }
    ensures reason { HoldsOfReply text.now result (plan_given arrays.now) (λ given. reason.new ≡ reason_after reason.old given) }
    ensures unreadable { result ≡ 11 ↔ (¬ IsUtf8 text.now) }
    ensures kept { (result ≡ 11) ⊎ (result ≡ 7) → asked.new ≡ asked.old }
    ensures kept_needed { (result ≡ 11) ⊎ (result ≡ 7) → needed.new ≡ needed.old }
    ensures kept_weight { (result ≡ 11) ⊎ (result ≡ 7) → weight.new ≡ weight.old }
    ensures kept_reason { (result ≡ 11) ⊎ (result ≡ 7) → reason.new ≡ reason.old }
{
    match asked_in(alloc, text, arrays) {
        Ok(found) => {
            *needed = found.keys.len();
            let _count = write_over(&found.keys, asked);
            *weight = found.weight;
            DONE
        }
        Err(stop) => stop.tell(reason),
    }
}

/// The plan of a text.
fn asked_in(alloc: Global, text: &[u8], arrays: &PlanArrays<'_>) -> Result<Asked, Stop>
    ensures { FindsOf text.now (plan_given arrays.now) result }
{
    let arena = Bump::new(alloc);
    match read(alloc, &arena, text) {
        Ok(text) => asked_of_text(alloc, &text, arrays),
        Err(stop) => Err(stop),
    }
}

/// The plan of a text that was read.
fn asked_of_text(alloc: Global, text: &TextTree<'_>, arrays: &PlanArrays<'_>) -> Result<Asked, Stop>
    requires { IsInRange (shape text.now.tree) }
    ensures { Finds (plan_given arrays.now (the_read (shape text.now.tree) text.now.offsets.items)) result }
{
    let sane = sane_of(alloc, text, Rules::Policy)?;
    asked_of_tree(alloc, &sane, arrays)
}

/// The plan of a sane tree.
fn asked_of_tree(alloc: Global, sane: &SaneTree<'_>, arrays: &PlanArrays<'_>) -> Result<Asked, Stop>
    requires { IsSane (shape sane.now.valid.tree) }
    ensures { Finds (asked_given arrays.now (shape sane.now.valid.tree)) result }
{
    match arrays.plan_file(alloc) {
        Ok(file) => asked_of_file(alloc, sane, &file),
        Err(fault) => Err(plan_file_refusal(fault)),
    }
}

/// The plan of a sane tree by what arrays give.
fn asked_of_file(alloc: Global, sane: &SaneTree<'_>, file: &PlanFile) -> Result<Asked, Stop>
    requires sane { IsSane (shape sane.now.valid.tree) }
    requires unsigned { file.now.assets.pairs ≡ [] }
    requires lengths { AreLengths file.now.table }
    ensures { Finds (asked_by_file (shape sane.now.valid.tree) file.now) result }
{
    let table = file.table.as_slice();
    let estimate = Estimate::new(table, |key: &Key| length_in(table, key));
    match ms_plan::plan(alloc, &sane.valid.tree, &file.assets, &estimate) {
        Ok(Some(plan)) => asked_of_plan(alloc, &plan),
        Ok(None) => Err(Stop::NoSatisfaction),
        Err(AllocError) => Err(Stop::Memory),
    }
}

/// The keys of a plan, one after the other, and its weight.
fn asked_of_plan(alloc: Global, plan: &Plan) -> Result<Asked, Stop>
    ensures { Finds (told (the_asked plan.now)) result }
{
    match keys_of(alloc, plan.keys.as_slice()) {
        Ok(keys) => Ok(Asked {
            keys,
            weight: plan.weight,
        }),
        Err(AllocError) => Err(Stop::Memory),
    }
}

/// Keys, one after the other. Refuses for want of memory alone.
fn keys_of(alloc: Global, keys: &[Key]) -> Result<Vec<u8>, AllocError>
    ensures { IfOk result (λ bytes. bytes.items ≡ flat_map (λ (key : List ℕ). key) keys.now) }
{
    let mut bytes = Vec::new(alloc);
    for key in keys {
        bytes.extend_from_slice(key.as_bytes())?;
    }
    Ok(bytes)
}

/// The stop of what a plan is made by, where it is refused.
fn plan_file_refusal(fault: PlanFault) -> Stop
    ensures { result ≡ the_plan_file_refusal fault }
{
    match fault {
        PlanFault::Memory => Stop::Memory,
        PlanFault::NotJson
        | PlanFault::Shape(_)
        | PlanFault::Number(_)
        | PlanFault::Hex(_, _)
        | PlanFault::KeyForm(_)
        | PlanFault::Length(_)
        | PlanFault::PreimageLength(_)
        | PlanFault::TooMany(_)
        | PlanFault::RepeatedKey(_) => Stop::FileRefused(code_of_plan_file(fault)),
    }
}
