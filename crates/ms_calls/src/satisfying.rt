//! Satisfactions of a text by an asset file: the least weight of one, and the items of the witness of the one that is chosen.
ghost use Rattle.std.specs.Prelude.{◌≡◌, ◌⊎◌, ◌↔◌, IsUtf8, MatchResult, IfOk, option_map};
ghost use Rattle.def_answer.specs.Reading.{read as the_read};
ghost use Rattle.def_tree.specs.InRange.{IsInRange};
ghost use Rattle.ms_tree.specs.Shape.{shape};
ghost use Rattle.ms_replies.specs.ChoiceTrees.{tree_in, chosen_in};
ghost use Rattle.ms_calls.specs.TextReply.{HoldsOfReply, told, rules_for as the_rules_for, choice_for as the_choice_for, file_given, where_one};
ghost use Rattle.ms_calls.specs.TextReply.{weight_given, witness_given, witness_by, least_weight_given, witness_items, chosen_given};
ghost use Rattle.ms_calls.specs.TextReply.{code_given, reason_after, value_after, bytes_after, bytes_needed_after, lengths_after, items_count_after};
ghost use Rattle.ms_calls.specs.Stops.{Finds, FindsOf, file_refusal as the_file_refusal};

use crate::items::Items;
use crate::reason::{Reason, code_of_file};
use crate::stopping::{DONE, Stop};
use crate::texts::{choice_of, read, rules_for, valid_of};
use bumpalo::Bump;
use def_choice::Choice;
use ms_assets::{AssetFault, Assets, read_assets};
use ms_emit::script_bytes;
use ms_replies::{ChoiceTree, satisfaction};
use ms_sane::{Rules, ValidTree};
use ms_sat::costs;
use ms_script::Stack;
use ms_text::TextTree;
use ms_tree::Tree;
use msat_cli::MOST_FILE;
use std::alloc::{AllocError, Global};

/// The least weight of a canonical satisfaction of a text by an asset file. The text is valid by the limits of policy, or by
/// those of consensus alone.
///
/// The answer is 0; 2 where the text is refused and 3 where the file is, for this reason; 4 where there is no satisfaction; 7
/// where memory was wanting; and 11 where the text isn't UTF-8. What an answer doesn't speak of is as it was.
pub fn least_weight(
    alloc: Global,
    consensus: bool,
    text: &[u8],
    file: &[u8],
    weight: &mut u64,
    reason: &mut Reason,
) -> u32
    ensures code { HoldsOfReply text.now result (weight_given (the_rules_for consensus) file.now) (λ given. result ≡ code_given given) }
    ensures weight { HoldsOfReply text.now result (weight_given (the_rules_for consensus) file.now) (λ given. weight.new ≡ value_after weight.old given) }
    ensures reason { HoldsOfReply text.now result (weight_given (the_rules_for consensus) file.now) (λ given. reason.new ≡ reason_after reason.old given) }
    ensures unreadable { result ≡ 11 ↔ (¬ IsUtf8 text.now) }
    ensures kept { (result ≡ 11) ⊎ (result ≡ 7) → weight.new ≡ weight.old }
    ensures kept_reason { (result ≡ 11) ⊎ (result ≡ 7) → reason.new ≡ reason.old }
{
    match weight_in(alloc, rules_for(consensus), text, file) {
        Ok(found) => {
            *weight = found;
            DONE
        }
        Err(stop) => stop.tell(reason),
    }
}

/// The items of the witness of a satisfaction of a text by an asset file, bottom first, and the Script as the last one. The
/// satisfaction is the strict one of a sane text, or with `malleable` the cheapest one of a valid text, by the limits of policy
/// or by those of consensus alone.
///
/// The items lie one after the other: as much of them as there is room for is written over the beginning of `bytes`, and
/// `needed` is how many bytes all of them have. The first of their lengths are written over the beginning of `lengths`, as far
/// as there is room, and `count` is how many items there are. The answer is 0; 2 where the text is refused and 3 where the file
/// is, for this reason; 4 where there is no satisfaction; 7 where memory was wanting; and 11 where the text isn't UTF-8. What an
/// answer doesn't speak of is as it was.
pub fn witness(
    alloc: Global,
    malleable: bool,
    consensus: bool,
    text: &[u8],
    file: &[u8],
    bytes: &mut [u8],
    needed: &mut usize,
    lengths: &mut [usize],
    count: &mut usize,
    reason: &mut Reason,
) -> u32
    ensures code { HoldsOfReply text.now result (witness_by malleable consensus file.now) (λ given. result ≡ code_given given) }
    ensures bytes { HoldsOfReply text.now result (witness_by malleable consensus file.now) (λ given. bytes.new ≡ bytes_after bytes.old given) }
    ensures needed { HoldsOfReply text.now result (witness_by malleable consensus file.now) (λ given. needed.new ≡ bytes_needed_after needed.old given) }
    ensures lengths { HoldsOfReply text.now result (witness_by malleable consensus file.now) (λ given. lengths.new ≡ lengths_after lengths.old given) }
    ensures count { HoldsOfReply text.now result (witness_by malleable consensus file.now) (λ given. count.new ≡ items_count_after count.old given) }
    ensures reason { HoldsOfReply text.now result (witness_by malleable consensus file.now) (λ given. reason.new ≡ reason_after reason.old given) }
    ensures unreadable { result ≡ 11 ↔ (¬ IsUtf8 text.now) }
    ensures kept { (result ≡ 11) ⊎ (result ≡ 7) → bytes.new ≡ bytes.old }
    ensures kept_needed { (result ≡ 11) ⊎ (result ≡ 7) → needed.new ≡ needed.old }
    ensures kept_lengths { (result ≡ 11) ⊎ (result ≡ 7) → lengths.new ≡ lengths.old }
    ensures kept_count { (result ≡ 11) ⊎ (result ≡ 7) → count.new ≡ count.old }
    ensures kept_reason { (result ≡ 11) ⊎ (result ≡ 7) → reason.new ≡ reason.old }
{
    match witness_in(
        alloc,
        choice_for(malleable),
        rules_for(consensus),
        text,
        file,
    ) {
        Ok(items) => {
            items.write(bytes, needed, lengths, count);
            DONE
        }
        Err(stop) => stop.tell(reason),
    }
}

/// The least weight of a canonical satisfaction of a text.
fn weight_in(alloc: Global, rules: Rules, text: &[u8], file: &[u8]) -> Result<u64, Stop>
    ensures { FindsOf text.now (weight_given rules file.now) result }
{
    let arena = Bump::new(alloc);
    match read(alloc, &arena, text) {
        Ok(text) => weight_of_text(alloc, rules, &text, file),
        Err(stop) => Err(stop),
    }
}

/// The least weight of a canonical satisfaction of a text that was read.
fn weight_of_text(
    alloc: Global,
    rules: Rules,
    text: &TextTree<'_>,
    file: &[u8],
) -> Result<u64, Stop>
    requires { IsInRange (shape text.now.tree) }
    ensures { Finds (weight_given rules file.now (the_read (shape text.now.tree) text.now.offsets.items)) result }
{
    let mut valid = valid_of(alloc, text, rules)?;
    weight_of_tree(alloc, &mut valid, file)
}

/// The least weight of a canonical satisfaction of a valid tree.
fn weight_of_tree(alloc: Global, valid: &mut ValidTree<'_>, file: &[u8]) -> Result<u64, Stop>
    ensures { Finds (least_weight_given file.now (shape valid.old.tree)) result }
{
    let assets = match assets_in(alloc, file) {
        Ok(assets) => assets,
        Err(stop) => return Err(stop),
    };
    match costs(valid, &assets).sat {
        Some(weight) => Ok(weight),
        None => Err(Stop::NoSatisfaction),
    }
}

/// The assets that a file holds.
fn assets_in(alloc: Global, file: &[u8]) -> Result<Assets, Stop>
    ensures { Finds (file_given told file.now) result }
{
    if file.len() > MOST_FILE {
        return Err(Stop::FileRefused(Reason::file_too_long()));
    }
    match read_assets(alloc, file) {
        Ok(assets) => Ok(assets),
        Err(fault) => Err(file_refusal(fault)),
    }
}

/// The stop of a file that is refused.
pub fn file_refusal(fault: AssetFault) -> Stop
    ensures { result ≡ the_file_refusal fault }
{
    match fault {
        AssetFault::Memory => Stop::Memory,
        AssetFault::NotJson
        | AssetFault::Shape(_)
        | AssetFault::Number(_)
        | AssetFault::Hex(_, _)
        | AssetFault::KeyForm(_)
        | AssetFault::SigLength(_)
        | AssetFault::PreimageLength(_)
        | AssetFault::TooMany(_)
        | AssetFault::RepeatedKey(_) => Stop::FileRefused(code_of_file(fault)),
    }
}

/// Which satisfaction is chosen.
pub fn choice_for(malleable: bool) -> Choice
    ensures { result ≡ the_choice_for malleable }
{
    if malleable {
        Choice::Cheapest
    } else {
        Choice::Strict
    }
}

/// The items of the witness of the satisfaction that is chosen of a text.
fn witness_in(
    alloc: Global,
    choice: Choice,
    rules: Rules,
    text: &[u8],
    file: &[u8],
) -> Result<Items, Stop>
    ensures { FindsOf text.now (witness_given choice rules file.now) result }
{
    let arena = Bump::new(alloc);
    match read(alloc, &arena, text) {
        Ok(text) => witness_of_text(alloc, choice, rules, &text, file),
        Err(stop) => Err(stop),
    }
}

/// The items of the witness of the satisfaction that is chosen of a text that was read.
fn witness_of_text(
    alloc: Global,
    choice: Choice,
    rules: Rules,
    text: &TextTree<'_>,
    file: &[u8],
) -> Result<Items, Stop>
    requires { IsInRange (shape text.now.tree) }
    ensures { Finds (witness_given choice rules file.now (the_read (shape text.now.tree) text.now.offsets.items)) result }
{
    let mut tree = choice_of(alloc, text, choice, rules)?;
    witness_of_tree(alloc, &mut tree, file)
}

/// The items of the witness of the satisfaction that is chosen of a tree.
fn witness_of_tree(alloc: Global, tree: &mut ChoiceTree<'_>, file: &[u8]) -> Result<Items, Stop>
    ensures { Finds (chosen_given (chosen_in tree.old) file.now (tree_in tree.old)) result }
{
    match assets_in(alloc, file) {
        Ok(assets) => satisfaction_items(alloc, tree, &assets),
        Err(stop) => Err(stop),
    }
}

/// The items of the witness of the satisfaction that is chosen of a tree by these assets.
pub fn satisfaction_items(
    alloc: Global,
    tree: &mut ChoiceTree<'_>,
    assets: &Assets,
) -> Result<Items, Stop>
    ensures { Finds (where_one (option_map (witness_items (tree_in tree.old)) (chosen_in tree.old (tree_in tree.old) assets.now))) result }
{
    let found = satisfaction(alloc, tree, assets);
    items_of(alloc, &tree.tree(), found)
}

/// The items of the witness of a satisfaction, where one was found.
fn items_of(
    alloc: Global,
    tree: &Tree<'_>,
    found: Result<Option<Stack>, AllocError>,
) -> Result<Items, Stop>
    requires { IsInRange (shape tree.now) }
    ensures { MatchResult found (λ stack. Finds (where_one (option_map (witness_items (shape tree.now)) stack)) result) (λ _. result ≡ Err Stop.Memory) }
{
    match found {
        Ok(Some(stack)) => match with_script(alloc, tree, stack) {
            Ok(items) => Ok(items),
            Err(AllocError) => Err(Stop::Memory),
        },
        Ok(None) => Err(Stop::NoSatisfaction),
        Err(AllocError) => Err(Stop::Memory),
    }
}

/// The items of a stack, and the Script of a tree as the last one.
fn with_script(alloc: Global, tree: &Tree<'_>, mut stack: Stack) -> Result<Items, AllocError>
    requires { IsInRange (shape tree.now) }
    ensures { IfOk result (λ items. items ≡ witness_items (shape tree.now) stack) }
{
    let script = script_bytes(alloc, tree)?;
    stack.push(script.as_slice())?;
    Items::new(alloc, &stack)
}
