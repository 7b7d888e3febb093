//! The satisfaction of a text by what a wallet holds in arrays, without an asset file.
ghost use Rattle.std.specs.Prelude.{◌≡◌, ◌⊎◌, ◌↔◌, IsUtf8};
ghost use Rattle.def_tree.specs.InRange.{IsInRange};
ghost use Rattle.def_answer.specs.Reading.{read as the_read};
ghost use Rattle.ms_tree.specs.Shape.{shape};
ghost use Rattle.ms_replies.specs.ChoiceTrees.{tree_in, chosen_in};
ghost use Rattle.ms_calls.specs.TextReply.{HoldsOfReply, told, with_assets, held_given, satisfied_given, satisfied_by};
ghost use Rattle.ms_calls.specs.TextReply.{code_given, reason_after, bytes_after, bytes_needed_after, lengths_after, items_count_after};
ghost use Rattle.ms_calls.specs.Stops.{Finds, FindsOf};

use crate::items::Items;
use crate::reason::Reason;
use crate::satisfying::{choice_for, file_refusal, satisfaction_items};
use crate::stopping::{DONE, Stop};
use crate::texts::{choice_of, read, rules_for};
use bumpalo::Bump;
use def_choice::Choice;
use ms_arrays::Arrays;
use ms_assets::Assets;
use ms_replies::ChoiceTree;
use ms_sane::Rules;
use ms_text::TextTree;
use std::alloc::Global;

/// The items of the witness of a satisfaction of a text, as `witness` gives them, by what is held in arrays. A key may stand there
/// with several signatures, and the shortest is taken.
///
/// The answer is 0; 2 where the text is refused and 3 where the arrays are, for the reason for which an asset file of format 2
/// is; 4 where there is no satisfaction; 7 where memory was wanting; and 11 where the text isn't UTF-8. What an answer doesn't
/// speak of is as it was.
pub fn satisfy(
    alloc: Global,
    malleable: bool,
    consensus: bool,
    text: &[u8],
    arrays: &Arrays<'_>,
    bytes: &mut [u8],
    needed: &mut usize,
    lengths: &mut [usize],
    count: &mut usize,
    reason: &mut Reason,
) -> u32
    ensures code { HoldsOfReply text.now result (satisfied_by malleable consensus arrays.now) (λ given. result ≡ code_given given) }
    ensures bytes { HoldsOfReply text.now result (satisfied_by malleable consensus arrays.now) (λ given. bytes.new ≡ bytes_after bytes.old given) }
    ensures needed { HoldsOfReply text.now result (satisfied_by malleable consensus arrays.now) (λ given. needed.new ≡ bytes_needed_after needed.old given) }
    ensures lengths { HoldsOfReply text.now result (satisfied_by malleable consensus arrays.now) (λ given. lengths.new ≡ lengths_after lengths.old given) }
    ensures count { HoldsOfReply text.now result (satisfied_by malleable consensus arrays.now) (λ given. count.new ≡ items_count_after count.old given) }
    ensures reason { HoldsOfReply text.now result (satisfied_by malleable consensus arrays.now) (λ given. reason.new ≡ reason_after reason.old given) }
    ensures unreadable { result ≡ 11 ↔ (¬ IsUtf8 text.now) }
    ensures kept { (result ≡ 11) ⊎ (result ≡ 7) → bytes.new ≡ bytes.old }
    ensures kept_needed { (result ≡ 11) ⊎ (result ≡ 7) → needed.new ≡ needed.old }
    ensures kept_lengths { (result ≡ 11) ⊎ (result ≡ 7) → lengths.new ≡ lengths.old }
    ensures kept_count { (result ≡ 11) ⊎ (result ≡ 7) → count.new ≡ count.old }
    ensures kept_reason { (result ≡ 11) ⊎ (result ≡ 7) → reason.new ≡ reason.old }
{
    match satisfied_in(
        alloc,
        choice_for(malleable),
        rules_for(consensus),
        text,
        arrays,
    ) {
        Ok(items) => {
            items.write(bytes, needed, lengths, count);
            DONE
        }
        Err(stop) => stop.tell(reason),
    }
}

/// The items of the witness of the satisfaction that is chosen of a text.
fn satisfied_in(
    alloc: Global,
    choice: Choice,
    rules: Rules,
    text: &[u8],
    arrays: &Arrays<'_>,
) -> Result<Items, Stop>
    ensures { FindsOf text.now (satisfied_given choice rules arrays.now) result }
{
    let arena = Bump::new(alloc);
    match read(alloc, &arena, text) {
        Ok(text) => satisfied_of_text(alloc, choice, rules, &text, arrays),
        Err(stop) => Err(stop),
    }
}

/// The items of the witness of the satisfaction that is chosen of a text that was read.
fn satisfied_of_text(
    alloc: Global,
    choice: Choice,
    rules: Rules,
    text: &TextTree<'_>,
    arrays: &Arrays<'_>,
) -> Result<Items, Stop>
    requires { IsInRange (shape text.now.tree) }
    ensures { Finds (satisfied_given choice rules arrays.now (the_read (shape text.now.tree) text.now.offsets.items)) result }
{
    let mut tree = choice_of(alloc, text, choice, rules)?;
    satisfied_of_tree(alloc, &mut tree, arrays)
}

/// The items of the witness of the satisfaction that is chosen of a tree.
fn satisfied_of_tree(
    alloc: Global,
    tree: &mut ChoiceTree<'_>,
    arrays: &Arrays<'_>,
) -> Result<Items, Stop>
    ensures { Finds (held_given (chosen_in tree.old) arrays.now (tree_in tree.old)) result }
{
    match held_in(alloc, arrays) {
        Ok(assets) => satisfaction_items(alloc, tree, &assets),
        Err(stop) => Err(stop),
    }
}

/// The assets that arrays hold.
fn held_in(alloc: Global, arrays: &Arrays<'_>) -> Result<Assets, Stop>
    ensures { Finds (with_assets told arrays.now) result }
{
    match arrays.assets(alloc) {
        Ok(assets) => Ok(assets),
        Err(fault) => Err(file_refusal(fault)),
    }
}
