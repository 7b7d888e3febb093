//! What a sane text demands, as bytes and a number.
ghost use Rattle.std.specs.Prelude.{◌≡◌, ◌⊎◌, ◌↔◌, IsUtf8, IfOk};
ghost use Rattle.def_tree.specs.InRange.{IsInRange};
ghost use Rattle.def_sane.specs.Unfit.{IsSane, first_unfit};
ghost use Rattle.ms_tree.specs.Shape.{shape};
ghost use Rattle.ms_calls.specs.Demanded.{demanded as the_demanded, number_of_keys as the_number_of_keys, policy_given, printed_given, keys_given};
ghost use Rattle.ms_calls.specs.Stops.{Finds, FindsOf};
ghost use Rattle.ms_calls.specs.TextReply.{HoldsOfReply, told, code_given, reason_after, value_after, buffer_after, needed_after, unless_unfit};

use crate::copying::write_over;
use crate::reason::Reason;
use crate::stopping::{DONE, Stop};
use crate::texts::{read, sane_of};
use bumpalo::Bump;
use ms_policy::{least_keys, policy_of, print_policy};
use ms_sane::{Rules, SaneTree};
use ms_text::TextTree;
use std::alloc::{AllocError, Global};
use std::marker::Model;

/// What a text demands, and the least number of keys that have to sign where every hash and lock is met.
#[derive(Drop)]
pub struct Demanded {
    /// The printed form of its policy.
    pub text: Vec<u8>,
    /// The number, or 2^64 - 1 where no signatures are enough.
    pub keys: u64,
}

impl Model for Demanded {
    ghost use Rattle.ms_calls.specs.Demanded.{Demanded as Seen};

    ghost Value = { Seen };

    ghost view = { λ d. record { text = d.text.items; keys = d.keys } };
}

/// What a text demands that is sane by the limits of policy: the printed form of its policy, and the least number of keys that have
/// to sign where every hash and lock is met, which is 2^64 - 1 where no signatures are enough.
///
/// The policy's beginning is written over the buffer's, as far as there is room, and `needed` is how many bytes it has. The answer
/// is 0; 2 where the text is refused, for this reason; 7 where memory was wanting; and 11 where the text isn't UTF-8. What an
/// answer doesn't speak of is as it was.
pub fn policy(
    alloc: Global,
    text: &[u8],
    printed: &mut [u8],
    needed: &mut usize,
    keys: &mut u64,
    reason: &mut Reason,
) -> u32
    ensures code { HoldsOfReply text.now result policy_given (λ given. result ≡ code_given given) }
    ensures printed { HoldsOfReply text.now result policy_given (λ given. printed.new ≡ buffer_after printed.old (printed_given given)) }
    ensures needed { HoldsOfReply text.now result policy_given (λ given. needed.new ≡ needed_after needed.old (printed_given given)) }
    ensures keys { HoldsOfReply text.now result policy_given (λ given. keys.new ≡ value_after keys.old (keys_given given)) }
    ensures reason { HoldsOfReply text.now result policy_given (λ given. reason.new ≡ reason_after reason.old given) }
    ensures unreadable { result ≡ 11 ↔ (¬ IsUtf8 text.now) }
    ensures kept { (result ≡ 11) ⊎ (result ≡ 7) → printed.new ≡ printed.old }
    ensures kept_needed { (result ≡ 11) ⊎ (result ≡ 7) → needed.new ≡ needed.old }
    ensures kept_keys { (result ≡ 11) ⊎ (result ≡ 7) → keys.new ≡ keys.old }
    ensures kept_reason { (result ≡ 11) ⊎ (result ≡ 7) → reason.new ≡ reason.old }
{
    match policy_in(alloc, text) {
        Ok(found) => {
            *needed = found.text.len();
            let _count = write_over(&found.text, printed);
            *keys = found.keys;
            DONE
        }
        Err(stop) => stop.tell(reason),
    }
}

/// What a text demands.
fn policy_in(alloc: Global, text: &[u8]) -> Result<Demanded, Stop>
    ensures { FindsOf text.now policy_given result }
{
    let arena = Bump::new(alloc);
    match read(alloc, &arena, text) {
        Ok(text) => policy_of_text(alloc, &text),
        Err(stop) => Err(stop),
    }
}

/// What a text demands that was read.
fn policy_of_text(alloc: Global, text: &TextTree<'_>) -> Result<Demanded, Stop>
    requires { IsInRange (shape text.now.tree) }
    ensures { Finds (unless_unfit (first_unfit (shape text.now.tree)) text.now.offsets.items (told (the_demanded (shape text.now.tree)))) result }
{
    let sane = sane_of(alloc, text, Rules::Policy)?;
    match demand_of(alloc, &sane) {
        Ok(found) => Ok(found),
        Err(AllocError) => Err(Stop::Memory),
    }
}

/// What a tree demands that is sane by policy. Refuses for want of memory alone.
fn demand_of(alloc: Global, sane: &SaneTree<'_>) -> Result<Demanded, AllocError>
    requires { IsSane (shape sane.now.valid.tree) }
    ensures { IfOk result (λ found. found ≡ the_demanded (shape sane.now.valid.tree)) }
{
    let policy = policy_of(alloc, &sane.valid.tree)?;
    let least = least_keys(alloc, &policy)?;
    let text = print_policy(alloc, &policy)?.into_bytes();
    Ok(Demanded {
        text,
        keys: number_of_keys(least),
    })
}

/// A number of keys, or 2^64 - 1 for none.
fn number_of_keys(least: Option<u64>) -> u64
    ensures { result ≡ the_number_of_keys least }
{
    match least {
        Some(number) => number,
        None => u64::MAX,
    }
}
