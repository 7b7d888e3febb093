//! One instruction more.
ghost use Rattle.std.specs.Prelude.{◌≡◌, IfOk};
ghost use Rattle.def_decode.specs.Decoded.{first_with};
ghost use Rattle.ms_decode_laws.specs.Scaffolding.Reader.{at, step as the_step};
ghost use Rattle.ms_reading.specs.Scaffolding.Keys.{keys_of};
ghost use Rattle.ms_reading.specs.Scaffolding.States.{frames_of, want_of, state_of, instruction_of};

use crate::arguments::{absolute, next_child, relative};
use crate::begin::{begin, begin_side};
use crate::chain::{after_part, before_if, before_not_if};
use crate::codes::Code;
use crate::frame::Frame;
use crate::hashed::Hashed;
use crate::hashes::{compared, given, hash160_of, measured, sized, target};
use crate::multi::{further_key, key_count};
use crate::want::Want;
use bumpalo::Bump;
use std::alloc::{AllocError, Global};

/// What comes next, after an instruction of what comes now; none where no miniscript has it there.
pub fn step<'a, 's>(
    alloc: Global,
    arena: &'a Bump<Global>,
    keys: &[Hashed],
    want: Want<'a, 's>,
    frames: &mut Vec<Frame<'a>>,
    code: Code<'s>,
) -> Result<Option<Want<'a, 's>>, AllocError>
    ensures { IfOk result (λ o. state_of o frames.new.items ≡ the_step (first_with (keys_of keys.now)) (at (want_of want.entry) (frames_of frames.old.items)) (instruction_of code.entry)) }
{
    match want {
        Want::Single => begin(arena, frames, code),
        Want::Side => begin_side(arena, frames, code),
        Want::After(x) => after_part(arena, x, frames, code),
        Want::Relative => relative(arena, frames, code),
        Want::Absolute => absolute(arena, frames, code),
        Want::Target => Ok(target(code)),
        Want::Given(bytes) => given(alloc, arena, bytes, frames, code),
        Want::Hash160Of(bytes) => hash160_of(arena, keys, bytes, frames, code),
        Want::Compared(x) => Ok(compared(x, code)),
        Want::Sized(x) => Ok(sized(x, code)),
        Want::Measured(x) => measured(arena, x, frames, code),
        Want::Next(k, children) => next_child(arena, k, children, frames, code),
        Want::Count => key_count(alloc, code),
        Want::Keys(signers) => further_key(arena, signers, frames, code),
        Want::IfSeen(x) => before_if(arena, x, frames, code),
        Want::NotIfSeen(x) => before_not_if(arena, x, frames, code),
    }
}
