//! All instructions, from the last one to the first.
ghost use Rattle.std.specs.Prelude.{◌≡◌, Some, IfOk};
ghost use Rattle.def_decode.specs.Decoded.{first_with};
ghost use Rattle.ms_decode_laws.specs.Scaffolding.Reader.{at, finish, read as the_read};
ghost use Rattle.ms_reading.specs.Scaffolding.Keys.{keys_of};
ghost use Rattle.ms_reading.specs.Scaffolding.Parts.{made};
ghost use Rattle.ms_reading.specs.Scaffolding.States.{frames_of, want_of, backwards};

use crate::codes::{Code, pop_code};
use crate::frame::{Frame, pop_frame, push_frame};
use crate::hashed::Hashed;
use crate::part::Part;
use crate::step::step;
use crate::want::Want;
use bumpalo::Bump;
use std::alloc::{AllocError, Global};

/// The one expression that these instructions are, where there is one, with keys of `pk_h` by their hashes. Whether it is
/// a miniscript of these instructions is left to be seen.
pub fn read_back<'a, 's>(
    alloc: Global,
    arena: &'a Bump<Global>,
    keys: &[Hashed],
    codes: Vec<Code<'s>>,
) -> Result<Option<Part<'a>>, AllocError>
    ensures { IfOk result (λ o. made o ≡ the_read (first_with (keys_of keys.now)) (backwards codes.entry.items)) }
{
    let mut codes = codes;
    let mut frames = Vec::new(alloc);
    push_frame(&mut frames, Frame::Chain)?;
    let mut want = Want::Single;
    while let Some(code) = pop_code(&mut codes) {
        let Some(next) = step(alloc, arena, keys, want, &mut frames, code)? else {
            return Ok(None);
        };
        want = next;
    }
    Ok(finished(want, frames))
}

/// The expression, where all of the Script is one chain of `and_v`.
fn finished<'a>(want: Want<'a, '_>, frames: Vec<Frame<'a>>) -> Option<Part<'a>>
    ensures { made result ≡ finish (Some (at (want_of want.entry) (frames_of frames.entry.items))) }
{
    let mut frames = frames;
    let Want::After(part) = want else {
        return None;
    };
    let Some(Frame::Chain) = pop_frame(&mut frames) else {
        return None;
    };
    let None = pop_frame(&mut frames) else {
        return None;
    };
    Some(part)
}
