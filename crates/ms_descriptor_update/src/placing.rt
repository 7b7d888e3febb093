//! The places of a descriptor's outputs.

ghost use Rattle.std.specs.Prelude.{◌≡◌, ◌<◌, ◌/◌, Some, None, Ok, IfOk, OnOk, if◌then◌else◌};
ghost use Rattle.std.specs.Option.{option_or};
ghost use Rattle.std.specs.Str.{bytes_eq};
ghost use Rattle.def_script.specs.Bytes.{Bytes};
ghost use Rattle.def_descriptor.specs.Answer.{Answers};
ghost use Rattle.ms_descriptor.specs.Bodies.{descriptor_at, BodyWithin};
ghost use Rattle.ms_outputs.specs.Keys.{expressions_of_body};
ghost use Rattle.ms_outputs.specs.Starts.{AreStarts};
ghost use Rattle.ms_descriptor_update.specs.Book.{place_of};
ghost use Rattle.ms_descriptor_update.specs.Scaffolding.Steps.{PutsPlace};

use ms_descriptor::{Body, Descriptor};
use ms_descriptor_replies::{Place, place_from};
use ms_outputs::{Start, starts_of};
use std::alloc::{AllocError, Global};
use std::collections::BTreeMap;

/// Adds the place of an output's script, unless it has an earlier one.
fn put_script(
    places: &mut BTreeMap<Vec<u8>, usize>,
    script: Vec<u8>,
    place: usize,
) -> Result<(), AllocError>
    ensures { OnOk result ((other : Bytes) → place_of other places.new ≡ option_or (place_of other places.old) (if bytes_eq other script.items then Some place else None)) }
{
    if !places.contains_key(script.as_slice()) {
        places.insert(script, place)?;
    }
    Ok(())
}

/// Where the keys of a branch start from.
#[derive(Drop)]
pub struct Started {
    /// The branch.
    pub branch: usize,
    /// Where its keys start from.
    pub starts: Vec<Start>,
}

/// Where the keys of a body start from at a branch: what is known of another branch is let go.
pub fn started_at(
    alloc: Global,
    known: Started,
    body: &Body,
    branch: usize,
) -> Result<Started, AllocError>
    requires { AreStarts known.branch (expressions_of_body body.now) known.starts.items }
    ensures starts { IfOk result (λ started. AreStarts branch (expressions_of_body body.now) started.starts.items) }
    ensures branch { IfOk result (λ started. started.branch ≡ branch) }
{
    if known.branch == branch {
        return Ok(known);
    }
    let starts = starts_of(alloc, body, branch)?;
    Ok(Started { branch, starts })
}

/// Adds the script of the output at a place, unless an earlier one has it; or gives the reason why there is none. The starts are those of the
/// place's branch.
pub fn put_place(
    alloc: Global,
    text: &str,
    descriptor: &Descriptor,
    starts: &[Start],
    count: u32,
    places: &mut BTreeMap<Vec<u8>, usize>,
    place: usize,
) -> Result<Option<Vec<u8>>, AllocError>
    requires within { BodyWithin text.now descriptor.now.body }
    requires read { Answers text.now (Ok (descriptor_at text.now descriptor.now)) }
    requires some { 0 < count }
    requires starts { AreStarts (place / count) (expressions_of_body descriptor.now.body) starts.now }
    ensures { IfOk result (λ found. PutsPlace (descriptor_at text.now descriptor.now) count place places.old places.new found) }
{
    let branch = place / count as usize;
    let index = (place % count as usize) as u32;
    match place_from(alloc, text, descriptor, starts, None, branch, index)? {
        Place::Key(given) => {
            put_script(places, given.output, place)?;
            Ok(None)
        }
        Place::Tree(given, _) => {
            put_script(places, given.output, place)?;
            Ok(None)
        }
        Place::Nothing(reason) => Ok(Some(reason)),
    }
}
