//! What is known of an output that a descriptor gives.

ghost use Rattle.std.specs.Prelude.{◌≡◌, Some, None, if◌then◌else◌, option_map, IfOk};
ghost use Rattle.def_script.specs.Bytes.{Bytes};
ghost use Rattle.def_descriptor.specs.Gives.{output_of};
ghost use Rattle.def_descriptor_answer.specs.Update.{known_at as the_known_at};
ghost use Rattle.ms_descriptor.specs.Bodies.{descriptor_at};
ghost use Rattle.ms_update.specs.Seen.{known_at};

use crate::origins::known_keys;
use ms_bytes::Blob;
use ms_descriptor::Descriptor;
use ms_outputs::Given;
use ms_update::KnownOutput;
use std::alloc::{AllocError, Global};

/// The bytes of a Script, if there is one.
fn witness_of(alloc: Global, script: &Option<Blob>) -> Result<Option<Vec<u8>>, AllocError>
    ensures { IfOk result (λ made. option_map (λ bytes. bytes.items) made ≡ script.now) }
{
    match script {
        Some(script) => Ok(Some(Vec::from_slice(alloc, script.as_slice())?)),
        None => Ok(None),
    }
}

/// The redeem script of a program, with `sh`.
fn redeem_of(under: bool, program: Vec<u8>) -> Option<Vec<u8>>
    ensures { option_map (λ bytes. bytes.items) result ≡ if under then Some program.items else None }
{
    if under { Some(program) } else { None }
}

/// What is known of an output that was given at a branch and an index.
pub fn known_of(
    alloc: Global,
    descriptor: &Descriptor,
    branch: usize,
    index: u32,
    given: Given,
) -> Result<KnownOutput, AllocError>
    requires { given.output.items ≡ output_of descriptor.now.under given.program.items }
    ensures { (text : Bytes) → IfOk result (λ made. known_at made ≡ the_known_at (descriptor_at text descriptor.now) branch index given.program.items given.script given.keys.items) }
{
    let keys = known_keys(alloc, &descriptor.body, branch, index, &given.keys)?;
    let witness = witness_of(alloc, &given.script)?;
    Ok(KnownOutput {
        output: given.output,
        redeem: redeem_of(descriptor.under, given.program),
        witness,
        keys,
    })
}
