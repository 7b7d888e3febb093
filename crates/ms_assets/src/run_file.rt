//! Run files.

ghost use Rattle.std.specs.Prelude.{◌≡◌, ◌^◌, ◌≤◌, length, is_some, Some, IfOk};
ghost use Rattle.serde_json.specs.View.{view};
ghost use Rattle.def_files.specs.Json.{spelled as the_spelled};
ghost use Rattle.def_files.specs.RunFile.{MOST_ELEMENTS as the_most_elements, script_text as the_script_text, run_refusals, run_in as the_run_in, run_of};
ghost use Rattle.def_files.specs.Refusals.{unless, unless_any};
ghost use Rattle.ms_assets.specs.Parts.{Reads, ReadsOrMemory, IsOrMemory};
ghost use Rattle.ms_assets.specs.Runs.{run_seen, count_refusals};

use crate::members::{pair_list, read_json, read_locks, text_at, text_list};
use crate::texts::{read_pairs, read_strings, spelled};
use def_files::{AssetFault, Member};
use ms_bytes::{Blob, Stack};
use ms_held::MOST_SIGNATURES;
use ms_oracle::{Locks, Pairs};
use serde_json::Value;
use std::alloc::Global;

/// How many elements the stack of a run file has.
pub const MOST_ELEMENTS: usize = 2000;

/// A script, the stack that it runs on, the values of the locks, and the signatures that are good.
#[derive(Debug, Drop)]
pub struct RunFile {
    /// The bytes of the script.
    pub script: Blob,
    /// The stack, bottom first, without the script: at most 2,000 elements of any length.
    pub stack: Stack,
    /// The values of the locks.
    pub locks: Locks,
    /// The signatures that are good, each with its key. Both have any form and length.
    pub pairs: Pairs,
}

/// Reads a run file: a JSON object with the text `script`, the list `witness` of texts, bottom first,
/// and the numbers and signatures of an asset file. All but the script may be missing, and `preimages`
/// is passed over. Keys and signatures have any form and length, and a key may stand twice, so
/// `KeyForm`, `SigLength`, `PreimageLength` and `RepeatedKey` never come.
///
/// Of the refusals that apply the first in the order of `AssetFault` is given, then the first in the
/// order of `Member`, then the one with the least place. Want of memory, `Memory`, may come in place of
/// any answer. `bytes` has at most 2^31 bytes.
#[tactic(auto, unfolding(def_files::specs::RunFile::run_of))]
pub fn read_run(alloc: Global, bytes: &[u8]) -> Result<RunFile, AssetFault>
    requires { length bytes.now ≤ 2 ^ 31 }
    ensures run { IsOrMemory (run_of bytes.now) (run_seen result) }
    ensures few { IfOk result (λ file. length file.stack ≤ the_most_elements) }
{
    let file = read_json(alloc, bytes, AssetFault::NotJson, AssetFault::Memory)?;
    run_in(alloc, &file)
}

/// What stands in a run file.
fn run_in(alloc: Global, file: &Value) -> Result<RunFile, AssetFault>
    ensures run { IsOrMemory (unless_any (run_refusals (view file.now)) (the_run_in (view file.now))) (run_seen result) }
    ensures few { IfOk result (λ file. length file.stack ≤ the_most_elements) }
{
    if !file.is_object() {
        return Err(AssetFault::Shape(Member::Whole));
    }
    let signatures = pair_list(file)?;
    let text = script_text(file)?;
    let witness = text_list(
        file,
        Member::Witness,
        AssetFault::Shape(Member::Witness),
        AssetFault::Memory,
    )?;
    let locks = read_locks(
        file,
        AssetFault::Number(Member::Version),
        AssetFault::Number(Member::Sequence),
        AssetFault::Number(Member::Locktime),
    )?;
    let pairs = read_pairs(alloc, signatures)?;
    let script = read_script(alloc, text)?;
    let stack = read_strings(alloc, witness, Member::Witness)?;
    run_of_parts(script, stack, locks, pairs)
}

/// The text of the script.
fn script_text(file: &Value) -> Result<&str, AssetFault>
    ensures { Reads (unless (is_some (the_script_text (view file.now))) (AssetFault.Shape Member.Script)) (λ text. Some text.now) (the_script_text (view file.now)) result }
{
    match text_at(file, "script") {
        Some(text) => Ok(text),
        None => Err(AssetFault::Shape(Member::Script)),
    }
}

/// The bytes that the text of a script spells.
fn read_script(alloc: Global, text: &str) -> Result<Blob, AssetFault>
    ensures { ReadsOrMemory (unless (is_some (the_spelled (Some text.now))) (AssetFault.Hex Member.Script 0)) (λ script. Some script) (the_spelled (Some text.now)) result }
{
    match spelled(alloc, text)? {
        Some(bytes) => Ok(Blob::from_vec(bytes)),
        None => Err(AssetFault::Hex(Member::Script, 0)),
    }
}

/// A run file of these parts, where they aren't too many.
fn run_of_parts(
    script: Blob,
    stack: Stack,
    locks: Locks,
    pairs: Pairs,
) -> Result<RunFile, AssetFault>
    ensures run { run_seen result ≡ unless_any (count_refusals pairs stack) (record { script = script; stack = stack; locks = locks; pairs = pairs }) }
    ensures few { IfOk result (λ file. length file.stack ≤ the_most_elements) }
{
    if pairs.as_slice().len() > MOST_SIGNATURES {
        return Err(AssetFault::TooMany(Member::Signatures));
    }
    if stack.len() > MOST_ELEMENTS {
        return Err(AssetFault::TooMany(Member::Witness));
    }
    Ok(RunFile {
        script,
        stack,
        locks,
        pairs,
    })
}
