//! All that a descriptor gives at a branch and an index.

ghost use Rattle.std.specs.Prelude.{◌≡◌, ℕ, IsUtf8, Ok, IfOk, IfErr};
ghost use Rattle.def_script.specs.Bytes.{Bytes};
ghost use Rattle.def_address.specs.Address.{address_of as the_address_of};
ghost use Rattle.def_descriptor.specs.Answer.{Answers};
ghost use Rattle.ms_descriptor.specs.Bodies.{body_at, descriptor_at, BodyWithin};
ghost use Rattle.ms_outputs.specs.declared.given.GivenFault.TheVariants as given_fault;
ghost use Rattle.ms_outputs.specs.Given.{IsReadable, HasScript, HasKeyFor, IsReadableOf, HasAddress, IsProgramBy, IsScripted, IsSpelled, IsGiven, IsNotGiven};
ghost use Rattle.ms_outputs.specs.Keys.{expressions_of_body};
ghost use Rattle.ms_outputs.specs.Starts.{AreStarts};

use crate::keys::keys_from;
use crate::outputs::{key_program, network_of, output_of, script_program};
use crate::starts::{Start, starts_of};
use crate::texts::text_of;
use bumpalo::Bump;
use def_address::Network;
use def_text::TextFault;
use ms_address::address_of;
use ms_bytes::Blob;
use ms_descriptor::{Body, Descriptor};
use ms_emit::script_bytes;
use ms_text::read_text;
use ms_tree::Key;
use std::alloc::{AllocError, AllocFailed, Global};
use std::str;

/// Why a descriptor gives nothing at a branch and an index.
#[derive(Clone, Copy, Debug, PartialEq, Eq)]
pub enum GivenFault {
    /// The expression at this place has no key there.
    NoKey(u32),
    /// There was no memory. It says nothing of the descriptor.
    Memory,
}

impl From<AllocError> for GivenFault {
    ghost from_gives = { λ _ why. why ≡ given_fault.Memory };

    fn from(_error: AllocError) -> GivenFault {
        GivenFault::Memory
    }
}

impl<T: Drop> From<AllocFailed<T>> for GivenFault {
    ghost from_gives = { λ _ why. why ≡ given_fault.Memory };

    fn from(_error: AllocFailed<T>) -> GivenFault {
        GivenFault::Memory
    }
}

/// The keys of a descriptor at a branch and an index, and its text with them.
#[derive(Drop)]
pub struct Spelled {
    /// Its keys, in the order of the text.
    pub keys: Vec<Key>,
    /// The text of its miniscript, as `msat` takes it; that of a single key is empty.
    pub text: Vec<u8>,
}

/// What a descriptor gives.
#[derive(Drop)]
pub struct Given {
    /// Its keys, in the order of the text.
    pub keys: Vec<Key>,
    /// The text of its miniscript, as `msat` takes it; that of a single key is empty.
    pub text: Vec<u8>,
    /// The Script of its miniscript, if it has one.
    pub script: Option<Blob>,
    /// The witness program's script.
    pub program: Vec<u8>,
    /// The output's script.
    pub output: Vec<u8>,
    /// The address of the output.
    pub address: Vec<u8>,
}

/// The Script of a miniscript's text.
fn script_in(alloc: Global, text: &[u8]) -> Result<Blob, AllocError>
    requires utf8 { IsUtf8 text.now }
    requires read { IsReadable text.now }
    ensures { IfOk result (HasScript text.now) }
{
    let Ok(words) = str::from_utf8(text) else {
        unreachable!();
    };
    let arena = Bump::new(alloc);
    match read_text(alloc, &arena, words) {
        Ok(read) => script_bytes(alloc, read.tree()),
        Err(why) => match why {
            TextFault::Memory => Err(AllocError),
            _ => unreachable!(),
        },
    }
}

/// The Script of the text of a body, if it has one.
fn script_for(alloc: Global, body: &Body, text: &[u8]) -> Result<Option<Blob>, AllocError>
    requires utf8 { IsUtf8 text.now }
    requires read { IsReadableOf body.now text.now }
    ensures { IfOk result (IsScripted body.now text.now) }
{
    if let Body::Single(_) = body {
        return Ok(None);
    }
    Ok(Some(script_in(alloc, text)?))
}

/// The program of a Script, or without one of the first key.
fn program_by(alloc: Global, script: &Option<Blob>, keys: &[Key]) -> Result<Vec<u8>, AllocError>
    requires { HasKeyFor script.now keys.now }
    ensures { IfOk result (λ program. IsProgramBy script.now keys.now program.items) }
{
    match script {
        Some(script) => script_program(alloc, script.as_slice()),
        None => key_program(alloc, &keys[0]),
    }
}

/// The address of an output with a program, on a network.
fn address_in(alloc: Global, network: Network, output: &[u8]) -> Result<Vec<u8>, AllocError>
    requires { HasAddress network output.now }
    ensures { IfOk result (λ address. the_address_of network output.now ≡ Some address.items) }
{
    let Some(address) = address_of(alloc, network, output)? else {
        unreachable!();
    };
    Ok(address)
}

/// The keys of a descriptor, which is that of the text, at an index, by where its keys start from at a branch; and its text with them.
pub fn spell(
    alloc: Global,
    text: &str,
    descriptor: &Descriptor,
    starts: &[Start],
    index: u32,
) -> Result<Spelled, GivenFault>
    requires within { BodyWithin text.now descriptor.now.body }
    requires starts { (branch : ℕ) × AreStarts branch (expressions_of_body descriptor.now.body) starts.now }
    ensures spelled { (branch : ℕ) → AreStarts branch (expressions_of_body descriptor.now.body) starts.now
        → IfOk result (IsSpelled (body_at text.now descriptor.now.body) branch index) }
    ensures refused { (branch : ℕ) → AreStarts branch (expressions_of_body descriptor.now.body) starts.now
        → IfErr result (IsNotGiven (body_at text.now descriptor.now.body) branch index) }
{
    let keys = keys_from(alloc, starts, index)?;
    let own = text_of(alloc, text.as_bytes(), &descriptor.body, &keys)?;
    Ok(Spelled { keys, text: own })
}

/// What a descriptor gives whose keys and text are these, with the Script of the text, if it has one; on a network, or without one on its own.
pub fn finish(
    alloc: Global,
    descriptor: &Descriptor,
    network: Option<Network>,
    spelled: Spelled,
    script: Option<Blob>,
) -> Result<Given, AllocError>
    requires spelled { (text : Bytes) × (branch : ℕ) × (index : ℕ) × IsSpelled (body_at text descriptor.now.body) branch index spelled }
    requires script { IsScripted descriptor.now.body spelled.text.items script }
    ensures given { (text : Bytes) (branch index : ℕ) → IsSpelled (body_at text descriptor.now.body) branch index spelled
        → IfOk result (IsGiven (body_at text descriptor.now.body) descriptor.now.under network branch index) }
    ensures text { IfOk result (λ given. given.text ≡ spelled.text) }
{
    let program = program_by(alloc, &script, &spelled.keys)?;
    let output = output_of(alloc, descriptor.under, &program)?;
    let asked = network.unwrap_or(network_of(&descriptor.body));
    let address = address_in(alloc, asked, &output)?;
    Ok(Given {
        keys: spelled.keys,
        text: spelled.text,
        script,
        program,
        output,
        address,
    })
}

/// What a descriptor, which is that of the text, gives at a branch, which is one of its own, and an index; on a network, or without one on its own.
pub fn give(
    alloc: Global,
    text: &str,
    descriptor: &Descriptor,
    network: Option<Network>,
    branch: usize,
    index: u32,
) -> Result<Given, GivenFault>
    requires within { BodyWithin text.now descriptor.now.body }
    requires read { Answers text.now (Ok (descriptor_at text.now descriptor.now)) }
    ensures given { IfOk result (IsGiven (body_at text.now descriptor.now.body) descriptor.now.under network branch index) }
    ensures refused { IfErr result (IsNotGiven (body_at text.now descriptor.now.body) branch index) }
{
    let starts = starts_of(alloc, &descriptor.body, branch)?;
    let spelled = spell(alloc, text, descriptor, &starts, index)?;
    let script = script_for(alloc, &descriptor.body, &spelled.text)?;
    Ok(finish(alloc, descriptor, network, spelled, script)?)
}
