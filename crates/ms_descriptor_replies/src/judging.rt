//! What a descriptor has at a branch and an index.

ghost use Rattle.std.specs.Prelude.{◌≤◌, Option, ℕ, length, IsUtf8, Ok, IfOk};
ghost use Rattle.def_address.specs.declared.Network.{Network};
ghost use Rattle.def_tree.specs.InRange.{IsInRange};
ghost use Rattle.def_text.specs.Refusal.{MOST_BYTES};
ghost use Rattle.def_descriptor.specs.Gives.{pieces_in};
ghost use Rattle.def_descriptor.specs.Answer.{Descriptor as TheDescriptor, Answers};
ghost use Rattle.ms_tree.specs.Shape.{shape};
ghost use Rattle.ms_descriptor.specs.Bodies.{body_at, descriptor_at, BodyWithin};
ghost use Rattle.ms_outputs.specs.Given.{IsSpelled, IsNotGiven};
ghost use Rattle.ms_outputs.specs.Keys.{expressions_of_body};
ghost use Rattle.ms_outputs.specs.Starts.{AreStarts};
ghost use Rattle.ms_descriptor_replies.specs.Scaffolding.Steps.{HasTree, TellsOfTree, TellsOf, Finds};

use crate::measures::Measures;
use crate::reasons::{no_key, unfit};
use bumpalo::Bump;
use def_address::Network;
use def_text::TextFault;
use ms_bytes::Blob;
use ms_descriptor::{Body, Descriptor};
use ms_emit::script_bytes;
use ms_outputs::{Given, GivenFault, Spelled, Start, finish, spell, starts_of};
use ms_sane::{Misfit, Rules, SaneTree};
use ms_text::{TextTree, read_text};
use std::alloc::{AllocError, Global};
use std::str;

/// What a descriptor has at a branch and an index.
#[derive(Drop)]
pub enum Place {
    /// The output of a single key.
    Key(Given),
    /// The output of a miniscript with a sane tree.
    Tree(Given, Measures),
    /// Nothing, for a reason, with the end of its line.
    Nothing(Vec<u8>),
}

/// What the tree of a miniscript's text is.
#[derive(Drop)]
enum Judgement {
    /// It is sane, and has this Script.
    Sane(Measures, Blob),
    /// It isn't, for a reason, with the end of its line.
    Unfit(Vec<u8>),
}

/// Judges the tree of the text of a body of a descriptor.
fn judge_tree(
    alloc: Global,
    text: &[u8],
    body: &Body,
    read: &TextTree<'_>,
) -> Result<Judgement, AllocError>
    requires within { BodyWithin text.now body.now }
    requires short { length text.now ≤ MOST_BYTES }
    requires in_range { IsInRange (shape read.now.tree) }
    ensures { IfOk result (TellsOfTree (pieces_in (body_at text.now body.now)) (shape read.now.tree) read.now.offsets.items) }
{
    match SaneTree::new(alloc, read.tree, Rules::Policy) {
        Ok(sane) => {
            let measures = Measures::of(&sane);
            Ok(Judgement::Sane(measures, script_bytes(alloc, read.tree())?))
        }
        Err(Misfit::Unfit(why)) => Ok(Judgement::Unfit(unfit(alloc, text, body, read, why)?)),
        Err(Misfit::Memory) => Err(AllocError),
    }
}

/// Judges the text of a body of a descriptor, which has a tree.
fn judge_text(alloc: Global, text: &[u8], body: &Body, own: &[u8]) -> Result<Judgement, AllocError>
    requires within { BodyWithin text.now body.now }
    requires short { length text.now ≤ MOST_BYTES }
    requires utf8 { IsUtf8 own.now }
    requires tree { HasTree own.now }
    ensures { IfOk result (TellsOf own.now (pieces_in (body_at text.now body.now))) }
{
    let Ok(words) = str::from_utf8(own) else {
        unreachable!();
    };
    let arena = Bump::new(alloc);
    match read_text(alloc, &arena, words) {
        Ok(read) => judge_tree(alloc, text, body, &read),
        Err(why) => match why {
            TextFault::Memory => Err(AllocError),
            _ => unreachable!(),
        },
    }
}

/// Judges what a descriptor has with its keys and its text at a branch and an index, with an address of a network.
fn judge_spelled(
    alloc: Global,
    text: &str,
    descriptor: &Descriptor,
    network: Option<Network>,
    spelled: Spelled,
) -> Result<Place, AllocError>
    requires within { BodyWithin text.now descriptor.now.body }
    requires read { Answers text.now (Ok (descriptor_at text.now descriptor.now)) }
    requires spelled { (branch : ℕ) × (index : ℕ) × IsSpelled (body_at text.now descriptor.now.body) branch index spelled }
    ensures { (branch index : ℕ) → IsSpelled (body_at text.now descriptor.now.body) branch index spelled
        → IfOk result (Finds network (descriptor_at text.now descriptor.now) branch index) }
{
    if let Body::Single(_) = &descriptor.body {
        let given = finish(alloc, descriptor, network, spelled, None)?;
        return Ok(Place::Key(given));
    }
    match judge_text(alloc, text.as_bytes(), &descriptor.body, &spelled.text)? {
        Judgement::Sane(measures, script) => {
            let given = finish(alloc, descriptor, network, spelled, Some(script))?;
            Ok(Place::Tree(given, measures))
        }
        Judgement::Unfit(reason) => Ok(Place::Nothing(reason)),
    }
}

/// What there is where nothing is given: the reason, with the end of its line.
fn not_given(alloc: Global, why: GivenFault) -> Result<Place, AllocError>
    ensures { (network : Option Network) (d : TheDescriptor) (branch index : ℕ) → IsNotGiven d.body branch index why
        → IfOk result (Finds network d branch index) }
{
    match why {
        GivenFault::NoKey(at) => Ok(Place::Nothing(no_key(alloc, at)?)),
        GivenFault::Memory => Err(AllocError),
    }
}

/// What a descriptor, which is that of the text, has at a branch and an index, by where its keys start from at the branch; with an address of a network.
pub fn place_from(
    alloc: Global,
    text: &str,
    descriptor: &Descriptor,
    starts: &[Start],
    network: Option<Network>,
    branch: usize,
    index: u32,
) -> Result<Place, AllocError>
    requires within { BodyWithin text.now descriptor.now.body }
    requires read { Answers text.now (Ok (descriptor_at text.now descriptor.now)) }
    requires starts { AreStarts branch (expressions_of_body descriptor.now.body) starts.now }
    ensures { IfOk result (Finds network (descriptor_at text.now descriptor.now) branch index) }
{
    match spell(alloc, text, descriptor, starts, index) {
        Ok(spelled) => judge_spelled(alloc, text, descriptor, network, spelled),
        Err(why) => not_given(alloc, why),
    }
}

/// What a descriptor, which is that of the text, has at a branch and an index, with an address of a network.
pub fn place_at(
    alloc: Global,
    text: &str,
    descriptor: &Descriptor,
    network: Option<Network>,
    branch: usize,
    index: u32,
) -> Result<Place, AllocError>
    requires within { BodyWithin text.now descriptor.now.body }
    requires read { Answers text.now (Ok (descriptor_at text.now descriptor.now)) }
    ensures { IfOk result (Finds network (descriptor_at text.now descriptor.now) branch index) }
{
    let starts = starts_of(alloc, &descriptor.body, branch)?;
    place_from(alloc, text, descriptor, &starts, network, branch, index)
}
