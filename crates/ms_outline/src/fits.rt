//! Which letter before a child lets a node pass that breaks a rule of the types.
ghost use Rattle.std.specs.Prelude.{◌≡◌, ◌+◌, ◌<◌, ◌∷◌, [], ◌++◌, ◌≤◌, ◌-◌, length, map, option_map, slice_get, All, IfOk, IfSome, OnOk};
ghost use Rattle.std.specs.List.{find};
ghost use Rattle.std.specs.String.{string_bytes};
ghost use Rattle.def_tree.specs.Children.{children};
ghost use Rattle.def_tree.specs.InRange.{IsInRange};
ghost use Rattle.def_tree.specs.Nodes.{all_nodes};
ghost use Rattle.def_tree.specs.Size.{nodes};
ghost use Rattle.def_text.specs.Letter.{letter_byte};
ghost use Rattle.def_outline.specs.Fits.{fit_of, tried_letters};
ghost use Rattle.def_answer.specs.Outline.{trial_line};
ghost use Rattle.ms_tree.specs.Shape.{shape};
ghost use Rattle.ms_types.specs.Replaced.{count, wrongs};
ghost use Rattle.ms_outline.specs.Scaffolding.Found.{the_letter, types_of, numbers_of, passes, fit_at, found};
ghost use Rattle.ms_outline.specs.Scaffolding.Fitting.{the_fit, fit_text};

use crate::family::Family;
use crate::heads::letter as wrapper_name;
use crate::node_at::node_at;
use crate::number::push_number;
use ms_text::TextTree;
use ms_tree::{Tree, Wrapper};
use ms_types::{CorrectnessType, Letter, correctness_of_letter, count_wrong, passes_with};
use std::alloc::{AllocError, Global};

/// A letter that lets the node above a child pass.
#[derive(Clone, Copy)]
struct Fit {
    /// The number of the child.
    child: u32,
    /// The letter.
    letter: Letter,
}

/// Adds the line of the first letter, and the child before which it stands, that lets the node of this number pass; nothing
/// where there is none. `AllocError` comes only where memory is wanting; nothing is said then of what the report holds.
pub fn push_fit(
    alloc: Global,
    report: &mut String,
    text: &TextTree<'_>,
    node: u32,
) -> Result<(), AllocError>
    requires range { IsInRange (shape text.now.tree) }
    requires node { node < nodes (shape text.now.tree) }
    ensures { OnOk result (string_bytes report.new ≡ string_bytes report.old
        ++ trial_line text.now.offsets.items (fit_of text.now.offsets.items node (slice_get (all_nodes (shape text.now.tree)) node))) }
{
    let tree = node_at(text.tree(), node);
    match first_fit(alloc, text.offsets.as_slice(), tree, node)? {
        Some(fit) => push_line(report, letter_name(fit.letter), text.offset(fit.child)),
        None => Ok(()),
    }
}

/// Adds the line of a letter and a place.
fn push_line(report: &mut String, letter: &str, at: u32) -> Result<(), AllocError>
    ensures { OnOk result (string_bytes report.new ≡ string_bytes report.old ++ fit_text letter.now at) }
{
    report.push_str("fits ")?;
    report.push_str(letter)?;
    report.push_str(" at ")?;
    push_number(report, at as u64)?;
    report.push_str("\n")
}

/// The first letter, and the child before which it stands, that lets the root of a tree pass, whose number is this.
fn first_fit(
    alloc: Global,
    offsets: &[u32],
    tree: &Tree<'_>,
    own: u32,
) -> Result<Option<Fit>, AllocError>
    requires range { IsInRange (shape tree.now) }
    requires size { nodes (shape tree.now) ≤ own + 1 }
    requires place { own < length offsets.now }
    ensures first { IfOk result (λ fit. option_map the_fit fit ≡ found offsets.now own (shape tree.now) (types_of (children (shape tree.now))) 0
        (numbers_of (own + 1 - nodes (shape tree.now)) (children (shape tree.now)))) }
    ensures child { IfOk result (λ fit. IfSome fit (λ f. f.child < length offsets.now)) }
{
    let before = tree.nodes() - 1;
    let family = Family::new(alloc, tree, own - before)?;
    Ok(fit_among(
        offsets,
        tree,
        own,
        family.types.as_slice(),
        family.numbers.as_slice(),
    ))
}

/// The same, by the types of the children and the numbers of their roots.
fn fit_among(
    offsets: &[u32],
    tree: &Tree<'_>,
    own: u32,
    types: &[Option<CorrectnessType>],
    numbers: &[u32],
) -> Option<Fit>
    requires range { IsInRange (shape tree.now) }
    requires place { own < length offsets.now }
    requires places { All (λ number. number < length offsets.now) numbers.now }
    requires types { length types.now ≡ count (children (shape tree.now)) }
    requires numbers { length numbers.now ≡ count (children (shape tree.now)) }
    ensures first { option_map the_fit result ≡ found offsets.now own (shape tree.now) types.now 0 numbers.now }
    ensures child { IfSome result (λ fit. fit.child < length offsets.now) }
{
    let wrong = count_wrong(types);
    for (place, child) in numbers.iter().enumerate() {
        let fit = fit_before(offsets, tree, own, types, wrong, place, *child);
        if fit.is_some() {
            return fit;
        }
    }
    None
}

/// The first letter before the child at a place, whose root has this number.
fn fit_before(
    offsets: &[u32],
    tree: &Tree<'_>,
    own: u32,
    types: &[Option<CorrectnessType>],
    wrong: usize,
    place: usize,
    child: u32,
) -> Option<Fit>
    requires range { IsInRange (shape tree.now) }
    requires own { own < length offsets.now }
    requires child { child < length offsets.now }
    requires count { length types.now ≡ count (children (shape tree.now)) }
    requires place { place < length types.now }
    requires wrong { wrong ≡ wrongs 0 types.now }
    ensures first { option_map the_fit result ≡ fit_at offsets.now own (shape tree.now) types.now place child }
    ensures child { IfSome result (λ fit. fit.child ≡ child) }
{
    if offsets[child as usize] == offsets[own as usize] {
        return None;
    }
    match fitting(tree, types, wrong, place) {
        Some(letter) => Some(Fit { child, letter }),
        None => None,
    }
}

/// The first letter before the child at a place that lets the root of the tree pass.
fn fitting(
    tree: &Tree<'_>,
    types: &[Option<CorrectnessType>],
    wrong: usize,
    place: usize,
) -> Option<Letter>
    requires range { IsInRange (shape tree.now) }
    requires count { length types.now ≡ count (children (shape tree.now)) }
    requires place { place < length types.now }
    requires wrong { wrong ≡ wrongs 0 types.now }
    ensures { option_map the_letter result ≡ find (passes (shape tree.now) types.now place) tried_letters }
{
    let tried = [
        Letter::Wrapper(Wrapper::V),
        Letter::Wrapper(Wrapper::S),
        Letter::Wrapper(Wrapper::A),
        Letter::Wrapper(Wrapper::J),
        Letter::Wrapper(Wrapper::N),
        Letter::Wrapper(Wrapper::C),
        Letter::Wrapper(Wrapper::D),
        Letter::T,
        Letter::L,
        Letter::U,
    ];
    first_of(&tried, tree, types, wrong, place)
}

/// The first of these letters.
fn first_of(
    letters: &[Letter],
    tree: &Tree<'_>,
    types: &[Option<CorrectnessType>],
    wrong: usize,
    place: usize,
) -> Option<Letter>
    requires range { IsInRange (shape tree.now) }
    requires count { length types.now ≡ count (children (shape tree.now)) }
    requires place { place < length types.now }
    requires wrong { wrong ≡ wrongs 0 types.now }
    ensures { option_map the_letter result ≡ find (passes (shape tree.now) types.now place) (map the_letter letters.now) }
{
    for letter in letters {
        let child = correctness_of_letter(*letter, types[place]);
        if passes_with(tree, types, wrong, place, child) {
            return Some(*letter);
        }
    }
    None
}

fn letter_name(letter: Letter) -> &'static str
    ensures { result.now ≡ letter_byte (the_letter letter) ∷ [] }
{
    match letter {
        Letter::Wrapper(wrapper) => wrapper_name(wrapper),
        Letter::T => "t",
        Letter::L => "l",
        Letter::U => "u",
    }
}
