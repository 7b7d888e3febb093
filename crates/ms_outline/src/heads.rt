//! What a node is: the name of its fragment or its letter, and the arguments that are no expressions.
ghost use Rattle.std.specs.Prelude.{◌≡◌, ◌++◌, ◌∷◌, [], codes, decimal, OnOk};
ghost use Rattle.std.specs.String.{string_bytes};
ghost use Rattle.hex.specs.Hex.{encode_lower};
ghost use Rattle.def_text.specs.Letter.{wrapper_byte};
ghost use Rattle.def_text.specs.Word.{two_name};
ghost use Rattle.def_tree.specs.InRange.{IsInRange};
ghost use Rattle.def_tree.specs.Tree as model;
ghost use Rattle.def_answer.specs.Outline.{head_text};
ghost use Rattle.ms_tree.specs.Shape.{shape, leaf_shape};

use crate::number::push_number;
use def_tree::{Two, Wrapper};
use ms_print::name_of_hash;
use ms_tree::{Key, Leaf, Tree, View};
use std::alloc::{AllocError, Global};

/// Adds what the root of a tree is.
pub fn push_head(alloc: Global, report: &mut String, tree: &Tree<'_>) -> Result<(), AllocError>
    requires { IsInRange (shape tree.now) }
    ensures { OnOk result (string_bytes report.new ≡ string_bytes report.old ++ head_text (shape tree.now)) }
{
    match tree.view() {
        View::Leaf(leaf) => push_leaf(alloc, report, leaf),
        View::AndOr(..) => report.push_str("andor"),
        View::Two(kind, ..) => report.push_str(two_word(kind)),
        View::Thresh(k, _) => push_count(report, "thresh ", k),
        View::Multi(k, keys) => push_multi(alloc, report, k, keys),
        View::Wrap(wrapper, _) => report.push_str(letter(wrapper)),
    }
}

fn push_leaf(alloc: Global, report: &mut String, leaf: Leaf) -> Result<(), AllocError>
    ensures { OnOk result (string_bytes report.new ≡ string_bytes report.old ++ head_text (leaf_shape leaf)) }
{
    match leaf {
        Leaf::Zero => report.push_str("0"),
        Leaf::One => report.push_str("1"),
        Leaf::PkK(key) => push_bytes(alloc, report, "pk_k", key.as_bytes()),
        Leaf::PkH(key) => push_bytes(alloc, report, "pk_h", key.as_bytes()),
        Leaf::Older(n) => push_count(report, "older ", n),
        Leaf::After(n) => push_count(report, "after ", n),
        Leaf::Hash(value) => {
            push_bytes(alloc, report, name_of_hash(value.kind()), value.as_bytes())
        }
    }
}

/// Adds a name and a number.
fn push_count(report: &mut String, name: &str, n: u64) -> Result<(), AllocError>
    ensures { OnOk result (string_bytes report.new ≡ string_bytes report.old ++ (name.now ++ decimal n)) }
{
    report.push_str(name)?;
    push_number(report, n)
}

/// Adds a name and, behind a space, bytes in lower-case digits.
fn push_bytes(
    alloc: Global,
    report: &mut String,
    name: &str,
    bytes: &[u8],
) -> Result<(), AllocError>
    ensures { OnOk result (string_bytes report.new ≡ string_bytes report.old ++ (name.now ++ codes " " ++ encode_lower bytes.now)) }
{
    report.push_str(name)?;
    report.push_str(" ")?;
    report.push_str(&hex::encode(alloc, bytes)?)
}

/// Adds the number of a `multi` and its keys.
fn push_multi(alloc: Global, report: &mut String, k: u64, keys: &[Key]) -> Result<(), AllocError>
    ensures { OnOk result (string_bytes report.new ≡ string_bytes report.old ++ head_text (model.multi k keys.now)) }
{
    push_count(report, "multi ", k)?;
    for key in keys {
        push_bytes(alloc, report, "", key.as_bytes())?;
    }
    Ok(())
}

fn two_word(kind: Two) -> &'static str
    ensures { result.now ≡ two_name kind }
{
    match kind {
        Two::AndV => "and_v",
        Two::AndB => "and_b",
        Two::OrB => "or_b",
        Two::OrC => "or_c",
        Two::OrD => "or_d",
        Two::OrI => "or_i",
    }
}

/// The letter of a wrapper.
pub fn letter(wrapper: Wrapper) -> &'static str
    ensures { result.now ≡ wrapper_byte wrapper ∷ [] }
{
    match wrapper {
        Wrapper::A => "a",
        Wrapper::S => "s",
        Wrapper::C => "c",
        Wrapper::D => "d",
        Wrapper::V => "v",
        Wrapper::J => "j",
        Wrapper::N => "n",
    }
}
