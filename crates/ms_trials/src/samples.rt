//! Trees, signatures, items and assets that the tests share.
ghost use Rattle.std.specs.Prelude.{IfOk};
ghost use Rattle.def_sane.specs.Unfit.{IsSane};
ghost use Rattle.def_tree.specs.InRange.{IsInRange};
ghost use Rattle.ms_tree.specs.Shape.{shape};

use crate::letters::{A, B, C, SIG_A, SIG_B, SIG_C, filled};
use bumpalo::Bump;
use ms_held::Assets;
use ms_oracle::{Locks, Pairs};
use ms_sane::{Rules, SaneTree, ValidTree};
use ms_script::Stack;
use ms_text::{TextTree, read_text};
use ms_tree::{Key, Tree};
use std::alloc::{AllocError, Global};
use std::test::Fail;

/// The tree of a text in which capital letters stand for digits. Refuses, by what is wanting, a text that can't be read, and for
/// want of memory.
pub fn tree_of<'a>(
    alloc: Global,
    arena: &'a Bump<Global>,
    form: &str,
) -> Result<TextTree<'a>, &'static str>
    ensures { IfOk result (λ text. IsInRange (shape text.tree)) }
{
    let Ok(text) = filled(alloc, form) else {
        return Err("memory");
    };
    match read_text(alloc, arena, &text) {
        Ok(tree) => Ok(tree),
        Err(_) => Err("a text that can be read"),
    }
}

/// The tree as one that is valid by consensus. Refuses one that isn't, and for want of memory.
pub fn valid_of<'a>(alloc: Global, tree: &Tree<'a>) -> Result<ValidTree<'a>, Fail>
    requires { IsInRange (shape tree.now) }
{
    let valid = ValidTree::new(alloc, *tree, Rules::Consensus)?;
    Ok(valid)
}

/// The tree as one that is sane by policy. Refuses one that isn't, and for want of memory.
pub fn sane_of<'a>(alloc: Global, tree: &Tree<'a>) -> Result<SaneTree<'a>, Fail>
    requires { IsInRange (shape tree.now) }
    ensures { IfOk result (λ sane. IsSane (shape sane.valid.tree)) }
{
    let sane = SaneTree::new(alloc, *tree, Rules::Policy)?;
    Ok(sane)
}

/// The key that a letter stands for and its signature: of `A`, `B`, and `C` for any other.
fn signature_of(letter: char) -> ([u8; 33], &'static [u8]) {
    match letter {
        'A' => (A, &SIG_A),
        'B' => (B, &SIG_B),
        _ => (C, &SIG_C),
    }
}

/// The pairs of the keys that letters stand for, and their signatures.
pub fn signed_by(alloc: Global, signers: &str) -> Result<Pairs, AllocError> {
    let mut pairs = Pairs::new(alloc);
    for signer in signers.chars() {
        let (key, sig) = signature_of(signer);
        pairs.push(&key, sig)?;
    }
    Ok(pairs)
}

/// Assets with the signatures of the keys that letters stand for, and where an `x` stands among these with the preimages of `X`,
/// `Y` and `Z`. Refuses a letter that stands twice, and for want of memory.
pub fn assets_of(alloc: Global, locks: Locks, signed: &str) -> Result<Assets, &'static str> {
    let mut assets = Assets::new(alloc, locks);
    for letter in signed.chars() {
        if letter == 'x' {
            add_preimages(&mut assets)?;
            continue;
        }
        let (key, sig) = signature_of(letter);
        let key = Key::from_bytes(&key).ok_or("a key")?;
        if assets.add_sig(&key, sig).is_err() {
            return Err("another signature");
        }
    }
    Ok(assets)
}

fn add_preimages(assets: &mut Assets) -> Result<(), &'static str> {
    for preimage in [[0x11; 32], [0x22; 32], [0x33; 32]] {
        if assets.add_preimage(&preimage).is_err() {
            return Err("memory");
        }
    }
    Ok(())
}

/// A stack of the items that letters stand for, bottom first: `a`, `b` and `c` for one signature of each key, and any other letter
/// for the empty item.
pub fn stack_of(alloc: Global, items: &str) -> Result<Stack, AllocError> {
    let mut stack = Stack::new(alloc);
    for letter in items.chars() {
        let item: &[u8] = match letter {
            'a' => &SIG_A,
            'b' => &SIG_B,
            'c' => &SIG_C,
            _ => &[],
        };
        stack.push(item)?;
    }
    Ok(stack)
}
