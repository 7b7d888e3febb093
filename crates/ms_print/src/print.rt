//! The printed form of a tree (BIP 379): no sugar, all wrapper letters before one colon, digits in lower case.
ghost use Rattle.std.specs.Prelude.{◌≡◌, ℕ, ◌++◌, [], ◌∷◌, codes, decimal, List, All, IfOk, OnOk, OnErr};
ghost use Rattle.std.specs.String.{string_bytes};
ghost use Rattle.hex.specs.Hex.{encode_lower};
ghost use Rattle.def_text.specs.Letter.{wrapper_byte};
ghost use Rattle.def_text.specs.Print.{printed, printed_behind};
ghost use Rattle.def_text.specs.Spells.{SpellsText};
ghost use Rattle.def_text.specs.Token.{tokens};
ghost use Rattle.def_text.specs.Word.{hash_name, two_name};
ghost use Rattle.def_tree.specs.InRange.{IsInRange};
ghost use Rattle.def_tree.specs.Tree as model;
ghost use Rattle.ms_print.specs.Added.{AddsFront};
ghost use Rattle.ms_print.specs.Scaffolding.Seen.{is_lettered};
ghost use Rattle.ms_tree.specs.Shape.{shape, shapes, leaf_shape};

use def_tree::{HashKind, Two, Wrapper};
use ms_tree::{Key, Leaf, Tree, View, fragment_rows};
use std::alloc::{AllocError, Global};

/// A name of the table of fragments, in a call `fragment_rows!(name_of!(..))`: of `kind Two` the name of
/// that value's variant, and of `Thresh` its own. The groups before the wanted one are passed over.
macro_rules! name_of {
    (($value:ident HashKind) hashes $rows:tt $($others:tt)*) => {
        name_among!($value HashKind $rows)
    };
    (($value:ident Two) pairs $rows:tt $($others:tt)*) => {
        name_among!($value Two $rows)
    };
    (($value:ident Wrapper) wrappers $rows:tt) => {
        name_among!($value Wrapper $rows)
    };
    ((AndOr) and_or { [AndOr $name:literal $($of_row:tt)*] } $($others:tt)*) => {
        $name
    };
    ((Thresh) lists { [Thresh $name:literal $($of_row:tt)*] $multi:tt } $($others:tt)*) => {
        $name
    };
    ((Multi) lists { $thresh:tt [Multi $name:literal $($of_row:tt)*] } $($others:tt)*) => {
        $name
    };
    ($wanted:tt $group:ident $rows:tt $($others:tt)*) => {
        name_of!($wanted $($others)*)
    };
}

/// The name of a value's variant among the rows of a group.
macro_rules! name_among {
    ($value:ident $kind:ident { $([$variant:ident $name:literal $($of_row:tt)*])* }) => {
        match $value {
            $($kind::$variant => $name,)*
        }
    };
}

/// The printed form of a tree, which spells it. It may be too deep for `read_text` where the tree was read from a text near
/// the limit: it has `c:pk_k(K)` for `pk(K)`, one level more. The only refusal is want of memory.
pub fn print_text(alloc: Global, tree: &Tree<'_>) -> Result<String, AllocError>
    requires { IsInRange (shape tree.now) }
    ensures printed { IfOk result (λ text. string_bytes text ≡ printed (shape tree.now)) }
    ensures spells { IfOk result (λ text. (os : List ℕ) × SpellsText (tokens (string_bytes text)) (shape tree.now) os) }
{
    let mut out = String::new(alloc);
    print_tree(alloc, &mut out, tree, "")?;
    Ok(out)
}

/// The bytes of a tree's text, outside the arena in which the tree lies.
pub fn copy_out(alloc: Global, tree: &Tree<'_>) -> Result<Vec<u8>, AllocError>
    requires { IsInRange (shape tree.now) }
    ensures printed { IfOk result (λ bytes. bytes.items ≡ printed (shape tree.now)) }
{
    Ok(print_text(alloc, tree)?.into_bytes())
}

/// Adds a tree's text. `colon` is the colon of the letters before it, or nothing where none stand there; a letter has none
/// before it.
#[cycle(print)]
fn print_tree(
    alloc: Global,
    out: &mut String,
    tree: &Tree<'_>,
    colon: &str,
) -> Result<(), AllocError>
    requires { IsInRange (shape tree.now) }
    ensures { OnOk result (string_bytes out.new ≡ string_bytes out.old ++ printed_behind colon.now (shape tree.now)) }
{
    if !is_wrap(tree) {
        out.push_str(colon)?;
    }
    print_bare(alloc, out, tree)
}

/// Whether a tree is a wrapper on another one.
#[tactic(auto, using(crate::proofs::SeenLemmas::leaf_is_bare))]
fn is_wrap(tree: &Tree<'_>) -> bool
    requires { IsInRange (shape tree.now) }
    ensures { result ≡ is_lettered (shape tree.now) }
{
    match tree.view() {
        View::Wrap(..) => true,
        View::Leaf(_) | View::AndOr(..) | View::Two(..) | View::Thresh(..) | View::Multi(..) =>
            false,
    }
}

/// Adds a tree's text, with no colon before it.
#[cycle(print)]
fn print_bare(alloc: Global, out: &mut String, tree: &Tree<'_>) -> Result<(), AllocError>
    requires { IsInRange (shape tree.now) }
    ensures { OnOk result (string_bytes out.new ≡ string_bytes out.old ++ printed (shape tree.now)) }
{
    match tree.view() {
        View::Wrap(wrapper, x) => {
            out.push_str(wrapper_letter(wrapper))?;
            print_tree(alloc, out, x, ":")
        }
        View::Leaf(leaf) => print_leaf(alloc, out, leaf),
        View::AndOr(x, y, z) => print_and_or(alloc, out, x, y, z),
        View::Two(kind, x, y) => print_two(alloc, out, kind, x, y),
        View::Thresh(k, children) => print_thresh(alloc, out, k, children),
        View::Multi(k, keys) => print_multi(alloc, out, k, keys),
    }
}

/// Adds a name and the `(` behind it.
fn open_call(out: &mut String, name: &str) -> Result<(), AllocError>
    ensures { OnOk result (string_bytes out.new ≡ string_bytes out.old ++ (name.now ++ codes "(")) }
{
    out.push_str(name)?;
    out.push_str("(")
}

/// Adds a comma and a tree's text.
#[cycle(print)]
fn print_further(alloc: Global, out: &mut String, tree: &Tree<'_>) -> Result<(), AllocError>
    requires { IsInRange (shape tree.now) }
    ensures { OnOk result (string_bytes out.new ≡ string_bytes out.old ++ (codes "," ++ printed (shape tree.now))) }
{
    out.push_str(",")?;
    print_tree(alloc, out, tree, "")
}

#[cycle(print)]
fn print_and_or(
    alloc: Global,
    out: &mut String,
    x: &Tree<'_>,
    y: &Tree<'_>,
    z: &Tree<'_>,
) -> Result<(), AllocError>
    requires x { IsInRange (shape x.now) }
    requires y { IsInRange (shape y.now) }
    requires z { IsInRange (shape z.now) }
    ensures { OnOk result (string_bytes out.new ≡ string_bytes out.old ++ printed (model.and_or (shape x.now) (shape y.now) (shape z.now))) }
{
    open_call(out, fragment_rows!(name_of!(AndOr)))?;
    print_tree(alloc, out, x, "")?;
    print_further(alloc, out, y)?;
    print_further(alloc, out, z)?;
    out.push_str(")")
}

#[cycle(print)]
fn print_two(
    alloc: Global,
    out: &mut String,
    kind: Two,
    x: &Tree<'_>,
    y: &Tree<'_>,
) -> Result<(), AllocError>
    requires x { IsInRange (shape x.now) }
    requires y { IsInRange (shape y.now) }
    ensures { OnOk result (string_bytes out.new ≡ string_bytes out.old ++ printed (model.two kind (shape x.now) (shape y.now))) }
{
    open_call(out, name_of_two(kind))?;
    print_tree(alloc, out, x, "")?;
    print_further(alloc, out, y)?;
    out.push_str(")")
}

#[cycle(print)]
fn print_thresh(
    alloc: Global,
    out: &mut String,
    k: u64,
    children: &[Tree<'_>],
) -> Result<(), AllocError>
    requires { All (λ x. IsInRange (shape x)) children.now }
    ensures { OnOk result (string_bytes out.new ≡ string_bytes out.old ++ printed (model.thresh k (shapes children.now))) }
{
    open_call(out, fragment_rows!(name_of!(Thresh)))?;
    print_number(alloc, out, k)?;
    for x in children {
        print_further(alloc, out, x)?;
    }
    out.push_str(")")
}

fn print_multi(alloc: Global, out: &mut String, k: u64, keys: &[Key]) -> Result<(), AllocError>
    ensures { OnOk result (string_bytes out.new ≡ string_bytes out.old ++ printed (model.multi k keys.now)) }
{
    open_call(out, fragment_rows!(name_of!(Multi)))?;
    print_number(alloc, out, k)?;
    for key in keys {
        out.push_str(",")?;
        print_hex(alloc, out, key.as_bytes())?;
    }
    out.push_str(")")
}

macro_rules! leaf_arms {
    (
        ($alloc:ident, $out:ident, $leaf:ident)
        numbers { $([$number:ident $digit:literal $($of_number:tt)*])* }
        keys { $([$key:ident $key_name:literal $($of_key:tt)*])* }
        locks { $([$lock:ident $lock_name:literal $($of_lock:tt)*])* }
        $($others:tt)*
    ) => {
        match $leaf {
            $(Leaf::$number => $out.push_str($digit),)*
            $(Leaf::$key(key) => print_call($alloc, $out, $key_name, key.as_bytes()),)*
            $(Leaf::$lock(n) => print_lock($alloc, $out, $lock_name, n),)*
            Leaf::Hash(value) => print_call($alloc, $out, name_of_hash(value.kind()), value.as_bytes()),
        }
    };
}

fn print_leaf(alloc: Global, out: &mut String, leaf: Leaf) -> Result<(), AllocError>
    ensures { OnOk result (string_bytes out.new ≡ string_bytes out.old ++ printed (leaf_shape leaf)) }
{
    fragment_rows!(leaf_arms!(alloc, out, leaf))
}

/// Adds a name and, in parentheses, bytes in hexadecimal digits of lower case. Refuses for want of memory alone; what stood
/// before is then kept, and a front of what was to be added may stand behind it.
pub fn print_call(
    alloc: Global,
    out: &mut String,
    name: &str,
    bytes: &[u8],
) -> Result<(), AllocError>
    ensures ok { OnOk result (string_bytes out.new ≡ string_bytes out.old ++ (name.now ++ codes "(" ++ encode_lower bytes.now ++ codes ")")) }
    ensures err { OnErr result (AddsFront (string_bytes out.old) (string_bytes out.new) (name.now ++ codes "(" ++ encode_lower bytes.now)) }
{
    out.push_str(name)?;
    out.push_str("(")?;
    print_hex(alloc, out, bytes)?;
    out.push_str(")")
}

/// Adds a name and, in parentheses, a number in decimal digits. Refuses for want of memory alone; what stood before is then
/// kept, and a front of what was to be added may stand behind it.
pub fn print_lock(alloc: Global, out: &mut String, name: &str, n: u64) -> Result<(), AllocError>
    ensures ok { OnOk result (string_bytes out.new ≡ string_bytes out.old ++ (name.now ++ codes "(" ++ decimal n ++ codes ")")) }
    ensures err { OnErr result (AddsFront (string_bytes out.old) (string_bytes out.new) (name.now ++ codes "(" ++ decimal n)) }
{
    out.push_str(name)?;
    out.push_str("(")?;
    print_number(alloc, out, n)?;
    out.push_str(")")
}

fn print_hex(alloc: Global, out: &mut String, bytes: &[u8]) -> Result<(), AllocError>
    ensures ok { OnOk result (string_bytes out.new ≡ string_bytes out.old ++ encode_lower bytes.now) }
    ensures err { OnErr result (string_bytes out.new ≡ string_bytes out.old) }
{
    let digits = hex::encode(alloc, bytes)?;
    out.push_str(digits.as_str())
}

/// Adds a number in decimal digits. Refuses for want of memory alone; what stood before is then all there is.
pub fn print_number(alloc: Global, out: &mut String, n: u64) -> Result<(), AllocError>
    ensures ok { OnOk result (string_bytes out.new ≡ string_bytes out.old ++ decimal n) }
    ensures err { OnErr result (string_bytes out.new ≡ string_bytes out.old) }
{
    let digits = format!(in alloc; "{n}")?;
    out.push_str(digits.as_str())
}

fn wrapper_letter(wrapper: Wrapper) -> &'static str
    ensures { result.now ≡ wrapper_byte wrapper ∷ [] }
{
    fragment_rows!(name_of!(wrapper Wrapper))
}

fn name_of_two(kind: Two) -> &'static str
    ensures { result.now ≡ two_name kind }
{
    fragment_rows!(name_of!(kind Two))
}

/// The name of the hash lock of a function (BIP 379). Takes no memory.
pub fn name_of_hash(kind: HashKind) -> &'static str
    ensures { result.now ≡ hash_name kind }
{
    fragment_rows!(name_of!(kind HashKind))
}
