//! The generator: a large sane text with its assets, from a number, and what is answered to it.
ghost use Rattle.std.specs.Prelude.{◌≡◌, ◌+◌, ◌<◌, ◌≤◌, IfOk, OnOk, IsSome, None, Ok};
ghost use Rattle.std.specs.String.{string_bytes};
ghost use Rattle.def_choice.specs.Cheapest.{cheapest as the_cheapest};
ghost use Rattle.def_choice.specs.Strict.{strict as the_strict};
ghost use Rattle.def_sane.specs.declared.Rules.TheVariants.{Consensus};
ghost use Rattle.def_sane.specs.Unfit.{IsSaneUnder, IsValidUnder};
ghost use Rattle.def_satisfaction.specs.Satisfaction.{Sat};
ghost use Rattle.def_tree.specs.InRange.{IsInRange};
ghost use Rattle.ms_held.specs.Adding.{Answers as Adds};
ghost use Rattle.ms_sane.specs.Same.{IsSame};
ghost use Rattle.ms_tree.specs.Shape.{shape};
ghost use Rattle.def_answer.specs.Answer.{gen_reply};
ghost use Rattle.def_answer.specs.Gen.{gen_report as the_gen_report, children_line as the_children_line, strict_line as the_strict_line, cheapest_line as the_cheapest_line};
ghost use Rattle.def_answer.specs.Generated.{threshold_of as the_threshold_of, generated_key, generated_preimage, generated_assets, pk_text as the_pk_text, hash_text as the_hash_text, child_text as the_child_text, generated_text, generated_tree as the_generated_tree};
ghost use Rattle.def_answer.specs.Reply.{reply};
ghost use Rattle.def_answer.specs.Satisfy.{peak_of, outcome_with};
ghost use Rattle.def_answer.specs.Words.{MOST_GENERATED};
ghost use Rattle.ms_generator.specs.Chosen.{strict_items, cheapest_items};

use bumpalo::Bump;
use def_answer::Status;
use def_text::TextFault;
use ms_hash::sha256;
use ms_held::{AddStop, Assets};
use ms_oracle::{Locks, PairIndex, SigCheck};
use ms_replay::carry;
use ms_report::{Answer, limits_line};
use ms_sane::{Misfit, Rules, SaneTree, ValidTree};
use ms_sat::{cheapest, strict};
use ms_script::{MAX_SIGNATURE_SIZE, Stack};
use ms_text::read_text;
use ms_tree::{Key, Tree};
use std::alloc::{AllocError, Global};

/// Timelocks of a spend that waits for nothing.
const LOCKS: Locks = Locks {
    version: 2,
    sequence: 0xffff_fffe,
    locktime: 0,
};

/// The text of a threshold of `n` children, half of them rounded up, and assets with which each child can be satisfied:
/// what `gen` makes from a number.
pub fn generated(alloc: Global, n: u32) -> Result<(String, Assets), AllocError>
    requires least { 1 ≤ n }
    requires most { n ≤ MOST_GENERATED }
    ensures text { IfOk result (λ made. string_bytes made.0 ≡ generated_text n) }
    ensures assets { IfOk result (λ made. made.1 ≡ generated_assets n) }
{
    Ok((thresh_text(alloc, n)?, all_assets(alloc, n)?))
}

/// The key of a child, by its number.
fn key_of(i: u8) -> Key
    requires { i < MOST_GENERATED }
    ensures { result ≡ generated_key i }
{
    let mut bytes = [i + 1; 33];
    bytes[0] = 0x02;
    Key::from_bytes(&bytes).unwrap()
}

/// The preimage of a child.
fn preimage_of(i: u8) -> [u8; 32]
    ensures { result ≡ generated_preimage i }
{
    [i; 32]
}

/// The assets with the signatures and preimages of all children.
fn all_assets(alloc: Global, n: u32) -> Result<Assets, AllocError>
    requires { n ≤ MOST_GENERATED }
    ensures { IfOk result (λ assets. assets ≡ generated_assets n) }
{
    let mut assets = Assets::new(alloc, LOCKS);
    for i in 0..n as u8 {
        add_child(&mut assets, i)?;
    }
    Ok(assets)
}

/// Adds the signature and the preimage of a child. The signature has 70 to 73 bytes.
fn add_child(assets: &mut Assets, i: u8) -> Result<(), AllocError>
    requires number { i < MOST_GENERATED }
    requires earlier { assets.old ≡ generated_assets i }
    ensures { OnOk result (assets.new ≡ generated_assets (i + 1)) }
{
    let longest = [i; MAX_SIGNATURE_SIZE];
    let length = 70 + i as usize % 4;
    added(assets.add_sig(&key_of(i), &longest[..length]))?;
    added(assets.add_preimage(&preimage_of(i)))
}

/// Nothing but want of memory keeps a signature or a preimage out.
fn added(answer: Result<(), AddStop>) -> Result<(), AllocError>
    requires { Adds None answer }
    ensures { OnOk result (answer ≡ Ok tt) }
{
    match answer {
        Ok(()) => Ok(()),
        Err(AddStop::Memory) => Err(AllocError),
        Err(AddStop::SigLength | AddStop::TooMany | AddStop::RepeatedKey) => unreachable!(),
    }
}

/// Half of the children, rounded up.
fn threshold_of(n: u32) -> u32
    requires { n ≤ MOST_GENERATED }
    ensures { result ≡ the_threshold_of n }
{
    (n + 1) / 2
}

/// The text of the threshold.
fn thresh_text(alloc: Global, n: u32) -> Result<String, AllocError>
    requires { n ≤ MOST_GENERATED }
    ensures { IfOk result (λ text. string_bytes text ≡ generated_text n) }
{
    let threshold = threshold_of(n);
    let mut text = format!(in alloc; "thresh({threshold}")?;
    for i in 0..n as u8 {
        text.push(',')?;
        text.push_str(&child_text(alloc, i)?)?;
    }
    text.push(')')?;
    Ok(text)
}

/// The text of a child: the first one is a key, every third one after it a hash, and the others are keys.
fn child_text(alloc: Global, i: u8) -> Result<String, AllocError>
    requires { i < MOST_GENERATED }
    ensures { IfOk result (λ text. string_bytes text ≡ the_child_text i) }
{
    if i == 0 {
        return pk_text(alloc, i);
    }
    if i % 3 == 0 {
        return hash_text(alloc, i);
    }
    let pk = pk_text(alloc, i)?;
    format!(in alloc; "s:{pk}")
}

/// The key of a child as a fragment.
fn pk_text(alloc: Global, i: u8) -> Result<String, AllocError>
    requires { i < MOST_GENERATED }
    ensures { IfOk result (λ text. string_bytes text ≡ the_pk_text i) }
{
    let key = hex::encode(alloc, key_of(i).as_bytes())?;
    format!(in alloc; "pk({key})")
}

/// The hash of a child's preimage as a fragment.
fn hash_text(alloc: Global, i: u8) -> Result<String, AllocError>
    ensures { IfOk result (λ text. string_bytes text ≡ the_hash_text i) }
{
    let value = hex::encode(alloc, &sha256(&preimage_of(i)))?;
    format!(in alloc; "aj:and_v(v:sha256({value}),1)")
}

/// Answers `gen`: makes the text and its assets, satisfies the tree both ways, and shows what that takes.
#[tactic(auto, unfolding(def_answer::specs::Answer::gen_reply))]
pub fn answer_gen(alloc: Global, arena: &Bump<Global>, n: u32) -> Result<Answer, AllocError>
    requires least { 1 ≤ n }
    requires most { n ≤ MOST_GENERATED }
    ensures { IfOk result (λ answer. reply answer.status (string_bytes answer.report) ≡ gen_reply n) }
{
    let (text, assets) = generated(alloc, n)?;
    let tree = generated_tree(alloc, arena, n, &text)?;
    let mut sane = sane_tree(alloc, tree)?;
    Ok(Answer {
        status: Status::Done,
        report: gen_report(alloc, n, &mut sane, &assets)?,
    })
}

/// The tree of the text, which isn't refused.
fn generated_tree<'a>(
    alloc: Global,
    arena: &'a Bump<Global>,
    n: u32,
    text: &str,
) -> Result<Tree<'a>, AllocError>
    requires least { 1 ≤ n }
    requires most { n ≤ MOST_GENERATED }
    requires text { text.now ≡ generated_text n }
    ensures tree { IfOk result (λ tree. shape tree ≡ the_generated_tree n) }
    ensures in_range { IfOk result (λ tree. IsInRange (shape tree)) }
{
    match read_text(alloc, arena, text) {
        Ok(read) => Ok(read.tree),
        Err(TextFault::Memory) => Err(AllocError),
        Err(TextFault::TooLong) => unreachable!(),
        Err(TextFault::Syntax(_)) => unreachable!(),
        Err(TextFault::TooDeep(_)) => unreachable!(),
    }
}

/// The tree as a sane one.
fn sane_tree<'a>(alloc: Global, tree: Tree<'a>) -> Result<SaneTree<'a>, AllocError>
    requires in_range { IsInRange (shape tree) }
    requires sane { IsSaneUnder Consensus (shape tree) }
    ensures { IfOk result (λ sane. sane.valid.tree ≡ tree.entry) }
{
    match SaneTree::new(alloc, tree, Rules::Consensus) {
        Ok(sane) => Ok(sane),
        Err(Misfit::Memory) => Err(AllocError),
        Err(Misfit::Unfit(_)) => unreachable!(),
    }
}

/// The children and the threshold, the limits, and both satisfactions.
#[tactic(auto, unfolding(def_answer::specs::Gen::gen_report))]
fn gen_report(
    alloc: Global,
    n: u32,
    sane: &mut SaneTree<'_>,
    assets: &Assets,
) -> Result<String, AllocError>
    requires most { n ≤ MOST_GENERATED }
    requires tree { shape sane.old.valid.tree ≡ the_generated_tree n }
    requires assets { assets.now ≡ generated_assets n }
    requires strict { IsSome (the_strict (shape sane.old.valid.tree) assets.now) }
    requires cheapest { IsSome (the_cheapest (shape sane.old.valid.tree) assets.now) }
    ensures { IfOk result (λ report. string_bytes report ≡ the_gen_report n (strict_items (the_generated_tree n) (generated_assets n)) (cheapest_items (the_generated_tree n) (generated_assets n))) }
{
    let mut report = children_line(alloc, n)?;
    report.push_str(&limits_line(alloc, sane.valid.limits)?)?;
    report.push_str(&strict_line(alloc, sane, assets)?)?;
    report.push_str(&cheapest_line(alloc, &mut sane.valid, assets)?)?;
    Ok(report)
}

/// The line of the children and the threshold.
fn children_line(alloc: Global, n: u32) -> Result<String, AllocError>
    requires { n ≤ MOST_GENERATED }
    ensures { IfOk result (λ line. string_bytes line ≡ the_children_line n (the_threshold_of n)) }
{
    let threshold = threshold_of(n);
    format!(in alloc; "children {n} threshold {threshold}\n")
}

/// The line of the strict satisfaction, with the peak of its run.
fn strict_line(
    alloc: Global,
    sane: &mut SaneTree<'_>,
    assets: &Assets,
) -> Result<String, AllocError>
    requires { IsSome (the_strict (shape sane.old.valid.tree) assets.now) }
    ensures line { IfOk result (λ line. string_bytes line ≡
        the_strict_line (strict_items (shape sane.old.valid.tree) assets.now) (outcome_with (shape sane.old.valid.tree) assets.now (strict_items (shape sane.old.valid.tree) assets.now))) }
    ensures same { IsSame sane.old.valid sane.new.valid }
{
    assets.are_assets();
    let tree = sane.valid.tree;
    let Some(stack) = strict(alloc, sane, assets)? else {
        unreachable!()
    };
    let peak = run_peak(alloc, &tree, assets, &stack)?;
    let (items, weight) = (stack.len(), stack.weight());
    format!(in alloc; "strict items {items} weight {weight} peak {peak}\n")
}

/// The line of the cheapest satisfaction.
fn cheapest_line(
    alloc: Global,
    valid: &mut ValidTree<'_>,
    assets: &Assets,
) -> Result<String, AllocError>
    requires { IsSome (the_cheapest (shape valid.old.tree) assets.now) }
    ensures line { IfOk result (λ line. string_bytes line ≡ the_cheapest_line (cheapest_items (shape valid.old.tree) assets.now)) }
    ensures same { IsSame valid.old valid.new }
{
    assets.are_assets();
    let Some(stack) = cheapest(alloc, valid, assets)? else {
        unreachable!()
    };
    let (items, weight) = (stack.len(), stack.weight());
    format!(in alloc; "cheapest items {items} weight {weight}\n")
}

/// The greatest height of the stack in the run of a satisfaction.
fn run_peak(
    alloc: Global,
    tree: &Tree<'_>,
    assets: &Assets,
    stack: &Stack,
) -> Result<u32, AllocError>
    requires in_range { IsInRange (shape tree.now) }
    requires valid { IsValidUnder Consensus (shape tree.now) }
    requires canonical { Sat (shape tree.now) assets.now stack.now }
    ensures { IfOk result (λ peak. peak ≡ peak_of (outcome_with (shape tree.now) assets.now stack.now)) }
{
    let pairs = assets.pairs();
    let index = PairIndex::new(alloc, pairs)?;
    let sigs = SigCheck::new(pairs, |key: &[u8], sig: &[u8]| index.holds(key, sig));
    let carried = carry(alloc, tree, stack, assets, &sigs)?;
    Ok(carried.report.peak)
}
