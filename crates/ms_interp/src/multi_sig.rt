//! CHECKMULTISIG, and the count of opcodes with its keys.
ghost use Rattle.std.specs.Prelude.{◌≡◌, ◌+◌, [], ◌++◌, ◌<◌, length, slice_index_or, OnOk};
ghost use Rattle.std.specs.List.{list_all};
ghost use Rattle.def_machine.specs.Stacks.{is_empty};
ghost use Rattle.def_machine.specs.MultiSig.{within_op_limit, is_good as the_is_good, some_off as the_some_off, tries as the_tries, verdict as the_verdict, check_multi_sig as the_check_multi_sig};
ghost use Rattle.ms_interp.specs.Scaffolding.Stops.{Leaves, Gives, GivesFault};
ghost use Rattle.ms_interp.specs.Scaffolding.Multi.{found_by, judged_seen};

use crate::operands::count;
use crate::pile::Pile;
use crate::stop::Stop;
use def_machine::ScriptFault;
use ms_oracle::{Pairs, SignatureChecker};
use ms_script::{Blob, MAX_OPS_PER_SCRIPT, MAX_PUBKEYS_PER_MULTISIG, is_key};
use std::alloc::{AllocError, Global};

/// A number of opcodes with some more, within the limit.
#[tactic(auto, unfolding(def_machine::specs::MultiSig::within_op_limit))]
pub fn more_ops(ops: u32, more: u32) -> Result<u32, ScriptFault>
    ensures { result ≡ within_op_limit (ops + more) }
{
    let total = ops.saturating_add(more);
    if total > MAX_OPS_PER_SCRIPT {
        return Err(ScriptFault::OpCount);
    }
    Ok(total)
}

/// Takes `n` elements.
#[tactic(auto, unfolding(def_machine::specs::MultiSig::some_off))]
fn some_off(main: &mut Pile, n: usize) -> Result<Vec<Blob>, Stop>
    ensures { Gives result (λ taken. (taken.items, main.new)) (the_some_off n main.old) }
{
    if main.len() < n {
        return Err(Stop::Fault(ScriptFault::StackUnderflow));
    }
    let mut taken = Vec::new(main.allocator());
    while taken.len() < n {
        let Some(top) = main.pop() else {
            unreachable!();
        };
        taken.push(top)?;
    }
    Ok(taken)
}

/// The bytes of the element at a place.
fn bytes_at(elements: &[Blob], i: usize) -> &[u8]
    requires { i < length elements.now }
    ensures { result.now ≡ slice_index_or elements.now i [] }
{
    elements[i].as_slice()
}

/// Whether the signature is good for the key; an empty one is never asked for.
fn is_good<C: SignatureChecker>(key: &[u8], sig: &[u8], sigs: &C) -> bool
    requires { C.IsSound sigs.now }
    ensures { result ≡ the_is_good (C.checker sigs.now) key.now sig.now }
{
    !sig.is_empty() && sigs.ask(key, sig)
}

/// Tries each of the signatures with the keys, which both stand last first: a try passes the key, and a good
/// one the signature too. Answers the pairs found good where no signature is left.
fn tries<C: SignatureChecker>(
    alloc: Global,
    keys: &[Blob],
    signatures: &[Blob],
    sigs: &C,
) -> Result<Option<Pairs>, Stop>
    requires { C.IsSound sigs.now }
    ensures { Gives result found_by (the_tries (C.checker sigs.now) keys.now signatures.now []) }
{
    let mut found = Pairs::new(alloc);
    let mut next_key = 0;
    let mut next_sig = 0;
    while next_sig < signatures.len() {
        if keys.len() - next_key < signatures.len() - next_sig {
            return Ok(None);
        }
        let key = bytes_at(keys, next_key);
        let sig = bytes_at(signatures, next_sig);
        if !is_key(key) {
            return Err(Stop::Fault(ScriptFault::KeyForm));
        }
        next_key += 1;
        if is_good(key, sig, sigs) {
            found.push(key, sig)?;
            next_sig += 1;
        }
    }
    Ok(Some(found))
}

/// Whether all signatures are empty.
fn all_empty(signatures: &[Blob]) -> bool
    ensures { result ≡ list_all is_empty signatures.now }
{
    for sig in signatures {
        if !sig.as_slice().is_empty() {
            return false;
        }
    }
    true
}

/// Whether a multisignature passed, and the pairs found good.
#[derive(Drop)]
struct Judged {
    passed: bool,
    found: Pairs,
}

/// What the tries come to: after a failure all signatures must be empty (BIP 146).
#[tactic(auto, unfolding(def_machine::specs::MultiSig::verdict))]
fn verdict(alloc: Global, signatures: &[Blob], tried: Option<Pairs>) -> Result<Judged, ScriptFault>
    ensures { GivesFault result judged_seen (the_verdict signatures.now (found_by tried)) }
{
    if let Some(found) = tried {
        return Ok(Judged {
            passed: true,
            found,
        });
    }
    if !all_empty(signatures) {
        return Err(ScriptFault::NullFail);
    }
    let found = Pairs::new(alloc);
    Ok(Judged {
        passed: false,
        found,
    })
}

/// Adds the pairs to the checks.
fn add_all(checks: &mut Pairs, found: &Pairs) -> Result<(), AllocError>
    ensures { OnOk result (checks.new ≡ checks.old ++ found.now) }
{
    for pair in found.as_slice() {
        checks.push(pair.key(), pair.sig())?;
    }
    Ok(())
}

/// CHECKMULTISIG: takes the keys, the signatures and one element more, each list after its count, and pushes
/// whether all signatures are good.
#[tactic(auto, unfolding(def_machine::specs::MultiSig::check_multi_sig, def_machine::specs::MultiSig::one_off, def_machine::specs::MultiSig::null_dummy))]
pub fn check_multi_sig<C: SignatureChecker>(
    main: &mut Pile,
    ops: &mut u32,
    checks: &mut Pairs,
    sigs: &C,
) -> Result<(), Stop>
    requires { C.IsSound sigs.now }
    ensures { Leaves result (main.new, ops.new, checks.new) (the_check_multi_sig (C.checker sigs.now) main.old ops.old checks.old) }
{
    let alloc = main.allocator();
    let n = count(main, MAX_PUBKEYS_PER_MULTISIG, ScriptFault::KeyCount)?;
    *ops = more_ops(*ops, n as u32)?;
    let keys = some_off(main, n)?;
    let m = count(main, n, ScriptFault::SigCount)?;
    let signatures = some_off(main, m)?;
    let Some(extra) = main.pop() else {
        return Err(Stop::Fault(ScriptFault::StackUnderflow));
    };
    let tried = tries(alloc, &keys, &signatures, sigs)?;
    let judged = verdict(alloc, &signatures, tried)?;
    if !extra.as_slice().is_empty() {
        return Err(Stop::Fault(ScriptFault::NullDummy));
    }
    add_all(checks, &judged.found)?;
    main.put_bool(judged.passed)?;
    Ok(())
}
