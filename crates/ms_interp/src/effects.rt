//! What the opcodes do to the stacks, but for CHECKMULTISIG and the timelocks.
ghost use Rattle.def_machine.specs.Effects.{verify as the_verify, to_alt_stack as the_to_alt_stack, from_alt_stack as the_from_alt_stack, if_dup as the_if_dup, dup as the_dup, swap as the_swap, size as the_size, equal as the_equal, zero_not_equal as the_zero_not_equal, add as the_add, bool_and as the_bool_and, bool_or as the_bool_or, hash as the_hash, check_sig as the_check_sig};
ghost use Rattle.ms_interp.specs.Scaffolding.Stops.{Leaves};

use crate::operands::{one_number, two_numbers};
use crate::pile::Pile;
use crate::stop::Stop;
use def_machine::ScriptFault;
use ms_hash::{HashKind, HashValue, hash_of};
use ms_oracle::{Pairs, SignatureChecker};
use ms_script::{is_key, num_encode, truth};

/// VERIFY: takes the top, which must be true.
#[tactic(auto, unfolding(def_machine::specs::Effects::verify))]
pub fn verify(main: &mut Pile) -> Result<(), Stop>
    ensures { Leaves result main.new (the_verify main.old) }
{
    let Some(top) = main.pop() else {
        return Err(Stop::Fault(ScriptFault::StackUnderflow));
    };
    if !truth(top.as_slice()) {
        return Err(Stop::Fault(ScriptFault::Verify));
    }
    Ok(())
}

/// TOALTSTACK: moves the top to the alternative stack.
#[tactic(auto, unfolding(def_machine::specs::Effects::to_alt_stack))]
pub fn to_alt_stack(main: &mut Pile, alt: &mut Pile) -> Result<(), Stop>
    ensures { Leaves result (main.new, alt.new) (the_to_alt_stack main.old alt.old) }
{
    let Some(top) = main.pop() else {
        return Err(Stop::Fault(ScriptFault::StackUnderflow));
    };
    alt.put(top)?;
    Ok(())
}

/// FROMALTSTACK: moves it back.
#[tactic(auto, unfolding(def_machine::specs::Effects::from_alt_stack))]
pub fn from_alt_stack(main: &mut Pile, alt: &mut Pile) -> Result<(), Stop>
    ensures { Leaves result (main.new, alt.new) (the_from_alt_stack main.old alt.old) }
{
    let Some(top) = alt.pop() else {
        return Err(Stop::Fault(ScriptFault::AltUnderflow));
    };
    main.put(top)?;
    Ok(())
}

/// IFDUP: copies the top where it is true.
#[tactic(auto, unfolding(def_machine::specs::Effects::if_dup))]
pub fn if_dup(main: &mut Pile) -> Result<(), Stop>
    ensures { Leaves result main.new (the_if_dup main.old) }
{
    let Some(top) = main.pop() else {
        return Err(Stop::Fault(ScriptFault::StackUnderflow));
    };
    if truth(top.as_slice()) {
        main.put_bytes(top.as_slice())?;
    }
    main.put(top)?;
    Ok(())
}

/// DUP: copies the top.
#[tactic(auto, unfolding(def_machine::specs::Effects::dup))]
pub fn dup(main: &mut Pile) -> Result<(), Stop>
    ensures { Leaves result main.new (the_dup main.old) }
{
    let Some(top) = main.pop() else {
        return Err(Stop::Fault(ScriptFault::StackUnderflow));
    };
    main.put_bytes(top.as_slice())?;
    main.put(top)?;
    Ok(())
}

/// SWAP: exchanges the upper two.
#[tactic(auto, unfolding(def_machine::specs::Effects::swap))]
pub fn swap(main: &mut Pile) -> Result<(), Stop>
    ensures { Leaves result main.new (the_swap main.old) }
{
    let Some(top) = main.pop() else {
        return Err(Stop::Fault(ScriptFault::StackUnderflow));
    };
    let Some(below) = main.pop() else {
        return Err(Stop::Fault(ScriptFault::StackUnderflow));
    };
    main.put(top)?;
    main.put(below)?;
    Ok(())
}

/// SIZE: pushes the length of the top and leaves the top.
#[tactic(auto, unfolding(def_machine::specs::Effects::size))]
pub fn size(main: &mut Pile) -> Result<(), Stop>
    ensures { Leaves result main.new (the_size main.old) }
{
    let Some(top) = main.pop() else {
        return Err(Stop::Fault(ScriptFault::StackUnderflow));
    };
    let length = num_encode(top.as_slice().len() as i64);
    main.put(top)?;
    main.put_bytes(length.as_slice())?;
    Ok(())
}

/// EQUAL: takes two and pushes whether they are equal.
#[tactic(auto, unfolding(def_machine::specs::Effects::equal))]
pub fn equal(main: &mut Pile) -> Result<(), Stop>
    ensures { Leaves result main.new (the_equal main.old) }
{
    let Some(top) = main.pop() else {
        return Err(Stop::Fault(ScriptFault::StackUnderflow));
    };
    let Some(below) = main.pop() else {
        return Err(Stop::Fault(ScriptFault::StackUnderflow));
    };
    main.put_bool(below.as_slice() == top.as_slice())?;
    Ok(())
}

/// 0NOTEQUAL: takes a number and pushes whether it isn't zero.
#[tactic(auto, unfolding(def_machine::specs::Effects::zero_not_equal))]
pub fn zero_not_equal(main: &mut Pile) -> Result<(), Stop>
    ensures { Leaves result main.new (the_zero_not_equal main.old) }
{
    let number = one_number(main)?;
    main.put_bool(number != 0)?;
    Ok(())
}

/// ADD: takes two numbers and pushes the sum.
#[tactic(auto, unfolding(def_machine::specs::Effects::add))]
pub fn add(main: &mut Pile) -> Result<(), Stop>
    ensures { Leaves result main.new (the_add main.old) }
{
    let taken = two_numbers(main)?;
    let sum = num_encode(taken.below + taken.top);
    main.put_bytes(sum.as_slice())?;
    Ok(())
}

/// BOOLAND: takes two numbers and pushes whether both aren't zero.
#[tactic(auto, unfolding(def_machine::specs::Effects::bool_and))]
pub fn bool_and(main: &mut Pile) -> Result<(), Stop>
    ensures { Leaves result main.new (the_bool_and main.old) }
{
    let taken = two_numbers(main)?;
    main.put_bool(taken.below != 0 && taken.top != 0)?;
    Ok(())
}

/// BOOLOR: takes two numbers and pushes whether one isn't zero.
#[tactic(auto, unfolding(def_machine::specs::Effects::bool_or))]
pub fn bool_or(main: &mut Pile) -> Result<(), Stop>
    ensures { Leaves result main.new (the_bool_or main.old) }
{
    let taken = two_numbers(main)?;
    main.put_bool(taken.below != 0 || taken.top != 0)?;
    Ok(())
}

/// RIPEMD160, SHA256, HASH160 and HASH256: replaces the top by its hash.
#[tactic(auto, unfolding(def_machine::specs::Effects::hash))]
pub fn hash(main: &mut Pile, kind: HashKind) -> Result<(), Stop>
    ensures { Leaves result main.new (the_hash kind main.old) }
{
    let Some(top) = main.pop() else {
        return Err(Stop::Fault(ScriptFault::StackUnderflow));
    };
    match hash_of(kind, top.as_slice()) {
        HashValue::Sha256(digest) | HashValue::Hash256(digest) => main.put_bytes(&digest)?,
        HashValue::Ripemd160(digest) | HashValue::Hash160(digest) => main.put_bytes(&digest)?,
    }
    Ok(())
}

/// CHECKSIG: takes a key and a signature, and pushes whether the signature is good. One that isn't must be
/// empty (BIP 146).
#[tactic(auto, unfolding(def_machine::specs::Effects::check_sig))]
pub fn check_sig<C: SignatureChecker>(
    main: &mut Pile,
    checks: &mut Pairs,
    sigs: &C,
) -> Result<(), Stop>
    requires { C.IsSound sigs.now }
    ensures { Leaves result (main.new, checks.new) (the_check_sig (C.checker sigs.now) main.old checks.old) }
{
    let Some(key) = main.pop() else {
        return Err(Stop::Fault(ScriptFault::StackUnderflow));
    };
    let Some(sig) = main.pop() else {
        return Err(Stop::Fault(ScriptFault::StackUnderflow));
    };
    if !is_key(key.as_slice()) {
        return Err(Stop::Fault(ScriptFault::KeyForm));
    }
    if sig.as_slice().is_empty() {
        main.put_bool(false)?;
        return Ok(());
    }
    if !sigs.ask(key.as_slice(), sig.as_slice()) {
        return Err(Stop::Fault(ScriptFault::NullFail));
    }
    checks.push(key.as_slice(), sig.as_slice())?;
    main.put_bool(true)?;
    Ok(())
}
