//! The opcodes that read a timelock.
ghost use Rattle.def_machine.specs.Locks.{after_holds, older_holds};
ghost use Rattle.def_machine.specs.Effects.{lock};
ghost use Rattle.ms_interp.specs.Scaffolding.Stops.{Leaves};

use crate::operands::operand;
use crate::pile::Pile;
use crate::stop::Stop;
use def_machine::{Locks, ScriptFault};

/// CHECKLOCKTIMEVERIFY (BIP 65): reads the top, whose absolute timelock must hold, and leaves it.
#[tactic(auto, unfolding(def_machine::specs::Effects::lock))]
pub fn check_lock_time_verify(main: &mut Pile, locks: &Locks) -> Result<(), Stop>
    ensures { Leaves result main.new (lock (λ n. after_holds n locks.now) main.old) }
{
    let Some(top) = main.pop() else {
        return Err(Stop::Fault(ScriptFault::StackUnderflow));
    };
    let number = operand(top.as_slice(), 5)?;
    if number < 0 {
        return Err(Stop::Fault(ScriptFault::NegativeLock));
    }
    if !locks.after_holds(number as u64) {
        return Err(Stop::Fault(ScriptFault::UnmetLock));
    }
    main.put(top)?;
    Ok(())
}

/// CHECKSEQUENCEVERIFY (BIP 112): reads the top, whose relative timelock must hold, and leaves it.
#[tactic(auto, unfolding(def_machine::specs::Effects::lock))]
pub fn check_sequence_verify(main: &mut Pile, locks: &Locks) -> Result<(), Stop>
    ensures { Leaves result main.new (lock (λ n. older_holds n locks.now) main.old) }
{
    let Some(top) = main.pop() else {
        return Err(Stop::Fault(ScriptFault::StackUnderflow));
    };
    let number = operand(top.as_slice(), 5)?;
    if number < 0 {
        return Err(Stop::Fault(ScriptFault::NegativeLock));
    }
    if !locks.older_holds(number as u64) {
        return Err(Stop::Fault(ScriptFault::UnmetLock));
    }
    main.put(top)?;
    Ok(())
}
