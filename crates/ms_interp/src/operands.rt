//! What opcodes take from the stack: numbers, counts and conditions.
ghost use Rattle.std.specs.Prelude.{◌≡◌, ◌≤◌, IfOk};
ghost use Rattle.def_script.specs.Limits.{MAX_PUBKEYS_PER_MULTISIG};
ghost use Rattle.def_machine.specs.Effects.{operand as the_operand, one_number as the_one_number, two_numbers as the_two_numbers, condition as the_condition};
ghost use Rattle.def_machine.specs.MultiSig.{count as the_count};
ghost use Rattle.ms_interp.specs.Scaffolding.Stops.{GivesFault, HasRoom};

use crate::pile::Pile;
use def_machine::ScriptFault;
use ms_script::num_decode;

/// The number that at most `most` bytes spell in their shortest spelling.
#[tactic(auto, unfolding(def_machine::specs::Effects::operand))]
pub fn operand(bytes: &[u8], most: usize) -> Result<i64, ScriptFault>
    requires { most ≤ 5 }
    ensures value { result ≡ the_operand most bytes.now }
    ensures room { IfOk result HasRoom }
{
    match num_decode(bytes, most) {
        Ok(number) => Ok(number),
        Err(_) => Err(ScriptFault::NumberForm),
    }
}

/// Takes a number.
#[tactic(auto, unfolding(def_machine::specs::Effects::one_number))]
pub fn one_number(main: &mut Pile) -> Result<i64, ScriptFault>
    ensures value { GivesFault result (λ n. (n, main.new)) (the_one_number main.old) }
    ensures room { IfOk result HasRoom }
{
    let Some(top) = main.pop() else {
        return Err(ScriptFault::StackUnderflow);
    };
    operand(top.as_slice(), 4)
}

/// Two operands, the upper one last.
#[derive(Clone, Copy)]
pub struct Operands {
    /// The one below the top.
    pub below: i64,
    /// The one on top.
    pub top: i64,
}

/// Takes two numbers.
#[tactic(auto, unfolding(def_machine::specs::Effects::two_numbers))]
pub fn two_numbers(main: &mut Pile) -> Result<Operands, ScriptFault>
    ensures value { GivesFault result (λ taken. (taken.below, taken.top, main.new)) (the_two_numbers main.old) }
    ensures room { IfOk result (λ taken. HasRoom taken.below × HasRoom taken.top) }
{
    let Some(top) = main.pop() else {
        return Err(ScriptFault::StackUnderflow);
    };
    let Some(below) = main.pop() else {
        return Err(ScriptFault::StackUnderflow);
    };
    let top = operand(top.as_slice(), 4)?;
    let below = operand(below.as_slice(), 4)?;
    Ok(Operands { below, top })
}

/// Takes a count from 0 to `most`, or refuses with the given fault.
#[tactic(auto, unfolding(def_machine::specs::MultiSig::count))]
pub fn count(main: &mut Pile, most: usize, fault: ScriptFault) -> Result<usize, ScriptFault>
    requires { most ≤ MAX_PUBKEYS_PER_MULTISIG }
    ensures value { GivesFault result (λ n. (n, main.new)) (the_count most fault main.old) }
    ensures within { IfOk result (λ n. n ≤ most) }
{
    let number = one_number(main)?;
    if number < 0 || number > most as i64 {
        return Err(fault);
    }
    Ok(number as usize)
}

/// Takes the condition of a branch, which must be empty or the byte 1.
#[tactic(auto, unfolding(def_machine::specs::Effects::condition))]
pub fn condition(main: &mut Pile) -> Result<bool, ScriptFault>
    ensures { GivesFault result (λ value. (value, main.new)) (the_condition main.old) }
{
    let Some(top) = main.pop() else {
        return Err(ScriptFault::StackUnderflow);
    };
    match *top.as_slice() {
        [] => Ok(false),
        [1] => Ok(true),
        _ => Err(ScriptFault::MinimalIf),
    }
}
