//! Names as reports print them.
ghost use Rattle.std.specs.Prelude.{◌≡◌};
ghost use Rattle.def_answer.specs.Lines.{rule_name as the_rule_name};
ghost use Rattle.def_answer.specs.Run.{script_fault_name as the_script_fault_name};

use ms_interp::ScriptFault;
use ms_types::Rule;

/// The variants of an enum, each by its name.
macro_rules! names {
    ($value:ident: $kind:ident { $($name:ident)* }) => {
        match $value {
            $($kind::$name => stringify!($name),)*
        }
    };
}

/// The name of a rule of the types, as a report prints it. Takes no memory.
pub fn rule_name(rule: Rule) -> &'static str
    ensures { result.now ≡ the_rule_name rule }
{
    names!(rule: Rule {
        OlderRange AfterRange AndOrX AndOrYZ AndVX AndVY AndBX AndBY OrBX OrBZ OrCX OrCZ OrDX OrDZ OrIXZ
        ThreshRange ThreshFirst ThreshOther MultiRange WrapA WrapS WrapC WrapD WrapV WrapJ WrapN
        AndOrE AndOrS OrBE OrBS OrCE OrCS OrDE OrDS OrIS ThreshE ThreshS
    })
}

/// The name of a fault of a run, as a report prints it. Takes no memory.
pub fn script_fault_name(fault: ScriptFault) -> &'static str
    ensures { result.now ≡ the_script_fault_name fault }
{
    names!(fault: ScriptFault {
        ScriptSize ElementSize Truncated NonMinimalPush Unsupported OpCount StackUnderflow AltUnderflow Unbalanced
        MinimalIf Verify NumberForm NegativeLock UnmetLock KeyForm NullFail NullDummy KeyCount SigCount StackSize
        CleanStack EvalFalse
    })
}
