//! What is said of an input with final fields.

ghost use Rattle.std.specs.Prelude.{◌≡◌, [], length, IfOk, unwrap_or};
ghost use Rattle.def_machine.specs.Run.{run as the_run};
ghost use Rattle.def_psbt.specs.Forms.{witness_of};
ghost use Rattle.def_spend.specs.Input.{Spend, locks_of};
ghost use Rattle.def_verify.specs.Final.{execution_of as the_execution_of};
ghost use Rattle.def_verify.specs.Verdict.{verdict_by, ran_verdict, consensus_given};
ghost use Rattle.ms_input.specs.Spending.{code_seen};
ghost use Rattle.ms_input.specs.Verdicts.{items_in, code_stack as the_code_stack, verdict_seen};
ghost use Rattle.ms_input.specs.Signing.{IsAsked};

use crate::utxo::ScriptCode;
use crate::verify::check::ConsensusCheck;
use crate::verify::execution::execution_of;
use crate::verify::items::{stack_of, witness_items};
use def_verify::Flaw;
use ms_interp::{RunStop, run};
use ms_oracle::{Locks, Pairs};
use ms_script::Stack;
use std::alloc::{AllocError, Global};

/// More items than a PSBT has room for.
const MOST_ITEMS: usize = 2_147_483_648;

/// What is said of an input with final fields, whose spent output is known.
#[derive(Drop)]
pub enum Verdict<'a> {
    /// The first flaw.
    Flawed(Flaw),
    /// The run of this Script accepts: the pairs that passed, in order.
    Valid(ScriptCode<'a>, Pairs),
}

/// What is said of an input that spends an output of this Script, with this final scriptSig and this final witness: what they have
/// consensus run, under these locks. The Script of the check counts for nothing: it becomes that which is run. It demands that the
/// input of the check has 41 bytes. `AllocError` comes where memory is wanting, and where the witness has over 2^31 items.
pub fn output_verdict<'a>(
    alloc: Global,
    spent: &[u8],
    script_sig: &[u8],
    witness: &'a [u8],
    locks: &Locks,
    check: ConsensusCheck<'_>,
) -> Result<Verdict<'a>, AllocError>
    requires long { length check.input ≡ 41 }
    ensures { (spend : Spend) → IsAsked spend check.entry → locks.now ≡ locks_of spend
        → IfOk result (λ verdict. verdict_seen verdict ≡ ran_verdict spend (the_execution_of spent.now script_sig.now (unwrap_or (witness_of witness.entry.now) []))) }
{
    let items = witness_items(alloc, witness)?;
    match execution_of(spent, script_sig, &items) {
        Ok(code) => run_code(alloc, code, &items, locks, check),
        Err(flaw) => Ok(Verdict::Flawed(flaw)),
    }
}

/// What comes of the run of a Script on its stack.
fn run_code<'a>(
    alloc: Global,
    code: ScriptCode<'a>,
    items: &[&[u8]],
    locks: &Locks,
    check: ConsensusCheck<'_>,
) -> Result<Verdict<'a>, AllocError>
    requires long { length check.input ≡ 41 }
    ensures { (spend : Spend) → IsAsked spend check.entry → locks.now ≡ locks_of spend
        → IfOk result (λ verdict. verdict_seen verdict
        ≡ verdict_by (code_seen code.entry) (the_run (consensus_given spend (code_seen code.entry)) (code_seen code.entry) (the_code_stack code.entry (items_in items.now)))) }
{
    let stack = code_stack(alloc, &code, items)?;
    if stack.len() > MOST_ITEMS {
        return Err(AllocError);
    }
    let asked = ConsensusCheck {
        shared: check.shared,
        input: check.input,
        single: check.single,
        script: code.as_slice(),
        amount: check.amount,
    };
    match run(alloc, code.as_slice(), &stack, locks, &asked) {
        Ok(report) => Ok(Verdict::Valid(code, report.checks)),
        Err(RunStop::Refused(fault, place)) => Ok(Verdict::Flawed(Flaw::Refused(fault, place))),
        Err(RunStop::Memory) => Err(AllocError),
    }
}

/// The stack of a Script: of P2WSH all items but the last.
#[tactic(auto, using(crate::proofs::Reading::below_last))]
fn code_stack(alloc: Global, code: &ScriptCode<'_>, items: &[&[u8]]) -> Result<Stack, AllocError>
    ensures { IfOk result (λ stack. stack ≡ the_code_stack code.now (items_in items.now)) }
{
    match code {
        ScriptCode::Witness(_) => match items {
            [below @ .., _] => stack_of(alloc, below),
            [] => Ok(Stack::new(alloc)),
        },
        ScriptCode::KeyHash(_) => stack_of(alloc, items),
    }
}
