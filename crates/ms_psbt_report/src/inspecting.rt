//! `inspect`: what the transaction does with the money, and what each input is and lacks.
ghost use Rattle.std.specs.Prelude.{◌≡◌, ℕ, ◌+◌, ◌*◌, ◌<◌, ◌≤◌, ◌^◌, ◌&&◌, ◌||◌, ◌++◌, [], ◌∷◌, List, length, take, All, IfOk, IfSome, OnOk};
ghost use Rattle.def_psbt.specs.Transaction.{Transaction};
ghost use Rattle.def_spend.specs.States.{is_final, is_ready};
ghost use Rattle.def_spend.specs.Reading.{Input as TheInput, AreInputs};
ghost use Rattle.def_psbt_answer.specs.Reply.{settled_status};
ghost use Rattle.def_psbt_answer.specs.Report.{inspect_report};
ghost use Rattle.ms_input.specs.Seen.{input_seen};
ghost use Rattle.ms_transaction.specs.Unsigned.{IsUnsigned};
ghost use Rattle.ms_input.specs.Verified.{HaveAssets, IsVerifying, verification_of};
ghost use Rattle.ms_psbt_report.specs.Verifying.{IsVerifiedBy};
ghost use Rattle.ms_psbt_report.specs.Scaffolding.Lines.{money_lines};
ghost use Rattle.ms_psbt_report.specs.Scaffolding.Told.{AreTold};

use crate::final_id::FinalId;
use crate::hashing::next_output;
use crate::inputs::push_input_report;
use crate::lines::{push_fee_line, push_final_id_line};
use crate::replies::Reply;
use crate::shared::{shared_for, verifying_by};
use crate::spent::Spent;
use crate::states::{is_settled, status_of};
use crate::transactions::{push_outputs, push_transaction};
use bumpalo::Bump;
use def_spend::Verification;
use ms_input::{Input, State, Verifying};
use ms_psbt::Psbt;
use ms_transaction::{TransactionRef, unsigned_transaction};
use std::alloc::{AllocError, Global};

/// What the inputs tell, those that were read.
#[derive(Drop)]
pub struct Told {
    /// Their reports.
    pub lines: Vec<u8>,
    /// What they spend.
    pub spent: Spent,
    /// The id of the transaction with their final scriptSigs, as far as it is hashed.
    pub id: FinalId,
    /// Whether all of them are Final or Ready.
    pub are_settled: bool,
}

/// What the transaction of a PSBT does with the money, and of each input what it is, what it demands, and what is missing, where its
/// signatures are verified or aren't. Each input is read once. It demands that what its maps hold are assets. Refuses for want of memory
/// alone.
#[tactic(auto, unfolding(def_psbt_answer::specs::Report::inspect_report))]
pub fn inspect<'p>(
    alloc: Global,
    verification: Verification,
    psbt: &'p Psbt<'p>,
) -> Result<Reply, AllocError>
    requires { HaveAssets psbt.now }
    ensures status { IfOk result (λ made. (inputs : List TheInput) → AreInputs verification psbt.entry.now inputs → made.status ≡ settled_status inputs) }
    ensures report { IfOk result (λ made. (inputs : List TheInput) → AreInputs verification psbt.entry.now inputs → made.report.items ≡ inspect_report psbt.entry.now.transaction inputs) }
{
    // Its clauses tell that each input has a map.
    let _count = psbt.input_count();
    let transaction = unsigned_transaction(psbt);
    let told = tell_inputs(alloc, verification, psbt, &transaction)?;
    Ok(Reply {
        status: status_of(told.are_settled),
        report: with_money(
            told.lines,
            told.id.finish(&transaction),
            told.spent,
            &transaction,
        )?,
    })
}

/// The lines of inputs that spend this, behind those that say what the transaction, which has this id with its final scriptSigs,
/// does with the money. These come last and are put in front where they lie, so that no second report stands in memory.
fn with_money(
    lines: Vec<u8>,
    id: Option<[u8; 32]>,
    spent: Spent,
    transaction: &TransactionRef<'_>,
) -> Result<Vec<u8>, AllocError>
    ensures { IfOk result (λ report. report.items ≡ money_lines transaction.now id spent.satoshis spent.are_proved ++ lines.items) }
{
    let mut report = lines;
    let size = report.len();
    push_transaction(&mut report, transaction)?;
    push_final_id_line(&mut report, id)?;
    let paid = push_outputs(&mut report, transaction)?;
    push_fee_line(&mut report, spent.satoshis, paid, spent.are_proved)?;
    report.rotate_left(size);
    Ok(report)
}

/// What all inputs tell.
fn tell_inputs<'p>(
    alloc: Global,
    verification: Verification,
    psbt: &'p Psbt<'p>,
    transaction: &TransactionRef<'p>,
) -> Result<Told, AllocError>
    requires transaction { transaction.now ≡ psbt.now.transaction }
    requires unsigned { All IsUnsigned transaction.now.inputs }
    requires assets { HaveAssets psbt.now }
    ensures { IfOk result (λ told. (inputs : List TheInput) → AreInputs verification psbt.entry.now inputs → AreTold transaction.now inputs told) }
{
    let mut told = Told {
        lines: Vec::new(alloc),
        spent: Spent {
            satoshis: Some(0),
            are_proved: true,
        },
        id: FinalId::new(transaction),
        are_settled: true,
    };
    let shared = shared_for(verification, transaction);
    let mut outputs = transaction.outputs();
    for number in 0..psbt.input_count() {
        let verifying = verifying_by(&shared, next_output(&mut outputs));
        tell_input(alloc, psbt, transaction, number, verifying, &mut told)?;
    }
    Ok(told)
}

/// Adds what the input with this number tells to what those before it told.
fn tell_input<'p>(
    alloc: Global,
    psbt: &'p Psbt<'p>,
    transaction: &TransactionRef<'p>,
    number: usize,
    verifying: Verifying<'_>,
    told: &mut Told,
) -> Result<(), AllocError>
    requires transaction { transaction.now ≡ psbt.now.transaction }
    requires unsigned { All IsUnsigned transaction.now.inputs }
    requires number { number < length psbt.now.inputs }
    requires assets { HaveAssets psbt.now }
    requires verifying { IsVerifying verifying transaction.now number }
    requires most { IfSome told.old.spent.satoshis (λ satoshis. satoshis ≤ number * 0xffff_ffff_ffff_ffff) }
    ensures told { (inputs : List TheInput) → AreInputs (verification_of verifying.entry) psbt.entry.now inputs → AreTold transaction.now (take number inputs) told.old
        → OnOk result (AreTold transaction.now (take (number + 1) inputs) told.new) }
    ensures most { OnOk result (IfSome told.new.spent.satoshis (λ satoshis. satoshis ≤ (number + 1) * 0xffff_ffff_ffff_ffff)) }
{
    let arena = Bump::new(alloc);
    let input = Input::read(alloc, &arena, psbt, transaction, number, verifying)?;
    add_input(alloc, told, &input, &verifying)
}

/// Adds what an input tells to what those before it told.
fn add_input(
    alloc: Global,
    told: &mut Told,
    input: &Input<'_, '_>,
    verifying: &Verifying<'_>,
) -> Result<(), AllocError>
    requires verifying { IsVerifiedBy input.now.spend verifying.now }
    requires most { IfSome told.old.spent.satoshis (λ satoshis. satoshis + 2 ^ 64 ≤ 2 ^ 128) }
    ensures told { (transaction : Transaction) (inputs : List TheInput) → AreTold transaction inputs told.old → OnOk result (AreTold transaction (inputs ++ input_seen input.now ∷ []) told.new) }
    ensures most { (most : ℕ) → IfSome told.old.spent.satoshis (λ satoshis. satoshis ≤ most) → OnOk result (IfSome told.new.spent.satoshis (λ satoshis. satoshis ≤ most + 0xffff_ffff_ffff_ffff)) }
{
    push_input_report(alloc, &mut told.lines, input, verifying)?;
    told.spent = told.spent.with(input.amount());
    told.id.add(alloc, input)?;
    told.are_settled = stay_settled(told.are_settled, input.state());
    Ok(())
}

/// Whether inputs are Final or Ready, with one more in this state.
fn stay_settled(are_settled: bool, state: State) -> bool
    ensures { result ≡ (are_settled && (is_final state || is_ready state)) }
{
    are_settled && is_settled(state)
}
