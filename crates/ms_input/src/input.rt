//! An input of a PSBT that was read.

ghost use Rattle.std.specs.Prelude.{◌≡◌, ◌<◌, ◌≤◌, ◌^◌, true, [], Some, None, length, slice_get, if◌then◌else◌, All, IfOk, IfSome, option_map, unwrap_or};
ghost use Rattle.def_script.specs.Witness.{weight};
ghost use Rattle.def_promises.specs.Accepted.{Unchangeable};
ghost use Rattle.def_psbt.specs.Types.{IN_FINAL_SCRIPTSIG};
ghost use Rattle.def_spend.specs.Fields.{field, signatures_in, asked_type as the_asked_type};
ghost use Rattle.def_spend.specs.Finalized.{script_sig_of, witness_of, known_script_sig as the_known_script_sig};
ghost use Rattle.def_spend.specs.Hashes.{hash_by as the_hash_by, script_in};
ghost use Rattle.def_spend.specs.Good.{assets_of};
ghost use Rattle.def_spend.specs.Input.{spends_of};
ghost use Rattle.def_spend.specs.Kinds.{kind_of, open_script_sig as the_open_script_sig, ends_in_script as the_ends_in_script};
ghost use Rattle.def_spend.specs.Reading.{HasReading, has_final};
ghost use Rattle.def_spend.specs.States.{state_of, is_ready, stack_of};
ghost use Rattle.def_spend.specs.Utxo.{utxo_of, amount_of};
ghost use Rattle.def_verify.specs.Verdict.{final_verdict as the_final_verdict};
ghost use Rattle.def_tree.specs.InRange.{IsInRange};
ghost use Rattle.def_tree.specs.Tree.{Tree as TheTree};
ghost use Rattle.ms_input.specs.Asked.{asked_plan as the_asked_plan};
ghost use Rattle.ms_input.specs.Settled.{words_in};
ghost use Rattle.ms_input.specs.Witnesses.{IsReplayed};
ghost use Rattle.ms_input.specs.Seen.{input_seen};
ghost use Rattle.ms_input.specs.Verified.{HaveAssets, IsVerifying, verification_of as the_verification_of};
ghost use Rattle.ms_sighash.specs.Shared.{shared_of, IsOutputText};
ghost use Rattle.ms_transaction.specs.Unsigned.{IsUnsigned};
ghost use Rattle.ms_tree.specs.Shape.{shape};
ghost use Rattle.ms_input.specs.Spending.{amount_seen};
ghost use Rattle.ms_input.specs.Verdicts.{verdict_seen};
ghost use Rattle.ms_input.specs.Signing.{IsAsked};

use crate::asking::asked_plan;
use crate::fields::{Fields, SignedRef, bytes_or};
use crate::finalize::{Settled, final_witness, key_witness};
use crate::utxo::{Amount, ScriptCode, spending};
use crate::verify::{ConsensusCheck, Verdict, final_verdict, input_check};
use bumpalo::Bump;
use def_curve::Judgement;
use def_spend::{Kind, State, Verification};
pub use gathering::fields_of;
use ms_oracle::Locks;
use ms_plan::Plan;
use ms_psbt::Psbt;
use ms_script::{Blob, Stack};
use ms_sighash::SharedHashes;
use ms_transaction::{InputRef, TransactionRef};
use ms_tree::Tree;
use scripts::{copied, ends_in_script, script_or_none, script_sig_by};
pub use signing::shared_hashes;
use signing::{known_amount, signed_hash};
use std::alloc::{AllocError, Global};
use std::marker::Model;
pub use verifying::Verifying;
use verifying::{asked_hash, settled_by, verification_of, words_of};

mod gathering;
mod scripts;
mod signing;
mod verifying;

/// An input of a PSBT that was read: what its map holds, its amount, the kind of its output, its Script, its state, the miniscript
/// that its Script is read as, what its signatures are where they are judged, and its satisfaction where it is Ready. Contracts see where it stands in the PSBT and the miniscript,
/// which `input_seen` makes the definition's input. The miniscript lies in an arena, and all else of the map in the bytes of the PSBT.
#[derive(Drop)]
pub struct Input<'p, 't> {
    verification: Verification,
    psbt: &'p Psbt<'p>,
    number: usize,
    input: InputRef<'p>,
    fields: Fields<'p>,
    amount: Amount,
    kind: Kind,
    script: ScriptCode<'p>,
    /// What a signature of the asked type signs, where signatures are judged, there is a Script and that is a hash type.
    asked_hash: Option<[u8; 32]>,
    settled: Settled<'t>,
}

impl<'p, 't> Model for Input<'p, 't> {
    ghost use Rattle.std.specs.Coded.{codes};
    ghost use Rattle.ms_input.specs.Spending.{code_seen};
    ghost use Rattle.ms_input.specs.Seen.{Seen, spend_at, tree_code};
    ghost use Rattle.ms_input.specs.Scaffolding.Kept.{IsRead};

    ghost Value = { Seen };

    ghost coded = { Prim.hlevel (codes, tree_code) };

    ghost view = { λ i. record { spend = spend_at i.verification i.psbt.now i.number; tree = i.settled.tree } };

    ghost invariant = { λ i. IsRead i.verification i.psbt.now i.number i.input i.fields i.amount i.kind (code_seen i.script) i.asked_hash i.settled };
}

impl<'p, 't> Input<'p, 't> {
    /// Reads the input of a PSBT with this number, from 0, where this is its transaction: gathers what its map holds, looks for the output that it spends, and
    /// reads its Script with the keys of its map. Where the good signatures count, each is judged, once, if nothing else is wrong. The
    /// miniscript is put into the arena, which serves this input alone where it is let go with it. It demands that what the maps hold are
    /// assets, as those of a source of bytes do. Refuses for want of memory alone.
    pub fn read(
        alloc: Global,
        arena: &'t Bump<Global>,
        psbt: &'p Psbt<'p>,
        transaction: &TransactionRef<'p>,
        number: usize,
        verifying: Verifying<'_>,
    ) -> Result<Input<'p, 't>, AllocError>
        requires transaction { transaction.now ≡ psbt.now.transaction }
        requires verifying { IsVerifying verifying psbt.now.transaction number }
        requires unsigned { All IsUnsigned transaction.now.inputs }
        requires number { number < length psbt.now.inputs }
        requires assets { HaveAssets psbt.now }
        ensures spend { IfOk result (λ input. slice_get (spends_of (the_verification_of verifying.entry) psbt.entry.now) number ≡ Some input.spend) }
        ensures verification { IfOk result (λ input. input.spend.verification ≡ the_verification_of verifying.entry) }
        ensures transaction { IfOk result (λ input. input.spend.transaction ≡ psbt.entry.now.transaction) }
        ensures number { IfOk result (λ input. input.spend.number ≡ number) }
        ensures fields { IfOk result (λ input. slice_get psbt.entry.now.inputs number ≡ Some input.spend.fields) }
        ensures reading { IfOk result (λ input. HasReading (input_seen input)) }
    {
        // Its clauses tell that each input has a map.
        let _count = psbt.input_count();
        let input = transaction.input(number);
        let fields = fields_of(alloc, psbt.input_map(number))?;
        let spent = spending(&input, &fields);
        let locks = Locks {
            version: transaction.version(),
            sequence: input.sequence(),
            locktime: transaction.lock_time(),
        };
        let asked_hash = asked_hash(verifying, &input, &fields, &spent);
        let settled = settled_by(alloc, arena, &fields, &spent, locks, verifying, &asked_hash)?;
        Ok(Input {
            verification: verification_of(verifying),
            psbt,
            number,
            input,
            fields,
            amount: spent.amount,
            kind: spent.kind,
            script: script_or_none(&spent.script),
            asked_hash,
            settled,
        })
    }

    /// The state. Takes no memory.
    pub fn state(&self) -> State
        ensures { result ≡ state_of (input_seen self.now) }
    {
        self.settled.state
    }

    /// Its number among the inputs, from 0. Takes no memory.
    pub fn number(&self) -> usize
        ensures { result ≡ self.now.spend.number }
    {
        self.number
    }

    /// Which of its signatures count. Takes no memory.
    pub fn verification(&self) -> Verification
        ensures { result ≡ self.now.spend.verification }
    {
        self.verification
    }

    /// What it spends, in satoshis. Takes no memory.
    pub fn amount(&self) -> Amount
        ensures { amount_seen result ≡ amount_of (utxo_of self.now.spend.input.outpoint self.now.spend.fields) }
    {
        self.amount
    }

    /// The kind of the output that it spends. Takes no memory.
    pub fn kind(&self) -> Kind
        ensures { result ≡ kind_of self.now.spend }
    {
        self.kind
    }

    /// What the transaction says of it. Takes no memory.
    pub fn outpoint(&self) -> &InputRef<'p>
        ensures { result.now ≡ self.now.spend.input }
    {
        &self.input
    }

    /// The signatures of compressed keys, in the map's order. Takes no memory.
    pub fn signatures(&self) -> &[SignedRef<'p>]
        ensures { result.now ≡ signatures_in self.now.spend.fields }
    {
        self.fields.pairs()
    }

    /// What each of these signatures is for what it signs, in the map's order, of an Unsatisfied or a Ready input of which the good ones
    /// count; none of another one. Takes no memory.
    pub fn words(&self) -> Option<&[Judgement]>
        ensures { option_map (λ w. w.now) result ≡ words_in (state_of (input_seen self.now)) self.now.spend }
    {
        words_of(&self.settled.words)
    }

    /// The number of the hash type that is asked, that of ALL where none is. Takes no memory.
    pub fn asked_type(&self) -> u32
        ensures { result ≡ the_asked_type self.now.spend.fields }
    {
        self.fields.asked_type()
    }

    /// The miniscript that its Script is read as, where there is one. Takes no memory.
    pub fn tree(&self) -> Option<&Tree<'t>>
        ensures tree { option_map (λ t. shape t.now) result ≡ (input_seen self.now).tree }
        ensures in_range { IfSome result (λ t. IsInRange (shape t.now)) }
    {
        self.settled.tree.as_ref()
    }

    /// The satisfaction of a Ready input, bottom first; none of another one. Takes no memory.
    pub fn stack(&self) -> Option<&Stack>
        ensures stack { option_map (λ s. s.now) result ≡ (if is_ready (state_of (input_seen self.now)) then Some (stack_of (input_seen self.now)) else None) }
        ensures light { IfSome result (λ s. weight s.now ≤ 2 ^ 40) }
    {
        self.settled.stack.as_ref()
    }

    /// Which keys to ask for a signature besides those that signed, and what the satisfaction weighs at most; `None` where no
    /// canonical satisfaction exists even when all keys sign. It demands that the input is Unsatisfied. Refuses for want of
    /// memory alone.
    pub fn plan(&self, alloc: Global) -> Result<Option<Plan>, AllocError>
        requires { state_of (input_seen self.now) ≡ State.Unsatisfied }
        ensures { (tree : TheTree) → (input_seen self.now).tree ≡ Some tree → IfOk result (λ found. found ≡ the_asked_plan tree (assets_of self.now.spend)) }
    {
        let (Some(tree), Some(assets)) = (&self.settled.tree, &self.settled.assets) else {
            unreachable!();
        };
        asked_plan(alloc, tree, assets)
    }

    /// The scriptSig that spends its output: empty, and of P2SH the one push of the redeem script. Refuses for want of memory alone.
    pub fn script_sig(&self, alloc: Global) -> Result<Vec<u8>, AllocError>
        ensures { IfOk result (λ script_sig. script_sig.items ≡ script_sig_of self.now.spend) }
    {
        match self.open_script_sig(alloc)? {
            Some(script_sig) => Ok(script_sig),
            None => Ok(Vec::new(alloc)),
        }
    }

    /// Its final scriptSig, where it is known: of a Final input that of its map, which is empty where there is none, and of any other
    /// the one that spends its kind of output. Refuses for want of memory alone.
    pub fn known_script_sig(&self, alloc: Global) -> Result<Option<Vec<u8>>, AllocError>
        ensures { IfOk result (λ found. option_map (λ v. v.items) found ≡ the_known_script_sig self.now.spend) }
    {
        if self.is_final() {
            Ok(Some(copied(alloc, self.final_script_sig())?))
        } else {
            self.open_script_sig(alloc)
        }
    }

    // Whether it is Final.
    fn is_final(&self) -> bool
        ensures { result ≡ has_final self.now.spend.fields }
    {
        self.fields.is_final()
    }

    // The final scriptSig of its map, or no byte.
    fn final_script_sig(&self) -> &'p [u8]
        ensures { result.now ≡ unwrap_or (field IN_FINAL_SCRIPTSIG self.now.spend.fields) [] }
    {
        bytes_or(self.fields.final_script_sig(), &[])
    }

    // The scriptSig of its kind, where that is known.
    fn open_script_sig(&self, alloc: Global) -> Result<Option<Vec<u8>>, AllocError>
        ensures { IfOk result (λ found. option_map (λ v. v.items) found ≡ the_open_script_sig self.now.spend) }
    {
        script_sig_by(alloc, self.kind, bytes_or(self.fields.redeem(), &[]))
    }

    /// The final witness: the satisfaction, and of P2WSH the witness script as its last item. It demands that the input is Ready.
    /// Refuses for want of memory alone.
    ///
    /// The interpreter accepts that of P2WSH where the signatures that count are good, whatever others are, with the transaction's locks, and
    /// nobody can change it.
    pub fn witness(&self, alloc: Global) -> Result<Blob, AllocError>
        requires { state_of (input_seen self.now) ≡ State.Ready }
        ensures witness { IfOk result (λ witness. witness ≡ witness_of (input_seen self.now)) }
        ensures accepted { IfOk result (λ witness. the_ends_in_script (kind_of self.now.spend) ≡ true → IsReplayed (assets_of self.now.spend) (script_in self.now.spend) witness) }
        ensures unchangeable { IfOk result (λ witness. (tree : TheTree) → (input_seen self.now).tree ≡ Some tree → Unchangeable tree (assets_of self.now.spend) (stack_of (input_seen self.now))) }
    {
        let settled = &self.settled;
        let (Some(tree), Some(assets), Some(stack)) = (
            &settled.tree,
            &settled.assets,
            &settled.stack,
        ) else {
            unreachable!();
        };
        if ends_in_script(self.kind) {
            final_witness(alloc, tree, self.script.as_slice(), assets, stack)
        } else {
            key_witness(alloc, tree, assets, stack)
        }
    }

    /// What a signature of the hash type with this number signs, or `None` exactly where it is none: by what all signatures of
    /// the transaction share, and the bytes of its output with the input's number, where there is one. That of the asked type isn't made
    /// again where signatures were judged. Takes no memory.
    pub fn hash_by(
        &self,
        shared: &SharedHashes,
        output: Option<&[u8]>,
        number: u32,
    ) -> Option<[u8; 32]>
        requires shared { shared.now ≡ shared_of self.now.spend.transaction }
        requires output { IsOutputText (slice_get self.now.spend.transaction.outputs self.now.spend.number) output }
        ensures { result ≡ the_hash_by number self.now.spend }
    {
        match self.kept_hash(number) {
            Some(hash) => Some(hash),
            None => self.made_hash(shared, output, number),
        }
    }

    // The hash that was made for the judgements, where it is that of the type with this number.
    fn kept_hash(&self, number: u32) -> Option<[u8; 32]>
        ensures { IfSome result (λ hash. Some hash ≡ the_hash_by number self.now.spend) }
    {
        if number == self.asked_type() {
            self.asked_hash
        } else {
            None
        }
    }

    // The hash, made anew.
    fn made_hash(
        &self,
        shared: &SharedHashes,
        output: Option<&[u8]>,
        number: u32,
    ) -> Option<[u8; 32]>
        requires shared { shared.now ≡ shared_of self.now.spend.transaction }
        requires output { IsOutputText (slice_get self.now.spend.transaction.outputs self.now.spend.number) output }
        ensures { result ≡ the_hash_by number self.now.spend }
    {
        signed_hash(
            shared,
            output,
            number,
            &self.input,
            self.script.as_slice(),
            self.amount,
        )
    }

    /// What is said of its final fields: whether what they have consensus run accepts. By what all signatures of the transaction share,
    /// and the bytes of its output with the input's number, where there is one. `AllocError` comes where memory is wanting, and where
    /// the final witness has over 2^31 items.
    pub fn final_verdict(
        &self,
        alloc: Global,
        shared: &SharedHashes,
        output: Option<&[u8]>,
    ) -> Result<Verdict<'p>, AllocError>
        requires shared { shared.now ≡ shared_of self.now.spend.transaction }
        requires output { IsOutputText (slice_get self.now.spend.transaction.outputs self.now.spend.number) output }
        ensures { IfOk result (λ verdict. verdict_seen verdict ≡ the_final_verdict self.now.spend) }
    {
        final_verdict(alloc, &self.input, &self.fields, shared, output)
    }

    /// The check of its signatures in the run of this Script. Takes no memory.
    pub fn check<'a>(
        &'a self,
        shared: &SharedHashes,
        output: Option<&[u8]>,
        script: &'a [u8],
    ) -> ConsensusCheck<'a>
        requires shared { shared.now ≡ shared_of self.now.spend.transaction }
        requires output { IsOutputText (slice_get self.now.spend.transaction.outputs self.now.spend.number) output }
        ensures asked { IsAsked self.now.spend result }
        ensures script { result.script ≡ script.entry.now }
        ensures long { length result.input ≡ 41 }
    {
        input_check(
            &self.input,
            known_amount(self.amount),
            shared,
            output,
            script,
        )
    }
}
