//! Definitions of the Script interpreter: its locks, its machine, and what a run gives. The only code is both tests of
//! a timelock.
#![tactic(auto)]

pub mod examples;
pub mod laws;
mod timelocks;

/// What the input and the transaction say of timelocks: the version and the locktime of the transaction, and
/// the sequence number of the input.
#[derive(Clone, Copy, Debug, PartialEq, Eq)]
pub struct Locks {
    /// The version of the transaction (BIP 68: relative timelocks count from 2 on).
    pub version: u32,
    /// The sequence number of the input (BIP 68).
    pub sequence: u32,
    /// The locktime of the transaction: a height below 500,000,000, and a time in seconds from there on (BIP 65).
    pub locktime: u32,
}

/// Why a run is refused. The names in parentheses are those of Bitcoin Core's `ScriptError`, without `SCRIPT_ERR_`.
#[derive(Clone, Copy, Debug, PartialEq, Eq)]
pub enum ScriptFault {
    /// The script has over 10,000 bytes (`SCRIPT_SIZE`).
    ScriptSize,
    /// An element has over 520 bytes (`PUSH_SIZE`).
    ElementSize,
    /// The script ends inside an instruction (`BAD_OPCODE`).
    Truncated,
    /// A push isn't in its shortest spelling (`MINIMALDATA`).
    NonMinimalPush,
    /// A byte begins no supported instruction: one that no miniscript has (Bitcoin Core carries out more).
    Unsupported,
    /// There are over 201 opcodes, with the keys of executed multisignatures (`OP_COUNT`).
    OpCount,
    /// The main stack has too few elements (`INVALID_STACK_OPERATION`).
    StackUnderflow,
    /// The alternative stack is empty (`INVALID_ALTSTACK_OPERATION`).
    AltUnderflow,
    /// A branch is left open, or there is none to turn or to close (`UNBALANCED_CONDITIONAL`).
    Unbalanced,
    /// The operand of IF or NOTIF is neither empty nor the byte 1 (`MINIMALIF`).
    MinimalIf,
    /// The operand of a VERIFY is false (`VERIFY`).
    Verify,
    /// A number has too many bytes or isn't in its shortest spelling (Bitcoin Core: `CScriptNum`, with minimal
    /// encoding).
    NumberForm,
    /// The operand of a timelock is negative (BIP 65, BIP 112; `NEGATIVE_LOCKTIME`).
    NegativeLock,
    /// The timelock doesn't hold (BIP 65, BIP 112; `UNSATISFIED_LOCKTIME`).
    UnmetLock,
    /// A key isn't 33 bytes that begin with 2 or 3 (BIP 143; `WITNESS_PUBKEYTYPE`).
    KeyForm,
    /// A signature that fails isn't empty (BIP 146; `SIG_NULLFAIL`).
    NullFail,
    /// The extra element of a multisignature isn't empty (BIP 147; `SIG_NULLDUMMY`).
    NullDummy,
    /// A multisignature has not 0 to 20 keys (`PUBKEY_COUNT`).
    KeyCount,
    /// A multisignature asks for more signatures than it has keys, or for fewer than 0 (`SIG_COUNT`).
    SigCount,
    /// There are over 1,000 elements on both stacks together (`STACK_SIZE`).
    StackSize,
    /// Not exactly one element is left on the main stack (`CLEANSTACK`).
    CleanStack,
    /// The element that is left is false (`EVAL_FALSE`).
    EvalFalse,
}
