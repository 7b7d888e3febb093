//! Definitions of Script: its opcodes, its instructions, and how they are spelled as bytes.
#![tactic(auto)]

pub mod examples;
pub mod laws;

use thiserror::Error;

/// An opcode that Miniscript in P2WSH outputs uses and that isn't a push, by Bitcoin Core's names (`opcodetype`).
#[derive(Clone, Copy, Debug, PartialEq, Eq)]
pub enum Op {
    /// `OP_IF`, the byte `63`.
    If,
    /// `OP_NOTIF`, the byte `64`.
    NotIf,
    /// `OP_ELSE`, the byte `67`.
    Else,
    /// `OP_ENDIF`, the byte `68`.
    EndIf,
    /// `OP_VERIFY`, the byte `69`.
    Verify,
    /// `OP_TOALTSTACK`, the byte `6b`.
    ToAltStack,
    /// `OP_FROMALTSTACK`, the byte `6c`.
    FromAltStack,
    /// `OP_IFDUP`, the byte `73`.
    IfDup,
    /// `OP_DUP`, the byte `76`.
    Dup,
    /// `OP_SWAP`, the byte `7c`.
    Swap,
    /// `OP_SIZE`, the byte `82`.
    Size,
    /// `OP_EQUAL`, the byte `87`.
    Equal,
    /// `OP_EQUALVERIFY`, the byte `88`.
    EqualVerify,
    /// `OP_0NOTEQUAL`, the byte `92`.
    ZeroNotEqual,
    /// `OP_ADD`, the byte `93`.
    Add,
    /// `OP_BOOLAND`, the byte `9a`.
    BoolAnd,
    /// `OP_BOOLOR`, the byte `9b`.
    BoolOr,
    /// `OP_RIPEMD160`, the byte `a6`.
    Ripemd160,
    /// `OP_SHA256`, the byte `a8`.
    Sha256,
    /// `OP_HASH160`, the byte `a9`.
    Hash160,
    /// `OP_HASH256`, the byte `aa`.
    Hash256,
    /// `OP_CHECKSIG`, the byte `ac`.
    CheckSig,
    /// `OP_CHECKSIGVERIFY`, the byte `ad`.
    CheckSigVerify,
    /// `OP_CHECKMULTISIG`, the byte `ae`.
    CheckMultiSig,
    /// `OP_CHECKMULTISIGVERIFY`, the byte `af`.
    CheckMultiSigVerify,
    /// `OP_CHECKLOCKTIMEVERIFY` (BIP 65), the byte `b1`.
    CheckLockTimeVerify,
    /// `OP_CHECKSEQUENCEVERIFY` (BIP 112), the byte `b2`.
    CheckSequenceVerify,
}

/// Why an instruction can't be read from the bytes of a Script.
#[derive(Clone, Copy, Debug, PartialEq, Eq, Error)]
pub enum InstrFault {
    /// The bytes end inside the instruction.
    #[error("the script ends inside an instruction")]
    Truncated,
    /// The byte begins no instruction that Miniscript outputs use.
    #[error("the byte begins no supported instruction")]
    Unsupported,
}

/// Why bytes are no Script number.
#[derive(Clone, Copy, Debug, PartialEq, Eq, Error)]
pub enum NumFault {
    /// There are more bytes than the operation takes.
    #[error("the number has too many bytes")]
    TooLong,
    /// A shorter spelling stands for the same number.
    #[error("the number isn't in its shortest spelling")]
    NotMinimal,
}

/// Why bytes begin with no CompactSize.
#[derive(Clone, Copy, Debug, PartialEq, Eq, Error)]
pub enum SizeFault {
    /// The bytes end inside the size.
    #[error("the bytes end inside a size")]
    Truncated,
    /// A shorter spelling stands for the same size.
    #[error("the size isn't in its shortest spelling")]
    NotShortest,
}
