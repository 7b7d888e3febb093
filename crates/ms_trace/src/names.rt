//! What an opcode is called, and how many elements it puts on the main stack.
ghost use Rattle.std.specs.Prelude.{◌≡◌};
ghost use Rattle.def_trace.specs.Changes.{opcode_puts as the_opcode_puts};
ghost use Rattle.def_trace.specs.Written.{op_name as the_op_name};

use ms_script::Op;

/// The name that Bitcoin Core gives an opcode.
pub fn op_name(op: Op) -> &'static str
    ensures { result.now ≡ the_op_name op }
{
    match op {
        Op::If => "OP_IF",
        Op::NotIf => "OP_NOTIF",
        Op::Else => "OP_ELSE",
        Op::EndIf => "OP_ENDIF",
        Op::Verify => "OP_VERIFY",
        Op::ToAltStack => "OP_TOALTSTACK",
        Op::FromAltStack => "OP_FROMALTSTACK",
        Op::IfDup => "OP_IFDUP",
        Op::Dup => "OP_DUP",
        Op::Swap => "OP_SWAP",
        Op::Size => "OP_SIZE",
        Op::Equal => "OP_EQUAL",
        Op::EqualVerify => "OP_EQUALVERIFY",
        Op::ZeroNotEqual => "OP_0NOTEQUAL",
        Op::Add => "OP_ADD",
        Op::BoolAnd => "OP_BOOLAND",
        Op::BoolOr => "OP_BOOLOR",
        Op::Ripemd160 => "OP_RIPEMD160",
        Op::Sha256 => "OP_SHA256",
        Op::Hash160 => "OP_HASH160",
        Op::Hash256 => "OP_HASH256",
        Op::CheckSig => "OP_CHECKSIG",
        Op::CheckSigVerify => "OP_CHECKSIGVERIFY",
        Op::CheckMultiSig => "OP_CHECKMULTISIG",
        Op::CheckMultiSigVerify => "OP_CHECKMULTISIGVERIFY",
        Op::CheckLockTimeVerify => "OP_CHECKLOCKTIMEVERIFY",
        Op::CheckSequenceVerify => "OP_CHECKSEQUENCEVERIFY",
    }
}

/// How many elements an opcode puts on the main stack, which had so many before it and has so many behind it.
pub fn opcode_puts(op: Op, before: usize, after: usize) -> usize
    ensures { result ≡ the_opcode_puts op before after }
{
    match op {
        Op::Swap => 2,
        Op::IfDup => after.saturating_sub(before),
        Op::If
        | Op::NotIf
        | Op::Else
        | Op::EndIf
        | Op::Verify
        | Op::ToAltStack
        | Op::EqualVerify
        | Op::CheckSigVerify
        | Op::CheckMultiSigVerify
        | Op::CheckLockTimeVerify
        | Op::CheckSequenceVerify => 0,
        Op::FromAltStack
        | Op::Dup
        | Op::Size
        | Op::Equal
        | Op::ZeroNotEqual
        | Op::Add
        | Op::BoolAnd
        | Op::BoolOr
        | Op::Ripemd160
        | Op::Sha256
        | Op::Hash160
        | Op::Hash256
        | Op::CheckSig
        | Op::CheckMultiSig => 1,
    }
}
