//! The opcodes with the bytes that stand for them (Bitcoin Core: `opcodetype`).

/// The table of opcodes. It hands its rows, each an opcode and its byte, to a macro of the caller's, which makes arms of them:
/// `opcode_rows!(make!(given))` is `make! { (given) [If 0x63] .. }`.
macro_rules! opcode_rows {
    ($make:ident ! ($($given:tt)*)) => {
        $make! {
            ($($given)*)
            [If 0x63]
            [NotIf 0x64]
            [Else 0x67]
            [EndIf 0x68]
            [Verify 0x69]
            [ToAltStack 0x6b]
            [FromAltStack 0x6c]
            [IfDup 0x73]
            [Dup 0x76]
            [Swap 0x7c]
            [Size 0x82]
            [Equal 0x87]
            [EqualVerify 0x88]
            [ZeroNotEqual 0x92]
            [Add 0x93]
            [BoolAnd 0x9a]
            [BoolOr 0x9b]
            [Ripemd160 0xa6]
            [Sha256 0xa8]
            [Hash160 0xa9]
            [Hash256 0xaa]
            [CheckSig 0xac]
            [CheckSigVerify 0xad]
            [CheckMultiSig 0xae]
            [CheckMultiSigVerify 0xaf]
            [CheckLockTimeVerify 0xb1]
            [CheckSequenceVerify 0xb2]
        }
    };
}

pub(crate) use opcode_rows;
