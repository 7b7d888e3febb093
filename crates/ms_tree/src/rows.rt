//! The rows of the fragments, from which other crates make arms.

/// The table of fragments (BIP 379, translation table). It hands its rows to a macro of the caller's,
/// which makes arms of them: `fragment_rows!(make!(given))` is `make! { (given) leaves {..} .. }`.
///
/// A row has the variant, the name and, where it is fixed, the number of arguments. Two lists of
/// requirements follow, the second one for fragments with several children alone: those of the
/// correctness types, where there may be some, and those of the malleability properties. Of the former
/// each has the name of its rule, and what is asked of the child whose turn it is, one of these base
/// types and all of these properties, or that it has the type of the next child; a range stands by its
/// name alone. Of the latter each has the name of its rule, and asks for e of all children that it names,
/// or for s of one of them. Last come the opcodes before, between and behind what the fragment holds: a
/// leaf its argument, and the others their children, those of `andor` in the order of the Script, which is
/// X, Z, Y; of `thresh` those behind each further child and at the end, of `multi` those at the end. A
/// number among the opcodes is the push of that number; a key is pushed as it is or by its hash.
#[macro_export]
macro_rules! fragment_rows {
    ($make:ident ! ($($given:tt)*)) => {
        $make! {
            ($($given)*)
            numbers {
                [Zero "0" 0 (0)]
                [One "1" 0 (1)]
            }
            keys {
                [PkK "pk_k" 1 () key ()]
                [PkH "pk_h" 1 (Dup Hash160) hash160 (EqualVerify)]
            }
            locks {
                [Older "older" 1 ((OlderRange)) () (CheckSequenceVerify)]
                [After "after" 1 ((AfterRange)) () (CheckLockTimeVerify)]
            }
            hashes {
                [Sha256 "sha256" 1 (Size 32 EqualVerify Sha256) (Equal)]
                [Hash256 "hash256" 1 (Size 32 EqualVerify Hash256) (Equal)]
                [Ripemd160 "ripemd160" 1 (Size 32 EqualVerify Ripemd160) (Equal)]
                [Hash160 "hash160" 1 (Size 32 EqualVerify Hash160) (Equal)]
            }
            and_or {
                [AndOr "andor" 3 ((AndOrX [B] d u) (AndOrYZ same)) ((AndOrE e x) (AndOrS s x y z)) () (NotIf) (Else) (EndIf)]
            }
            pairs {
                [AndV "and_v" 2 ((AndVX [V]) (AndVY [B K V])) () () () ()]
                [AndB "and_b" 2 ((AndBX [B]) (AndBY [W])) () () () (BoolAnd)]
                [OrB "or_b" 2 ((OrBX [B] d) (OrBZ [W] d)) ((OrBE e x z) (OrBS s x z)) () () (BoolOr)]
                [OrC "or_c" 2 ((OrCX [B] d u) (OrCZ [V])) ((OrCE e x) (OrCS s x z)) () (NotIf) (EndIf)]
                [OrD "or_d" 2 ((OrDX [B] d u) (OrDZ [B])) ((OrDE e x) (OrDS s x z)) () (IfDup NotIf) (EndIf)]
                [OrI "or_i" 2 ((OrIXZ same)) ((OrIS s x z)) (If) (Else) (EndIf)]
            }
            lists {
                [Thresh "thresh" ((ThreshRange) (ThreshFirst [B] d u) (ThreshOther [W] d u)) ((ThreshE e) (ThreshS s)) (Add) (Equal)]
                [Multi "multi" ((MultiRange)) () (CheckMultiSig)]
            }
            wrappers {
                [A "a" 1 ((WrapA [B])) (ToAltStack) (FromAltStack)]
                [S "s" 1 ((WrapS [B] o)) (Swap) ()]
                [C "c" 1 ((WrapC [K])) () (CheckSig)]
                [D "d" 1 ((WrapD [V] z)) (Dup If) (EndIf)]
                [V "v" 1 ((WrapV [B])) () (Verify)]
                [J "j" 1 ((WrapJ [B] n)) (Size ZeroNotEqual If) (EndIf)]
                [N "n" 1 ((WrapN [B])) () (ZeroNotEqual)]
            }
        }
    };
}
