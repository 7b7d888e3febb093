//! What the reader comes to next.
use crate::children::{Children, Numeral};
use crate::part::Part;
use crate::signers::Signers;

/// What stands before what was read, so that it comes next.
#[derive(Drop)]
pub enum Want<'a, 's> {
    /// An expression that is no `and_v` and no W.
    Single,
    /// A W.
    Side,
    /// What stands before this part of a chain of `and_v`.
    After(Part<'a>),
    /// The number of `older`.
    Relative,
    /// The number of `after`.
    Absolute,
    /// What EQUAL compares with.
    Target,
    /// What stands before this push, which is compared with.
    Given(&'s [u8]),
    /// What stands before HASH160 and this push.
    Hash160Of(&'s [u8]),
    /// EQUALVERIFY, before the opcode of this hash lock and its value.
    Compared(Part<'a>),
    /// The number 32, before that.
    Sized(Part<'a>),
    /// SIZE, with which this expression begins.
    Measured(Part<'a>),
    /// A further child of a threshold or the first one, before these.
    Next(Numeral, Children<'a>),
    /// The number of keys of `multi`.
    Count,
    /// The further keys of `multi` and then its number, before these.
    Keys(Signers),
    /// What stands before IF, before this expression and ENDIF.
    IfSeen(Part<'a>),
    /// What stands before NOTIF, before this expression and ENDIF.
    NotIfSeen(Part<'a>),
}
