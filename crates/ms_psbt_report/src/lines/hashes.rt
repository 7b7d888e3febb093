//! The lines of what signatures sign.
ghost use Rattle.std.specs.Prelude.{◌≡◌, ◌++◌, codes, decimal, OnOk};
ghost use Rattle.def_psbt_answer.specs.Lines.{sign_line, check_line};

use crate::lines::names::push_judged;
use crate::lines::pieces::{push_digits, push_hash, push_named, push_text};
use def_curve::Judgement;
use ms_input::SignedRef;
use std::alloc::AllocError;

/// Adds the line of what a signature of the asked type signs; it tells ALL from another type. `hash` is what is signed, and
/// `None` where the number is that of no type. `AllocError` comes only where memory is wanting.
pub fn push_sign_line(
    report: &mut Vec<u8>,
    type_number: u32,
    hash: Option<[u8; 32]>,
) -> Result<(), AllocError>
    ensures { OnOk result (report.new.items ≡ report.old.items ++ sign_line type_number hash) }
{
    if type_number == 1 {
        push_text(report, "sign 1 ")?;
    } else {
        push_other_type(report, type_number)?;
    }
    push_hash(report, hash)?;
    push_text(report, "\n")
}

/// Adds the front of the line of another type than ALL.
fn push_other_type(report: &mut Vec<u8>, type_number: u32) -> Result<(), AllocError>
    ensures { OnOk result (report.new.items ≡ report.old.items ++ codes "sign-other " ++ decimal type_number ++ codes " ") }
{
    push_named(report, "sign-other ", type_number as u64)?;
    push_text(report, " ")
}

/// Adds the line of what a signature that is there has to sign: its key, the signature, the hash, which is `None` where the
/// signature's last byte is no type, and how it is judged, where that is told. `AllocError` comes only where memory is wanting.
pub fn push_check_line(
    report: &mut Vec<u8>,
    pair: &SignedRef<'_>,
    hash: Option<[u8; 32]>,
    judgement: Option<Judgement>,
) -> Result<(), AllocError>
    ensures { OnOk result (report.new.items ≡ report.old.items ++ check_line pair.now hash judgement) }
{
    push_text(report, "check ")?;
    push_digits(report, pair.key().as_bytes())?;
    push_text(report, " ")?;
    push_digits(report, pair.sig())?;
    push_text(report, " ")?;
    push_hash(report, hash)?;
    push_judged(report, judgement)?;
    push_text(report, "\n")
}
