//! The form in which a PSBT goes out.

ghost use Rattle.std.specs.Prelude.{◌≡◌, IfOk};
ghost use Rattle.def_psbt_answer.specs.Report.{in_form as the_in_form};

use base64::engine::general_purpose::STANDARD;
use def_psbt_answer::Form;
use std::alloc::{AllocError, Global};

/// Room for the base64 of so many bytes and a line feed.
fn line_size(size: usize) -> usize {
    (size / 3).saturating_mul(4).saturating_add(5)
}

/// A PSBT in a form: its bytes as they are, or their base64 in one line that ends in LF. Refuses for want of memory alone.
pub fn in_form(alloc: Global, form: Form, psbt: Vec<u8>) -> Result<Vec<u8>, AllocError>
    ensures { IfOk result (λ out. out.items ≡ the_in_form form psbt.items) }
{
    match form {
        Form::Bytes => Ok(psbt),
        Form::Base64 => {
            let mut text = String::with_capacity(alloc, line_size(psbt.len()))?;
            STANDARD.encode_string(psbt.as_slice(), &mut text)?;
            text.push('\n')?;
            Ok(text.into_bytes())
        }
    }
}
