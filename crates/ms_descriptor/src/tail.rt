//! What stands behind a descriptor's body (BIP 380, "Checksum").

ghost use Rattle.std.specs.Prelude.{◌≡◌};
ghost use Rattle.def_address.specs.DescriptorSum.{descriptor_sum as the_descriptor_sum};
ghost use Rattle.def_descriptor.specs.Parts.{is_sum as the_is_sum, read_sum as the_read_sum, read_tail as the_read_tail};
ghost use Rattle.ms_paths.specs.Places.{IsPlace, tokens_at, Says};

use def_descriptor::DescriptorFault;
use ms_address::descriptor_sum;
use ms_paths::{behind_mark, token_at};

/// Whether the checksum of a text stands behind it.
fn is_sum(text: &[u8], sum: &[u8]) -> bool
    ensures { result ≡ the_is_sum (the_descriptor_sum text.now) sum.now }
{
    match descriptor_sum(text) {
        Some(own) => own.as_slice() == sum,
        None => false,
    }
}

/// The length of the text without its checksum, by the end or the `#` at a place.
fn read_sum(text: &[u8], at: usize) -> Result<usize, DescriptorFault>
    requires { IsPlace text.now at }
    ensures { Says (the_read_sum text.now (tokens_at text.now at)) (λ count. count) result }
{
    let token = token_at(text, at);
    if token.is_empty() {
        return Ok(at);
    }
    if token != b"#".as_slice() {
        return Err(DescriptorFault::Syntax(at as u32));
    }
    if !is_sum(&text[..at], &text[at + 1..]) {
        return Err(DescriptorFault::Checksum(at as u32));
    }
    Ok(at)
}

/// The same behind each `)`.
pub fn read_tail(text: &[u8], under: bool, at: usize) -> Result<usize, DescriptorFault>
    requires { IsPlace text.now at }
    ensures { Says (the_read_tail text.now under (tokens_at text.now at)) (λ count. count) result }
{
    let Some(end) = behind_mark(text, at, b')') else {
        return Err(DescriptorFault::Syntax(at as u32));
    };
    if !under {
        return read_sum(text, end);
    }
    let Some(last) = behind_mark(text, end, b')') else {
        return Err(DescriptorFault::Syntax(end as u32));
    };
    read_sum(text, last)
}
