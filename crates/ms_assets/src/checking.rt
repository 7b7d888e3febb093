//! Why signatures with their keys are refused, wherever they were read.

ghost use Rattle.std.specs.Prelude.{◌≡◌, ◌^◌, ◌<◌, length};
ghost use Rattle.std.specs.List.{list_any};
ghost use Rattle.def_script.specs.Key.{is_key as the_is_key};
ghost use Rattle.def_files.specs.AssetFile.{is_signature};
ghost use Rattle.def_files.specs.Parts.{same_under};
ghost use Rattle.ms_assets.specs.Parts.{first_refused, Reads, repeats};

use def_files::{AssetFault, Format};
use ms_bytes::{is_key, is_signature_size};
use ms_oracle::SigPair;

/// Refuses the first key that hasn't its form. There are fewer than 2^32 pairs.
pub fn check_keys(pairs: &[SigPair]) -> Result<(), AssetFault>
    requires { length pairs.now < 2 ^ 32 }
    ensures { Reads (first_refused (λ pair. the_is_key pair.0) AssetFault.KeyForm pairs.now) (λ unit. unit) tt result }
{
    let mut place = 0;
    for pair in pairs {
        if !is_key(pair.key()) {
            return Err(AssetFault::KeyForm(place));
        }
        place += 1;
    }
    Ok(())
}

/// Refuses the first signature that hasn't its length. There are fewer than 2^32 pairs.
pub fn check_signatures(pairs: &[SigPair]) -> Result<(), AssetFault>
    requires { length pairs.now < 2 ^ 32 }
    ensures { Reads (first_refused (λ pair. is_signature pair.1) AssetFault.SigLength pairs.now) (λ unit. unit) tt result }
{
    let mut place = 0;
    for pair in pairs {
        if !is_signature_size(pair.sig().len()) {
            return Err(AssetFault::SigLength(place));
        }
        place += 1;
    }
    Ok(())
}

/// Refuses the first pair that is the same as an earlier one: in format 1 of the same key, in format 2 of the same key and the same
/// signature. There are fewer than 2^32 pairs.
pub fn check_repeats(format: Format, pairs: &[SigPair]) -> Result<(), AssetFault>
    requires { length pairs.now < 2 ^ 32 }
    ensures { Reads (repeats format AssetFault.RepeatedKey pairs.now) (λ unit. unit) tt result }
{
    for i in 0..pairs.len() {
        if holds_same(format, &pairs[..i], &pairs[i]) {
            return Err(AssetFault::RepeatedKey(i as u32));
        }
    }
    Ok(())
}

/// Whether a pair is the same as one of a table.
fn holds_same(format: Format, table: &[SigPair], pair: &SigPair) -> bool
    ensures { result ≡ list_any (same_under format pair.now) table.now }
{
    for other in table {
        if is_same(format, pair, other) {
            return true;
        }
    }
    false
}

/// Whether two pairs are the same: in format 1 those of one key, in format 2 those of one key and one signature.
fn is_same(format: Format, these: &SigPair, those: &SigPair) -> bool
    ensures { result ≡ same_under format these.now those.now }
{
    match format {
        Format::One => these.key() == those.key(),
        Format::Two => these.key() == those.key() && these.sig() == those.sig(),
    }
}
