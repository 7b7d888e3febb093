//! Which version of the library this is.
ghost use Rattle.std.specs.Prelude.{◌≡◌};
ghost use Rattle.ms_calls.specs.Version.{number_of, MAJOR, MINOR, PATCH};

/// The version as one number: a million for each major one, a thousand for each minor one, and the patch.
pub fn version() -> u32
    ensures { result ≡ number_of MAJOR MINOR PATCH }
{
    1_000_000
}
