//! The numbers that fragments hold.
ghost use Rattle.std.specs.Prelude.{◌≡◌, ◌<◌};
ghost use Rattle.def_script.specs.Numbers.{natural_bytes};
ghost use Rattle.def_tree.specs.Range.{TEN_DIGITS};

use ms_script::{NumBytes, num_encode};

/// The bytes of a number's push.
pub fn number_bytes(number: u64) -> NumBytes
    requires { number < TEN_DIGITS }
    ensures { result ≡ natural_bytes number }
{
    num_encode(number as i64)
}
