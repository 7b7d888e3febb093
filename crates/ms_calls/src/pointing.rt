//! The point of a key, in a buffer.
ghost use Rattle.std.specs.Prelude.{◌≡◌};
ghost use Rattle.def_curve.specs.Encoding.{point_bytes};
ghost use Rattle.ms_calls.specs.Curve.{point_code, point_after, point_needed_after};

use crate::copying::write_over;
use crate::stopping::DONE;

/// The answer where the key has no point.
const NO_POINT: u32 = 12;

/// The point of a key of 33 bytes (SEC 1, 2.3.4), as 65 bytes: 04, x and y (SEC 1, 2.3.3). Its beginning is written over the buffer's, as
/// far as there is room, and `needed` is how many bytes it has. The answer is 0, or 12 where the key has no point; then the buffer
/// and `needed` are as they were.
pub fn point(key: &[u8], point: &mut [u8], needed: &mut usize) -> u32
    ensures code { result ≡ point_code (point_bytes key.now) }
    ensures point { point.new ≡ point_after point.old (point_bytes key.now) }
    ensures needed { needed.new ≡ point_needed_after needed.old (point_bytes key.now) }
{
    match ms_judge::point::point(key) {
        Some(bytes) => {
            *needed = bytes.len();
            let _count = write_over(&bytes, point);
            DONE
        }
        None => NO_POINT,
    }
}
