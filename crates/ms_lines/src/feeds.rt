//! Where a line ends.
ghost use Rattle.std.specs.Prelude.{MatchOption};
ghost use Rattle.ms_lines.specs.Scaffolding.Feeds.{HasNoFeed, IsFirstLine};

use memchr::memchr;

/// The bytes up to the first line feed, and those behind it, or `None` where there is none.
pub fn first_line(bytes: &[u8]) -> Option<(&[u8], &[u8])>
    ensures { MatchOption result (HasNoFeed bytes.now) (λ part. IsFirstLine bytes.now part.0.now part.1.now) }
{
    match memchr(b'\n', bytes) {
        Some(end) => Some((&bytes[..end], &bytes[end + 1..])),
        None => None,
    }
}
