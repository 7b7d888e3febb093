//! Key expressions, and what those before one fix.

ghost use Rattle.std.specs.Prelude.{◌≡◌, map};
ghost use Rattle.def_descriptor.specs.ReadKey.{NOTHING_SEEN, multipath_in as the_multipath_in, seen_with as the_seen_with};
ghost use Rattle.ms_derive.specs.Nodes.{version_number};
ghost use Rattle.ms_paths.specs.Paths.{way_at};
ghost use Rattle.ms_descriptor.specs.Expressions.{seen_at, seen_with_extended, expression_at};

use ms_derive::{Extended, Version};
use ms_paths::{Origin, Way};
use ms_tree::Key;

/// A key as it stands in a descriptor.
#[derive(Drop)]
pub enum Named {
    /// A compressed key.
    Point(Key),
    /// An extended one, and the steps behind it.
    Extended(Extended, Vec<Way>),
}

/// A key expression.
#[derive(Drop)]
pub struct Expression {
    /// Its place in the descriptor's text.
    pub at: u32,
    /// Where its key comes from, if that stands there.
    pub origin: Option<Origin>,
    /// Its key.
    pub named: Named,
}

/// What the keys before have fixed.
#[derive(Clone, Copy)]
pub struct Seen {
    /// The version of extended keys.
    pub version: Option<Version>,
    /// The length of each `<..>`.
    pub length: Option<usize>,
}

impl Seen {
    /// Nothing is fixed before the first key.
    pub fn nothing() -> Seen
        ensures { seen_at result ≡ NOTHING_SEEN }
    {
        Seen {
            version: None,
            length: None,
        }
    }

    /// What is fixed behind a key expression too.
    pub fn with(self, expression: &Expression) -> Seen
        ensures { seen_at result ≡ the_seen_with (seen_at self) (expression_at expression.now) }
    {
        match &expression.named {
            Named::Point(_) => self,
            Named::Extended(key, ways) => self.with_extended(key.version, ways),
        }
    }

    /// What is fixed behind an extended key with some steps.
    fn with_extended(self, version: Version, ways: &[Way]) -> Seen
        ensures { seen_at result ≡ seen_with_extended (seen_at self) (version_number version) (map way_at ways.now) }
    {
        Seen {
            version: Some(self.version.unwrap_or(version)),
            length: match self.length {
                Some(length) => Some(length),
                None => multipath_in(ways),
            },
        }
    }
}

/// How many numbers the first `<..>` of some steps has.
fn multipath_in(ways: &[Way]) -> Option<usize>
    ensures { result ≡ the_multipath_in (map way_at ways.now) }
{
    for way in ways {
        if let Way::Branches(numbers) = way {
            return Some(numbers.len());
        }
    }
    None
}
