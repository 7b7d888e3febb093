//! Why a call on a text stops, and its code.
ghost use Rattle.std.specs.Prelude.{◌≡◌};
ghost use Rattle.ms_calls.specs.Stops.{stopped};

use crate::answering::{NO_MEMORY, UNREADABLE};
use crate::reason::Reason;

/// The code where what was asked for was given.
pub const DONE: u32 = 0;

/// The code where the text is refused, as the program's own.
const TEXT_REFUSED: u32 = 2;

/// The code where the asset file is refused, as the program's own.
const FILE_REFUSED: u32 = 3;

/// The code where there is no satisfaction, as the program's own.
const NO_SATISFACTION: u32 = 4;

/// Why a call on a text doesn't give what was asked for.
#[derive(Clone, Copy, Debug, PartialEq, Eq)]
pub enum Stop {
    /// The text is refused, or there is a reason against its tree.
    TextRefused(Reason),
    /// The asset file is refused.
    FileRefused(Reason),
    /// No canonical satisfaction exists with the file's assets.
    NoSatisfaction,
    /// The text isn't UTF-8.
    Unreadable,
    /// Memory was wanting.
    Memory,
}

impl Stop {
    /// The code of a stop. Its reason takes the place of the one before.
    pub fn tell(self, reason: &mut Reason) -> u32
        ensures code { result ≡ (stopped self reason.old).0 }
        ensures reason { reason.new ≡ (stopped self reason.old).1 }
    {
        match self {
            Stop::TextRefused(why) => {
                *reason = why;
                TEXT_REFUSED
            }
            Stop::FileRefused(why) => {
                *reason = why;
                FILE_REFUSED
            }
            Stop::NoSatisfaction => NO_SATISFACTION,
            Stop::Unreadable => UNREADABLE,
            Stop::Memory => NO_MEMORY,
        }
    }
}
