//! How many children there are of each kind, and how many of them can be satisfied.
ghost use Rattle.std.specs.Prelude.{◌≡◌, ◌+◌, ◌<◌, ◌≤◌, ◌⊎◌, IfSome, None};
ghost use Rattle.ms_choice.specs.Kinds.{IsFew, with_child, allows as the_allows};
ghost use Rattle.ms_choice.specs.Tally.{MOST_CHILDREN};

/// How many children there are of each kind. A free child can be satisfied and dissatisfied, a forced one
/// only satisfied, and a stuck one neither. One that can only be dissatisfied counts as none of these.
#[derive(Clone, Copy)]
pub struct KindCounts {
    /// Those that can only be satisfied.
    pub forced: u64,
    /// Those that can be neither.
    pub stuck: u64,
    /// Those that can be both.
    pub free: u64,
}

impl KindCounts {
    /// Of no children.
    pub const NONE: KindCounts = KindCounts {
        forced: 0,
        stuck: 0,
        free: 0,
    };

    /// Counts a further child in, which can be satisfied and dissatisfied as is said. There are at most 2^17.
    pub fn add(&mut self, sat: bool, dsat: bool)
        requires { IsFew self.old MOST_CHILDREN }
        ensures { self.new ≡ with_child self.old sat dsat }
    {
        match (sat, dsat) {
            (true, true) => self.free += 1,
            (true, false) => self.forced += 1,
            (false, true) => {}
            (false, false) => self.stuck += 1,
        }
    }

    /// How many free children are satisfied where `count` children are and the others are dissatisfied, or
    /// `None` where that can't be.
    pub fn wanted(&self, count: u64) -> Option<u64>
        ensures none { result ≡ None → (0 < self.now.stuck) ⊎ ((count < self.now.forced) ⊎ (self.now.forced + self.now.free < count)) }
        ensures some { IfSome result (λ m. (self.now.stuck ≡ 0) × (self.now.forced + m ≡ count) × (m ≤ self.now.free)) }
    {
        if self.stuck > 0 {
            return None;
        }
        if count < self.forced {
            return None;
        }
        let wanted = count - self.forced;
        if wanted > self.free {
            return None;
        }
        Some(wanted)
    }

    /// Whether so many of the children can be satisfied and the others dissatisfied.
    pub fn allows(&self, count: u64) -> bool
        requires { IsFew self.now (MOST_CHILDREN + 1) }
        ensures { result ≡ the_allows self.now count }
    {
        self.stuck == 0 && self.forced <= count && count <= self.forced + self.free
    }
}
