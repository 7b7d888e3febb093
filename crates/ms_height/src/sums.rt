//! The greatest sum of at most so many of some numbers, which come one by one.
ghost use Rattle.std.specs.Prelude.{◌≡◌, ℕ, ◌+◌, ◌-◌, ◌<◌, ◌≤◌, ◌^◌, [], ◌∷◌, List, length};
ghost use Rattle.def_tree.specs.InRange.{MOST_MEASURE};
ghost use Rattle.ms_choice.specs.declared.slot.Slot as slot;
ghost use Rattle.ms_height.specs.Scaffolding.Chosen.{top};
ghost use Rattle.ms_height.specs.Scaffolding.Tops.{IsRising, IsCounted, IsTop};

use ms_choice::Slot;

/// The greatest sums of at most `count` of the numbers so far, and of at most one fewer: the mark that many
/// times, and what the numbers above the mark have above it. At most one fewer than `count` are above it.
#[derive(Clone, Copy)]
pub struct Top {
    /// How many numbers are summed at most.
    pub count: u64,
    /// The mark, which only rises.
    pub mark: u64,
    /// How many of the numbers are above the mark.
    pub above: u64,
    /// What these have above it together.
    pub excess: u64,
}

impl Top {
    /// Of no numbers. The slots count how often each number came.
    pub fn new(count: u64, counts: &mut [Slot]) -> Top
        ensures { IsTop result counts.new count [] }
    {
        counts.fill(Slot {
            first: 0,
            second: 0,
            third: 0,
            place: 0,
        });
        Top {
            count,
            mark: 0,
            above: 0,
            excess: 0,
        }
    }

    /// A further number, with the mark as it is.
    fn meet(&mut self, number: u64)
        requires above { self.old.above < 2 ^ 32 }
        requires excess { self.old.excess + number < 2 ^ 60 }
        ensures rising { (xs : List ℕ) → IsRising self.old xs → IsRising self.new (number ∷ xs) }
        ensures count { self.new.count ≡ self.old.count }
        ensures mark { self.new.mark ≡ self.old.mark }
    {
        if number > self.mark {
            self.above += 1;
            self.excess += number - self.mark;
        }
    }

    /// The mark, one higher.
    fn raise(&mut self, counts: &[Slot])
        requires told { (xs : List ℕ) × IsRising self.old xs × IsCounted counts.now xs }
        requires many { self.old.count - 1 < self.old.above }
        ensures rising { (xs : List ℕ) → IsRising self.old xs → IsCounted counts.now xs → IsRising self.new xs }
        ensures count { self.new.count ≡ self.old.count }
        ensures mark { self.new.mark ≡ self.old.mark + 1 }
    {
        self.mark += 1;
        self.excess -= self.above;
        self.above -= u64::from(counts[self.mark as usize].place);
    }

    /// A further number.
    pub fn add(&mut self, number: u64, counts: &mut [Slot])
        requires told { (n : ℕ) × (xs : List ℕ) × IsTop self.old counts.old n xs × (length xs < MOST_MEASURE) }
        requires inside { number < length counts.old }
        requires small { number < 2 ^ 32 }
        ensures { (n : ℕ) (xs : List ℕ) → IsTop self.old counts.old n xs → length xs < MOST_MEASURE → IsTop self.new counts.new n (number ∷ xs) }
    {
        note(counts, number);
        self.meet(number);
        while self.above > self.count.saturating_sub(1) {
            self.raise(counts);
        }
    }

    /// The sum of at most `count` numbers.
    pub fn sum(&self) -> u64
        requires told { (slots : List slot.Slot) × (n : ℕ) × (xs : List ℕ) × IsTop self.now slots n xs × (n ≤ MOST_MEASURE) }
        ensures sum { (slots : List slot.Slot) (n : ℕ) (xs : List ℕ) → IsTop self.now slots n xs → result ≡ top n xs }
        ensures low { result ≤ 2 ^ 50 }
    {
        self.count * self.mark + self.excess
    }

    /// The sum of at most one fewer.
    pub fn sum_of_fewer(&self) -> u64
        requires told { (slots : List slot.Slot) × (n : ℕ) × (xs : List ℕ) × IsTop self.now slots n xs × (n ≤ MOST_MEASURE) }
        ensures sum { (slots : List slot.Slot) (n : ℕ) (xs : List ℕ) → IsTop self.now slots n xs → result ≡ top (n - 1) xs }
        ensures low { result ≤ 2 ^ 50 }
    {
        self.count.saturating_sub(1) * self.mark + self.excess
    }
}

/// Notes a further number in the counts.
fn note(counts: &mut [Slot], number: u64)
    requires told { (xs : List ℕ) × IsCounted counts.old xs × (length xs < MOST_MEASURE) }
    requires inside { number < length counts.old }
    requires small { number < 2 ^ 32 }
    ensures counted { (xs : List ℕ) → IsCounted counts.old xs → length xs < MOST_MEASURE → IsCounted counts.new (number ∷ xs) }
{
    counts[number as usize].place += 1;
}
