//! Both tests of a timelock, as code: for the interpreter and for what a wallet holds.
ghost use Rattle.std.specs.Prelude.{◌≡◌};
ghost use Rattle.def_machine.specs.Locks.{after_holds as the_after_holds, older_holds as the_older_holds};

use crate::Locks;

impl Locks {
    /// Whether an absolute timelock holds (BIP 65). `n` is its operand: a height below 500,000,000, and a time in
    /// seconds from there on. Takes no memory, and never refuses.
    #[tactic(auto, unfolding(crate::specs::Locks::after_holds))]
    pub fn after_holds(&self, n: u64) -> bool
        ensures { result ≡ the_after_holds n self.now }
    {
        let locktime = self.locktime as u64;
        let same_kind = (n < 500_000_000 && locktime < 500_000_000)
            || (500_000_000 <= n && 500_000_000 <= locktime);
        same_kind && n <= locktime && self.sequence != 0xffff_ffff
    }

    /// Whether a relative timelock holds (BIP 68, BIP 112). `n` is its operand: bit 31 makes it void, bit 22 tells
    /// units of 512 seconds from blocks, and the lower 16 bits count them. Takes no memory, and never refuses.
    #[tactic(auto, unfolding(crate::specs::Locks::older_holds))]
    pub fn older_holds(&self, n: u64) -> bool
        ensures { result ≡ the_older_holds n self.now }
    {
        let sequence = self.sequence as u64;
        n & 0x8000_0000 != 0
            || (self.version >= 2
                && sequence & 0x8000_0000 == 0
                && n & 0x0040_0000 == sequence & 0x0040_0000
                && n & 0x0040_ffff <= sequence & 0x0040_ffff)
    }
}
