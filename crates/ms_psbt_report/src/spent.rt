//! What inputs spend together.
ghost use Rattle.std.specs.Prelude.{◌≡◌, ℕ, ◌+◌, ◌≤◌, ◌^◌, ◌&&◌, IfSome, option_map};
ghost use Rattle.def_psbt_answer.specs.Fee.{is_proved};
ghost use Rattle.ms_input.specs.Spending.{amount_seen};
ghost use Rattle.ms_psbt_report.specs.Scaffolding.Sums.{with_amount};

use ms_input::Amount;

/// What inputs spend together.
#[derive(Clone, Copy, Debug, PartialEq, Eq)]
pub struct Spent {
    /// In satoshis, where each amount is known.
    pub satoshis: Option<u128>,
    /// Whether each amount is proved.
    pub are_proved: bool,
}

impl Spent {
    /// With what one input more spends. It demands that the sum is at most 2^128 - 2^64.
    pub fn with(self, amount: Amount) -> Spent
        requires { IfSome self.satoshis (λ satoshis. satoshis + 2 ^ 64 ≤ 2 ^ 128) }
        ensures spent { result.satoshis ≡ with_amount self.satoshis (amount_seen amount) }
        ensures proved { result.are_proved ≡ (self.are_proved && is_proved (amount_seen amount)) }
        ensures most { (most : ℕ) → IfSome self.satoshis (λ satoshis. satoshis ≤ most) → IfSome result.satoshis (λ satoshis. satoshis ≤ most + 0xffff_ffff_ffff_ffff) }
    {
        match amount {
            Amount::Unknown => Spent {
                satoshis: None,
                are_proved: false,
            },
            Amount::Proved(satoshis) => self.increased(satoshis, self.are_proved),
            Amount::Claimed(satoshis) => self.increased(satoshis, false),
        }
    }

    // With an amount more.
    fn increased(self, satoshis: u64, are_proved: bool) -> Spent
        requires { IfSome self.satoshis (λ satoshis. satoshis + 2 ^ 64 ≤ 2 ^ 128) }
        ensures spent { result.satoshis ≡ option_map (λ sum. sum + satoshis) self.satoshis }
        ensures proved { result.are_proved ≡ are_proved }
        ensures most { (most : ℕ) → IfSome self.satoshis (λ satoshis. satoshis ≤ most) → IfSome result.satoshis (λ satoshis. satoshis ≤ most + 0xffff_ffff_ffff_ffff) }
    {
        let satoshis = match self.satoshis {
            Some(sum) => Some(sum + u128::from(satoshis)),
            None => None,
        };
        Spent {
            satoshis,
            are_proved,
        }
    }
}
