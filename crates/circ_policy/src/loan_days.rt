//! How long a loan lasts.

ghost use Rattle.std.specs.Prelude.{◌≡◌, ◌&&◌, nat_le, Some, None, if◌then◌else◌};
ghost use Rattle.std.specs.Int.{IsInRange};

use std::marker::Model;

/// How many days a loan lasts: 1 to 3,650.
#[derive(Clone, Copy)]
pub struct LoanDays {
    days: u16,
}

impl Model for LoanDays {
    ghost use Rattle.std.specs.Prelude.{ℕ};
    ghost use Rattle.std.specs.Int.{IsInRange};

    ghost Value = { ℕ };

    ghost view = { λ d. d.days };

    ghost invariant = { λ d. IsInRange 1 3650 d.days };

    ghost inverse = { λ n. record { days = n } };
}

impl LoanDays {
    /// Gives this number of days if it is 1 to 3,650, else None.
    pub fn new(days: u64) -> Option<LoanDays>
        ensures { result ≡ (if nat_le 1 days && nat_le days 3650 then Some days else None) }
    {
        if 1 <= days && days <= 3650 {
            Some(LoanDays { days: days as u16 })
        } else {
            None
        }
    }

    /// Gives the number of days of which it was made, 1 to 3,650.
    pub fn count(self) -> u16
        ensures value { result ≡ self }
        ensures range { IsInRange 1 3650 result }
    {
        self.days
    }
}
