//! Days by their number.

ghost use Rattle.std.specs.Prelude.{◌≡◌, ◌↔◌, ◌≤◌, ℕ, Some, IsSome, IfSome, IsTrue, true};
ghost use Rattle.std.specs.Cmp.{partial_order_from_own_ties};
ghost use Rattle.std.specs.Cmp.Rules.{comparing};
ghost use Rattle.std.specs.Int.{IsInRange};
ghost use Rattle.std.specs.Ordering.{nat_cmp, as_partial_cmp, eq_by_cmp};
ghost use Rattle.std.proofs.Common.{rules};
ghost use Rattle.sip_reader.specs.Days.{date_of, day_at, is_real, FIRST_DAY, IsReal, IsNumberOf, LAST_DAY, LAST_STAMP_DAY};

use jiff::civil::Date;
use std::cmp::Ordering;
use std::marker::Model;

/// The number of 1 January 1900.
const FIRST_NUMBER: u32 = 4_346_020;

/// The number of 31 December 9999.
const LAST_NUMBER: u32 = 7_304_483;

/// A day from 1 January 1900 to 31 December 9999. Its number counts the days from 1 January of the
/// year -9999 on, as `jiff` does, so the number modulo 7 is the weekday, with Monday as 0.
#[derive(Clone, Copy)]
pub struct Day {
    days: u32,
}

impl Model for Day {
    ghost use Rattle.std.specs.Prelude.{ℕ};
    ghost use Rattle.std.specs.Int.{IsInRange};
    ghost use Rattle.sip_reader.specs.Days.{FIRST_DAY, LAST_DAY};

    ghost Value = { ℕ };

    ghost view = { λ d. d.days };

    ghost invariant = { λ d. IsInRange FIRST_DAY LAST_DAY d.days };

    ghost inverse = { λ n. record { days = n } };
}

impl Day {
    /// Gives the day with these parts if the calendar has it in the years 1900 to 9999, else None.
    pub fn of(year: u16, month: u8, day: u8) -> Option<Day>
        ensures value { result ≡ day_at year month day }
        ensures early { IfSome result (λ d. year ≤ 9900 → d ≤ LAST_STAMP_DAY) }
    {
        Day::spelt(u32::from(year), u32::from(month), u32::from(day))
    }

    /// The same of parts that were read from digits.
    pub(crate) fn spelt(year: u32, month: u32, day: u32) -> Option<Day>
        ensures value { result ≡ day_at year month day }
        ensures early { IfSome result (λ d. year ≤ 9900 → d ≤ LAST_STAMP_DAY) }
    {
        match number_of(year, month, day) {
            Some(days) => Some(Day { days }),
            None => None,
        }
    }

    /// Whether the calendar has the day with these parts, in the years 1900 to 9999. Most are seen
    /// at once: each month has 28 days.
    #[tactic(auto, using(crate::proofs::Real::early_real))]
    pub(crate) fn is_real(year: u32, month: u32, day: u32) -> bool
        ensures { result ≡ is_real year month day }
    {
        if day < 1 || day > 28 || month < 1 || month > 12 || year < 1900 || year > 9999 {
            return Day::spelt(year, month, day).is_some();
        }
        true
    }

    /// Gives the day with this number if it is in the years 1900 to 9999, else None.
    pub fn numbered(number: u32) -> Option<Day>
        ensures real { IsSome result ↔ IsInRange FIRST_DAY LAST_DAY number }
        ensures value { IfSome result (λ d. d ≡ number) }
    {
        if number < FIRST_NUMBER || number > LAST_NUMBER {
            return None;
        }
        Some(Day { days: number })
    }

    /// Gives the number of days by which it is counted: the day after it has the next number.
    pub fn number(self) -> u32
        ensures value { result ≡ self }
        ensures range { IsInRange FIRST_DAY LAST_DAY result }
    {
        self.days
    }

    /// Gives its year, month and day of the month: the only ones by which `of` gives this day.
    pub fn parts(self) -> (u16, u8, u8)
        ensures date { result ≡ date_of self }
        ensures value { day_at result.0 result.1 result.2 ≡ Some self }
        ensures only { (y m d : ℕ) → day_at y m d ≡ Some self
            → (result.0 ≡ y) × (result.1 ≡ m) × (result.2 ≡ d) }
    {
        let date = jiff_core::civil::Date::from_days_since_min(self.number());
        (date.year as u16, date.month, date.day)
    }
}

/// The number of the day with these parts, where the calendar has it, in the years 1900 to 9999.
fn number_of(year: u32, month: u32, day: u32) -> Option<u32>
    ensures real { IsSome result ↔ IsReal year month day }
    ensures number { IfSome result (λ n. IsNumberOf n year month day) }
    ensures range { IfSome result (λ n. IsInRange FIRST_DAY LAST_DAY n) }
    ensures early { IfSome result (λ n. year ≤ 9900 → n ≤ LAST_STAMP_DAY) }
{
    if year < 1900 || year > 9999 || month > 12 || day > 31 {
        return None;
    }
    let date = Date::new(year as i16, month as i8, day as i8).ok()?;
    Some(date.to_plain().days_since_min())
}

impl PartialEq for Day {
    ghost eq = { eq_by_cmp nat_cmp };

    ghost laws = { Prim.search (comparing, rules) };

    fn eq(&self, other: &Day) -> bool {
        self.cmp(other).is_eq()
    }
}

impl Eq for Day {
    ghost laws = { Prim.search (comparing, rules) };
}

impl Ord for Day {
    ghost cmp = { nat_cmp };

    ghost total = { Prim.search (comparing, rules) };

    ghost matches_partial_cmp = { Prim.search (comparing, rules) };

    ghost matches_eq = { Prim.search (comparing, rules) };

    fn cmp(&self, other: &Day) -> Ordering {
        self.number().cmp(&other.number())
    }
}

impl PartialOrd for Day {
    ghost partial_cmp = { as_partial_cmp nat_cmp };

    ghost laws = { partial_order_from_own_ties (Prim.search (comparing, rules)) (Prim.search (comparing, rules)) };

    fn partial_cmp(&self, other: &Day) -> Option<Ordering> {
        Some(self.cmp(other))
    }
}
