//! Dates and times of messages.

ghost use Rattle.std.specs.Prelude.{◌≡◌, ◌<◌, ◌≤◌, ◌+◌, if◌then◌else◌, Some, None, length};
ghost use Rattle.sip_reader.specs.Days.{LAST_STAMP_DAY};
ghost use Rattle.sip_reader.specs.Dates.{day_of, given_day, has_day, has_time, is_stamp, two_at};

use crate::{Day, all_digits};
use std::marker::Model;

/// The length of a date and time in a message, in bytes.
pub const STAMP_LEN: usize = 18;

/// A date and time `YYYYMMDDZZZZHHMMSS` as a message has it, of the years 1900 to 9900.
#[derive(Clone, Copy)]
pub struct Stamp {
    bytes: [u8; STAMP_LEN],
}

impl Model for Stamp {
    ghost use Rattle.std.specs.Prelude.{ℕ, List, ◌≡◌, true};
    ghost use Rattle.sip_reader.specs.Dates.{is_stamp};

    ghost Value = { List ℕ };

    ghost view = { λ s. s.bytes };

    ghost invariant = { λ s. is_stamp s.bytes ≡ true };

    ghost inverse = { λ v. record { bytes = v } };
}

impl Stamp {
    /// Gives the date of these 18 bytes if they are a real day of 1900 to 9900 and a time, else
    /// None.
    #[tactic(auto, unfolding(crate::specs::Dates::is_stamp))]
    pub fn new(bytes: &[u8]) -> Option<Stamp>
        ensures { result ≡ (if is_stamp bytes.now then Some bytes.now else None) }
    {
        if bytes.len() != STAMP_LEN || !all_digits(&bytes[..8]) || !all_digits(&bytes[12..]) {
            return None;
        }
        if !is_written_day(bytes) || !is_time(bytes) {
            return None;
        }
        let mut copied = [0; STAMP_LEN];
        copied.copy_from_slice(bytes);
        Some(Stamp { bytes: copied })
    }

    /// Gives the day that is written in it, up to 9900; its zone isn't interpreted.
    #[tactic(auto, using(crate::proofs::Stamps::stamp_len, crate::proofs::Stamps::stamp_year, crate::proofs::Stamps::stamp_real), unfolding(crate::specs::Dates::day_of))]
    pub fn day(&self) -> Day
        ensures value { result ≡ day_of self.now }
        ensures early { result ≤ LAST_STAMP_DAY }
    {
        let s = &self.bytes;
        match Day::spelt(two(s, 0) * 100 + two(s, 2), two(s, 4), two(s, 6)) {
            Some(day) => day,
            None => unreachable!(),
        }
    }

    /// Gives the 18 bytes of which it was made.
    pub fn as_bytes(&self) -> &[u8]
        ensures { result.now ≡ self.now }
    {
        self.bytes.as_slice()
    }
}

fn is_written_day(s: &[u8]) -> bool
    requires { length s.now ≡ STAMP_LEN }
    ensures { result ≡ has_day s.now }
{
    let year = two(s, 0) * 100 + two(s, 2);
    year <= 9900 && Day::is_real(year, two(s, 4), two(s, 6))
}

fn is_time(s: &[u8]) -> bool
    requires { length s.now ≡ STAMP_LEN }
    ensures { result ≡ has_time s.now }
{
    two(s, 12) < 24 && two(s, 14) < 60 && two(s, 16) < 60
}

/// The day of bytes, where they are a date.
pub(crate) fn day_in(bytes: &[u8]) -> Option<Day>
    ensures { result ≡ given_day bytes.now }
{
    Stamp::new(bytes).map(|date| date.day())
}

/// The number that two digits spell. Each other byte counts as a digit, too, so that nothing is
/// asked of them.
fn two(s: &[u8], i: usize) -> u32
    requires { i + 1 < length s.now }
    ensures value { result ≡ two_at i s.now }
    ensures small { result < 3000 }
{
    u32::from(s[i].saturating_sub(b'0')) * 10 + u32::from(s[i + 1].saturating_sub(b'0'))
}
