//! The values of rows.

ghost use Rattle.std.specs.Prelude.{◌≡◌, ◌≤◌, ◌+◌, ◌<◌, true, Some, IsTrue, length};
ghost use Rattle.std.specs.Char.{is_ascii_digit};
ghost use Rattle.std.specs.List.{list_all};
ghost use Rattle.sip_reader.specs.Dates.{two_at, year_at};
ghost use Rattle.sip_reader.specs.Days.{day_at};
ghost use Rattle.record_tables.specs.Values as Values;
ghost use Rattle.circ_records.specs.Texts as Texts;

use sip_reader::{Day, all_digits, number_of_digits};

/// Gives true for `Y` and false for `N`; None for any other text.
#[tactic(auto, unfolding(crate::specs::Values::flag_of))]
pub fn flag_of(text: &[u8]) -> Option<bool>
    ensures { result ≡ Values.flag_of text.now }
{
    if text == b"Y".as_slice() {
        Some(true)
    } else if text == b"N".as_slice() {
        Some(false)
    } else {
        None
    }
}

/// The number that a text is: 1 to 10 digits without leading zeros.
#[tactic(auto, unfolding(circ_records::specs::Texts::decimal_of))]
pub(crate) fn decimal_of(text: &[u8]) -> Option<u64>
    ensures { result ≡ Texts.decimal_of 10 text.now }
{
    if is_decimal(text, 10) {
        Some(number_of_digits(text))
    } else {
        None
    }
}

/// Whether a text has at least one digit and at most `most`, without leading zeros.
#[tactic(auto, unfolding(circ_records::specs::Texts::is_decimal))]
pub(crate) fn is_decimal(text: &[u8], most: usize) -> bool
    ensures value { result ≡ Texts.is_decimal most text.now }
    ensures digits { IsTrue result → list_all is_ascii_digit text.now ≡ true }
    ensures few { IsTrue result → length text.now ≤ most }
{
    !text.is_empty() && text.len() <= most && all_digits(text) && !has_leading_zero(text)
}

fn has_leading_zero(text: &[u8]) -> bool
    ensures { result ≡ Texts.has_leading_zero text.now }
{
    text.len() >= 2 && text[0] == b'0'
}

/// Gives how often a loan was renewed, 0 to 4,294,967,295 without leading zeros; None for any other
/// text.
#[tactic(auto, unfolding(crate::specs::Values::renewals_of))]
pub fn renewals_of(text: &[u8]) -> Option<u32>
    ensures { result ≡ Values.renewals_of text.now }
{
    let number = decimal_of(text)?;
    if number <= 4_294_967_295 {
        Some(number as u32)
    } else {
        None
    }
}

/// Gives the day that eight digits spell, real and in the years 1900 to 9999; None for any other
/// text.
#[tactic(auto, unfolding(crate::specs::Values::due_of))]
pub fn due_of(text: &[u8]) -> Option<Day>
    ensures { result ≡ Values.due_of text.now }
{
    if is_date(text) { day_of(text) } else { None }
}

#[tactic(auto, unfolding(crate::specs::Values::is_date))]
fn is_date(text: &[u8]) -> bool
    ensures { result ≡ Values.is_date text.now }
{
    text.len() == 8
        && are_digits(0, text)
        && are_digits(2, text)
        && are_digits(4, text)
        && are_digits(6, text)
}

#[tactic(auto, unfolding(crate::specs::Values::is_date))]
fn day_of(text: &[u8]) -> Option<Day>
    requires { Values.is_date text.now ≡ true }
    ensures { result ≡ day_at (year_at text.now) (two_at 4 text.now) (two_at 6 text.now) }
{
    let year = u16::from(two_at(0, text)) * 100 + u16::from(two_at(2, text));
    Day::of(year, two_at(4, text), two_at(6, text))
}

/// Whether there are two digits.
fn are_digits(i: usize, text: &[u8]) -> bool
    requires { i + 2 ≤ length text.now }
    ensures { result ≡ Values.are_digits i text.now }
{
    text[i].is_ascii_digit() && text[i + 1].is_ascii_digit()
}

/// The number that they spell.
fn two_at(i: usize, text: &[u8]) -> u8
    requires within { i + 2 ≤ length text.now }
    requires digits { Values.are_digits i text.now ≡ true }
    ensures value { result ≡ two_at i text.now }
    ensures small { result < 100 }
{
    (text[i] - b'0') * 10 + (text[i + 1] - b'0')
}
