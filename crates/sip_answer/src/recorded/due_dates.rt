//! The day of a recorded due date.

ghost use Rattle.std.specs.Prelude.{◌≡◌, ◌≤◌, ◌+◌, false, length};
ghost use Rattle.std.specs.Option.{option_and_then, option_copied, option_map_or};
ghost use Rattle.sip_answer.specs.Recorded.{day_in, day_of_digits, has_slashes};

use super::fields::number_at;
use sip_reader::Day;

/// Gives the day at the front of a text, in any of the three forms; None if none is there.
#[tactic(auto, unfolding(crate::specs::Recorded::day_in))]
pub fn day_of(text: Option<&[u8]>) -> Option<Day>
    ensures { result ≡ option_and_then day_in (option_copied text.entry) }
{
    let text = text?;
    if text.len() >= 10 && text[4] == b'-' && text[7] == b'-' {
        day_of_digits(text, 0, 2, 5, 8)
    } else if are_slashes(text) {
        day_of_digits(text, 6, 8, 0, 3)
    } else if text.len() >= 8 {
        day_of_digits(text, 0, 2, 4, 6)
    } else {
        None
    }
}

/// True exactly if the text has the form with slashes.
pub fn has_slashes(text: Option<&[u8]>) -> bool
    ensures { result ≡ option_map_or has_slashes (option_copied text.entry) false }
{
    match text {
        Some(text) => are_slashes(text),
        None => false,
    }
}

/// Whether the slashes of that form are in their places.
fn are_slashes(text: &[u8]) -> bool
    ensures { result ≡ has_slashes text.now }
{
    text.len() >= 10 && text[2] == b'/' && text[5] == b'/'
}

/// The day whose century, year, month and day of the month are two digits each, from these
/// positions on.
fn day_of_digits(text: &[u8], century: usize, year: usize, month: usize, day: usize) -> Option<Day>
    requires century { century + 2 ≤ length text.now }
    requires year { year + 2 ≤ length text.now }
    requires month { month + 2 ≤ length text.now }
    requires day { day + 2 ≤ length text.now }
    ensures { result ≡ day_of_digits text.now century year month day }
{
    let year = u16::from(number_at(century, text)?) * 100 + u16::from(number_at(year, text)?);
    Day::of(year, number_at(month, text)?, number_at(day, text)?)
}
