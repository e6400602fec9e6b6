//! Days, times and counts in words.

use crate::lists::{MONTHS, known};
use crate::wording::Wording;

/// Writes a day in words, as 28 March 2026, from a text that begins with it in one of the three forms of a due date. A text without a
/// day is written as it is, and an empty one as `no day`.
pub fn put_day(out: &mut Wording, text: &[u8]) {
    let (year, month, day) = places_of(text);
    let name = known(MONTHS, digits_at(text, month, 2));
    if text.is_empty() {
        out.add(b"no day");
    } else if name.is_empty() || text.len() < 8 {
        out.add(text);
    } else {
        out.add(without_zeros(digits_at(text, day, 2)));
        out.add(b" ");
        out.add(name);
        out.add(b" ");
        out.add(digits_at(text, year, 4));
    }
}

/// Where a text that begins with a day has its year, month and day.
fn places_of(text: &[u8]) -> (usize, usize, usize) {
    match (text.get(4), text.get(2)) {
        (Some(b'-'), _) if text.len() >= 10 => (0, 5, 8),
        (_, Some(b'/')) if text.len() >= 10 => (6, 0, 3),
        _ => (0, 4, 6),
    }
}

/// This count of characters from a place of a text on; none where it is shorter.
fn digits_at(text: &[u8], from: usize, count: usize) -> &[u8] {
    text.get(from..from.saturating_add(count)).unwrap_or(b"")
}

/// A count without the zeros before it, of which the last one stays.
pub(crate) fn without_zeros(count: &[u8]) -> &[u8] {
    match count.iter().position(|digit| *digit != b'0') {
        Some(zeros) => &count[zeros..],
        None => count.get(..1).unwrap_or(b""),
    }
}

/// Writes the time of the clock of a transaction date, as 09:05.
pub fn put_time(out: &mut Wording, date: &[u8]) {
    out.add(date.get(12..14).unwrap_or(b"--"));
    out.add(b":");
    out.add(date.get(14..16).unwrap_or(b"--"));
}

/// Writes the time of a transaction date, and its day before it where that is asked for.
pub fn put_moment(out: &mut Wording, date: &[u8], dated: bool) {
    if dated {
        put_day(out, date.get(..8).unwrap_or(b""));
        out.add(b", ");
    }
    put_time(out, date);
}
