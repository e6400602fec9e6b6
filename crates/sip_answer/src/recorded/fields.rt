//! What can be read in a recorded response.

ghost use Rattle.std.specs.Prelude.{◌≡◌, ◌≤◌, ◌<◌, ◌+◌, length, not, IfSome};
ghost use Rattle.std.specs.Option.{option_copied};
ghost use Rattle.sip_reader.specs.Bytes as byte;
ghost use Rattle.sip_reader.specs.Fields.{field, pieces, text_after};
ghost use Rattle.sip_reader.specs.Reading.{is_blank, says_yes};
ghost use Rattle.sip_answer.specs.Recorded.{count_at, fee_of, flag_of, number_at, ok_of, placed_in, valid_in};

use sip_reader::Amount;

/// Gives the yes or no that `1` or `0` says; None for any other byte.
pub fn ok_of(b: u8) -> Option<bool>
    ensures { result ≡ ok_of b }
{
    match b {
        b'1' => Some(true),
        b'0' => Some(false),
        _ => None,
    }
}

/// Gives the yes or no that `Y` or `N` says; None for any other byte.
pub fn flag_of(b: u8) -> Option<bool>
    ensures { result ≡ flag_of b }
{
    match b {
        b'Y' => Some(true),
        b'N' => Some(false),
        _ => None,
    }
}

/// Gives the number that the two digits at `i` spell; None if they aren't digits.
pub fn number_at(i: usize, m: &[u8]) -> Option<u8>
    requires { i + 2 ≤ length m.now }
    ensures value { result ≡ number_at i m.now }
    ensures small { IfSome result (λ n. n < 100) }
{
    if m[i].is_ascii_digit() && m[i + 1].is_ascii_digit() {
        Some((m[i] - b'0') * 10 + (m[i + 1] - b'0'))
    } else {
        None
    }
}

/// Gives the count that the four digits at `i` spell; None if they aren't digits.
pub fn count_at(i: usize, m: &[u8]) -> Option<usize>
    requires { i + 4 ≤ length m.now }
    ensures { result ≡ count_at i m.now }
{
    Some(usize::from(number_at(i, m)?) * 100 + usize::from(number_at(i + 2, m)?))
}

/// Gives the rest of a piece that begins with this identifier; None for any other piece.
pub fn text_of(piece: &[u8], a: u8, b: u8) -> Option<&[u8]>
    ensures { option_copied result ≡ text_after a b piece.now }
{
    if piece.len() >= 2 && piece[0] == a && piece[1] == b {
        Some(&piece[2..])
    } else {
        None
    }
}

/// Gives the first text of the due date and the first of the fee, from one pass over the pieces.
pub fn due_and_fee(rest: &[u8]) -> (Option<&[u8]>, Option<&[u8]>)
    ensures due { option_copied result.0 ≡ field byte.A byte.H (pieces rest.now) }
    ensures fee { option_copied result.1 ≡ field byte.B byte.V (pieces rest.now) }
{
    let mut due = None;
    let mut fee = None;
    for piece in rest.split(|b| *b == b'|') {
        due = due.or(text_of(piece, b'A', b'H'));
        fee = fee.or(text_of(piece, b'B', b'V'));
    }
    (due, fee)
}

/// Gives the fee that a text names, or that it names none; None if it can't be read.
pub fn fee_of(text: Option<&[u8]>) -> Option<Option<Amount>>
    ensures { result ≡ fee_of (option_copied text.entry) }
{
    match text {
        Some(text) if !text.is_empty() => Some(Some(Amount::read(text)?)),
        _ => Some(None),
    }
}

/// True exactly if the response says that the patron is valid.
#[tactic(auto, unfolding(crate::specs::Recorded::valid_in))]
pub fn valid_in(rest: &[u8]) -> bool
    ensures { result ≡ valid_in rest.now }
{
    says_yes(first_of(rest, b'B', b'L'))
}

/// True exactly if the response names the item's place.
#[tactic(auto, unfolding(crate::specs::Recorded::placed_in))]
pub fn is_placed(rest: &[u8]) -> bool
    ensures { result ≡ placed_in rest.now }
{
    has_bytes(first_of(rest, b'A', b'Q'))
}

/// The text of the first field with this identifier.
fn first_of(rest: &[u8], a: u8, b: u8) -> Option<&[u8]>
    ensures { option_copied result ≡ field a b (pieces rest.now) }
{
    let mut found = None;
    for piece in rest.split(|b| *b == b'|') {
        found = found.or(text_of(piece, a, b));
    }
    found
}

fn says_yes(text: Option<&[u8]>) -> bool
    ensures { result ≡ says_yes (option_copied text.entry) }
{
    match text {
        Some(text) => text.len() == 1 && text[0] == b'Y',
        None => false,
    }
}

fn has_bytes(text: Option<&[u8]>) -> bool
    ensures { result ≡ not (is_blank (option_copied text.entry)) }
{
    match text {
        Some(text) => !text.is_empty(),
        None => false,
    }
}
