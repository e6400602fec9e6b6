//! The ids of fees that lines of the journal make.

ghost use Rattle.std.specs.Prelude.{◌≡◌, ◌≤◌, length};
ghost use Rattle.sip_reader.specs.Amounts.{whole_len};
ghost use Rattle.circ_records.specs.MadeFees as MadeFees;

use crate::values::{decimal_of, is_decimal};

/// True exactly if a journal that begins with this number may make a fee of this id; without a line
/// it makes none.
pub fn is_taken(first: Option<u64>, id: &[u8]) -> bool
    ensures { result ≡ MadeFees.is_taken first id.now }
{
    match (first, line_of(id)) {
        (Some(first), Some(line)) => first <= line,
        _ => false,
    }
}

/// The number of the line that may make a fee of this id.
#[tactic(auto, unfolding(circ_records::specs::MadeFees::line_of))]
fn line_of(id: &[u8]) -> Option<u64>
    ensures { result ≡ MadeFees.line_of id.now }
{
    if !id.is_empty() && id[0] == b'R' {
        line_before(&id[1..])
    } else {
        None
    }
}

/// The number before a dash and a count.
#[tactic(auto, unfolding(circ_records::specs::MadeFees::line_before))]
fn line_before(text: &[u8]) -> Option<u64>
    ensures { result ≡ MadeFees.line_before text.now }
{
    let len = digits_at_front(text);
    if is_count(&text[len..]) {
        decimal_of(&text[..len])
    } else {
        None
    }
}

/// Whether a text is a dash and a number of at most 20 digits.
#[tactic(auto, unfolding(circ_records::specs::MadeFees::is_count))]
fn is_count(text: &[u8]) -> bool
    ensures { result ≡ MadeFees.is_count text.now }
{
    !text.is_empty() && text[0] == b'-' && is_decimal(&text[1..], 20)
}

/// How many digits a text begins with.
fn digits_at_front(text: &[u8]) -> usize
    ensures value { result ≡ whole_len text.now }
    ensures within { result ≤ length text.now }
{
    let mut len = 0;
    while len < text.len() && text[len].is_ascii_digit() {
        len += 1;
    }
    len
}
