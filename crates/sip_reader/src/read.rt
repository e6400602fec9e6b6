//! The reading of a message.

ghost use Rattle.std.specs.Prelude.{◌≡◌, IfOk};
ghost use Rattle.sip_reader.specs.Reading.{reading, reading_as, trimmed};

use crate::act::asked_act;
use crate::checks::{is_bad_amount, is_bad_field, is_bad_flag, is_by_title, is_lacking};
use crate::fields::Fields;
use crate::kind::Command;
use crate::sum::{is_right, unsummed};
use crate::{Kind, Passed, Reading, Request, STAMP_LEN, Stamp, Why};
use std::alloc::{AllocError, Global};

/// The longest message without the end of its line, in bytes.
pub const MESSAGE_MAX: usize = 4096;

/// Reads a message as exactly one thing: the first test of the profile that it fails, or else its
/// request with its first fields. Only the ids and texts of a request take memory; the error says
/// that memory ran out.
#[tactic(auto, unfolding(crate::specs::Reading::reading_trimmed, crate::specs::Reading::reading_of))]
pub fn read_request(alloc: Global, message: &[u8]) -> Result<Reading, AllocError>
    ensures { IfOk result (λ r. r ≡ reading message.now) }
{
    let message = without_line_end(message);
    if message.len() > MESSAGE_MAX {
        return Ok(Reading::Unread(Why::TooLong));
    }
    let (body, sequence) = unsummed(message);
    if sequence.is_some() && !is_right(message) {
        return Ok(Reading::BadSum);
    }
    if body.len() < 2 {
        return Ok(Reading::Unread(Why::TooShort));
    }
    match Command::spelt(body[0], body[1]) {
        None => Ok(Reading::Unread(Why::UnknownKind)),
        Some(Command::Passed(passed)) => Ok(Reading::Passed(passed)),
        Some(Command::Request(kind)) => read_kind(alloc, sequence, kind, body),
    }
}

/// Gives the message without the CR and LF bytes at its end, and with all others.
#[tactic(auto, unfolding(crate::specs::Reading::trimmed))]
pub fn without_line_end(message: &[u8]) -> &[u8]
    ensures { result.now ≡ trimmed message.now }
{
    let mut n = message.len();
    while n > 0 && (message[n - 1] == b'\r' || message[n - 1] == b'\n') {
        n -= 1;
    }
    &message[..n]
}

/// The reading of a request of a kind: the first test that it fails, or what it asks.
#[tactic(auto, unfolding(crate::specs::Reading::reading_by))]
fn read_kind(
    alloc: Global,
    sequence: Option<u8>,
    kind: Kind,
    message: &[u8],
) -> Result<Reading, AllocError>
    ensures { IfOk result (λ r. r ≡ reading_as sequence message.now kind) }
{
    let layout = kind.layout();
    let at = 2 + layout.flags;
    let fixed = at + STAMP_LEN + layout.after;
    if message.len() < fixed {
        return Ok(Reading::Unread(Why::TooShort));
    }
    let Some(date) = Stamp::new(&message[at..at + STAMP_LEN]) else {
        return Ok(Reading::Unread(Why::BadDate));
    };
    if is_bad_flag(&layout, &message[2..at]) {
        return Ok(Reading::Unread(Why::BadFlag));
    }
    let rest = &message[fixed..];
    let mut fields = Fields::default();
    fields.note_all(rest);
    if is_bad_field(&layout, rest, &fields) {
        return Ok(Reading::Unread(Why::BadField));
    }
    if is_by_title(&layout, &fields) {
        return Ok(Reading::Passed(Passed::Title));
    }
    if is_lacking(&layout, &fields) {
        return Ok(Reading::Unread(Why::MissingField));
    }
    if is_bad_amount(&layout, &fields) {
        return Ok(Reading::Unread(Why::BadAmount));
    }
    let act = asked_act(alloc, kind, message, &fields)?;
    Ok(Reading::Asked(Request {
        sequence,
        date,
        act,
    }))
}
