//! Messages that are odd: what a log damaged, or what is no message and was taken for one.

ghost use Rattle.std.specs.Prelude.{◌≡◌, ◌≤◌, IfOk, length};
ghost use Rattle.log_pairs.specs.Odd as Spec;

use sip_reader::{Reading, read_request, unsummed, without_line_end};
use std::alloc::{AllocError, Global};

/// Whether a message is a request or a response.
#[derive(Clone, Copy)]
pub enum Direction {
    Request,
    Response,
}

/// What is odd about a message.
#[derive(Clone, Copy)]
pub enum Odd {
    /// Its first two bytes are no identifier of a request (or response).
    UnknownIdentifier,
    /// Its error detection is wrong, or isn't at its end.
    WrongSum,
    /// It is a request without error detection. That is odd only where most requests have some.
    NoSum,
}

/// What is odd about a message, if anything is.
pub fn odd_of(alloc: Global, side: Direction, message: &[u8]) -> Result<Option<Odd>, AllocError>
    ensures { IfOk result (λ odd. odd ≡ Spec.odd_of side message.now) }
{
    if !has_identifier(side, message) {
        return Ok(Some(Odd::UnknownIdentifier));
    }
    let has_bad_sum = is_bad_sum(&read_request(alloc, message)?);
    let trimmed = without_line_end(message);
    if has_bad_sum || has_sum_inside(trimmed) {
        Ok(Some(Odd::WrongSum))
    } else if lacks_sum(side, trimmed) {
        Ok(Some(Odd::NoSum))
    } else {
        Ok(None)
    }
}

/// Whether a message begins with an identifier of a request (or response).
fn has_identifier(side: Direction, message: &[u8]) -> bool
    ensures { result ≡ Spec.has_identifier side message.now }
{
    message.len() >= 2 && is_identifier_at(side, message[0], message[1])
}

fn is_bad_sum(reading: &Reading) -> bool
    ensures { result ≡ Spec.is_bad_sum reading.now }
{
    match reading {
        Reading::BadSum => true,
        _ => false,
    }
}

/// Whether two bytes are the identifier of a request (or response).
fn is_identifier_at(side: Direction, a: u8, b: u8) -> bool
    ensures { result ≡ Spec.is_identifier_at side a b }
{
    a.is_ascii_digit() && b.is_ascii_digit() && is_identifier(side, (a - b'0') * 10 + (b - b'0'))
}

fn is_identifier(side: Direction, number: u8) -> bool
    ensures { result ≡ Spec.is_identifier side number }
{
    match side {
        Direction::Request => is_request(number),
        Direction::Response => is_response(number),
    }
}

fn is_request(number: u8) -> bool
    ensures { result ≡ Spec.is_request number }
{
    match number {
        1 | 9 | 11 | 15 | 17 | 19 | 23 | 25 | 29 | 35 | 37 | 63 | 65 | 93 | 97 | 99 => true,
        _ => false,
    }
}

fn is_response(number: u8) -> bool
    ensures { result ≡ Spec.is_response number }
{
    match number {
        10 | 12 | 16 | 18 | 20 | 24 | 26 | 30 | 36 | 38 | 64 | 66 | 94 | 96 | 98 => true,
        _ => false,
    }
}

/// Whether a message has error detection before its end.
fn has_sum_inside(message: &[u8]) -> bool
    ensures { result ≡ Spec.has_sum_inside message.now }
{
    for end in 0..message.len() {
        if unsummed(&message[..end]).1.is_some() {
            return true;
        }
    }
    false
}

/// Whether a message is a request without error detection; a request for a resend (97) has none, and doesn't count.
fn lacks_sum(side: Direction, message: &[u8]) -> bool
    ensures { result ≡ Spec.lacks_sum side message.now }
{
    match side {
        Direction::Request => unsummed(message).1.is_none() && !message.starts_with(b"97"),
        Direction::Response => false,
    }
}

/// Whether a message lacks its end: it has fields, but ends neither in a field's end nor in error detection.
pub fn lacks_end(message: &[u8]) -> bool
    ensures { result ≡ Spec.lacks_end message.now }
{
    let trimmed = without_line_end(message);
    !is_without_fields(message) && !trimmed.ends_with(b"|") && unsummed(trimmed).1.is_none()
}

/// Whether a message is of a kind that has no fields of variable length.
fn is_without_fields(message: &[u8]) -> bool
    ensures { result ≡ Spec.is_without_fields message.now }
{
    message.starts_with(b"94")
        || message.starts_with(b"96")
        || message.starts_with(b"97")
        || message.starts_with(b"99")
}
