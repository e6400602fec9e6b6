//! Which responses fit a request.

ghost use Rattle.std.specs.Prelude.{◌≡◌, ◌<◌, IfSome, true};
ghost use Rattle.log_pairs.specs.Fitting as Spec;

use sip_reader::{unsummed, without_line_end};

/// Whether a response may answer a request: it is of its kind, and if both have a sequence digit,
/// that is the same. A resend (96) may answer any request.
pub fn fits(request: &[u8], response: &[u8]) -> bool
    ensures { result ≡ Spec.fits_by true request.now response.now }
{
    fits_by(true, request, response)
}

/// The same; the sequence digits count only if that is said.
pub(crate) fn fits_by(digits: bool, request: &[u8], response: &[u8]) -> bool
    ensures { result ≡ Spec.fits_by digits request.now response.now }
{
    if response.starts_with(b"96") {
        return true;
    }
    let asked = unsummed(without_line_end(request)).1;
    let answered = unsummed(without_line_end(response)).1;
    (!digits || is_same_digit(asked, answered)) && is_of_kind(number(request), number(response))
}

/// Whether two messages have the same sequence digit, or one has none.
fn is_same_digit(one: Option<u8>, other: Option<u8>) -> bool
    ensures { result ≡ Spec.is_same_digit one other }
{
    match (one, other) {
        (Some(one), Some(other)) => one == other,
        _ => true,
    }
}

/// The number of a message's identifier, if it begins with two digits.
fn number(message: &[u8]) -> Option<u8>
    ensures value { result ≡ Spec.number message.now }
    ensures small { IfSome result (λ n. n < 100) }
{
    if message.len() < 2 || !message[0].is_ascii_digit() || !message[1].is_ascii_digit() {
        return None;
    }
    Some((message[0] - b'0') * 10 + (message[1] - b'0'))
}

/// Whether messages with these numbers are a request and a response to it.
fn is_of_kind(request: Option<u8>, response: Option<u8>) -> bool
    requires { IfSome request (λ n. n < 100) }
    ensures { result ≡ Spec.is_of_kind request response }
{
    match (request, response) {
        (Some(request), Some(response)) => is_answer(request, response),
        _ => false,
    }
}

/// Whether a response of a number answers requests of another.
fn is_answer(request: u8, response: u8) -> bool
    requires { request < 100 }
    ensures { result ≡ Spec.is_answer request response }
{
    match request {
        1 => response == 24,
        97 => true,
        99 => response == 98,
        _ => response == request + 1,
    }
}
