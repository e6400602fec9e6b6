//! Messages as logs write them: a byte that doesn't print is written as an escape.

ghost use Rattle.std.specs.Prelude.{◌≡◌, ◌<◌, ◌≤◌, IfOk, IfSome, option_map};
ghost use Rattle.log_pairs.specs.Escapes as Spec;

use std::alloc::{AllocError, Global};

/// How a log spells bytes.
#[derive(Clone, Copy)]
pub enum Escapes {
    /// Each byte is written as it is.
    Bare,
    /// `\r`, `\n`, `\t`, `\\`, and `\x` with two hexadecimal digits; any other backslash is an ordinary byte.
    Backslash,
    /// `<CR>` and `<LF>`.
    Angle,
    /// Two hexadecimal digits for each byte, and nothing else.
    Hexadecimal,
    /// `#` with three octal digits, as rsyslog writes control characters; any other `#` is an ordinary byte.
    Octal,
}

/// The message that a text spells; None where the text is malformed.
pub fn unescaped(
    alloc: Global,
    escapes: Escapes,
    text: &[u8],
) -> Result<Option<Vec<u8>>, AllocError>
    ensures { IfOk result (λ message. option_map (λ v. v.items) message ≡ Spec.message_of escapes text.now) }
{
    let mut message = Vec::with_capacity(alloc, text.len())?;
    let mut more: usize = 0;
    for i in 0..text.len() {
        if more > 0 {
            more -= 1;
            continue;
        }
        let Some((byte, behind)) = spelled(escapes, &text[i..]) else {
            return Ok(None);
        };
        message.push(byte)?;
        more = behind;
    }
    Ok(Some(message))
}

/// The byte that is spelled at the head of a text, and how many bytes after the first its spelling has.
fn spelled(escapes: Escapes, text: &[u8]) -> Option<(u8, usize)>
    ensures { result ≡ Spec.spelled escapes text.now }
{
    match escapes {
        Escapes::Bare => bare(text),
        Escapes::Backslash => backslash(text),
        Escapes::Angle => angle(text),
        Escapes::Hexadecimal => pair(text, 0),
        Escapes::Octal => octal(text),
    }
}

fn bare(text: &[u8]) -> Option<(u8, usize)>
    ensures { result ≡ Spec.bare text.now }
{
    match text.first() {
        Some(&byte) => Some((byte, 0)),
        None => None,
    }
}

fn backslash(text: &[u8]) -> Option<(u8, usize)>
    ensures { result ≡ Spec.backslash text.now }
{
    if text.starts_with(b"\\r") {
        Some((b'\r', 1))
    } else if text.starts_with(b"\\n") {
        Some((b'\n', 1))
    } else if text.starts_with(b"\\t") {
        Some((b'\t', 1))
    } else if text.starts_with(b"\\\\") {
        Some((b'\\', 1))
    } else if text.starts_with(b"\\x") {
        match pair(text, 2) {
            Some(found) => Some(found),
            None => bare(text),
        }
    } else {
        bare(text)
    }
}

fn angle(text: &[u8]) -> Option<(u8, usize)>
    ensures { result ≡ Spec.angle text.now }
{
    if text.starts_with(b"<CR>") {
        Some((b'\r', 3))
    } else if text.starts_with(b"<LF>") {
        Some((b'\n', 3))
    } else {
        bare(text)
    }
}

fn octal(text: &[u8]) -> Option<(u8, usize)>
    ensures { result ≡ Spec.octal text.now }
{
    if text.starts_with(b"#") {
        match triple(text) {
            Some(found) => Some(found),
            None => bare(text),
        }
    } else {
        bare(text)
    }
}

/// The byte that the three octal digits after the first byte spell; None for a number above 255.
fn triple(text: &[u8]) -> Option<(u8, usize)>
    ensures { result ≡ Spec.triple text.now }
{
    let high = octal_digit(*text.get(1)?)?;
    let middle = octal_digit(*text.get(2)?)?;
    let low = octal_digit(*text.get(3)?)?;
    if high < 4 {
        Some((64 * high + 8 * middle + low, 3))
    } else {
        None
    }
}

/// The value of an octal digit.
fn octal_digit(byte: u8) -> Option<u8>
    ensures value { result ≡ Spec.octal_digit byte }
    ensures small { IfSome result (λ d. d < 8) }
{
    match byte {
        b'0'..=b'7' => Some(byte - b'0'),
        _ => None,
    }
}

/// The byte that the two hexadecimal digits at a position spell.
fn pair(text: &[u8], at: usize) -> Option<(u8, usize)>
    requires { at ≤ 2 }
    ensures { result ≡ Spec.pair text.now at }
{
    let high = digit(*text.get(at)?)?;
    let low = digit(*text.get(at + 1)?)?;
    Some((16 * high + low, at + 1))
}

/// The value of a hexadecimal digit, in either case.
fn digit(byte: u8) -> Option<u8>
    ensures value { result ≡ Spec.digit byte }
    ensures small { IfSome result (λ d. d < 16) }
{
    match byte {
        b'0'..=b'9' => Some(byte - b'0'),
        b'A'..=b'F' => Some(byte - b'A' + 10),
        b'a'..=b'f' => Some(byte - b'a' + 10),
        _ => None,
    }
}
