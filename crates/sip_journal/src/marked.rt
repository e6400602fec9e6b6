//! The first line with a message in it, of a log that no preset fits.

use crate::judging::{has_sum, is_message};
use journal_run::LineHead;
use std::alloc::{AllocError, Global};
use std::fmt;

/// How many bytes of a line are searched.
const SEARCHED: usize = 4096;

/// A line with a message in it: its number, the message, and what is before and after that.
#[derive(Clone, Copy)]
pub struct MarkedLine<'t> {
    number: usize,
    before: &'t [u8],
    message: &'t [u8],
    after: &'t [u8],
}

impl fmt::Display for MarkedLine<'_> {
    fn fmt<W: fmt::Write>(&self, f: &mut fmt::Formatter<W>) -> fmt::Result {
        let MarkedLine { number, .. } = *self;
        let (before, after) = (LineHead(self.before), LineHead(self.after));
        let message = LineHead(self.message);
        write!(f, "{number}: {before}>>>{message}<<<{after}")
    }
}

/// The first line of a text with a message in it.
pub fn first_marked(alloc: Global, text: &[u8]) -> Result<Option<MarkedLine<'_>>, AllocError> {
    let mut number: usize = 0;
    for line in text.split(|byte| *byte == b'\n') {
        number = number.saturating_add(1);
        if let Some((from, to)) = message_in(alloc, &line[..line.len().min(SEARCHED)])? {
            return Ok(Some(MarkedLine {
                number,
                before: line.get(..from).unwrap_or(&[]),
                message: line.get(from..to).unwrap_or(&[]),
                after: line.get(to..).unwrap_or(&[]),
            }));
        }
    }
    Ok(None)
}

/// Where the first message of a line begins and ends. It begins with digits that follow neither a
/// digit nor a letter.
fn message_in(alloc: Global, line: &[u8]) -> Result<Option<(usize, usize)>, AllocError> {
    let Some(head) = head_of(line) else {
        return Ok(None);
    };
    let mut before = b' ';
    for (from, byte) in head.iter().enumerate() {
        let is_begin = byte.is_ascii_digit() && !before.is_ascii_alphanumeric();
        if is_begin && is_message(alloc, &head[from..])? {
            return Ok(Some((from, head.len())));
        }
        before = *byte;
    }
    Ok(None)
}

/// What a line has up to the end of a message: its first checksum, or else its last field.
fn head_of(line: &[u8]) -> Option<&[u8]> {
    let mut head = None;
    for (at, byte) in line.iter().enumerate() {
        let upto = &line[..at + 1];
        if has_sum(upto) {
            return Some(upto);
        }
        if *byte == b'|' {
            head = Some(upto);
        }
    }
    head
}
