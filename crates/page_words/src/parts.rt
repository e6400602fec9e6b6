//! Texts that a mark separates.

ghost use Rattle.std.specs.Prelude.{◌<◌, length};
ghost use Rattle.std.specs.Iterator.{at_most};

/// What is before the first `mark` of a text and what is after it; without one the text and nothing.
pub fn cut(text: &[u8], mark: u8) -> (&[u8], &[u8])
    ensures { 0 < length text.now → length result.1.now < length text.now }
{
    match text.iter().position(|byte| *byte == mark) {
        Some(at) => (&text[..at], &text[at + 1..]),
        None => (text, b""),
    }
}

/// The parts of a text, between which `mark` is; after a last mark comes none.
pub fn split(text: &[u8], mark: u8) -> Parts<'_> {
    Parts { rest: text, mark }
}

/// What is left of the parts of a text.
#[derive(Drop)]
pub struct Parts<'t> {
    rest: &'t [u8],
    mark: u8,
}

impl<'t> Iterator for Parts<'t> {
    type Item = &'t [u8];

    ghost remaining = { λ s. at_most (length s.rest.now) };

    fn next(&mut self) -> Option<&'t [u8]> {
        if self.rest.is_empty() {
            return None;
        }
        let (part, rest) = cut(self.rest, self.mark);
        self.rest = rest;
        Some(part)
    }
}
