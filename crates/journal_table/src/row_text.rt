//! Where the rows of a journal are in its bytes.

ghost use Rattle.std.specs.Prelude.{◌≡◌, IfSome};
ghost use Rattle.journal_table.specs.Layout.{AreTexts};

use crate::line::LineTexts;

/// The bytes of a journal, and a position in the line before the next row. Most rows are in these
/// bytes just as their fields are, with commas between; a row with a field in quotes isn't.
pub(crate) struct RowTexts<'t> {
    pub(crate) bytes: &'t [u8],
    pub(crate) before: usize,
}

impl Drop for RowTexts<'_> {
    fn drop(self) {
        let RowTexts {
            bytes: _,
            before: _,
        } = self;
    }
}

impl<'t> RowTexts<'t> {
    /// The texts of the next row, where the bytes after the first LF have these fields with commas
    /// between and the lengths of the texts fit; None if not. The row after it will be looked
    /// for after the end of its line.
    pub(crate) fn next(
        &mut self,
        number: &[u8],
        connection: &[u8],
        request: &[u8],
        response: &[u8],
    ) -> Option<LineTexts<'t>>
        ensures { IfSome result (λ texts. AreTexts texts connection.now request.now response.now) }
    {
        let ahead = self.bytes.get(self.before..)?;
        let line = ahead.iter().position(|byte| *byte == b'\n');
        let begin = self
            .before
            .saturating_add(line.unwrap_or(ahead.len()))
            .saturating_add(number.len())
            .saturating_add(2);
        let end = begin
            .saturating_add(connection.len())
            .saturating_add(request.len())
            .saturating_add(response.len())
            .saturating_add(2);
        self.before = end;
        let text = self.bytes.get(begin..end)?;
        let rest = text.strip_prefix(connection)?;
        let rest = rest.strip_prefix(b",")?;
        let rest = rest.strip_prefix(request)?;
        let rest = rest.strip_prefix(b",")?;
        if rest != response {
            return None;
        }
        let (Ok(connection_len), Ok(request_len)) = (
            u8::try_from(connection.len()),
            u32::try_from(request.len()),
        ) else {
            return None;
        };
        Some(LineTexts::Lent {
            connection_len,
            request_len,
            bytes: text,
        })
    }
}
