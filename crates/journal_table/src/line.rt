//! One line of the journal.

ghost use Rattle.std.specs.Prelude.{◌≡◌, ◌≤◌, IfOk, length};
ghost use Rattle.std.specs.Int.{IsInRange};
ghost use Rattle.csv.specs.Records.{fields_of};
ghost use Rattle.sip_reader.specs.Texts.{line_number_max};
ghost use Rattle.journal_table.specs.Journal.{Gives, line_at};
ghost use Rattle.journal_table.specs.Layout.{AreTexts, joined};
ghost use Rattle.journal_table.specs.declared.TheConstants.{CONNECTION_LIMIT};

use crate::error::{JournalError, JournalRule};
use crate::number::number_of;
use crate::row_text::RowTexts;
use crate::{CONNECTION_LIMIT, LINE_LIMIT};
use csv::ByteRecord;
use csv_table::column;
use std::alloc::{AllocError, Global};
use std::marker::Model;

/// A request, the connection that it came over, and the response that was recorded. The three texts
/// are borrowed from the journal where the row has no quotes.
pub struct Line<'t> {
    number: u64,
    texts: LineTexts<'t>,
}

impl Drop for Line<'_> {
    fn drop(self) {
        let Line {
            number: _,
            texts: _,
        } = self;
    }
}

/// The three texts of a line, with commas between, and how long the first two are. Lines are stored
/// until the run ends, and nearly all are borrowed: so there the two lengths take only five bytes.
pub(crate) enum LineTexts<'t> {
    /// In the bytes of the journal.
    Lent {
        connection_len: u8,
        request_len: u32,
        bytes: &'t [u8],
    },
    /// In memory of their own.
    Own(Box<OwnTexts>),
}

impl Drop for LineTexts<'_> {
    fn drop(self) {
        match self {
            LineTexts::Lent {
                connection_len: _,
                request_len: _,
                bytes: _,
            } => {}
            LineTexts::Own(_) => {}
        }
    }
}

/// The three texts of a line in memory of their own, and how long the first two are.
pub(crate) struct OwnTexts {
    connection_len: usize,
    request_len: usize,
    bytes: Vec<u8>,
}

impl Drop for OwnTexts {
    fn drop(self) {
        let OwnTexts {
            connection_len: _,
            request_len: _,
            bytes: _,
        } = self;
    }
}

/// What a line says.
#[derive(Clone, Copy)]
pub struct LineParts<'l> {
    /// From 1 to 9,999,999,999.
    pub number: u64,
    /// The name of the connection: 0 to 64 bytes, each of any value.
    pub connection: &'l [u8],
    /// The request, as it was received.
    pub request: &'l [u8],
    /// The response that was recorded, of any length.
    pub response: &'l [u8],
}

impl<'t> Model for Line<'t> {
    ghost use Rattle.journal_table.specs.Entry.{Entry};

    ghost Value = { Entry };

    ghost use Rattle.journal_table.specs.Layout.{IsLaidOut, entry_of};

    ghost view = { entry_of };

    ghost invariant = { IsLaidOut };
}

impl<'t> LineTexts<'t> {
    /// A copy of these texts.
    fn own(
        alloc: Global,
        connection: &[u8],
        request: &[u8],
        response: &[u8],
    ) -> Result<LineTexts<'t>, AllocError>
        ensures { IfOk result (λ texts. AreTexts texts connection.now request.now response.now) }
    {
        let own = OwnTexts {
            connection_len: connection.len(),
            request_len: request.len(),
            bytes: with_commas(alloc, connection, request, response)?,
        };
        match Box::new(alloc, own) {
            Ok(own) => Ok(LineTexts::Own(own)),
            Err(_) => Err(AllocError),
        }
    }
}

/// Three texts one after the other, with commas between.
fn with_commas(
    alloc: Global,
    connection: &[u8],
    request: &[u8],
    response: &[u8],
) -> Result<Vec<u8>, AllocError>
    ensures { IfOk result (λ bytes. bytes.items ≡ joined connection.now request.now response.now) }
{
    let length = connection
        .len()
        .saturating_add(request.len())
        .saturating_add(response.len())
        .saturating_add(2);
    let mut bytes = Vec::with_capacity(alloc, length)?;
    bytes.extend_from_slice(connection)?;
    bytes.push(b',')?;
    bytes.extend_from_slice(request)?;
    bytes.push(b',')?;
    bytes.extend_from_slice(response)?;
    Ok(bytes)
}

impl<'t> Line<'t> {
    /// Gives the number and the three texts of the line's row as they are there.
    pub fn parts(&self) -> LineParts<'_>
        ensures number { result.number ≡ self.now.number }
        ensures range { IsInRange 1 line_number_max result.number }
        ensures connection { result.connection.now ≡ self.now.connection }
        ensures short { length self.now.connection ≤ CONNECTION_LIMIT }
        ensures request { result.request.now ≡ self.now.request }
        ensures response { result.response.now ≡ self.now.response }
    {
        let (connection, request, bytes) = match &self.texts {
            LineTexts::Lent {
                connection_len,
                request_len,
                bytes,
            } => (usize::from(*connection_len), *request_len as usize, *bytes),
            LineTexts::Own(own) => (own.connection_len, own.request_len, own.bytes.as_slice()),
        };
        LineParts {
            number: self.number,
            connection: &bytes[..connection],
            request: &bytes[connection + 1..connection + 1 + request],
            response: &bytes[connection + 1 + request + 1..],
        }
    }
}

/// The line of a row after the header. Rows count from 1; `before` is the number of the line
/// before, if there is one.
pub(crate) fn read_line<'t>(
    alloc: Global,
    row: usize,
    before: Option<u64>,
    fields: &ByteRecord,
    rows: &mut RowTexts<'t>,
) -> Result<Line<'t>, JournalError>
    ensures { Gives result (line_at row before (fields_of fields.now)) }
{
    let breaks = |rule| Err(JournalError::Rule { row, rule });
    if row > LINE_LIMIT {
        return breaks(JournalRule::Lines);
    }
    let digits = column(fields, 0);
    let Some(number) = number_of(digits) else {
        return breaks(JournalRule::Number);
    };
    if before.is_some_and(|before| number.checked_sub(before) != Some(1)) {
        return breaks(JournalRule::Sequence);
    }
    let connection = column(fields, 1);
    if connection.len() > CONNECTION_LIMIT {
        return breaks(JournalRule::Connection);
    }
    let (request, response) = (column(fields, 2), column(fields, 3));
    let texts = match rows.next(digits, connection, request, response) {
        Some(texts) => texts,
        None => LineTexts::own(alloc, connection, request, response)?,
    };
    Ok(Line { number, texts })
}
