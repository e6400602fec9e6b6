//! The lines of the journal, read row by row.

ghost use Rattle.std.specs.Prelude.{◌≡◌, ◌≤◌, Ok, None, IfOk, IfErr, OnOk, IsSome, length};
ghost use Rattle.csv_table.specs.declared.TableError.TheVariants as table;
ghost use Rattle.journal_table.specs.Entry.{EndsInTime, Numbered, first_number};
ghost use Rattle.journal_table.specs.declared.TheConstants.{LINE_LIMIT};
ghost use Rattle.journal_table.specs.Journal.{Gives, journal_of, lines_of};
ghost use Rattle.journal_table.specs.Stops.{Stops};

use crate::error::JournalError;
use crate::line::{Line, read_line};
use crate::row_text::RowTexts;
use csv::ByteRecord;
use csv_table::{RowReader, TableError};
use schema::LineTable;
use std::alloc::Global;
use std::marker::Model;

/// The list of lines gets the capacity that it needs if rows have this number of bytes. Most
/// journals have longer rows, so that their lines never move.
const USUAL_ROW: usize = 128;

/// The lines of a journal, at most 1,000,000, whose numbers rise by one; the last number is at most
/// 9,999,999,999. Lines borrow from the bytes that they were read from.
pub struct Journal<'t> {
    lines: Vec<Line<'t>>,
}

impl Drop for Journal<'_> {
    fn drop(self) {
        let Journal { lines: _ } = self;
    }
}

impl<'t> Model for Journal<'t> {
    ghost use Rattle.std.specs.Prelude.{List};
    ghost use Rattle.journal_table.specs.Entry.{AreLines, Entry};

    ghost Value = { List Entry };

    ghost view = { λ j. j.lines.items };

    ghost invariant = { λ j. AreLines j.lines.items };
}

impl<'t> Journal<'t> {
    /// Reads a journal from its text, or gives exactly the first error: that the text is no table,
    /// or else the first row that breaks a rule. Memory may also run out. A line is made of each
    /// row as it is read. A broken rule is returned only after the last row was read, since a text
    /// that is no table is refused as such, whatever rule a row breaks.
    pub fn read(alloc: Global, bytes: &'t [u8]) -> Result<Journal<'t>, JournalError>
        ensures { Gives result (journal_of bytes.now) }
    {
        let mut rows = RowReader::under(alloc, LineTable::Journal.header(), bytes)?;
        match read_lines(alloc, &mut rows, bytes) {
            Ok(lines) => Ok(Journal { lines }),
            Err(JournalError::Rule { row, rule }) => {
                read_to_end(alloc, &mut rows)?;
                Err(JournalError::Rule { row, rule })
            }
            Err(e) => Err(e),
        }
    }

    /// Gives the number of the first line; None exactly if there is no line.
    pub fn first(&self) -> Option<u64>
        ensures { result ≡ first_number self.now }
    {
        self.lines.first().map(|line| line.parts().number)
    }

    /// Gives all lines in order, each numbered one more than the line before, at most 1,000,000.
    pub fn lines(&self) -> &[Line<'t>]
        ensures lines { result.now ≡ self.now }
        ensures numbered { Numbered self.now }
        ensures few { length self.now ≤ LINE_LIMIT }
        ensures within { EndsInTime self.now }
    {
        &self.lines
    }
}

/// The lines of all rows, or the first rule that a row breaks; the rows after that row aren't read
/// yet.
fn read_lines<'t>(
    alloc: Global,
    rows: &mut RowReader,
    bytes: &'t [u8],
) -> Result<Vec<Line<'t>>, JournalError>
    ensures ok { IfOk result (λ lines. lines_of rows.old.rows ≡ Ok lines.items) }
    ensures err { IfErr result (λ e. Stops e rows.old.rows rows.new.rows) }
{
    let mut lines = Vec::with_capacity(alloc, bytes.len() / USUAL_ROW)?;
    let mut before = None;
    let mut texts = RowTexts { bytes, before: 0 };
    let mut row = ByteRecord::new(alloc);
    while rows.next(&mut row)? {
        let line = read_line(alloc, lines.len() + 1, before, &row, &mut texts)?;
        before = Some(line.parts().number);
        lines.push(line)?;
    }
    Ok(lines)
}

/// Reads the other rows, to the end of the text or to an error: the text may still be no table.
fn read_to_end(alloc: Global, rows: &mut RowReader) -> Result<(), TableError>
    ensures ok { OnOk result (IsSome rows.old.rows) }
    ensures table { IfErr result (λ e. e ≡ table.Table → rows.old.rows ≡ None) }
{
    let mut row = ByteRecord::new(alloc);
    while rows.next(&mut row)? {}
    Ok(())
}
