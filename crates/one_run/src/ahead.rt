//! The rows of a table that are still to come, of which the next one is at hand.

ghost use Rattle.std.specs.Prelude.{◌≡◌, ◌∷◌, List, [], Some, IfOk, true, if◌then◌else◌};
ghost use Rattle.csv.specs.Records.{fields_of};
ghost use Rattle.csv_table.specs.Rows.{rows_under};
ghost use Rattle.one_run.specs.OneRun.{Row, are_of, is_of};
ghost use Rattle.schema.specs.Names.{line_header};

use crate::fits::{answers_to, passed_for, said_of};
use crate::no_run::NoRun;
use csv::ByteRecord;
use csv_table::{RowReader, column};
use schema::LineTable;
use std::alloc::Global;
use std::marker::Model;

/// The rows of a table that no line had yet: of the answers, of what was passed over, or of the report.
pub struct Ahead<'t> {
    alloc: Global,
    table: LineTable,
    rows: RowReader<'t>,
    /// The next row, where there is one.
    row: ByteRecord,
    is_there: bool,
}

impl Drop for Ahead<'_> {
    fn drop(self) {
        let Ahead {
            alloc: _,
            table: _,
            rows: _,
            row: _,
            is_there: _,
        } = self;
    }
}

impl<'t> Model for Ahead<'t> {
    ghost use Rattle.std.specs.Prelude.{◌∷◌, [], List, Option, Some, option_map, if◌then◌else◌};
    ghost use Rattle.csv.specs.Records.{fields_of};
    ghost use Rattle.one_run.specs.OneRun.{Row};

    ghost Value = { Option (List Row) };

    ghost view = { λ a. if a.is_there then option_map (λ (rest : List Row). fields_of a.row ∷ rest) a.rows.rows else Some [] };
}

impl<'t> Ahead<'t> {
    /// The rows of a table, which a text spells.
    pub fn of(alloc: Global, table: LineTable, text: &'t [u8]) -> Result<Ahead<'t>, NoRun>
        ensures { IfOk result (λ a. a ≡ rows_under (line_header table) text.now) }
    {
        let mut rows = match RowReader::under(alloc, table.header(), text) {
            Ok(rows) => rows,
            Err(error) => return Err(NoRun::of_table(error, table)),
        };
        let mut row = ByteRecord::new(alloc);
        match rows.next(&mut row) {
            Ok(is_there) => Ok(Ahead {
                alloc,
                table,
                rows,
                row,
                is_there,
            }),
            Err(error) => Err(NoRun::of_table(error, table)),
        }
    }

    /// Takes the next row where it is of this line of the journal, and says whether it was.
    pub fn take(&mut self, line: &ByteRecord) -> Result<bool, NoRun>
        ensures { IfOk result (λ b. (lines : List Row) → are_of self.old (if b then fields_of line.now ∷ lines else lines) ≡ are_of self.new lines) }
    {
        if !self.is_there || !is_row_of(&self.row, line) {
            return Ok(false);
        }
        if !self.is_said_of(line) {
            return Err(NoRun::of_line(self.alloc, column(line, 0), self.other()));
        }
        match self.rows.next(&mut self.row) {
            Ok(is_there) => {
                self.is_there = is_there;
                Ok(true)
            }
            Err(error) => Err(NoRun::of_table(error, self.table)),
        }
    }

    /// Whether the next row can be said of the line that it names.
    fn is_said_of(&self, line: &ByteRecord) -> bool {
        let what = column(&self.row, 2);
        match self.table {
            LineTable::Answers => answers_to(column(line, 2), what),
            LineTable::Report => said_of(column(line, 3), what),
            _ => passed_for(column(line, 2), what),
        }
    }

    /// What is said where the next row can't be that of its line.
    fn other(&self) -> &'static str {
        match self.table {
            LineTable::Answers => "its row of answers.csv answers another request",
            LineTable::Report => "its row of report.csv is of another response",
            _ => "its row of passed.csv is of another request",
        }
    }

    /// Nothing where no row is left.
    pub fn end(&self) -> Result<(), NoRun>
        ensures { IfOk result (λ u. are_of self.now [] ≡ true) }
    {
        if self.is_there {
            return Err(NoRun::of_line(
                self.alloc,
                column(&self.row, 0),
                match self.table {
                    LineTable::Answers =>
                        "answers.csv has it, and the journal doesn't at its place",
                    LineTable::Report => "report.csv has it, and answers.csv doesn't at its place",
                    _ => "passed.csv has it, and the journal doesn't at its place",
                },
            ));
        }
        Ok(())
    }
}

/// Whether a row is of this line of the journal: of its number and its connection.
fn is_row_of(row: &ByteRecord, line: &ByteRecord) -> bool
    ensures { result ≡ is_of (fields_of row.now) (fields_of line.now) }
{
    column(row, 0) == column(line, 0) && column(row, 1) == column(line, 1)
}
