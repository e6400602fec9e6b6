//! A result table while it is written.

ghost use Rattle.std.specs.Prelude.{◌≡◌, [], None, Some, IfOk, OnOk, OnErr};
ghost use Rattle.csv_table.specs.Text.{bytes_of};

use csv_table::TableText;
use itoa::Buffer;
use journal_table::Line;
use std::alloc::{AllocError, Global};

/// A result table, and the number of rows under its header.
#[derive(Drop)]
pub struct Listing {
    pub table: TableText,
    pub rows: u64,
}

impl Listing {
    ghost use Rattle.result_report.specs.Listings.{Gains, HasRoomFor, Lists};
    ghost use Rattle.result_report.specs.Report.{row_of};

    /// Begins a table with its header alone.
    pub fn under(alloc: Global, header: &[&str]) -> Result<Listing, AllocError>
        ensures { IfOk result (Lists (bytes_of header.now) []) }
    {
        Ok(Listing {
            table: TableText::under(alloc, header)?,
            rows: 0,
        })
    }

    /// Writes the row of a line at the end: its number, its connection, and words about it, and
    /// nothing else. If memory runs out the table can no longer be finished.
    #[inline(always)]
    pub fn row(&mut self, line: &Line, words: &[u8]) -> Result<(), AllocError>
        requires { HasRoomFor self.old }
        ensures ok { OnOk result (Gains (Some (row_of line.now words.now)) self.old self.new) }
        ensures err { OnErr result (self.new.table ≡ None) }
    {
        let line = line.parts();
        let mut digits = Buffer::new();
        let number = digits.format(line.number);
        self.table
            .row(&[number.as_bytes(), line.connection, words])?;
        self.rows += 1;
        Ok(())
    }
}
