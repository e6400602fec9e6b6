//! What `sip_why` says of the wrong responses of a run.

use crate::files::{FileRows, rows_of};
use crate::reading::{LineRows, number_of};
use crate::stop::PageError;
use csv::ByteRecord;
use csv_table::column;
use page_words::{CaseNames, Origin, Wording, because_of, cut};
use schema::LineTable;
use std::alloc::{AllocError, Global};
use std::collections::BTreeMap;

/// The rows of `why.csv` by wrong line.
pub struct Whys {
    alloc: Global,
    rows: BTreeMap<u64, Vec<ByteRecord>>,
}

impl Drop for Whys {
    fn drop(self) {
        let Whys { alloc: _, rows: _ } = self;
    }
}

/// The rows of a table of reasons, of a run by the rules or of one as recorded.
fn reasons<'t>(alloc: Global, text: &'t [u8]) -> Result<FileRows<'t>, PageError> {
    match FileRows::of_lines(alloc, LineTable::Why, text) {
        Ok(rows) => Ok(rows),
        Err(_) => FileRows::of_lines(alloc, LineTable::WhyAsRecorded, text),
    }
}

impl Whys {
    /// No reasons.
    pub fn none(alloc: Global) -> Whys {
        Whys {
            alloc,
            rows: BTreeMap::new(alloc),
        }
    }

    /// Takes in what a text says of the lines of a report.
    pub fn read(&mut self, text: &[u8], report: &[u8]) -> Result<(), PageError> {
        self.want(report)?;
        for row in &rows_of(self.alloc, reasons(self.alloc, text)?)? {
            self.take(row)?;
        }
        Ok(())
    }

    /// Adds each line of a report.
    fn want(&mut self, report: &[u8]) -> Result<(), PageError> {
        for row in &rows_of(
            self.alloc,
            FileRows::of_lines(self.alloc, LineTable::Report, report)?,
        )? {
            if let Some(number) = number_of(column(row, 0)) {
                self.rows.insert(number, Vec::new(self.alloc))?;
            }
        }
        Ok(())
    }

    /// Takes in a row, where it is of a wanted line.
    fn take(&mut self, row: &ByteRecord) -> Result<(), PageError> {
        let Some(number) = number_of(column(row, 0)) else {
            return Err(PageError::Table(LineTable::Why.file()));
        };
        if let Some(rows) = self.rows.get_mut(&number) {
            rows.push(row.clone()?)?;
        }
        Ok(())
    }

    /// The reason of a line's answer; nothing where none is known.
    pub fn reason_of(&self, number: u64) -> &[u8] {
        match self.rows.get(&number) {
            Some(rows) if !rows.is_empty() => column(&rows[0], 1),
            _ => b"",
        }
    }

    /// Writes a colon and why the response to a line was wrong, where that is known.
    pub fn put(
        &self,
        out: &mut Wording,
        line: &LineRows,
        names: &CaseNames,
    ) -> Result<(), AllocError> {
        let Some(rows) = self.rows.get(&line.number) else {
            return Ok(());
        };
        let origins = origins_of(self.alloc, rows)?;
        let (word, _) = cut(line.words(), b' ');
        let Some(because) = because_of(word, self.reason_of(line.number), &origins) else {
            return Ok(());
        };
        out.add(b": ");
        because.put(out, names);
        Ok(())
    }
}

/// The records that these rows are about.
fn origins_of(alloc: Global, rows: &[ByteRecord]) -> Result<Vec<Origin<'_>>, AllocError> {
    let mut origins = Vec::new(alloc);
    for row in rows {
        origins.push(Origin {
            kind: column(row, 2),
            id: column(row, 3),
            said: column(row, 5),
            since: column(row, 4),
        })?;
    }
    Ok(origins)
}
