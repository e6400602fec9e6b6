//! The tables of a run: their files, their headers and their rows.

use crate::stop::PageError;
use csv::ByteRecord;
use csv_table::RowReader;
use schema::{LineTable, TableName};
use std::alloc::Global;

/// All rows of a table.
pub fn rows_of(alloc: Global, table: FileRows<'_>) -> Result<Vec<ByteRecord>, PageError> {
    let mut reader = table;
    let mut rows = Vec::new(alloc);
    for _ in 0..u64::MAX {
        if !reader.push_next(alloc, &mut rows)? {
            break;
        }
    }
    Ok(rows)
}

/// The rows of a table under its header, read one at a time.
pub struct FileRows<'t> {
    reader: RowReader<'t>,
    file: &'static str,
}

impl Drop for FileRows<'_> {
    fn drop(self) {
        let FileRows { reader: _, file: _ } = self;
    }
}

impl<'t> FileRows<'t> {
    /// The rows of a table of records, which a text spells.
    pub fn of_records(
        alloc: Global,
        table: TableName,
        text: &'t [u8],
    ) -> Result<FileRows<'t>, PageError> {
        FileRows::under(alloc, table.file(), table.header(), text)
    }

    /// The rows of a table of lines, which a text spells.
    pub fn of_lines(
        alloc: Global,
        table: LineTable,
        text: &'t [u8],
    ) -> Result<FileRows<'t>, PageError> {
        FileRows::under(alloc, table.file(), table.header(), text)
    }

    fn under(
        alloc: Global,
        file: &'static str,
        header: &[&str],
        text: &'t [u8],
    ) -> Result<FileRows<'t>, PageError> {
        match RowReader::under(alloc, header, text) {
            Ok(reader) => Ok(FileRows { reader, file }),
            Err(error) => Err(PageError::of_table(error, file)),
        }
    }

    /// Adds the next row to those that were read, and returns false at the end of the table.
    fn push_next(&mut self, alloc: Global, rows: &mut Vec<ByteRecord>) -> Result<bool, PageError> {
        let mut row = ByteRecord::new(alloc);
        let found = self.next(&mut row)?;
        if found {
            rows.push(row)?;
        }
        Ok(found)
    }

    /// Reads the next row, and returns false at the end of the table.
    pub fn next(&mut self, row: &mut ByteRecord) -> Result<bool, PageError> {
        match self.reader.next(row) {
            Ok(found) => Ok(found),
            Err(error) => Err(PageError::of_table(error, self.file)),
        }
    }
}
