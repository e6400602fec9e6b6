//! Why tables aren't of one run.

use csv_table::TableError;
use schema::LineTable;
use std::alloc::{AllocError, AllocFailed, Global};

/// Why a journal and the tables of an output aren't of one run.
#[derive(Drop)]
pub enum NoRun {
    /// Memory ran out.
    Memory,
    /// The file of this name isn't the table that it should be.
    Table(LineTable),
    /// What this line, as it is numbered, has against it.
    Line(String, &'static str),
}

impl From<AllocError> for NoRun {
    fn from(_error: AllocError) -> NoRun {
        NoRun::Memory
    }
}

impl<T: Drop> From<AllocFailed<T>> for NoRun {
    fn from(_error: AllocFailed<T>) -> NoRun {
        NoRun::Memory
    }
}

impl NoRun {
    /// The error of a table that can't be read.
    pub(crate) fn of_table(error: TableError, table: LineTable) -> NoRun {
        match error {
            TableError::Table => NoRun::Table(table),
            TableError::Memory => NoRun::Memory,
        }
    }

    /// The error of the line whose number is in a field.
    pub(crate) fn of_line(alloc: Global, number: &[u8], says: &'static str) -> NoRun {
        match String::from_utf8_lossy(alloc, number) {
            Ok(text) => match String::from_str(alloc, text.as_str()) {
                Ok(line) => NoRun::Line(line, says),
                Err(_) => NoRun::Memory,
            },
            Err(_) => NoRun::Memory,
        }
    }
}
