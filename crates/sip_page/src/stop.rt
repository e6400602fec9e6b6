//! Why no page can be made of the texts of a run.

use csv_table::TableError;
use one_run::NoRun;
use page_run::NoPage;
use std::alloc::{AllocError, AllocFailed, Global};

/// Why there is no page.
#[derive(Drop)]
pub enum PageError {
    /// Memory ran out.
    Memory,
    /// The file of this name isn't the table that it should be.
    Table(&'static str),
    /// The tables aren't of one run: a line, as it is numbered, and what it has against that.
    Line(String, &'static str),
    /// The base and the output aren't of one run: the file of this name has other rows of this id in each.
    Row(&'static str, String),
}

impl From<AllocError> for PageError {
    fn from(_error: AllocError) -> PageError {
        PageError::Memory
    }
}

impl<T: Drop> From<AllocFailed<T>> for PageError {
    fn from(_error: AllocFailed<T>) -> PageError {
        PageError::Memory
    }
}

impl From<NoRun> for PageError {
    fn from(error: NoRun) -> PageError {
        match error {
            NoRun::Memory => PageError::Memory,
            NoRun::Table(table) => PageError::Table(table.file()),
            NoRun::Line(line, says) => PageError::Line(line, says),
        }
    }
}

impl PageError {
    /// The error of an unreadable table.
    pub fn of_table(error: TableError, file: &'static str) -> PageError {
        match error {
            TableError::Table => PageError::Table(file),
            TableError::Memory => PageError::Memory,
        }
    }

    /// The error of a row that differs between the base and the output.
    pub fn of_row(alloc: Global, file: &'static str, id: &[u8]) -> PageError {
        let Ok(id) = String::from_utf8_lossy(alloc, id) else {
            return PageError::Memory;
        };
        match String::from_str(alloc, id.as_str()) {
            Ok(id) => PageError::Row(file, id),
            Err(_) => PageError::Memory,
        }
    }

    /// The same with the text that is printed.
    pub fn told(&self, alloc: Global) -> NoPage {
        let text = match self {
            PageError::Memory => return NoPage::Memory,
            PageError::Table(file) => {
                format!(in alloc; "error: no such table, or not of this run: {file}\n")
            }
            PageError::Line(line, says) => {
                format!(in alloc; "error: not of one run: line {line}: {says}\n")
            }
            PageError::Row(file, id) => format!(in alloc;
                "error: not of one run: {file} of the base and of the output: the rows of {id} differ\n"
            ),
        };
        match text {
            Ok(text) => NoPage::Refused(text),
            Err(_) => NoPage::Memory,
        }
    }
}
