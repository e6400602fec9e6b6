//! What ends a run before its last line is written, and the status that it gives.

use std::alloc::{AllocError, AllocFailed, Global};
use std::io;
use std::io::Write;

/// The status of a command line or a table that is refused.
pub const REFUSED: u8 = 2;

/// The status of a run that a file or memory stopped.
pub const FAILED: u8 = 3;

/// Why two folders aren't compared.
#[derive(Drop)]
pub enum DiffError {
    /// Memory ran out.
    Memory,
    /// A word of the command line isn't text.
    NoText,
    /// The words of the command line or a table are refused: what is printed of them.
    Refused(String),
    /// A file can't be read: the text that is printed.
    File(String),
    /// Standard output takes nothing more.
    Output,
}

impl From<AllocError> for DiffError {
    fn from(_error: AllocError) -> DiffError {
        DiffError::Memory
    }
}

impl<T: Drop> From<AllocFailed<T>> for DiffError {
    fn from(_error: AllocFailed<T>) -> DiffError {
        DiffError::Memory
    }
}

impl DiffError {
    /// Gives the stop of a system that passes words with an error.
    pub fn of_words(error: &io::Error) -> DiffError {
        if error.kind() == io::ErrorKind::OutOfMemory {
            DiffError::Memory
        } else {
            DiffError::NoText
        }
    }

    /// Gives the stop of a file that answered with an error: its path, or memory alone if that was
    /// what it lacked.
    pub fn of_file(alloc: Global, error: &io::Error, path: &str) -> DiffError {
        if error.kind() == io::ErrorKind::OutOfMemory {
            return DiffError::Memory;
        }
        match format!(in alloc; "file: {path}: {error}\n") {
            Ok(text) => DiffError::File(text),
            Err(_) => DiffError::Memory,
        }
    }

    /// Gives the stop of a row, which counts from 1 under the header.
    pub fn of_row(alloc: Global, path: &str, row: u64, why: &str) -> DiffError {
        match format!(in alloc; "error: {path}: row {row}: {why}\n") {
            Ok(text) => DiffError::Refused(text),
            Err(_) => DiffError::Memory,
        }
    }

    /// Gives the stop of what is refused, and why.
    pub fn refused(alloc: Global, what: &str, why: &str) -> DiffError {
        match format!(in alloc; "error: {what}: {why}\n") {
            Ok(text) => DiffError::Refused(text),
            Err(_) => DiffError::Memory,
        }
    }

    /// Prints what stopped the run, and gives its status, which a failed write to `err` doesn't
    /// change.
    pub fn say_why<E: Write>(&self, err: &mut E) -> u8 {
        let (status, text) = match self {
            DiffError::Memory => (FAILED, "error: out of memory\n"),
            DiffError::NoText => (REFUSED, "error: a word of the command line isn't text\n"),
            DiffError::Refused(text) => (REFUSED, text.as_str()),
            DiffError::File(text) => (FAILED, text.as_str()),
            DiffError::Output => (FAILED, "error: standard output takes nothing more\n"),
        };
        let _ = err.write_all(text.as_bytes());
        status
    }
}
