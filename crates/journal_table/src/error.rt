//! Why a journal is refused.

ghost use Rattle.std.specs.Prelude.{◌≡◌};
ghost use Rattle.csv_table.specs.declared.TableError.{TableError};
ghost use Rattle.journal_table.specs.declared.error.JournalError.TheVariants.{Memory};
ghost use Rattle.journal_table.specs.Refusal.{table_refusal};

use csv_table::TableError;
use std::alloc::{AllocError, AllocFailed};
use std::fmt;
use thiserror::Error;

/// What is wrong with a row. Its text is the rule's name.
#[derive(Clone, Copy, Debug, PartialEq, Eq)]
pub enum JournalRule {
    /// The row is past the 1,000,000th.
    Lines,
    /// The number is not one from 1 to 9,999,999,999 in decimal without leading zeros.
    Number,
    /// The number is not that of the row before plus one.
    Sequence,
    /// The connection has more than 64 bytes.
    Connection,
}

impl fmt::Display for JournalRule {
    ghost use Rattle.std.specs.Prelude.{Some};
    ghost use Rattle.journal_table.specs.Words.{rule_word};

    ghost output = { λ rule. Some (rule_word rule) };

    fn fmt<W: fmt::Write>(&self, f: &mut fmt::Formatter<W>) -> fmt::Result {
        f.write_str(match self {
            JournalRule::Lines => "lines",
            JournalRule::Number => "number",
            JournalRule::Sequence => "sequence",
            JournalRule::Connection => "connection",
        })
    }
}

/// Why a text is no journal.
#[derive(Debug, Drop, Error)]
pub enum JournalError {
    /// Its rows don't all have the same number of fields, or its header is missing or another.
    #[error("the table is refused, or its header is missing or another")]
    Table,
    /// The first broken rule. Rows count from 1, without the header.
    #[error("row {row} breaks the rule {rule}")]
    Rule { row: usize, rule: JournalRule },
    /// Memory ran out.
    #[error("out of memory")]
    Memory,
}

impl From<TableError> for JournalError {
    ghost from_gives = { λ e r. r ≡ table_refusal e };

    fn from(e: TableError) -> JournalError {
        match e {
            TableError::Table => JournalError::Table,
            TableError::Memory => JournalError::Memory,
        }
    }
}

impl From<AllocError> for JournalError {
    ghost from_gives = { λ _ e. e ≡ Memory };

    fn from(_e: AllocError) -> JournalError {
        JournalError::Memory
    }
}

impl<T: Drop> From<AllocFailed<T>> for JournalError {
    ghost from_gives = { λ _ e. e ≡ Memory };

    fn from(_e: AllocFailed<T>) -> JournalError {
        JournalError::Memory
    }
}
