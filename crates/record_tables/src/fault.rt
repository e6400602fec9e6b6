ghost use Rattle.std.specs.Prelude.{◌≡◌};
ghost use Rattle.csv.specs.Records.{fields_of};
ghost use Rattle.record_tables.specs.declared.fault.BaseError.TheVariants.{Memory};

use circ_records::BaseRule;
use csv::ByteRecord;
use schema::TableName;
use std::alloc::{AllocError, AllocFailed};
use std::fmt;
use std::marker::Model;
use thiserror::Error;

/// The values of a row that breaks a rule.
pub struct RowValues {
    row: ByteRecord,
}

impl Drop for RowValues {
    fn drop(self) {
        let RowValues { row: _ } = self;
    }
}

impl Model for RowValues {
    ghost use Rattle.record_tables.specs.Tables.{Row};
    ghost use Rattle.csv.specs.Records.{fields_of};

    ghost Value = { Row };

    ghost view = { λ v. fields_of v.row };
}

impl fmt::Debug for RowValues {
    fn fmt<W: fmt::Write>(&self, f: &mut fmt::Formatter<W>) -> fmt::Result {
        write!(f, "{} values", self.row.len())
    }
}

impl RowValues {
    /// Those of a row.
    pub(crate) fn of(row: ByteRecord) -> RowValues
        ensures { result ≡ fields_of row }
    {
        RowValues { row }
    }

    /// Gives the values as they are in the row.
    pub fn row(&self) -> &ByteRecord
        ensures { fields_of result.now ≡ self.now }
    {
        &self.row
    }
}

/// Why no base can be made of the tables.
#[derive(Debug, Drop, Error)]
pub enum BaseError {
    /// A table's rows are not all of one length, or its header is missing or another.
    #[error("table {table}")]
    Table {
        table: TableName,
    },
    /// A row of a table, counted from 1 after the header, breaks a rule.
    #[error("table {table}, row {row}: {rule}")]
    Rule {
        table: TableName,
        row: usize,
        rule: BaseRule,
        values: RowValues,
    },
    #[error("out of memory")]
    Memory,
}

impl From<AllocError> for BaseError {
    ghost from_gives = { λ _ e. e ≡ Memory };

    fn from(_e: AllocError) -> BaseError {
        BaseError::Memory
    }
}

impl<T: Drop> From<AllocFailed<T>> for BaseError {
    ghost from_gives = { λ _ e. e ≡ Memory };

    fn from(_e: AllocFailed<T>) -> BaseError {
        BaseError::Memory
    }
}
