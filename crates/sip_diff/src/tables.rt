//! The forms of the six tables: what makes the name of a row, and which columns are compared.

use schema::TableName;

/// Where a row has a value.
#[derive(Clone, Copy)]
pub enum ValueSource {
    /// In this field, from 0.
    Field(usize),
    /// In this field, an amount: 1.5 is the same as 1.50.
    Amount(usize),
    /// In no field: how many rows, this one included, have had the same first field, as a hold's
    /// place in the queue of its item.
    Place,
}

use ValueSource::{Amount, Field, Place};

/// A table: the fields that make the name of a row, and the values that are compared.
pub struct ComparedTable {
    pub table: TableName,
    pub named_by: &'static [usize],
    pub values: &'static [ValueSource],
    /// Whether a server makes the names itself, as those of fees.
    pub renamed: bool,
}

pub static TABLES: [ComparedTable; 6] = [
    ComparedTable {
        table: TableName::Patrons,
        named_by: &[0],
        values: &[Field(1), Field(2), Field(3)],
        renamed: false,
    },
    ComparedTable {
        table: TableName::Items,
        named_by: &[0],
        values: &[Field(1), Field(2), Field(3), Field(4)],
        renamed: false,
    },
    ComparedTable {
        table: TableName::Loans,
        named_by: &[1],
        values: &[Field(0), Field(2), Field(3)],
        renamed: false,
    },
    ComparedTable {
        table: TableName::Fees,
        named_by: &[0],
        values: &[Field(1), Field(2), Amount(3), Amount(4)],
        renamed: true,
    },
    ComparedTable {
        table: TableName::Closed,
        named_by: &[0],
        values: &[Field(1), Field(2), Amount(3)],
        renamed: true,
    },
    ComparedTable {
        table: TableName::Holds,
        named_by: &[0, 1],
        values: &[Field(2), Place],
        renamed: false,
    },
];

impl ComparedTable {
    /// Gives the name of the column that has this value.
    pub fn column(&self, value: ValueSource) -> &'static str {
        match value {
            Field(at) | Amount(at) => self.table.header().get(at).unwrap_or(&""),
            Place => "place",
        }
    }

    /// True exactly if a word names the column that has a value: the table, a point, and its name.
    pub fn is_named(&self, word: &str, value: ValueSource) -> bool {
        match word.split_once('.') {
            Some((table, column)) => table == self.table.word() && column == self.column(value),
            None => false,
        }
    }
}

/// True exactly if a word names a column that is compared, as items.properties.
pub fn has_column(word: &str) -> bool {
    TABLES.iter().any(|table| table
        .values
        .iter()
        .any(|value| table.is_named(word, *value)))
}
