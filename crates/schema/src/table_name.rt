//! The tables of a library's records.

ghost use Rattle.std.specs.Prelude.{◌≡◌, Some, codes, map};
ghost use Rattle.schema.specs.Names.{file_of, header_of, table_word};

use std::fmt;

/// Which of the tables of a library's records, in the order in which they are read and written.
#[derive(Clone, Copy, Debug, PartialEq, Eq)]
pub enum TableName {
    Patrons,
    Items,
    Loans,
    Fees,
    Closed,
    Holds,
}

/// The text of a table of holds without a row.
pub const NO_HOLDS: &[u8] = b"item,patron,pickup\n";

impl TableName {
    /// All of them, in that order.
    pub const ALL: [TableName; 6] = [
        TableName::Patrons,
        TableName::Items,
        TableName::Loans,
        TableName::Fees,
        TableName::Closed,
        TableName::Holds,
    ];

    /// Gives the word for it in messages and options, each table another.
    pub fn word(self) -> &'static str
        ensures { result.now ≡ table_word self }
    {
        match self {
            TableName::Patrons => "patrons",
            TableName::Items => "items",
            TableName::Loans => "loans",
            TableName::Fees => "fees",
            TableName::Closed => "closed",
            TableName::Holds => "holds",
        }
    }

    /// Gives the name of its file in a folder of tables, each table another.
    pub fn file(self) -> &'static str
        ensures { result.now ≡ file_of self }
    {
        match self {
            TableName::Patrons => "patrons.csv",
            TableName::Items => "items.csv",
            TableName::Loans => "loans.csv",
            TableName::Fees => "fees.csv",
            TableName::Closed => "closed.csv",
            TableName::Holds => "holds.csv",
        }
    }

    /// Gives the names of its columns, in their order.
    pub fn header(self) -> &'static [&'static str]
        ensures { map (λ name. name.now) result.now ≡ header_of self }
    {
        match self {
            TableName::Patrons => &["id", "name", "class", "blocked"],
            TableName::Items => &["id", "title", "media", "location", "properties"],
            TableName::Loans => &["patron", "item", "due", "renewals"],
            TableName::Fees => &["id", "patron", "type", "amount", "paid"],
            TableName::Closed => &["id", "patron", "type", "amount"],
            TableName::Holds => &["item", "patron", "pickup"],
        }
    }
}

impl fmt::Display for TableName {
    ghost output = { λ t. Some (table_word t) };

    fn fmt<W: fmt::Write>(&self, f: &mut fmt::Formatter<W>) -> fmt::Result {
        f.write_str(self.word())
    }
}
