//! The texts of the six tables.

ghost use Rattle.std.specs.Prelude.{◌≡◌};
ghost use Rattle.schema.specs.Texts.{text_of, texts_of};

use crate::table_name::TableName;

/// The texts of the six tables.
pub struct Tables {
    pub patrons: Vec<u8>,
    pub items: Vec<u8>,
    pub loans: Vec<u8>,
    pub fees: Vec<u8>,
    pub closed: Vec<u8>,
    /// An empty text counts as the header alone.
    pub holds: Vec<u8>,
}

impl Drop for Tables {
    fn drop(self) {
        let Tables {
            patrons: _,
            items: _,
            loans: _,
            fees: _,
            closed: _,
            holds: _,
        } = self;
    }
}

impl Tables {
    /// Gives the text that is kept for this table, and for no other.
    pub fn text(&self, table: TableName) -> &[u8]
        ensures { result.now ≡ text_of table (texts_of self.now) }
    {
        match table {
            TableName::Patrons => &self.patrons,
            TableName::Items => &self.items,
            TableName::Loans => &self.loans,
            TableName::Fees => &self.fees,
            TableName::Closed => &self.closed,
            TableName::Holds => &self.holds,
        }
    }
}
