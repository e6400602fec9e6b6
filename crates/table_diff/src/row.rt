//! A row of a table, and which of its values are compared.

ghost use Rattle.std.specs.Prelude.{◌≡◌, ◌++◌, [], IfOk, OnOk, codes, map, get_or};
ghost use Rattle.csv_table.specs.Text.{bytes_of};
ghost use Rattle.table_diff.specs.Rows.{piece, says, value_at};

use std::alloc::{AllocError, Global};
use std::marker::Model;

/// What is compared of a table.
#[derive(Clone, Copy)]
pub struct TableForm<'a> {
    /// Its name.
    pub table: &'a str,
    /// The columns that are compared: all but those that make the name of a row.
    pub columns: &'a [&'a str],
    /// Whether the names are made by the keeper of the table, as those of fees are: then a row
    /// whose name the other side lacks is the same as one of another name that says the same.
    pub renamed: bool,
}

/// A row: the name by which it is found again, and its values in the columns that are compared.
pub struct DiffRow {
    name: Vec<u8>,
    values: Vec<Vec<u8>>,
}

impl Drop for DiffRow {
    fn drop(self) {
        let DiffRow { name: _, values: _ } = self;
    }
}

impl Model for DiffRow {
    ghost use Rattle.std.specs.Prelude.{map};
    ghost use Rattle.table_diff.specs.Rows.{RowTexts};

    ghost Value = { RowTexts };

    ghost view = { λ r. record { name = r.name.items; values = map (λ v. v.items) r.values.items } };
}

impl DiffRow {
    /// Makes the row of this name with these values.
    pub fn new(name: Vec<u8>, values: Vec<Vec<u8>>) -> DiffRow
        ensures { result ≡ record { name = name.items; values = map (λ v. v.items) values.items } }
    {
        DiffRow { name, values }
    }

    /// Gives the name that the row was made with.
    pub fn name(&self) -> &[u8]
        ensures { result.now ≡ self.now.name }
    {
        self.name.as_slice()
    }

    /// Gives its value in a column, by its place from 0; past the last it is empty.
    pub fn value(&self, place: usize) -> &[u8]
        ensures { result.now ≡ value_at place self.now }
    {
        match self.values.get(place) {
            Some(value) => value.as_slice(),
            None => &[],
        }
    }

    /// What it says: each column with its value.
    pub(crate) fn says(&self, alloc: Global, columns: &[&str]) -> Result<Vec<u8>, AllocError>
        ensures { IfOk result (λ text. text.items ≡ says (bytes_of columns.now) self.now) }
    {
        let mut text = Vec::new(alloc);
        for (place, column) in columns.iter().enumerate() {
            push_piece(&mut text, column, self, place)?;
        }
        Ok(text)
    }
}

/// Writes a column and its value at the end.
fn push_piece(
    text: &mut Vec<u8>,
    column: &str,
    row: &DiffRow,
    place: usize,
) -> Result<(), AllocError>
    ensures { OnOk result (text.new.items
        ≡ text.old.items ++ piece column.now (value_at place row.now)) }
{
    text.extend_from_slice(column.as_bytes())?;
    text.push(b'=')?;
    text.extend_from_slice(row.value(place))?;
    text.push(b'|')?;
    Ok(())
}
