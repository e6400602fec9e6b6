//! Tables of comma-separated rows under a header, which the other crates use to
//! read or write tables (journal, records, reports). The crate `csv` defines what a row is, with
//! its defaults; here a text is a table if its rows have the same number of fields and the first is
//! the header.
#![tactic(auto)]

ghost use Rattle.std.specs.Prelude.{◌≡◌, map, get_or, []};
ghost use Rattle.csv.specs.Records.{fields_of};
ghost use Rattle.csv.specs.Reading.{error_kind};
ghost use Rattle.csv_table.specs.Rows.{is_row, refusal};

mod bytes;
mod reader;
mod text;

pub use bytes::read_bytes;
use csv::{ByteRecord, ErrorKind};
pub use reader::RowReader;
pub use text::{TableText, reads_back};

/// Why a text is refused as a table.
#[derive(Clone, Copy, Debug, PartialEq, Eq)]
pub enum TableError {
    /// Its rows don't all have the same number of fields, or its header is missing or another.
    Table,
    /// Memory ran out.
    Memory,
}

impl From<csv::Error> for TableError {
    ghost from_gives = { λ e r. r ≡ refusal (error_kind e) };

    fn from(e: csv::Error) -> TableError {
        match e.kind() {
            ErrorKind::UnequalLengths { .. } => TableError::Table,
            _ => TableError::Memory,
        }
    }
}

/// Whether a row has these fields.
fn has_fields(row: &ByteRecord, names: &[&str]) -> bool
    ensures { result ≡ is_row (fields_of row.now) (map (λ name. name.now) names.now) }
{
    if row.len() != names.len() {
        return false;
    }
    for (i, name) in names.iter().enumerate() {
        if column(row, i) != name.as_bytes() {
            return false;
        }
    }
    true
}

/// Gives the field of a row at a position, from 0; after the last field an empty one.
pub fn column(row: &ByteRecord, i: usize) -> &[u8]
    ensures { result.now ≡ get_or (fields_of row.now) i [] }
{
    row.get(i).unwrap_or(&[])
}
