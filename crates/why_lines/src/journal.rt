//! The journal of a case.

ghost use Rattle.std.specs.Prelude.{◌≡◌, IfOk};
ghost use Rattle.why_lines.specs.Cases.{journal_of_one};

use csv_table::TableText;
use itoa::Buffer;
use journal_table::Line;
use schema::LineTable;
use std::alloc::{AllocError, Global};

/// A journal of one line, with its number and its recorded response.
pub(crate) fn journal_of_one(alloc: Global, line: &Line) -> Result<Vec<u8>, AllocError>
    ensures { IfOk result (λ text. text.items ≡ journal_of_one line.now) }
{
    let line = line.parts();
    let mut digits = Buffer::new();
    let number = digits.format(line.number);
    let mut table = TableText::under(alloc, LineTable::Journal.header())?;
    table.row(&[
        number.as_bytes(),
        line.connection,
        line.request,
        line.response,
    ])?;
    table.finish()
}
