//! A table that is read row by row.

ghost use Rattle.std.specs.Prelude.{◌≡◌, ◌<◌, ◌≤◌, ◌^◌, ◌∷◌, [], true, false, Some, None, IfOk, IfErr, OnErr, IsErr, option_map, length};
ghost use Rattle.csv.specs.Records.{fields_of};
ghost use Rattle.csv_table.specs.Rows.{rows_under};
ghost use Rattle.csv_table.specs.Text.{bytes_of};
ghost use Rattle.csv_table.specs.Unread.{IsReading, unread_by};
ghost use Rattle.csv_table.specs.declared.TableError.TheVariants as table;

use crate::{TableError, has_fields};
use csv::{ByteRecord, Reader, ReaderBuilder};
use std::alloc::Global;
use std::marker::Model;

/// The rows under the header of a text, read one at a time. After an error each call returns that
/// error again.
pub struct RowReader<'a> {
    /// On the heap: it has tables and a buffer of 17 KB inline, which would be moved with each
    /// owner.
    reader: Box<Reader<&'a [u8]>>,
    reach: Reach,
}

impl Drop for RowReader<'_> {
    fn drop(self) {
        let RowReader {
            reader: _,
            reach: _,
        } = self;
    }
}

/// How far a reader has come.
#[derive(Clone, Copy)]
enum Reach {
    Within,
    Ended,
    Refused(TableError),
}

impl<'a> Model for RowReader<'a> {
    ghost use Rattle.csv_table.specs.Unread.{Unread};

    ghost Value = { Unread };

    ghost use Rattle.csv_table.specs.Reach.{IsWellSet, unread_of};

    ghost view = { unread_of };

    ghost invariant = { IsWellSet };
}

impl<'a> RowReader<'a> {
    /// Gives a reader of all rows after the header, or refuses a text that is no table of this
    /// header.
    pub fn under(
        alloc: Global,
        header: &[&str],
        text: &'a [u8],
    ) -> Result<RowReader<'a>, TableError>
        ensures ok { IfOk result (λ rows. rows.rows ≡ rows_under (bytes_of header.now) text.now) }
        ensures table { IfErr result
            (λ e. e ≡ table.Table → rows_under (bytes_of header.now) text.now ≡ None) }
        // The rows can be counted, since each takes a byte at least.
        ensures size { IfOk result (λ rows. rows.size < 2 ^ 64) }
    {
        size_fits(text);
        // into its memory as it is made, so that it moves once
        let Ok(mut reader) = Box::new(
            alloc,
            ReaderBuilder::new()
                .has_headers(false)
                .from_reader(alloc, text),
        ) else {
            return Err(TableError::Memory);
        };
        let mut first = ByteRecord::new(alloc);
        if reader.read_byte_record(&mut first)? && has_fields(&first, header) {
            Ok(RowReader {
                reader,
                reach: Reach::Within,
            })
        } else {
            Err(TableError::Table)
        }
    }

    /// Reads the next row into `row` and returns whether there was one: each row once, in order,
    /// and none past the last. At the end the contents of `row` are unspecified.
    #[inline(always)]
    pub fn next(&mut self, row: &mut ByteRecord) -> Result<bool, TableError>
        // A row is the first of those that were left.
        ensures row { IfOk result
            (λ found. found ≡ true → self.old.rows
            ≡ option_map (λ rest. fields_of row.new ∷ rest) self.new.rows) }
        ensures shorter { IfOk result (λ found. found ≡ true → self.new.size < self.old.size) }
        ensures size { self.new.size ≤ self.old.size }
        ensures end { IfOk result
            (λ found. found ≡ false → (self.old.rows ≡ Some []) × (self.new.rows ≡ Some [])) }

        // Only a row of another length refuses the table.
        ensures table { IfErr result (λ e. e ≡ table.Table → self.old.rows ≡ None) }
        ensures err { OnErr result (self.new.rows ≡ None) }
    {
        match self.reach {
            Reach::Within => {}
            Reach::Ended => return Ok(false),
            Reach::Refused(e) => return Err(e),
        }
        match self.reader.read_byte_record(row) {
            Ok(true) => Ok(true),
            Ok(false) => {
                self.reach = Reach::Ended;
                Ok(false)
            }
            Err(e) => {
                let e = TableError::from(e);
                self.reach = Reach::Refused(e);
                Err(e)
            }
        }
    }
}

/// The bytes of a text are fewer than `usize` counts, as their number shows.
fn size_fits(text: &[u8])
    ensures { length text.now < 2 ^ 64 }
{
    let _size = text.len();
}
