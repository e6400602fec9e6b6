//! The text of a table as it is written.

ghost use Rattle.std.specs.Prelude.{◌≡◌, ℕ, List, ◌∷◌, [], Some, None, length, IfOk, IfSome, OnOk, OnErr, option_map};
ghost use Rattle.std.specs.List.{AllByRecursion};
ghost use Rattle.csv_table.specs.Rows.{rows_under};
ghost use Rattle.csv_table.specs.Text.{IsPlainHeader, bytes_of, table_text, text_of, with_row, written};

use csv::{Writer, WriterBuilder};
use std::alloc::{AllocError, Global};
use std::marker::Model;

/// The first capacity, in bytes, so that a text is seldom copied as it grows. Memory that is never
/// written to isn't touched.
const FIRST_ROOM: usize = 1 << 20;

/// The text of a table, written row by row under its header. After a failure there is no text.
pub struct TableText {
    /// On the heap: it has a buffer of 8 KB inline, which would be moved with each owner.
    writer: Box<Writer<Vec<u8>>>,
    width: usize,
    failed: bool,
}

impl Drop for TableText {
    fn drop(self) {
        let TableText {
            writer: _,
            width: _,
            failed: _,
        } = self;
    }
}

impl Model for TableText {
    ghost use Rattle.std.specs.Prelude.{Option, Some, None, IfSome, ◌++◌, ◌≡◌, false, if◌then◌else◌};
    ghost use Rattle.csv.specs.Writing as Spec;
    ghost use Rattle.csv_table.specs.Text.{Written};

    ghost Value = { Option Written };

    ghost view = { λ t. if t.failed then None else Some (record { width = t.width; text = (Spec.writer_under t.writer.value).items ++ Spec.writer_pending t.writer.value }) };

    ghost invariant = { λ t. t.failed ≡ false → (Spec.writer_setup t.writer.value ≡ Spec.default_writer) × (Spec.fields_written t.writer.value ≡ 0) × (Spec.has_written t.writer.value ≡ false) × IfSome (Spec.first_length t.writer.value) (λ n. n ≡ t.width) };
}

impl TableText {
    /// Begins a table's text with its header and no other row.
    pub fn under(alloc: Global, header: &[&str]) -> Result<TableText, AllocError>
        ensures { IfOk result (λ t. t ≡ Some (written (bytes_of header.now) [])) }
    {
        let names = names_of(alloc, header)?;
        let writer = WriterBuilder::new().from_writer(Vec::with_capacity(alloc, FIRST_ROOM)?);
        let Ok(mut writer) = Box::new(alloc, writer) else {
            return Err(AllocError);
        };
        match writer.write_fields(&names) {
            Ok(()) => Ok(TableText {
                writer,
                width: names.len(),
                failed: false,
            }),
            Err(_) => Err(AllocError),
        }
    }

    /// Appends a row, which has as many fields as the header, after those that are there.
    pub fn row(&mut self, fields: &[&[u8]]) -> Result<(), AllocError>
        requires { IfSome self.old (λ t. length fields.now ≡ t.width) }
        ensures ok { OnOk result (self.new ≡ option_map (with_row (bytes_of fields.now)) self.old) }
        ensures err { OnErr result (self.new ≡ None) }
    {
        self.failed = self.failed || self.writer.write_fields(fields).is_err();
        if self.failed { Err(AllocError) } else { Ok(()) }
    }

    /// Gives the text of the header and of all rows that were appended, or the error that memory
    /// ran out for one.
    pub fn finish(self) -> Result<Vec<u8>, AllocError>
        ensures { IfOk result (λ v. option_map text_of self ≡ Some v.items) }
    {
        let TableText {
            writer,
            width: _,
            failed,
        } = self;
        if failed {
            return Err(AllocError);
        }
        let writer = Box::into_inner(writer);
        writer.into_inner().map_err(|_| AllocError)
    }
}

/// The bytes of names.
fn names_of<'a>(alloc: Global, names: &[&'a str]) -> Result<Vec<&'a [u8]>, AllocError>
    ensures { IfOk result (λ v. bytes_of v.items ≡ bytes_of names.now) }
{
    let mut texts = Vec::with_capacity(alloc, names.len())?;
    for name in names {
        texts.push(name.as_bytes())?;
    }
    Ok(texts)
}

/// The rows that are written under a header are read back as they were.
pub fn reads_back()
    ensures { (header : List (List ℕ)) (rows : List (List (List ℕ))) → IsPlainHeader header → AllByRecursion (λ row. length row ≡ length header) rows
        → rows_under header (table_text (header ∷ rows)) ≡ Some rows }
{}
