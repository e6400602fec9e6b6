//! The rows of the tables, read one at a time.

ghost use Rattle.std.specs.Prelude.{◌≡◌, ◌<◌, ◌+◌, ◌∷◌, [], true, false, Some, IsSome, option_map, IfOk, IfErr, OnOk};
ghost use Rattle.csv.specs.Records.{fields_of};
ghost use Rattle.csv_table.specs.Rows.{rows_under};
ghost use Rattle.record_tables.specs.Base.{Fails, holds_rows_of, rows_of, table_rows};
ghost use Rattle.record_tables.specs.Read.{AreTables, table_refusal, text_rows};
ghost use Rattle.schema.specs.Names.{header_of, holds_header};
ghost use Rattle.schema.specs.Texts.{texts_of};
ghost use Rattle.record_tables.specs.declared.fault.BaseError.TheVariants as error;

use crate::fault::{BaseError, RowValues};
use circ_records::BaseRule;
use csv::ByteRecord;
use csv_table::{RowReader, TableError};
use schema::{NO_HOLDS, TableName, Tables};
use std::alloc::Global;
use std::marker::Model;

/// The rows of a table under its header. None is stored: each is judged, and its record added,
/// before the next one is read.
pub(crate) struct TableRows<'t> {
    table: TableName,
    reader: RowReader<'t>,
    /// How many rows were read.
    count: usize,
}

impl Drop for TableRows<'_> {
    fn drop(self) {
        let TableRows {
            table: _,
            reader: _,
            count: _,
        } = self;
    }
}

impl<'t> Model for TableRows<'t> {
    ghost use Rattle.std.specs.Prelude.{◌<◌, ◌+◌, ◌^◌};
    ghost use Rattle.record_tables.specs.Read.{Left};

    ghost Value = { Left };

    ghost view = { λ t. record { table = t.table; count = t.count; size = t.reader.size; rows = t.reader.rows } };

    ghost invariant = { λ t. t.count + t.reader.size < 2 ^ 64 };
}

impl<'t> TableRows<'t> {
    /// The rows of a table under its header, which is read at once.
    pub(crate) fn of(
        alloc: Global,
        table: TableName,
        tables: &'t Tables,
    ) -> Result<TableRows<'t>, BaseError>
        ensures table { IfOk result (λ rows. rows.table ≡ table) }
        ensures count { IfOk result (λ rows. rows.count ≡ 0) }
        ensures rows { IfOk result (λ rows. rows.rows ≡ text_rows table tables.now) }
        ensures err { IfErr result (λ e. Fails e (table_rows table (text_rows table tables.now))) }
    {
        match RowReader::under(alloc, table.header(), table_text(tables, table)) {
            Ok(reader) => Ok(TableRows {
                table,
                reader,
                count: 0,
            }),
            Err(e) => Err(refusal(table, e)),
        }
    }

    /// Reads the next row. Without one, at the end, `row` means nothing.
    #[inline(always)]
    pub(crate) fn next(&mut self, row: &mut ByteRecord) -> Result<bool, BaseError>
        ensures table { self.new.table ≡ self.old.table }
        ensures row { IfOk result
            (λ found. found ≡ true → self.old.rows
            ≡ option_map (λ rest. fields_of row.new ∷ rest) self.new.rows) }
        ensures count { IfOk result (λ found. found ≡ true → self.new.count ≡ self.old.count + 1) }
        ensures shorter { IfOk result (λ found. found ≡ true → self.new.size < self.old.size) }
        ensures end { IfOk result (λ found. found ≡ false → self.old.rows ≡ Some []) }
        ensures same { IfOk result (λ found. found ≡ false → self.new.count ≡ self.old.count) }
        ensures err { IfErr result (λ e. Fails e (table_rows self.old.table self.old.rows)) }
    {
        match self.reader.next(row) {
            Ok(true) => {
                self.count += 1;
                Ok(true)
            }
            Ok(false) => Ok(false),
            Err(e) => Err(refusal(self.table, e)),
        }
    }

    /// The table that is read.
    pub(crate) fn table(&self) -> TableName
        ensures { result ≡ self.now.table }
    {
        self.table
    }

    /// How many rows were read.
    pub(crate) fn count(&self) -> usize
        ensures { result ≡ self.now.count }
    {
        self.count
    }

    /// That this row, which was read last, breaks a rule.
    pub(crate) fn broken(&self, rule: BaseRule, row: ByteRecord) -> BaseError
        ensures { result ≡ error.Rule self.now.table self.now.count rule (fields_of row) }
    {
        BaseError::Rule {
            table: self.table,
            row: self.count,
            rule,
            values: RowValues::of(row),
        }
    }
}

/// The text of a table with its header: a table of holds may be left out, and has no bytes then.
pub(crate) fn table_text(tables: &Tables, table: TableName) -> &[u8]
    ensures { rows_under (header_of table) result.now ≡ text_rows table tables.now }
{
    match table {
        TableName::Holds => holds_text(tables.text(table)),
        _ => tables.text(table),
    }
}

/// A text of holds; where it has no bytes, the header alone.
fn holds_text(text: &[u8]) -> &[u8]
    ensures { rows_under holds_header result.now ≡ holds_rows_of text.now }
{
    if text.is_empty() { NO_HOLDS } else { text }
}

/// Why a table gives no rows, by its name.
fn refusal(table: TableName, e: TableError) -> BaseError
    ensures { result ≡ table_refusal table e }
{
    match e {
        TableError::Table => BaseError::Table { table },
        TableError::Memory => BaseError::Memory,
    }
}

/// Returns the first text that is no table: a row that breaks a rule stops the reading, and the
/// rest may be no table.
#[tactic(auto, unfolding(crate::specs::Base::rows_of))]
pub(crate) fn check_tables(alloc: Global, tables: &Tables) -> Result<(), BaseError>
    ensures ok { OnOk result (AreTables tables.now) }
    ensures err { IfErr result (λ e. Fails e (rows_of (texts_of tables.now))) }
{
    check_table(alloc, TableName::Patrons, tables)?;
    check_table(alloc, TableName::Items, tables)?;
    check_table(alloc, TableName::Loans, tables)?;
    check_table(alloc, TableName::Fees, tables)?;
    check_table(alloc, TableName::Closed, tables)?;
    check_table(alloc, TableName::Holds, tables)
}

/// Returns a fault where a text is no table under its header.
pub(crate) fn check_table(alloc: Global, table: TableName, tables: &Tables) -> Result<(), BaseError>
    ensures ok { OnOk result (IsSome (text_rows table tables.now)) }
    ensures err { IfErr result (λ e. Fails e (table_rows table (text_rows table tables.now))) }
{
    let mut rows = TableRows::of(alloc, table, tables)?;
    let mut row = ByteRecord::new(alloc);
    while rows.next(&mut row)? {}
    Ok(())
}
