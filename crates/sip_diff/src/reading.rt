//! The rows of a table of a folder.

use crate::stop::DiffError;
use crate::tables::{ComparedTable, ValueSource};
use csv::ByteRecord;
use csv_table::{RowReader, TableError, column};
use schema::TableName;
use sip_reader::{Amount, push_amount};
use std::alloc::{AllocError, AllocFailed, Global};
use std::collections::BTreeMap;
use std::rt::Files;
use std::{fs, io};
use table_diff::DiffRow;

/// What no text of a table has, as it ends a field of a message: so it joins fields.
const BAR: u8 = b'|';

/// What is said of a file that has no such table.
const NO_TABLE: &str = "its header is missing or another, or its rows aren't of one length";

/// Gives the rows of a table of a folder, in the order of their names, with these values. A table
/// of holds that is missing or has no bytes counts as one without rows.
pub fn read_rows<R: Files + AllocGlobal>(
    rt: &R,
    folder: &str,
    table: &ComparedTable,
    values: &[ValueSource],
) -> Result<Vec<DiffRow>, DiffError> {
    let alloc = rt.alloc();
    let name = table.table.file();
    let may_be_empty = table.table == TableName::Holds;
    let path = format!(in alloc; "{folder}/{name}")?;
    match fs::read(rt, path.as_str()) {
        Ok(text) if may_be_empty && text.is_empty() => Ok(Vec::new(alloc)),
        Ok(text) => rows_of(alloc, path.as_str(), table, values, &text),
        Err(error) if may_be_empty && error.kind() == io::ErrorKind::NotFound => Ok(Vec::new(
            alloc,
        )),
        Err(error) => Err(DiffError::of_file(alloc, &error, path.as_str())),
    }
}

/// The rows that a text spells, by their names.
fn rows_of(
    alloc: Global,
    path: &str,
    table: &ComparedTable,
    values: &[ValueSource],
    text: &[u8],
) -> Result<Vec<DiffRow>, DiffError> {
    let mut reader = match RowReader::under(alloc, table.table.header(), text) {
        Ok(reader) => reader,
        Err(error) => return Err(Broken::from(error).stop(alloc, path, 0)),
    };
    let mut rows = Rows::new(alloc);
    for number in 1..u64::MAX {
        match rows.read_next(alloc, &mut reader, table, values) {
            Ok(true) => {}
            Ok(false) => break,
            Err(broken) => return Err(broken.stop(alloc, path, number)),
        }
    }
    Ok(rows.into_list(alloc)?)
}

/// Why fields make no row.
enum Broken {
    Memory,
    Table,
    Row(&'static str),
}

impl From<AllocError> for Broken {
    fn from(_error: AllocError) -> Broken {
        Broken::Memory
    }
}

impl<T: Drop> From<AllocFailed<T>> for Broken {
    fn from(_error: AllocFailed<T>) -> Broken {
        Broken::Memory
    }
}

impl From<TableError> for Broken {
    fn from(error: TableError) -> Broken {
        match error {
            TableError::Table => Broken::Table,
            TableError::Memory => Broken::Memory,
        }
    }
}

impl Broken {
    /// The stop of a file in which this is met, in a row that counts from 1 under the header.
    fn stop(self, alloc: Global, path: &str, row: u64) -> DiffError {
        match self {
            Broken::Memory => DiffError::Memory,
            Broken::Table => DiffError::refused(alloc, path, NO_TABLE),
            Broken::Row(why) => DiffError::of_row(alloc, path, row, why),
        }
    }
}

/// The rows of a table that are read so far.
#[derive(Drop)]
struct Rows {
    /// The fields of the last row.
    fields: ByteRecord,
    /// How many rows have had each first field.
    places: BTreeMap<Vec<u8>, u64>,
    /// The rows by their names.
    by_name: BTreeMap<Vec<u8>, DiffRow>,
}

impl Rows {
    fn new(alloc: Global) -> Rows {
        Rows {
            fields: ByteRecord::new(alloc),
            places: BTreeMap::new(alloc),
            by_name: BTreeMap::new(alloc),
        }
    }

    /// Reads the next row, with these values. Whether there was one.
    fn read_next(
        &mut self,
        alloc: Global,
        reader: &mut RowReader<'_>,
        table: &ComparedTable,
        values: &[ValueSource],
    ) -> Result<bool, Broken> {
        if !reader.next(&mut self.fields)? {
            return Ok(false);
        }
        if has_broken_text(&self.fields) {
            return Err(Broken::Row("a text has a bar or a line end"));
        }
        let place = next_place(alloc, &mut self.places, column(&self.fields, 0))?;
        let row = row_of(alloc, table, values, &self.fields, place)?;
        self.add(alloc, row)?;
        Ok(true)
    }

    fn add(&mut self, alloc: Global, row: DiffRow) -> Result<(), Broken> {
        let name = Vec::from_slice(alloc, row.name())?;
        match self.by_name.insert(name, row)? {
            None => Ok(()),
            Some(_) => Err(Broken::Row("its id came before")),
        }
    }

    /// The rows in the order of their names.
    fn into_list(self, alloc: Global) -> Result<Vec<DiffRow>, AllocError> {
        let Rows { by_name, .. } = self;
        let mut rows = Vec::new(alloc);
        for (_, row) in by_name {
            rows.push(row)?;
        }
        Ok(rows)
    }
}

/// The row that fields make, which is in this place among those of the same first field.
fn row_of(
    alloc: Global,
    table: &ComparedTable,
    values: &[ValueSource],
    fields: &ByteRecord,
    place: u64,
) -> Result<DiffRow, Broken> {
    let values = values_of(alloc, values, fields, place)?;
    let name = name_of(alloc, table, fields)?;
    Ok(DiffRow::new(name, values))
}

fn values_of(
    alloc: Global,
    values: &[ValueSource],
    fields: &ByteRecord,
    place: u64,
) -> Result<Vec<Vec<u8>>, Broken> {
    let mut texts = Vec::new(alloc);
    for value in values {
        texts.push(value_of(alloc, *value, fields, place)?)?;
    }
    Ok(texts)
}

/// Whether a field has what no text of a table may have.
fn has_broken_text(fields: &ByteRecord) -> bool {
    fields.iter().any(|text| text.contains(&BAR) || text.contains(&b'\r') || text.contains(&b'\n'))
}

/// How many rows, this one included, have had this first field.
fn next_place(
    alloc: Global,
    places: &mut BTreeMap<Vec<u8>, u64>,
    first: &[u8],
) -> Result<u64, AllocError> {
    let place = places.get(first).copied().unwrap_or(0).saturating_add(1);
    places.insert(Vec::from_slice(alloc, first)?, place)?;
    Ok(place)
}

/// The fields that make the name, joined by bars.
fn name_of(
    alloc: Global,
    table: &ComparedTable,
    fields: &ByteRecord,
) -> Result<Vec<u8>, AllocError> {
    let mut name = Vec::new(alloc);
    for (position, at) in table.named_by.iter().enumerate() {
        if position > 0 {
            name.push(BAR)?;
        }
        name.extend_from_slice(column(fields, *at))?;
    }
    Ok(name)
}

/// The value of a column, an amount as it is written.
fn value_of(
    alloc: Global,
    source: ValueSource,
    fields: &ByteRecord,
    place: u64,
) -> Result<Vec<u8>, Broken> {
    match source {
        ValueSource::Field(at) => Ok(Vec::from_slice(alloc, column(fields, at))?),
        ValueSource::Amount(at) => match Amount::read(column(fields, at)) {
            Some(amount) => Ok(amount_text(alloc, amount)?),
            None => Err(Broken::Row("an amount isn't one")),
        },
        ValueSource::Place => Ok(place_text(alloc, place)?),
    }
}

fn amount_text(alloc: Global, amount: Amount) -> Result<Vec<u8>, AllocError> {
    let mut text = Vec::new(alloc);
    push_amount(&mut text, u128::from(amount.hundredths()))?;
    Ok(text)
}

fn place_text(alloc: Global, place: u64) -> Result<Vec<u8>, AllocError> {
    let digits = format!(in alloc; "{place}")?;
    Vec::from_slice(alloc, digits.as_bytes())
}
