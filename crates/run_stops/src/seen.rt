//! What is seen of a fault: why its text can't be read, or the values that break a rule.

ghost use Rattle.std.specs.Prelude.{IfSome};
ghost use Rattle.run_stops.specs.Seeing.{IsOf, IsOfKey, IsOfPolicy, IsOfTable, MaySee};

use crate::stop::RunError;
use crate::trouble::{KeyTrouble, trouble_at};
use crate::values::{ValueForm, journal_values, seen_in_row, shown};
use csv::{ByteRecord, ErrorKind, Reader, ReaderBuilder};
use replay_run::{Fault, Inputs};
use schema::LineTable;
use std::alloc::Global;
use std::mem::forget;

/// What is seen of a fault.
#[derive(Drop)]
pub enum FaultDetail {
    /// A row has another number of fields than the first one, and this many rows are before it.
    Uneven { row: u64 },
    /// The first row, and the header that it should be.
    Header { found: String, wanted: String },
    /// The line, from 1, from which on a policy is no TOML, or that has the key whose rule is
    /// broken.
    Line { line: u64 },
    /// The line of that key, and what is usually wrong in such a one.
    Key { line: u64, text: String },
    /// The values of the row that is named, by their columns: `patron "P1", item "I9"`.
    Values { text: String },
    /// The one that names the row, and one that should have another form.
    Form { text: String, form: ValueForm },
    /// The text is compressed.
    Packed,
    /// The text is UTF-16.
    Wide,
}

/// Gives the stop of exactly this fault, with what is seen of it, if there is something to be seen
/// and memory to find it.
pub fn stop_of(alloc: Global, fault: Fault, inputs: &Inputs) -> RunError
    ensures { IsOf fault result }
{
    match seen_of(alloc, &fault, inputs) {
        Some(seen) => RunError::Seen { fault, seen },
        None => RunError::Fault(fault),
    }
}

fn seen_of(alloc: Global, fault: &Fault, inputs: &Inputs) -> Option<FaultDetail>
    ensures { IfSome result (MaySee fault.now) }
{
    match fault {
        Fault::PolicyText => seen_in_policy(alloc, inputs.policy.as_slice()),
        Fault::PolicyRule { key } => seen_at_key(alloc, key.as_str(), inputs.policy.as_slice()),
        Fault::BaseTable { table } => {
            seen_in_table(alloc, table.header(), inputs.tables.text(*table))
        }
        Fault::JournalTable => seen_in_table(
            alloc,
            LineTable::Journal.header(),
            inputs.journal.as_slice(),
        ),
        Fault::BaseRule {
            table,
            rule,
            values,
            ..
        } => seen_in_row(alloc, *table, *rule, values.row()),
        Fault::JournalRule { row, rule } => {
            let row = row_at(alloc, inputs.journal.as_slice(), *row)?;
            let text = journal_values(alloc, *rule, &row)?;
            Some(FaultDetail::Values { text })
        }
        _ => None,
    }
}

/// Why a policy is no TOML.
fn seen_in_policy(alloc: Global, text: &[u8]) -> Option<FaultDetail>
    ensures { IfSome result IsOfPolicy }
{
    if is_packed(text) {
        return Some(FaultDetail::Packed);
    }
    if is_wide(text) {
        return Some(FaultDetail::Wide);
    }
    let line = toml_line(alloc, text)?;
    Some(FaultDetail::Line { line })
}

/// The line, from 1, from which on a text is no TOML.
fn toml_line(alloc: Global, text: &[u8]) -> Option<u64> {
    let text = str::from_utf8(text).ok()?;
    let error = match toml::table_from_str(alloc, text) {
        Err(error) => error,
        // not of a policy that was refused, so there is nothing to be torn down
        Ok(table) => {
            forget(table);
            return None;
        }
    };
    let place = error.span()?.start;
    let before = text.as_bytes().iter().take(place);
    Some((before.filter(|byte| **byte == b'\n').count() as u64).saturating_add(1))
}

/// Whether a text begins as gzip does.
fn is_packed(text: &[u8]) -> bool {
    text.starts_with(&[0x1f, 0x8b])
}

/// Whether a text begins as UTF-16 does, in either order of its bytes.
fn is_wide(text: &[u8]) -> bool {
    text.starts_with(&[0xff, 0xfe]) || text.starts_with(&[0xfe, 0xff])
}

/// What is wrong at the key that a policy's fault names.
fn seen_at_key(alloc: Global, key: &str, text: &[u8]) -> Option<FaultDetail>
    ensures { IfSome result IsOfKey }
{
    let KeyTrouble { line, text } = trouble_at(alloc, key, text)?;
    match text {
        Some(text) => Some(FaultDetail::Key { line, text }),
        None => Some(FaultDetail::Line { line }),
    }
}

/// Why a text is no table under a header.
fn seen_in_table(alloc: Global, header: &[&str], text: &[u8]) -> Option<FaultDetail>
    ensures { IfSome result IsOfTable }
{
    if is_packed(text) {
        return Some(FaultDetail::Packed);
    }
    if is_wide(text) {
        return Some(FaultDetail::Wide);
    }
    if let Some(row) = uneven_row(alloc, text) {
        return Some(FaultDetail::Uneven { row });
    }
    let found = first_row(alloc, text)?;
    let wanted = joined(alloc, header)?;
    Some(FaultDetail::Header { found, wanted })
}

/// The first row of a text, its fields joined by commas.
fn first_row(alloc: Global, text: &[u8]) -> Option<String> {
    let mut reader = reader_of(alloc, text);
    let mut row = ByteRecord::new(alloc);
    if !reader.read_byte_record(&mut row).ok()? {
        return None;
    }
    let mut names = Vec::new(alloc);
    for field in row.iter() {
        names.push(shown(alloc, field)?).ok()?;
    }
    let mut words = Vec::new(alloc);
    for name in &names {
        words.push(name.as_str()).ok()?;
    }
    joined(alloc, words.as_slice())
}

/// Words joined by commas.
fn joined(alloc: Global, words: &[&str]) -> Option<String> {
    let mut text = String::new(alloc);
    for (place, word) in words.iter().enumerate() {
        if place > 0 {
            text.push(',').ok()?;
        }
        text.push_str(*word).ok()?;
    }
    Some(text)
}

/// The rows of a text, the header among them.
fn reader_of(alloc: Global, text: &[u8]) -> Reader<&[u8]> {
    ReaderBuilder::new()
        .has_headers(false)
        .from_reader(alloc, text)
}

/// A row of the journal, counted from 1 below the header.
fn row_at(alloc: Global, text: &[u8], row: usize) -> Option<ByteRecord> {
    let mut reader = reader_of(alloc, text);
    let mut found = ByteRecord::new(alloc);
    for _ in 0..=row {
        match reader.read_byte_record(&mut found) {
            Ok(true) => {}
            _ => return None,
        }
    }
    Some(found)
}

/// How many rows are before the first one that has another number of fields than the first of all.
fn uneven_row(alloc: Global, text: &[u8]) -> Option<u64> {
    let mut reader = reader_of(alloc, text);
    let mut row = ByteRecord::new(alloc);
    for before in 0..u64::MAX {
        match reader.read_byte_record(&mut row) {
            Ok(true) => {}
            Ok(false) => return None,
            Err(error) => {
                return match error.kind() {
                    ErrorKind::UnequalLengths { .. } => Some(before),
                    _ => None,
                };
            }
        }
    }
    None
}
