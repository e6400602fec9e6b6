//! The table, written line by line.

ghost use Rattle.std.proofs.Props.{props};
ghost use Rattle.std.specs.Prelude.{◌≡◌, ◌≤◌, IfSome, length};

use crate::sayings::{AnsweredLine, say};
use circ_records::Key;
use csv_table::TableText;
use line_origins::LineTrace;
use read_set::{Name, Note, Notes, Plan, Way};
use schema::LineTable;
use sip_answer::{Answer, Reason, RenewAllAnswer};
use sip_reader::Id;
use std::alloc::{AllocError, Global};

/// The table while it is written.
#[derive(Drop)]
pub struct WhyTable {
    table: TableText,
    columns: usize,
    ghost wide: { IfSome table (λ t. t.width ≡ columns) } by { Prim.hlevel props },
    ghost few: { columns ≤ 7 },
}

impl WhyTable {
    /// The header alone, for a run of this way.
    pub fn new(alloc: Global, way: Way) -> Result<WhyTable, AllocError> {
        let header = header_of(way);
        Ok(WhyTable {
            table: TableText::under(alloc, header)?,
            columns: header.len(),
        })
    }

    /// Adds the rows of a line: one for each record that it read, in the order of reading, and a single
    /// one of a line that read none. Whether the line has an answer: one without has no row. After a
    /// failure there is no table.
    pub fn line(
        &mut self,
        alloc: Global,
        plan: &Plan,
        line: u64,
        seen: &LineTrace,
    ) -> Result<bool, AllocError> {
        let Some(answer) = &seen.answer else {
            return Ok(false);
        };
        let reason = answer.reason();
        let carried = format!(in alloc; "{}", seen.carried)?;
        let notes = &seen.notes;
        if notes.as_slice().is_empty() {
            self.row(&WhyRow::bare(alloc, line, reason, carried.as_str()))?;
            return Ok(true);
        }
        for note in notes.as_slice() {
            let asked = AnsweredLine {
                policy: plan.policy(),
                reading: plan.reading(line),
                reason: reason_of(answer, note),
            };
            let row = WhyRow::bare(alloc, line, asked.reason, carried.as_str());
            self.row(&row.of_record(alloc, &asked, notes, note)?)?;
        }
        Ok(true)
    }

    fn row(&mut self, row: &WhyRow<'_>) -> Result<(), AllocError> {
        let mut digits = itoa::Buffer::new();
        let number = digits.format(row.line);
        self.put(&[
            number.as_bytes(),
            row.word(),
            row.kind(),
            row.id(),
            row.since.as_bytes(),
            row.said.as_slice(),
            row.carried(),
        ])
    }

    /// Adds a row, of which by the rules the last field is left out.
    fn put(&mut self, fields: &[&[u8]]) -> Result<(), AllocError>
        requires { length fields.now ≡ 7 }
    {
        self.table.row(&fields[..self.columns])
    }

    /// The text.
    pub fn finish(self) -> Result<Vec<u8>, AllocError> {
        let WhyTable { table, .. } = self;
        table.finish()
    }
}

/// The names of the columns: the last one, what came of the line, is of runs as recorded alone.
fn header_of(way: Way) -> &'static [&'static str]
    ensures { length result.now ≤ 7 }
{
    match way {
        Way::ByRules => LineTable::Why.header(),
        Way::AsRecorded => LineTable::WhyAsRecorded.header(),
    }
}

/// A row: of a record that a line read, or of a line that read none.
#[derive(Drop)]
struct WhyRow<'r> {
    line: u64,
    reason: Reason,
    kind: &'static str,
    id: &'r [u8],
    since: String,
    said: Vec<u8>,
    carried: &'r str,
}

impl<'r> WhyRow<'r> {
    /// The row of a line that read nothing.
    fn bare(alloc: Global, line: u64, reason: Reason, carried: &'r str) -> WhyRow<'r> {
        WhyRow {
            line,
            reason,
            kind: "",
            id: b"",
            since: String::new(alloc),
            said: Vec::new(alloc),
            carried,
        }
    }

    /// The row of the same line and of a record that it read.
    fn of_record(
        self,
        alloc: Global,
        asked: &AnsweredLine<'_>,
        notes: &Notes,
        note: &'r Note,
    ) -> Result<WhyRow<'r>, AllocError> {
        let found = note.found.record()?;
        Ok(WhyRow {
            kind: kind_of(&note.key),
            id: note.key.id().as_bytes(),
            since: since_of(alloc, note, found.is_some())?,
            said: say(alloc, asked, notes, found.as_ref())?,
            ..self
        })
    }

    fn word(&self) -> &[u8] {
        self.reason.word().as_bytes()
    }

    fn kind(&self) -> &[u8] {
        self.kind.as_bytes()
    }

    fn id(&self) -> &[u8] {
        self.id
    }

    fn carried(&self) -> &[u8] {
        self.carried.as_bytes()
    }
}

/// The reason of a row: in a renewal of all items that of the item, else that of the line.
fn reason_of(answer: &Answer, note: &Note) -> Reason {
    match (answer, &note.key) {
        (Answer::RenewAll(all), Key::Item(id)) => reason_of_item(all, id),
        _ => answer.reason(),
    }
}

/// Why an item is renewed or not, at its first turn: what is renewed once can be refused later, but not the other way round.
fn reason_of_item(all: &RenewAllAnswer, item: &Id) -> Reason {
    if all.renewed.as_slice().iter().any(|id| id == item) {
        return Reason::Renewed;
    }
    for (id, reason) in all.unrenewed.as_slice().iter().zip(all.reasons.as_slice()) {
        if id == item {
            return *reason;
        }
    }
    all.reason
}

fn kind_of(key: &Key) -> &'static str {
    match key {
        Key::Patron(_) => "patron",
        Key::Item(_) => "item",
        Key::Fee(_) => "fee",
    }
}

/// The number of the line that wrote the record last, or `base`, or nothing where there is none.
fn since_of(alloc: Global, note: &Note, is_there: bool) -> Result<String, AllocError> {
    match note.name {
        Name::Made { line, .. } => format!(in alloc; "{line}"),
        Name::Base if is_there => String::from_str(alloc, "base"),
        Name::Base => Ok(String::new(alloc)),
    }
}
