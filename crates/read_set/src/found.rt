//! What was found at the key of a note.

ghost use Rattle.std.specs.Prelude.{◌≡◌, IfOk};
ghost use Rattle.std.specs.Bool.{Decides};
ghost use Rattle.std.specs.Option.{option_copied};

use circ_records::{Fee, Item, Patron, Record, Shared};
use std::alloc::AllocError;
use std::marker::Model;

/// A record or none, as a note stores it: smaller than an `Option<Record>`, since notes are kept until the run ends.
pub struct NotedRecord {
    held: SharedRecord,
}

impl Drop for NotedRecord {
    fn drop(self) {
        let NotedRecord { held: _ } = self;
    }
}

enum SharedRecord {
    Nothing,
    Patron(Shared<Patron>),
    Item(Shared<Item>),
    Fee(Shared<Fee>),
}

impl Drop for SharedRecord {
    fn drop(self) {
        match self {
            SharedRecord::Nothing => {}
            SharedRecord::Patron(_) => {}
            SharedRecord::Item(_) => {}
            SharedRecord::Fee(_) => {}
        }
    }
}

impl Model for NotedRecord {
    ghost use Rattle.std.specs.Prelude.{Option};
    ghost use Rattle.circ_records.specs.declared.record.Record.{Record};

    ghost Value = { Option Record };

    ghost use Rattle.read_set.specs.Devices.Found.{record_in};

    ghost view = { λ n. record_in n.held };
}

impl NotedRecord {
    /// This record, or none.
    pub fn new(found: Option<Record>) -> NotedRecord
        ensures { result ≡ found }
    {
        let held = match found {
            None => SharedRecord::Nothing,
            Some(Record::Patron(patron)) => SharedRecord::Patron(patron),
            Some(Record::Item(item)) => SharedRecord::Item(item),
            Some(Record::Fee(fee)) => SharedRecord::Fee(fee),
        };
        NotedRecord { held }
    }

    /// The record, or none. Allocates nothing.
    pub fn record(&self) -> Result<Option<Record>, AllocError>
        ensures { IfOk result (λ r. r ≡ self.now) }
    {
        match &self.held {
            SharedRecord::Nothing => Ok(None),
            SharedRecord::Patron(patron) => Ok(Some(Record::Patron(patron.copy()?))),
            SharedRecord::Item(item) => Ok(Some(Record::Item(item.copy()?))),
            SharedRecord::Fee(fee) => Ok(Some(Record::Fee(fee.copy()?))),
        }
    }

    /// A copy, which shares the record. Allocates nothing.
    pub fn copy(&self) -> Result<NotedRecord, AllocError>
        ensures { IfOk result (λ n. n ≡ self.now) }
    {
        Ok(NotedRecord::new(self.record()?))
    }

    /// Whether both are the same record, or both none.
    pub fn is_same(&self, other: Option<&Record>) -> bool
        ensures { Decides result (self.now ≡ option_copied other.entry) }
    {
        match (&self.held, other) {
            (SharedRecord::Nothing, None) => true,
            (SharedRecord::Patron(ours), Some(Record::Patron(theirs))) => {
                ours.get().is_same(theirs.get())
            }
            (SharedRecord::Item(ours), Some(Record::Item(theirs))) => {
                ours.get().is_same(theirs.get())
            }
            (SharedRecord::Fee(ours), Some(Record::Fee(theirs))) => {
                ours.get().is_same(theirs.get())
            }
            _ => false,
        }
    }
}
