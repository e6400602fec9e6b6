//! Records as a list, rising by key, in which one is found by a hint of its position or by binary
//! search.

ghost use Rattle.std.specs.Prelude.{◌≡◌, ◌++◌, ◌∷◌, [], Err, IfOk, IsTrue, Ok, OnErr, OnOk, length};
ghost use Rattle.circ_records.specs.Keys.{key_of};
ghost use Rattle.circ_records.specs.Devices.Positions.{position_from};
ghost use Rattle.circ_records.specs.Records.{AreRising};

use crate::key::{Key, KeyRef};
use crate::position_hints::{FREE, PositionHints, TRIES};
use crate::record::Record;
use std::alloc::{AllocError, Global};

/// Records by their keys. To look for one, the keys have to rise.
pub(crate) struct RecordList {
    pub(crate) entries: Vec<(Key, Record)>,
    /// Hints for the position of each record.
    pub(crate) hints: PositionHints,
}

impl Drop for RecordList {
    fn drop(self) {
        let RecordList {
            entries: _,
            hints: _,
        } = self;
    }
}

impl RecordList {
    /// No records, and no hints.
    pub(crate) fn new(alloc: Global) -> RecordList
        ensures { result.entries.items ≡ [] }
    {
        RecordList {
            entries: Vec::new(alloc),
            hints: PositionHints::none(alloc),
        }
    }

    /// No records, no hints, and memory for this many records.
    pub(crate) fn with_capacity(alloc: Global, count: usize) -> Result<RecordList, AllocError>
        ensures { IfOk result (λ l. l.entries.items ≡ []) }
    {
        let entries = Vec::with_capacity(alloc, count)?;
        Ok(RecordList {
            entries,
            hints: PositionHints::none(alloc),
        })
    }

    /// No records, but the hints of this list: they are right once records with the same keys were
    /// appended in the same order.
    pub(crate) fn emptied_copy(&self, alloc: Global) -> Result<RecordList, AllocError>
        ensures { IfOk result (λ l. l.entries.items ≡ []) }
    {
        let hints = self.hints.copy()?;
        let entries = Vec::with_capacity(alloc, hints.count())?;
        Ok(RecordList { entries, hints })
    }

    /// The position of a key, or else the position at which it would have to be inserted. First the
    /// position is tried that is likely, then those of the key's slots, then whether the key comes
    /// after all others, then binary search.
    pub(crate) fn position(&self, key: KeyRef<'_>) -> Result<usize, usize>
        requires { AreRising self.now.entries.items }
        ensures { result ≡ position_from 0 (key_of key.entry) self.now.entries.items }
    {
        let (listed, hints) = (self.entries.as_slice(), &self.hints);
        let (likely, id) = match key {
            KeyRef::Patron(id) => (hints.likely.patron, id),
            KeyRef::Item(id) => (hints.likely.item, id),
            KeyRef::Fee(id) => (None, id),
        };
        if let Some(position) = likely {
            if is_at(listed, position, key) {
                return Ok(position);
            }
        }
        // the first slot, as for `take_slot`
        let firsts = hints.slots.len().saturating_sub(TRIES) as u64;
        let first = (id.hash().wrapping_mul(firsts) >> 32) as usize;
        for slot in first..first.saturating_add(TRIES) {
            let position = hints.slots.get(slot).copied().unwrap_or(FREE);
            if is_at(listed, position as usize, key) {
                return Ok(position as usize);
            }
            if position == FREE {
                break;
            }
        }
        if self.goes_last(key) {
            return Err(listed.len());
        }
        listed.binary_search_by(|entry| key.order(&entry.0))
    }

    /// The extent of the record at a position, 0 where there is none.
    pub(crate) fn extent_at(&self, position: Option<usize>) -> usize {
        let Some(position) = position else {
            return 0;
        };
        match self.entries.get(position) {
            Some(entry) => entry.1.extent(),
            None => 0,
        }
    }

    /// Whether a key comes after all others, by a comparison with the last.
    pub(crate) fn goes_last(&self, key: KeyRef<'_>) -> bool
        requires { AreRising self.now.entries.items }
        ensures { IsTrue result → position_from 0 (key_of key.entry) self.now.entries.items
            ≡ Err (length self.now.entries.items) }
    {
        match self.entries.last() {
            Some(last) => key.compare(&last.0).is_gt(),
            None => true,
        }
    }

    /// Appends a record, with a hint where the list has hints. Out of memory, the records stay as
    /// they are.
    pub(crate) fn push(&mut self, alloc: Global, key: Key, record: Record) -> Result<(), AllocError>
        ensures ok { OnOk result (self.new.entries.items
            ≡ self.old.entries.items ++ (key, «record») ∷ []) }
        ensures err { OnErr result (self.new.entries.items ≡ self.old.entries.items) }
    {
        self.hints.add(alloc, self.entries.as_slice(), &key)?;
        self.entries.push((key, record))?;
        Ok(())
    }
}

/// Whether a key is at a position.
fn is_at(listed: &[(Key, Record)], position: usize, key: KeyRef<'_>) -> bool
    requires { AreRising listed.now }
    ensures { IsTrue result → position_from 0 (key_of key.entry) listed.now ≡ Ok position }
{
    match listed.get(position) {
        Some(entry) => key.compare(&entry.0).is_eq(),
        None => false,
    }
}
