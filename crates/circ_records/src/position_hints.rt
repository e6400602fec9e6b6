//! Where the records of a list likely are.

use crate::key::Key;
use crate::record::Record;
use sip_reader::Id;
use std::alloc::{AllocError, Global};

/// The number of slots for each record: with fewer, more records would find theirs taken.
const SLOTS_A_RECORD: usize = 4;

/// At most this many slots are tried for a key, also where ids collide on purpose: a record that
/// finds them taken has no slot.
pub(crate) const TRIES: usize = 8;

/// The content of a slot that no record took.
pub(crate) const FREE: u32 = u32::MAX;

/// Where the records of one patron and one item likely are in a list: those that a line names,
/// looked for in advance.
#[derive(Clone, Copy)]
pub struct LikelyPositions {
    pub(crate) patron: Option<usize>,
    pub(crate) item: Option<usize>,
}

/// A hash table with the positions of most records of a list, by the hashes of their ids. A
/// position is a hint: if the list has another key there, binary search follows. So only the time
/// of a look-up depends on the hints.
pub(crate) struct PositionHints {
    pub(crate) slots: Vec<u32>,
    /// At most this many slots are taken.
    taken: usize,
    /// The positions that are looked at before any slot.
    pub(crate) likely: LikelyPositions,
    /// The extent of the records that were last read ahead: it is stored so that they are read.
    pub(crate) extent: usize,
}

impl Drop for PositionHints {
    fn drop(self) {
        let PositionHints {
            slots: _,
            taken: _,
            likely: _,
            extent: _,
        } = self;
    }
}

/// No positions.
const UNLIKELY: LikelyPositions = LikelyPositions {
    patron: None,
    item: None,
};

impl PositionHints {
    /// No hints, not for added records either.
    pub(crate) fn none(alloc: Global) -> PositionHints {
        PositionHints {
            slots: Vec::new(alloc),
            taken: 0,
            likely: UNLIKELY,
            extent: 0,
        }
    }

    /// Hints for the records of a list.
    pub(crate) fn of(alloc: Global, listed: &[(Key, Record)]) -> Result<PositionHints, AllocError> {
        let count = listed.len().saturating_mul(SLOTS_A_RECORD);
        let mut slots = vec![in alloc; FREE; count.saturating_add(TRIES)]?;
        for (position, entry) in listed.iter().enumerate() {
            // a position of more than 32 bits has no slot
            let Ok(position) = u32::try_from(position) else {
                break;
            };
            take_slot(&mut slots, entry.0.id().hash(), position);
        }
        Ok(PositionHints {
            slots,
            taken: listed.len(),
            likely: UNLIKELY,
            extent: 0,
        })
    }

    /// How many records the list had from which these hints were made.
    pub(crate) fn count(&self) -> usize {
        self.slots.len().saturating_sub(TRIES) / SLOTS_A_RECORD
    }

    /// Adds a hint for a record that is appended to a list. If half of the slots are taken, some
    /// by records that moved since, all hints are made again: a list that is twice as long has
    /// twice as many slots.
    pub(crate) fn add(
        &mut self,
        alloc: Global,
        listed: &[(Key, Record)],
        key: &Key,
    ) -> Result<(), AllocError> {
        if self.slots.is_empty() {
            return Ok(());
        }
        if self.taken > self.slots.len() / 2 {
            *self = PositionHints::of(alloc, listed)?;
        }
        self.taken = self.taken.saturating_add(1);
        // a position of more than 32 bits has no slot
        if let Ok(position) = u32::try_from(listed.len()) {
            take_slot(&mut self.slots, key.id().hash(), position);
        }
        Ok(())
    }

    /// The position in the first slot for an id: most likely that of its record.
    pub(crate) fn first(&self, id: &Id) -> Option<usize> {
        let firsts = self.slots.len().saturating_sub(TRIES) as u64;
        match self
            .slots
            .get((id.hash().wrapping_mul(firsts) >> 32) as usize)
        {
            Some(position) if *position != FREE => Some(*position as usize),
            _ => None,
        }
    }

    /// The same hints, for a list that likely has the same keys.
    pub(crate) fn copy(&self) -> Result<PositionHints, AllocError> {
        Ok(PositionHints {
            slots: self.slots.clone()?,
            taken: self.taken,
            likely: self.likely,
            extent: 0,
        })
    }
}

/// Puts a position into the first free slot for a hash, where there is one, unless a slot has it
/// already: in a copy of the hints of another list it does.
fn take_slot(slots: &mut Vec<u32>, hash: u64, position: u32) {
    // chosen by a hash of 32 bits; the last slots are left for those that follow the first
    let first = (hash.wrapping_mul(slots.len().saturating_sub(TRIES) as u64) >> 32) as usize;
    for slot in first..first.saturating_add(TRIES) {
        if slot >= slots.len() {
            return;
        }
        if slots[slot] == FREE || slots[slot] == position {
            slots[slot] = position;
            return;
        }
    }
}
