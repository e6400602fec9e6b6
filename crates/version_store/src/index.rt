//! Which lines have an entry, key by key.

ghost use Rattle.std.specs.Prelude.{◌≡◌, ℕ, List, None, IfOk, replicate, false};
ghost use Rattle.circ_records.specs.declared.key.Key.{Key};
ghost use Rattle.version_store.specs.Index.{in_parts, slot_of};

use crate::column::Column;
use crate::parts::{KeyParts, position_in};
use circ_records::Key;
use std::alloc::{AllocError, Global};

/// There is a slot for each two lines, so that most keys are in their slots.
const LINES_A_SLOT: usize = 2;

/// For each key the lines that have an entry there. A key's hash chooses its slot. The first key of
/// a slot stays in it, and most look-ups go no further. A key whose slot is another's is in the
/// parts.
pub struct KeyIndex {
    slots: Vec<KeySlot>,
    others: KeyParts,
    ghost kept: { (k : Key) (n : ℕ) → slot_of slots.items k ≡ None → in_parts others.parts.items k n ≡ false },
}

/// The key that is in the slot, if one is, and its lines.
type KeySlot = Option<(Key, Column)>;

impl Drop for KeyIndex {
    fn drop(self) {
        let KeyIndex {
            slots: _,
            others: _,
        } = self;
    }
}

impl KeyIndex {
    ghost use Rattle.std.specs.Prelude.{OnOk, OnErr, true};
    ghost use Rattle.version_store.specs.Index.{IsLatest, with_at};
    ghost use Rattle.version_store.specs.Indexed.{at};

    /// Makes an index in which no line has an entry at any key, with memory for this many lines.
    pub fn new(alloc: Global, lines: usize) -> Result<KeyIndex, AllocError>
        ensures { IfOk result (λ index. (q : Key) (m : ℕ) → at index q m ≡ false) }
    {
        Ok(KeyIndex {
            slots: no_slots(alloc, lines / LINES_A_SLOT + 1)?,
            others: KeyParts::new(alloc, lines)?,
        })
    }

    /// Notes that the line has an entry at the key, and nothing else.
    pub fn set(&mut self, alloc: Global, key: &Key, line: u64) -> Result<(), AllocError>
        ensures put { OnOk result
            ((q : Key) (m : ℕ) → at self.new q m ≡ with_at key.now line true (at self.old) q m) }
        ensures same { OnErr result ((q : Key) (m : ℕ) → at self.new q m ≡ at self.old q m) }
    {
        let position = position_in(self.slots.len(), key);
        if position >= self.slots.len() {
            return Err(AllocError);
        }
        match &mut self.slots[position] {
            Some((own, column)) if *own == *key => column.insert(line),
            Some(_) => self.others.set(alloc, key, line),
            slot => {
                *slot = Some((key.clone()?, Column::of(alloc, line)));
                Ok(())
            }
        }
    }

    /// Notes that the line has no entry at the key, and nothing else.
    pub fn clear(&mut self, key: &Key, line: u64)
        ensures { (q : Key) (m : ℕ) → at self.new q m
            ≡ with_at key.now line false (at self.old) q m }
    {
        let position = position_in(self.slots.len(), key);
        if position >= self.slots.len() {
            return;
        }
        match &mut self.slots[position] {
            Some((own, column)) if *own == *key => column.remove(line),
            Some(_) => self.others.clear(key, line),
            None => {}
        }
    }

    /// Gives the greatest line below this one that has an entry at the key; None if there is none.
    pub fn latest_below(&self, key: &Key, below: u64) -> Option<u64>
        ensures { IsLatest (at self.now key.now) below result }
    {
        let position = position_in(self.slots.len(), key);
        let (own, column) = self.slots.get(position)?.as_ref()?;
        if *own == *key {
            column.latest_below(below)
        } else {
            self.others.latest_below(key, below)
        }
    }
}

/// Slots that have no key.
fn no_slots(alloc: Global, count: usize) -> Result<Vec<KeySlot>, AllocError>
    ensures { IfOk result (λ slots. slots.items ≡ replicate count None) }
{
    let mut slots = Vec::with_capacity(alloc, count)?;
    for _i in 0..count {
        slots.push(None)?;
    }
    Ok(slots)
}
