//! The keys that aren't in their slots of the index, with their lines.

ghost use Rattle.std.specs.Prelude.{◌≡◌, ℕ, IfOk, OnOk, OnErr, true, false};
ghost use Rattle.circ_records.specs.declared.key.Key.{Key};
ghost use Rattle.version_store.specs.Index.{IsLatest, in_part, in_parts, position_in, with_at};

use crate::column::Column;
use circ_records::Key;
use std::alloc::{AllocError, Global};
use std::collections::BTreeMap;

/// There is a part for each 64 lines: so it has few keys, and enough for the memory of a node.
const LINES_A_PART: usize = 64;

/// Keys with the lines that have an entry there. A key's hash chooses its part, so a look-up mostly
/// goes through few keys. A part is a tree: chosen ids can put all keys into one part, and a
/// look-up stays short even then.
pub struct KeyParts {
    pub parts: Vec<IndexPart>,
}

/// Some of the keys, with their lines.
type IndexPart = BTreeMap<Key, Column>;

impl Drop for KeyParts {
    fn drop(self) {
        let KeyParts { parts: _ } = self;
    }
}

impl KeyParts {
    /// Makes parts in which no line has an entry at any key, with memory for this many lines.
    pub fn new(alloc: Global, lines: usize) -> Result<KeyParts, AllocError>
        ensures { IfOk result (λ p. (q : Key) (m : ℕ) → in_parts p.parts.items q m ≡ false) }
    {
        let count = lines / LINES_A_PART + 1;
        let mut parts = Vec::with_capacity(alloc, count)?;
        for _i in 0..count {
            parts.push(BTreeMap::new(alloc))?;
        }
        Ok(KeyParts { parts })
    }

    /// Notes that the line has an entry at the key, and nothing else.
    pub fn set(&mut self, alloc: Global, key: &Key, line: u64) -> Result<(), AllocError>
        ensures put { OnOk result
            ((q : Key) (m : ℕ) → in_parts self.new.parts.items q m
            ≡ with_at key.now line true (in_parts self.old.parts.items) q m) }
        ensures same { OnErr result
            ((q : Key) (m : ℕ) → in_parts self.new.parts.items q m
            ≡ in_parts self.old.parts.items q m) }
    {
        let position = position_in(self.parts.len(), key);
        if position >= self.parts.len() {
            return Err(AllocError);
        }
        let part = &mut self.parts[position];
        add(part, alloc, key, line)
    }

    /// Notes that the line has no entry at the key, and nothing else.
    pub fn clear(&mut self, key: &Key, line: u64)
        ensures { (q : Key) (m : ℕ) → in_parts self.new.parts.items q m
            ≡ with_at key.now line false (in_parts self.old.parts.items) q m }
    {
        let position = position_in(self.parts.len(), key);
        if position >= self.parts.len() {
            return;
        }
        let part = &mut self.parts[position];
        if let Some(column) = part.get_mut(key) {
            column.remove(line);
        }
    }

    /// Gives the greatest line below this one that has an entry at the key; None if there is none.
    pub fn latest_below(&self, key: &Key, below: u64) -> Option<u64>
        ensures { IsLatest (in_parts self.now.parts.items key.now) below result }
    {
        let position = position_in(self.parts.len(), key);
        let column = self.parts.get(position)?.get(key)?;
        column.latest_below(below)
    }
}

/// Gives the position, among this many, that a key's hash chooses. A hash has 32 bits, so no
/// division is needed.
pub fn position_in(count: usize, key: &Key) -> usize
    ensures { result ≡ position_in count key.now }
{
    (key.id().hash().wrapping_mul(count as u64) / 4_294_967_296) as usize
}

/// Adds a line at a key of a part.
fn add(part: &mut IndexPart, alloc: Global, key: &Key, line: u64) -> Result<(), AllocError>
    ensures put { OnOk result
        ((q : Key) (m : ℕ) → in_part part.new q m
        ≡ with_at key.now line true (in_part part.old) q m) }
    ensures same { OnErr result ((q : Key) (m : ℕ) → in_part part.new q m ≡ in_part part.old q m) }
{
    if let Some(column) = part.get_mut(key) {
        return column.insert(line);
    }
    part.insert(key.clone()?, Column::of(alloc, line))?;
    Ok(())
}
