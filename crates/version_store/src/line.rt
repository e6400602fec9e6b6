//! The entries of one line.

ghost use Rattle.std.specs.Prelude.{◌≡◌, ◌^◌, ◌<◌, OnOk, OnErr, Some, None, MatchOption, MatchResult, length, slice_get, option_map};
ghost use Rattle.std.specs.FinMap as fin;
ghost use Rattle.version_store.specs.Entries.{AllOf, IsLeastLeft, IsNamedAt, keyed, line_of, no_entries, shown, suspected};
ghost use Rattle.version_store.specs.Devices.Positions.{IsAt, IsGap, Rise};

use crate::entry::StoredEntry;
use crate::entry_list::{EntryList, Placed};
use circ_records::Key;
use read_set::PlanName;
use std::alloc::{AllocError, Global};
use std::marker::Model;

/// The entries of one line, rising by key.
pub struct LineEntries<'t, J: PlanName> {
    entries: EntryList<'t, J>,
}

impl<J: PlanName> Drop for LineEntries<'_, J> {
    fn drop(self) {
        let LineEntries { entries: _ } = self;
    }
}

impl<'t, J: PlanName> Model for LineEntries<'t, J> {
    ghost use Rattle.std.specs.Coded.{codes};
    ghost use Rattle.std.specs.FinMap as fin;
    ghost use Rattle.version_store.specs.Entries.{Line};

    ghost Value = { Line };

    ghost coded = { Prim.hlevel (codes, fin.code) };

    ghost use Rattle.version_store.specs.Entries.{keyed, line_of};

    ghost view = { λ l. line_of (keyed l.entries) };

    ghost use Rattle.version_store.specs.Devices.Positions.{Rise};

    ghost invariant = { λ l. Rise (keyed l.entries) };
}

impl<'t, J: PlanName> LineEntries<'t, J> {
    /// Makes a line without an entry.
    pub fn new() -> LineEntries<'t, J>
        ensures { result ≡ no_entries }
    {
        LineEntries {
            entries: EntryList::new(),
        }
    }

    /// Gives the entry at a key; None exactly if there is none.
    pub fn get(&self, key: &Key) -> Option<StoredEntry<'t, J>>
        ensures { option_map shown result ≡ fin.get self.now key.now }
    {
        match self.entries.position(key) {
            Ok(position) => Some(self.entries.index(position).1),
            Err(_) => None,
        }
    }

    /// Puts an entry at a key, in place of one that is there, and borrows the key.
    pub fn put(
        &mut self,
        alloc: Global,
        key: &'t Key,
        made: StoredEntry<'t, J>,
    ) -> Result<(), AllocError>
        ensures put { OnOk result (self.new ≡ fin.insert self.old key.now (shown made.entry)) }
        ensures same { OnErr result (self.new ≡ self.old) }
        ensures absent { OnErr result (fin.get self.old key.now ≡ None) }
    {
        match self.entries.position(key) {
            Ok(position) => self.entries.set(position, (key, made)),
            Err(position) => self.entries.insert(alloc, position, (key, made))?,
        }
        Ok(())
    }

    /// Removes the entry at a key, and no other.
    pub fn take_out(&mut self, key: &Key)
        ensures { self.new ≡ fin.remove self.old key.now }
    {
        if let Ok(position) = self.entries.position(key) {
            self.entries.remove(position);
        }
    }

    /// Makes each entry suspect, and changes nothing else of them.
    pub fn suspect_all(&mut self)
        ensures { self.new ≡ suspected self.old }
    {
        self.entries.suspect_all();
    }

    /// Gives the i-th key, rising, and the attempt of its entry; None past the last.
    pub fn nth(&self, i: usize) -> Option<(&Key, u32)>
        ensures value { IsNamedAt (slice_get (fin.entries self.now) i) result }
        ensures few { length (fin.entries self.now) < 2 ^ 64 }
    {
        if i >= self.entries.len() {
            return None;
        }
        let (key, made) = self.entries.index(i);
        Some((key, made.attempt))
    }

    /// Gives how many entries there are.
    pub fn count(&self) -> usize
        ensures { result ≡ length (fin.entries self.now) }
    {
        self.entries.len()
    }

    /// Gives the least key whose entry isn't of this attempt; None if all are.
    pub fn left(&self, attempt: u32) -> Option<&'t Key>
        ensures { MatchOption result (AllOf self.now attempt)
            (λ k. IsLeastLeft self.now attempt k.now) }
    {
        for i in 0..self.entries.len() {
            let (key, made) = self.entries.index(i);
            if made.attempt != attempt {
                return Some(key);
            }
        }
        None
    }
}
