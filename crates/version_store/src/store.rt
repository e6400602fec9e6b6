//! The entries of all lines.

ghost use Rattle.std.specs.Prelude.{◌≡◌, ◌^◌, ◌<◌, ℕ, OnOk, OnErr, IfOk, MatchOption, length, option_map, slice_get};
ghost use Rattle.std.specs.FinMap as fin;
ghost use Rattle.version_store.specs.Entries.{AllOf, IsLeastLeft, IsLine, IsNamedAt, attempt_at, found_at, line_at, no_rows, none_placed, position_of, shown, shown_by, suspected, visible, with_line};

use crate::entry::{Found, StoredEntry};
use crate::index::KeyIndex;
use crate::line::LineEntries;
use crate::table::Place;
use circ_records::Key;
use read_set::{Name, PlanName};
use std::alloc::{AllocError, Global};
use std::marker::Model;

/// The entries of the lines of a journal, by their numbers.
pub struct EntryStore<'t, J: PlanName> {
    first: u64,
    lines: Vec<LineEntries<'t, J>>,
    index: KeyIndex,
}

impl<J: PlanName> Drop for EntryStore<'_, J> {
    fn drop(self) {
        let EntryStore {
            first: _,
            lines: _,
            index: _,
        } = self;
    }
}

impl<'t, J: PlanName> Model for EntryStore<'t, J> {
    ghost use Rattle.std.specs.Coded.{codes};
    ghost use Rattle.std.specs.FinMap as fin;
    ghost use Rattle.version_store.specs.Entries.{Store};

    ghost Value = { Store };

    ghost coded = { Prim.hlevel (codes, fin.code) };

    ghost use Rattle.version_store.specs.Indexed.{IsIndexed};

    ghost view = { λ s. record { first = s.first; lines = s.lines.items } };

    ghost invariant = { λ s. IsIndexed s.index (record { first = s.first; lines = s.lines.items }) };
}

impl<'t, J: PlanName> EntryStore<'t, J> {
    /// Makes a store for this many lines from the number `first` on, none of which has an entry.
    pub fn new(alloc: Global, first: u64, lines: usize) -> Result<EntryStore<'t, J>, AllocError>
        ensures { IfOk result (λ s. s ≡ none_placed first lines) }
    {
        Ok(EntryStore {
            first,
            lines: no_lines(alloc, lines)?,
            index: KeyIndex::new(alloc, lines)?,
        })
    }

    /// Gives the entry that a line sees at a key, and the line that has it: the greatest line below
    /// that has one. None if the line sees the base.
    pub fn see(&self, key: &Key, below: u64) -> Option<(u64, StoredEntry<'t, J>)>
        ensures { option_map (λ p. (p.0, shown p.1)) result
            ≡ visible (line_at self.now) below key.now }
    {
        let line = self.index.latest_below(key, below)?;
        let made = self.lines[(line - self.first) as usize].get(key)?;
        Some((line, made))
    }

    /// Gives the name of what a line sees at a key: that of the entry of the greatest line below
    /// that has one, or that of the base.
    pub fn name(&self, key: &Key, below: u64) -> Found
        ensures { result ≡ found_at (line_at self.now) below key.now }
    {
        let Some((line, made)) = self.see(key, below) else {
            return Found::Named(Name::Base);
        };
        if made.suspect {
            return Found::Suspect { line };
        }
        Found::Named(Name::Made {
            line,
            attempt: made.attempt,
        })
    }

    /// Gives the i-th key, from 0 and rising, at which a line has an entry, and the attempt of that
    /// entry; None past the last.
    pub fn keys_of(&self, line: u64, i: usize) -> Option<(&Key, u32)>
        ensures value { IsNamedAt (slice_get (fin.entries (line_at self.now line)) i) result }
        ensures few { length (fin.entries (line_at self.now line)) < 2 ^ 64 }
    {
        let Some(position) = self.position(line) else {
            return None;
        };
        self.lines[position].nth(i)
    }

    /// Gives at how many keys a line has an entry.
    pub fn count_of(&self, line: u64) -> usize
        ensures { result ≡ length (fin.entries (line_at self.now line)) }
    {
        let Some(position) = self.position(line) else {
            return 0;
        };
        self.lines[position].count()
    }

    /// Gives the attempt of a line's entry at a key; None exactly if it has no entry there.
    pub fn attempt_at(&self, line: u64, key: &Key) -> Option<u32>
        ensures { result ≡ attempt_at (line_at self.now line) key.now }
    {
        let position = self.position(line)?;
        let made = self.lines[position].get(key)?;
        Some(made.attempt)
    }

    /// Gives the least key at which a line has an entry of another attempt; None if it has none.
    pub fn left(&self, line: u64, attempt: u32) -> Option<&'t Key>
        ensures { MatchOption result (AllOf (line_at self.now line) attempt)
            (λ k. IsLeastLeft (line_at self.now line) attempt k.now) }
    {
        let Some(position) = self.position(line) else {
            return None;
        };
        self.lines[position].left(attempt)
    }

    /// Puts an entry of a line at a key, and changes no other: it is of this attempt and at this
    /// place, isn't suspect, and borrows the key. Out of memory, nothing changes.
    pub fn place(
        &mut self,
        alloc: Global,
        line: u64,
        attempt: u32,
        key: &'t Key,
        place: Place<'t, J>,
    ) -> Result<(), AllocError>
        requires { IsLine self.old line }
        ensures placed { OnOk result
            (self.new ≡ with_line self.old line
            (fin.insert (line_at self.old line) key.now
            (shown_by attempt place.entry.version.now))) }
        ensures same { OnErr result (self.new ≡ self.old) }
    {
        let made = StoredEntry {
            attempt,
            suspect: false,
            place,
        };
        self.index.set(alloc, key, line)?;
        let row = &mut self.lines[(line - self.first) as usize];
        match row.put(alloc, key, made) {
            Ok(()) => Ok(()),
            Err(refused) => {
                self.index.clear(key, line);
                Err(refused)
            }
        }
    }

    /// Removes the entry of a line at a key, if it has one, and no other.
    pub fn lift(&mut self, line: u64, key: &Key)
        ensures { self.new ≡ with_line self.old line (fin.remove (line_at self.old line) key.now) }
    {
        let Some(position) = self.position(line) else {
            return;
        };
        let row = &mut self.lines[position];
        row.take_out(key);
        self.index.clear(key, line);
    }

    /// Makes each entry of a line suspect, and changes no other line.
    pub fn suspect_all(&mut self, line: u64)
        ensures { self.new ≡ with_line self.old line (suspected (line_at self.old line)) }
    {
        let Some(position) = self.position(line) else {
            return;
        };
        let row = &mut self.lines[position];
        row.suspect_all();
    }

    /// The index of a line's entries.
    fn position(&self, line: u64) -> Option<usize>
        ensures { result ≡ position_of self.now line }
    {
        if line < self.first {
            return None;
        }
        let position = (line - self.first) as usize;
        if position >= self.lines.len() {
            return None;
        }
        Some(position)
    }
}

/// Lines that have no entries.
fn no_lines<'t, J: PlanName>(
    alloc: Global,
    lines: usize,
) -> Result<Vec<LineEntries<'t, J>>, AllocError>
    ensures { IfOk result (λ v. v.items ≡ no_rows lines) }
{
    let mut rows = Vec::with_capacity(alloc, lines)?;
    for _i in 0..lines {
        rows.push(LineEntries::new())?;
    }
    Ok(rows)
}
