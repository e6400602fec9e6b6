//! The plain list of entries, in no order: a second store.

use read_set::Name;
use std::alloc::{AllocError, Global};
use version_store::Found;

/// An entry of a line, from 1 on, at the key of this number.
#[derive(Clone, Copy)]
struct PlainEntry {
    line: u64,
    key: usize,
    attempt: u32,
    suspect: bool,
}

pub(crate) struct PlainStore {
    entries: Vec<PlainEntry>,
}

impl Drop for PlainStore {
    fn drop(self) {
        let PlainStore { entries: _ } = self;
    }
}

impl PlainStore {
    pub(crate) fn new(alloc: Global) -> PlainStore {
        PlainStore {
            entries: Vec::new(alloc),
        }
    }

    /// What a line sees at a key: the entry of the greatest line below it.
    pub(crate) fn name(&self, key: usize, below: u64) -> Found {
        let (mut latest, mut found) = (0, Found::Named(Name::Base));
        for entry in &self.entries {
            if entry.key == key && latest < entry.line && entry.line < below {
                latest = entry.line;
                found = found_in(*entry);
            }
        }
        found
    }

    /// The attempt of a line's entry at a key.
    pub(crate) fn attempt_at(&self, line: u64, key: usize) -> Option<u32> {
        for entry in &self.entries {
            if entry.line == line && entry.key == key {
                return Some(entry.attempt);
            }
        }
        None
    }

    pub(crate) fn place(&mut self, line: u64, attempt: u32, key: usize) -> Result<(), AllocError> {
        self.lift(line, key);
        let suspect = false;
        self.entries.push(PlainEntry {
            line,
            key,
            attempt,
            suspect,
        })?;
        Ok(())
    }

    pub(crate) fn lift(&mut self, line: u64, key: usize) {
        self.entries
            .retain(|entry| entry.line != line || entry.key != key);
    }

    pub(crate) fn suspect_all(&mut self, line: u64) {
        for entry in self.entries.iter_mut() {
            entry.suspect |= entry.line == line;
        }
    }
}

fn found_in(entry: PlainEntry) -> Found {
    let (line, attempt) = (entry.line, entry.attempt);
    if entry.suspect {
        Found::Suspect { line }
    } else {
        Found::Named(Name::Made { line, attempt })
    }
}
