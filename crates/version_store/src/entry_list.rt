//! A list of entries that takes no memory of its own while it has one or two, as that of most
//! lines.

ghost use Rattle.std.specs.Prelude.{◌≡◌, ◌<◌, ◌≤◌, [], OnOk, OnErr, MatchResult, length, set, slice_index_or};
ghost use Rattle.std.specs.List.{insert, remove};
ghost use Rattle.version_store.specs.Devices.Positions.{IsAt, IsGap, Rise, all_marked, marked};
ghost use Rattle.version_store.specs.Entries.{keyed};

use crate::entry::StoredEntry;
use circ_records::Key;
use read_set::PlanName;
use std::alloc::{AllocError, Global};
use std::cmp::Ordering;
use std::marker::Model;

/// An entry, and its key, borrowed from the writes of the version at its place: with a key of its
/// own it would take more memory.
pub type Placed<'t, J> = (&'t Key, StoredEntry<'t, J>);

/// The capacity of the first list on the heap.
const FIRST_ROOM: usize = 4;

/// Entries with their keys. There is such a list for each line of a journal. `SmallVec` would also
/// hold a few inline, but its elements need a default, which a reference doesn't have.
pub struct EntryList<'t, J: PlanName> {
    held: FewOrMany<'t, J>,
}

/// Where the entries are.
pub(crate) enum FewOrMany<'t, J: PlanName> {
    Empty,
    One(Placed<'t, J>),
    Two(Placed<'t, J>, Placed<'t, J>),
    Many(Vec<Placed<'t, J>>),
}

impl<J: PlanName> Drop for EntryList<'_, J> {
    fn drop(self) {
        let EntryList { held: _ } = self;
    }
}

impl<J: PlanName> Drop for FewOrMany<'_, J> {
    fn drop(self) {
        match self {
            FewOrMany::Empty => {}
            FewOrMany::One(_) => {}
            FewOrMany::Two(_, _) => {}
            FewOrMany::Many(_) => {}
        }
    }
}

impl<'t, J: PlanName> Model for EntryList<'t, J> {
    ghost use denote.Ref.{Bor};
    ghost use Rattle.std.specs.Prelude.{List};
    ghost use Rattle.circ_records.specs.declared.key.Key.{Key};
    ghost use Rattle.version_store.specs.declared.entry.StoredEntry.{StoredEntry};
    ghost use Rattle.version_store.specs.Devices.FewOrMany.{entries_in};

    ghost Value = { List (Bor Key × StoredEntry J) };

    ghost view = { λ l. entries_in l.held };
}

impl<'t, J: PlanName> EntryList<'t, J> {
    /// Makes the list without an entry.
    pub fn new() -> EntryList<'t, J>
        ensures { result ≡ [] }
    {
        EntryList {
            held: FewOrMany::Empty,
        }
    }

    /// Gives how many entries there are.
    pub fn len(&self) -> usize
        ensures { result ≡ length self.now }
    {
        match &self.held {
            FewOrMany::Empty => 0,
            FewOrMany::One(_) => 1,
            FewOrMany::Two(_, _) => 2,
            FewOrMany::Many(many) => many.len(),
        }
    }

    /// Gives the entry at a position, from 0.
    pub fn index(&self, position: usize) -> Placed<'t, J>
        requires { position < length self.now }
        ensures { result ≡ slice_index_or self.now position result }
    {
        match &self.held {
            FewOrMany::Empty => unreachable!(),
            FewOrMany::One(one) => *one,
            FewOrMany::Two(one, other) => { if position == 0 { *one } else { *other } }
            FewOrMany::Many(many) => many[position],
        }
    }

    /// Gives the position of a key, or else the position at which it keeps the keys rising.
    pub fn position(&self, key: &Key) -> Result<usize, usize>
        requires { Rise (keyed self.now) }
        ensures { MatchResult result (IsAt (keyed self.now) key.now)
            (IsGap (keyed self.now) key.now) }
    {
        match &self.held {
            FewOrMany::Empty => Err(0),
            FewOrMany::One(one) => match (*one.0).cmp(key) {
                Ordering::Less => Err(1),
                Ordering::Equal => Ok(0),
                Ordering::Greater => Err(0),
            },
            FewOrMany::Two(one, other) => match (*one.0).cmp(key) {
                Ordering::Less => match (*other.0).cmp(key) {
                    Ordering::Less => Err(2),
                    Ordering::Equal => Ok(1),
                    Ordering::Greater => Err(1),
                },
                Ordering::Equal => Ok(0),
                Ordering::Greater => Err(0),
            },
            FewOrMany::Many(many) => position_of(many, key),
        }
    }

    /// Puts this entry at a position in place of the one there; no other changes.
    pub fn set(&mut self, position: usize, entry: Placed<'t, J>)
        requires { position < length self.old }
        ensures { self.new ≡ set self.old position entry.entry }
    {
        if let FewOrMany::Many(many) = &mut self.held {
            many[position] = entry;
            return;
        }
        self.held = match &self.held {
            FewOrMany::Two(_, other) if position == 0 => FewOrMany::Two(entry, *other),
            FewOrMany::Two(one, _) => FewOrMany::Two(*one, entry),
            FewOrMany::Empty | FewOrMany::One(_) | FewOrMany::Many(_) => FewOrMany::One(entry),
        };
    }

    /// Inserts an entry at a position, and moves those from there on. Out of memory, nothing
    /// changes.
    pub fn insert(
        &mut self,
        alloc: Global,
        position: usize,
        entry: Placed<'t, J>,
    ) -> Result<(), AllocError>
        requires { position ≤ length self.old }
        ensures put { OnOk result (self.new ≡ insert self.old position entry.entry) }
        ensures same { OnErr result (self.new ≡ self.old) }
    {
        if let FewOrMany::Many(many) = &mut self.held {
            many.insert(position, entry)?;
            return Ok(());
        }
        self.held = match &self.held {
            FewOrMany::Empty => FewOrMany::One(entry),
            FewOrMany::One(one) => {
                if position == 0 {
                    FewOrMany::Two(entry, *one)
                } else {
                    FewOrMany::Two(*one, entry)
                }
            }
            FewOrMany::Two(one, other) => {
                let mut many = Vec::with_capacity(alloc, FIRST_ROOM)?;
                many.push(*one)?;
                many.push(*other)?;
                many.insert(position, entry)?;
                FewOrMany::Many(many)
            }
            FewOrMany::Many(_) => return Ok(()),
        };
        Ok(())
    }

    /// Removes the entry at a position, and no other.
    pub fn remove(&mut self, position: usize)
        requires { position < length self.old }
        ensures { self.new ≡ remove self.old position }
    {
        if let FewOrMany::Many(many) = &mut self.held {
            let _ = many.remove(position);
            return;
        }
        self.held = match &self.held {
            FewOrMany::Two(one, other) => FewOrMany::One(if position == 0 { *other } else { *one }),
            FewOrMany::Empty | FewOrMany::One(_) | FewOrMany::Many(_) => FewOrMany::Empty,
        };
    }

    /// Makes each entry suspect, and changes nothing else of them.
    pub fn suspect_all(&mut self)
        ensures { self.new ≡ all_marked self.old }
    {
        if let FewOrMany::Many(many) = &mut self.held {
            mark_all(many);
            return;
        }
        self.held = match &self.held {
            FewOrMany::One(one) => FewOrMany::One(suspect(*one)),
            FewOrMany::Two(one, other) => FewOrMany::Two(suspect(*one), suspect(*other)),
            FewOrMany::Empty | FewOrMany::Many(_) => FewOrMany::Empty,
        };
    }
}

/// The entry as a suspect one.
fn suspect<'t, J: PlanName>(entry: Placed<'t, J>) -> Placed<'t, J>
    ensures { result ≡ (entry.entry.0, marked entry.entry.1) }
{
    let (key, mut made) = entry;
    made.suspect = true;
    (key, made)
}

/// Makes each entry suspect.
fn mark_all<J: PlanName>(entries: &mut [Placed<'_, J>])
    ensures { entries.new ≡ all_marked entries.old }
{
    for i in 0..entries.len() {
        entries[i].1.suspect = true;
    }
}

/// The position of a key in a long list, or else the position to which it goes.
fn position_of<J: PlanName>(entries: &[Placed<'_, J>], key: &Key) -> Result<usize, usize>
    requires { Rise (keyed entries.now) }
    ensures { MatchResult result (IsAt (keyed entries.now) key.now)
        (IsGap (keyed entries.now) key.now) }
{
    entries.binary_search_by(|entry| (*entry.0).cmp(key))
}
