//! The effect of a line: what it writes and answers.

ghost use Rattle.std.specs.Prelude.{◌≡◌, ◌∷◌, [], map, IfOk, OnOk, OnErr};
ghost use Rattle.std.specs.BTreeMap.{insert_entry};
ghost use Rattle.std.specs.List.Sorted.{IsStrictlySortedBy};
ghost use Rattle.std.specs.Option.{option_copied};
ghost use Rattle.circ_records.specs.Keys.{key_cmp};
ghost use Rattle.circ_records.specs.Records.{record_at};
ghost use Rattle.read_set.specs.Devices.Drafts.{Rise, entries_in};
ghost use Rattle.read_set.specs.Effects.{unwritten};

use crate::sorted::{found_in, map_of, put_in, put_over};
use circ_records::{Key, Record};
use sip_answer::Answer;
use std::alloc::{AllocError, Global};
use std::collections::BTreeMap;
use std::marker::Model;

/// Up to this many records are kept in a list, which costs less than a map.
const LIST_MAX: usize = 8;

/// The first allocation has capacity for this many records: most lines that write any write two.
const USUAL: usize = 2;

/// The records that a line writes so far. Of several under one key the newest counts.
pub struct Draft {
    records: ListOrMap,
}

impl Drop for Draft {
    fn drop(self) {
        let Draft { records: _ } = self;
    }
}

/// Records by rising keys: few in a list, more in a map, where adding one is cheap, however many there are.
#[derive(Drop)]
enum ListOrMap {
    List(Vec<(Key, Record)>),
    Map(BTreeMap<Key, Record>),
}

impl Model for Draft {
    ghost use Rattle.circ_records.specs.Records.{Entries};

    ghost Value = { Entries };

    ghost use Rattle.read_set.specs.Devices.Drafts.{Rise, entries_in};

    ghost view = { λ d. entries_in d.records };

    ghost invariant = { λ d. Rise (entries_in d.records) };
}

impl Draft {
    /// No records.
    pub fn new(alloc: Global) -> Draft
        ensures { result ≡ [] }
    {
        Draft {
            records: ListOrMap::List(Vec::new(alloc)),
        }
    }

    /// No records, with capacity for `count`.
    pub fn with_room(alloc: Global, count: usize) -> Result<Draft, AllocError>
        ensures { IfOk result (λ d. d ≡ []) }
    {
        Ok(Draft {
            records: ListOrMap::List(Vec::with_capacity(alloc, count)?),
        })
    }

    /// The record that was written last under a key.
    pub fn get(&self, key: &Key) -> Option<&Record>
        ensures { option_copied result ≡ record_at self.now key.now }
    {
        match &self.records {
            ListOrMap::List(list) => found_in(list.as_slice(), key),
            ListOrMap::Map(map) => map.get(key),
        }
    }

    /// Adds a record under its key. Out of memory, nothing changes.
    pub fn put(&mut self, key: Key, written: Record) -> Result<(), AllocError>
        ensures ok { OnOk result (self.new ≡ insert_entry key_cmp self.old key written) }
        ensures err { OnErr result (self.new ≡ self.old) }
    {
        self.make_room()?;
        match &mut self.records {
            ListOrMap::List(list) => put_in(list, key, written),
            ListOrMap::Map(map) => put_over(map, key, written),
        }
    }

    /// Allocates memory for the first records, and replaces the list by a map once it has `LIST_MAX` records. The map gets copies, so
    /// that the list stays whole if memory runs out.
    fn make_room(&mut self) -> Result<(), AllocError>
        ensures { self.new ≡ self.old }
    {
        let ListOrMap::List(list) = &mut self.records else {
            return Ok(());
        };
        if list.is_empty() {
            list.reserve_exact(USUAL)?;
        }
        if list.len() < LIST_MAX {
            return Ok(());
        }
        let map = map_of(*list.allocator(), list.as_slice())?;
        self.records = ListOrMap::Map(map);
        Ok(())
    }

    /// The records in the order of keys.
    #[inline(always)]
    pub fn finish(self, alloc: Global) -> Result<Writes, AllocError>
        ensures { IfOk result (λ w. w ≡ self) }
    {
        let Draft { records } = self;
        match records {
            ListOrMap::List(entries) => Ok(Writes { entries }),
            ListOrMap::Map(map) => listed(alloc, map),
        }
    }
}

/// The records of a map in the order of keys.
fn listed(alloc: Global, map: BTreeMap<Key, Record>) -> Result<Writes, AllocError>
    ensures { IfOk result (λ w. w ≡ map.entries) }
{
    let mut entries = Vec::with_capacity(alloc, map.len())?;
    for (key, record) in map {
        entries.push((key, record))?;
    }
    Ok(Writes { entries })
}

/// The records that a line writes, each under its key, in the order of keys.
pub struct Writes {
    entries: Vec<(Key, Record)>,
}

impl Drop for Writes {
    fn drop(self) {
        let Writes { entries: _ } = self;
    }
}

impl Model for Writes {
    ghost use Rattle.circ_records.specs.Records.{Entries};

    ghost Value = { Entries };

    ghost use Rattle.std.specs.Prelude.{map};
    ghost use Rattle.std.specs.List.Sorted.{IsStrictlySortedBy};
    ghost use Rattle.circ_records.specs.Keys.{key_cmp};

    ghost view = { λ w. w.entries.items };

    ghost invariant = { λ w. IsStrictlySortedBy key_cmp (map (λ e. e.0) w.entries.items) };
}

impl Writes {
    /// No records.
    pub fn none(alloc: Global) -> Writes
        ensures { result ≡ [] }
    {
        Writes {
            entries: Vec::new(alloc),
        }
    }

    /// One record.
    pub fn one(alloc: Global, key: Key, written: Record) -> Result<Writes, AllocError>
        ensures { IfOk result (λ w. w ≡ (key, written) ∷ []) }
    {
        let mut entries = Vec::with_capacity(alloc, 1)?;
        entries.push((key, written))?;
        Ok(Writes { entries })
    }

    /// The records with their keys, rising.
    pub fn as_slice(&self) -> &[(Key, Record)]
        ensures writes { result.now ≡ self.now }
        ensures rising { IsStrictlySortedBy key_cmp (map (λ e. e.0) self.now) }
    {
        self.entries.as_slice()
    }

    /// Frees the spare capacity.
    pub(crate) fn shrink_to_fit(&mut self)
        ensures { self.new ≡ self.old }
    {
        self.entries.shrink_to_fit();
    }

    /// The records with their keys, rising.
    pub fn into_vec(self) -> Vec<(Key, Record)>
        ensures { result.items ≡ self }
    {
        let Writes { entries } = self;
        entries
    }
}

/// What a line does: the records that it writes, and its answer, where it has one.
#[derive(Drop)]
pub struct Effect {
    pub writes: Writes,
    pub answer: Option<Answer>,
}

impl Effect {
    /// Nothing is written.
    pub fn unwritten(alloc: Global, answer: Option<Answer>) -> Effect
        ensures { result ≡ unwritten answer }
    {
        Effect {
            writes: Writes::none(alloc),
            answer,
        }
    }
}
