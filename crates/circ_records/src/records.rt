//! The records that a run begins with, and those that it ends with.

ghost use Rattle.std.specs.Prelude.{◌≡◌, ◌<◌, ◌^◌, [], IfOk, length, option_copied};
ghost use Rattle.circ_records.specs.Records.{AreRising, record_at};
ghost use Rattle.circ_records.specs.Keys.{key_of};

use crate::key::{Key, KeyRef};
use crate::record::Record;
use crate::record_list::RecordList;
use crate::record_map::RecordMap;
use std::alloc::{AllocError, Global};
use std::marker::Model;
use std::mem::replace;

/// Records by their keys, to which none are added.
pub struct Records {
    /// By rising keys.
    records: RecordList,
}

impl Drop for Records {
    fn drop(self) {
        let Records { records: _ } = self;
    }
}

impl Model for Records {
    ghost use Rattle.circ_records.specs.Records.{AreRising, Entries};

    ghost Value = { Entries };

    ghost view = { λ r. r.records.entries.items };

    ghost invariant = { λ r. AreRising r.records.entries.items };
}

impl Records {
    /// Gives exactly the records of a map, their keys rising.
    pub fn from_map(alloc: Global, records: RecordMap) -> Result<Records, AllocError>
        ensures same { IfOk result (λ r. r ≡ records) }
        ensures rising { IfOk result (λ r. AreRising r) }
    {
        let records = records.into_list(alloc)?;
        Ok(Records { records })
    }

    /// Gives the record at a key; None exactly if there is none.
    pub fn get(&self, key: KeyRef<'_>) -> Option<&Record>
        ensures { option_copied result ≡ record_at self.now (key_of key.entry) }
    {
        match self.records.position(key) {
            Ok(position) => Some(&self.records.entries[position].1),
            Err(_) => None,
        }
    }

    /// Gives all records with their keys, rising.
    pub fn as_slice(&self) -> &[(Key, Record)]
        ensures records { result.now ≡ self.now }
        ensures rising { AreRising self.now }
        ensures few { length self.now < 2 ^ 64 }
    {
        self.records.entries.as_slice()
    }

    /// Takes all records out with their keys: none are left here.
    pub fn take(&mut self, alloc: Global) -> RecordMap
        ensures taken { result ≡ self.old }
        ensures left { self.new ≡ [] }
    {
        let records = replace(&mut self.records, RecordList::new(alloc));
        RecordMap::from_list(alloc, records)
    }

    /// Makes a map without records. It finds the records at the base's keys as fast as the base
    /// does, once all of them were put into it in their order.
    pub fn empty_map(&self, alloc: Global) -> Result<RecordMap, AllocError>
        ensures { IfOk result (λ m. m ≡ []) }
    {
        let listed = self.records.emptied_copy(alloc)?;
        Ok(RecordMap::from_list(alloc, listed))
    }
}
