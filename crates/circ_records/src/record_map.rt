//! Records by their keys, to which others are added.

ghost use Rattle.std.specs.BTreeMap.{insert_entry};
ghost use Rattle.std.specs.Prelude.{◌≡◌, ◌⊎◌, ◌++◌, ◌∷◌, [], Some, None, IsTrue, cond, is_some, option_copied, IfOk, OnOk, OnErr};
ghost use Rattle.std.specs.Ordering.{eq_by_cmp};
ghost use Rattle.std.specs.declared.cmp.Ordering.TheVariants.{Greater};
ghost use Rattle.circ_records.specs.Changes.{IsChanged, broken_by};
ghost use Rattle.circ_records.specs.Keys.{key_cmp, key_of};
ghost use Rattle.circ_records.specs.Records.{AreRising, Entries, record_at};
ghost use Rattle.circ_records.specs.declared.key.Key.{Key};
ghost use Rattle.circ_records.specs.declared.record.Record.{Record};

use crate::changes::{ListChange, apply};
use crate::key::{Key, KeyRef};
use crate::position_hints::{LikelyPositions, PositionHints};
use crate::record::Record;
use crate::record_list::RecordList;
use crate::rule::BaseRule;
use sip_reader::Id;
use std::alloc::{AllocError, Global};
use std::collections::BTreeMap;
use std::marker::Model;
use std::mem::replace;

/// Records by their keys, put in one by one. Records that come after all others are in a list,
/// since most tables have their rows in rising order: a list takes little memory, and a record is
/// found by a hint or by binary search. Any other record goes into a map, and so do all listed
/// records after it, so that inserting among them doesn't move a list each time. With each further
/// record at most two go back from the map to the list, the first ones (`put_after_list`).
pub struct RecordMap {
    /// By rising keys.
    listed: RecordList,
    /// After all that are listed.
    mapped: BTreeMap<Key, Record>,
}

impl Drop for RecordMap {
    fn drop(self) {
        let RecordMap {
            listed: _,
            mapped: _,
        } = self;
    }
}

impl Model for RecordMap {
    ghost use Rattle.std.specs.Prelude.{◌++◌};
    ghost use Rattle.circ_records.specs.Records.{AreRising, Entries};

    ghost Value = { Entries };

    ghost view = { λ m. m.listed.entries.items ++ m.mapped.entries };

    ghost invariant = { λ m. AreRising (m.listed.entries.items ++ m.mapped.entries) };
}

impl RecordMap {
    /// Makes a map without records.
    pub fn new(alloc: Global) -> RecordMap
        ensures { result ≡ [] }
    {
        RecordMap::from_list(alloc, RecordList::new(alloc))
    }

    /// Makes a map without records, with memory for this many.
    pub fn with_capacity(alloc: Global, count: usize) -> Result<RecordMap, AllocError>
        ensures { IfOk result (λ m. m ≡ []) }
    {
        let listed = RecordList::with_capacity(alloc, count)?;
        Ok(RecordMap::from_list(alloc, listed))
    }

    /// The records of a list that rises by key.
    pub(crate) fn from_list(alloc: Global, listed: RecordList) -> RecordMap
        requires { AreRising listed.entries.items }
        ensures { result ≡ listed.entries.items }
    {
        RecordMap {
            listed,
            mapped: BTreeMap::new(alloc),
        }
    }

    /// Gives the record at a key; None exactly if there is none.
    pub fn get(&self, key: KeyRef<'_>) -> Option<&Record>
        ensures { option_copied result ≡ record_at self.now (key_of key.entry) }
    {
        match self.listed.position(key) {
            Ok(position) => Some(&self.listed.entries[position].1),
            Err(_) => found_in_map(&self.mapped, key),
        }
    }

    /// Says where the records of a patron and an item likely are; only the time of look-ups depends
    /// on it.
    pub fn likely(&self, patron: Option<&Id>, item: Option<&Id>) -> LikelyPositions {
        let hints = &self.listed.hints;
        LikelyPositions {
            patron: patron.and_then(|id| hints.first(id)),
            item: item.and_then(|id| hints.first(id)),
        }
    }

    /// Changes no record: reads those at these positions, so that they are in the processor's cache
    /// when rules ask for them.
    pub fn read_ahead(&mut self, likely: &[LikelyPositions])
        ensures { self.new ≡ self.old }
    {
        let mut extent: usize = 0;
        for positions in likely {
            extent = extent
                .saturating_add(self.listed.extent_at(positions.patron))
                .saturating_add(self.listed.extent_at(positions.item));
        }
        self.listed.hints.extent = extent;
    }

    /// Changes no record: from now on a patron or an item is looked for at these positions first.
    /// Only the time of look-ups depends on them.
    pub fn expect(&mut self, likely: LikelyPositions)
        ensures { self.new ≡ self.old }
    {
        self.listed.hints.likely = likely;
    }

    /// Puts a record at a key, and returns whether there was one; all other records stay. Most new
    /// keys come after all others, so that is tried before the hints are. Out of memory, all
    /// records stay or all are lost: the map isn't to be used again.
    pub fn put(&mut self, alloc: Global, key: Key, value: Record) -> Result<bool, AllocError>
        ensures double { IfOk result (λ double. double ≡ is_some (record_at self.old key)) }
        ensures put { OnOk result
            ((q : Key) → record_at self.new q ≡ cond (eq_by_cmp key_cmp key q) (Some value)
            (record_at self.old q)) }
        ensures err { OnErr result ((self.new ≡ self.old) ⊎ (self.new ≡ [])) }
    {
        if self.mapped.is_empty() && self.listed.goes_last(key.as_ref()) {
            self.listed.push(alloc, key, value)?;
            return Ok(false);
        }
        let position = match self.listed.position(key.as_ref()) {
            Ok(position) => {
                self.listed.entries[position].1 = value;
                return Ok(true);
            }
            Err(position) => position,
        };
        let mut listed = replace(&mut self.listed, RecordList::new(alloc));
        let mapped = replace(&mut self.mapped, BTreeMap::new(alloc));
        let mut mapped = put_before(listed.entries.split_off(position)?, mapped)?;
        let double = put_after_list(alloc, &mut listed, &mut mapped, key, value)?;
        self.listed = listed;
        self.mapped = mapped;
        Ok(double)
    }

    /// Changes the record at a key, or returns the rule that the change breaks there. One look-up
    /// serves for both. Out of memory, nothing changes.
    pub fn change(
        &mut self,
        alloc: Global,
        key: Key,
        what: ListChange,
    ) -> Result<Option<BaseRule>, AllocError>
        ensures rule { IfOk result (λ broken. broken ≡ broken_by what (record_at self.old key)) }
        ensures ok { IfOk result (λ broken. broken ≡ None → IsChanged key what self.old self.new) }
        ensures err { OnErr result ((q : Key) → record_at self.new q ≡ record_at self.old q) }
    {
        if let Ok(position) = self.listed.position(key.as_ref()) {
            let broken = apply(alloc, &mut self.listed.entries[position].1, what)?;
            return Ok(broken);
        }
        let Some(target) = self.mapped.get_mut(&key) else {
            return Ok(Some(what.lacks()));
        };
        let broken = apply(alloc, target, what)?;
        Ok(broken)
    }

    /// Gives the same records in a list, whatever the order in which they were put in, with hints.
    /// Records that are put in from now on get hints, too.
    pub fn with_hints(self, alloc: Global) -> Result<RecordMap, AllocError>
        ensures { IfOk result (λ m. m ≡ self) }
    {
        let mut listed = self.into_list(alloc)?;
        listed.hints = PositionHints::of(alloc, listed.entries.as_slice())?;
        Ok(RecordMap::from_list(alloc, listed))
    }

    /// All records in a list that rises by key.
    pub(crate) fn into_list(self, alloc: Global) -> Result<RecordList, AllocError>
        ensures same { IfOk result (λ l. l.entries.items ≡ self) }
        ensures rising { IfOk result (λ l. AreRising l.entries.items) }
    {
        let RecordMap { listed, mapped } = self;
        let mut list = listed;
        for (key, record) in mapped {
            list.push(alloc, key, record)?;
        }
        Ok(list)
    }
}

/// The record of a map under a key.
fn found_in_map<'m>(mapped: &'m BTreeMap<Key, Record>, key: KeyRef<'_>) -> Option<&'m Record>
    ensures { option_copied result ≡ record_at mapped.now.entries (key_of key.entry) }
{
    if mapped.is_empty() {
        return None;
    }
    if let Ok(owned) = key.to_key() {
        return mapped.get(&owned);
    }
    // the id has as many clones as can be counted
    for (own, record) in mapped {
        if key.compare(own).is_eq() {
            return Some(record);
        }
    }
    None
}

/// A map with the records of a list that come before it.
fn put_before(
    list: Vec<(Key, Record)>,
    mapped: BTreeMap<Key, Record>,
) -> Result<BTreeMap<Key, Record>, AllocError>
    requires { AreRising (list.items ++ mapped.entries) }
    ensures { IfOk result (λ m. m.entries ≡ list.items ++ mapped.entries) }
{
    let (mut left, mut all) = (list, mapped);
    while let Some((key, record)) = left.pop() {
        all.insert(key, record)?;
    }
    Ok(all)
}

/// Puts a record into a map whose records come after those of a list, and returns whether there was
/// one. At most two records of the map that come before it move to the list, and the record too
/// where it then comes first. Ids of made fees rise with the lines but for one more digit (`R10-0`
/// is before `R9-0`), so most are soon in the list again. With at most two moves for each record,
/// all records together take time in proportion to their number.
fn put_after_list(
    alloc: Global,
    listed: &mut RecordList,
    mapped: &mut BTreeMap<Key, Record>,
    key: Key,
    value: Record,
) -> Result<bool, AllocError>
    ensures double { IfOk result (λ double. double ≡ is_some (record_at mapped.old.entries key)) }
    ensures put { OnOk result
        (listed.new.entries.items ++ mapped.new.entries
        ≡ listed.old.entries.items ++ insert_entry key_cmp mapped.old.entries key value) }
{
    move_first(alloc, listed, mapped, &key)?;
    move_first(alloc, listed, mapped, &key)?;
    if goes_first(mapped, &key) {
        listed.push(alloc, key, value)?;
        return Ok(false);
    }
    let before = mapped.insert(key, value)?;
    Ok(before.is_some())
}

/// Moves the first record of a map to the end of the list before it, where a key comes after it.
fn move_first(
    alloc: Global,
    listed: &mut RecordList,
    mapped: &mut BTreeMap<Key, Record>,
    key: &Key,
) -> Result<(), AllocError>
    ensures at { OnOk result (record_at mapped.new.entries key.now
        ≡ record_at mapped.old.entries key.now) }
    ensures same { OnOk result
        ((value : Record) → listed.new.entries.items
        ++ insert_entry key_cmp mapped.new.entries key.now value
        ≡ listed.old.entries.items ++ insert_entry key_cmp mapped.old.entries key.now value) }
{
    if !goes_after_first(mapped, key) {
        return Ok(());
    }
    if let Some((first, value)) = mapped.pop_first() {
        listed.push(alloc, first, value)?;
    }
    Ok(())
}

/// Whether a key comes before all of a map.
fn goes_first(mapped: &BTreeMap<Key, Record>, key: &Key) -> bool
    ensures none { IsTrue result → record_at mapped.now.entries key.now ≡ None }
    ensures first { IsTrue result → (value : Record)
        → insert_entry key_cmp mapped.now.entries key.now value
        ≡ (key.now, value) ∷ mapped.now.entries }
{
    match mapped.first_key_value() {
        Some((first, _)) => key.cmp(first).is_lt(),
        None => true,
    }
}

/// Whether a key comes after the first of a map.
fn goes_after_first(mapped: &BTreeMap<Key, Record>, key: &Key) -> bool
    ensures { IsTrue result → (e : Key × Record) → (es : Entries) → mapped.now.entries ≡ e ∷ es
        → key_cmp key.now e.0 ≡ Greater }
{
    match mapped.first_key_value() {
        Some((first, _)) => key.cmp(first).is_gt(),
        None => false,
    }
}
