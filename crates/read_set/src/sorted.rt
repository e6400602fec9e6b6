//! Records as a short list, rising by key.

ghost use Rattle.std.specs.Prelude.{◌≡◌, IfOk, OnOk, OnErr, option_copied};
ghost use Rattle.std.specs.BTreeMap.{insert_entry};
ghost use Rattle.circ_records.specs.Devices.Positions.{position_from};
ghost use Rattle.circ_records.specs.Keys.{key_cmp};
ghost use Rattle.circ_records.specs.Records.{record_at};
ghost use Rattle.read_set.specs.Devices.Drafts.{Rise};

use circ_records::{Key, Record};
use std::alloc::{AllocError, Global};
use std::cmp::Ordering;
use std::collections::BTreeMap;

/// The record under a key; the entries are compared one by one.
pub fn found_in<'e>(entries: &'e [(Key, Record)], key: &Key) -> Option<&'e Record>
    ensures { option_copied result ≡ record_at entries.now key.now }
{
    for entry in entries {
        if *key == entry.0 {
            return Some(&entry.1);
        }
    }
    None
}

/// The position of a key (`Ok`), or else the position at which it is to be inserted (`Err`).
fn position_of(entries: &[(Key, Record)], key: &Key) -> Result<usize, usize>
    ensures { result ≡ position_from 0 key.now entries.now }
{
    for (i, entry) in entries.iter().enumerate() {
        match key.cmp(&entry.0) {
            Ordering::Less => return Err(i),
            Ordering::Equal => return Ok(i),
            Ordering::Greater => {}
        }
    }
    Err(entries.len())
}

/// Puts a record under its key. Out of memory, nothing changes.
pub fn put_in(entries: &mut Vec<(Key, Record)>, key: Key, written: Record) -> Result<(), AllocError>
    requires { Rise entries.old.items }
    ensures ok { OnOk result (entries.new.items ≡ insert_entry key_cmp entries.old.items key written) }
    ensures err { OnErr result (entries.new.items ≡ entries.old.items) }
    ensures rising { Rise entries.new.items }
{
    match position_of(entries.as_slice(), &key) {
        Ok(position) => entries[position] = (key, written),
        Err(position) => entries.insert(position, (key, written))?,
    }
    Ok(())
}

/// Puts a record under its key in a map. Out of memory, nothing changes.
pub fn put_over(
    map: &mut BTreeMap<Key, Record>,
    key: Key,
    written: Record,
) -> Result<(), AllocError>
    ensures ok { OnOk result (map.new.entries ≡ insert_entry key_cmp map.old.entries key written) }
    ensures err { OnErr result (map.new.entries ≡ map.old.entries) }
    ensures rising { Rise map.new.entries }
{
    match map.insert(key, written) {
        Ok(_) => Ok(()),
        Err(_) => Err(AllocError),
    }
}

/// The map of copies of the records.
pub fn map_of(alloc: Global, entries: &[(Key, Record)]) -> Result<BTreeMap<Key, Record>, AllocError>
    requires { Rise entries.now }
    ensures { IfOk result (λ m. m.entries ≡ entries.now) }
{
    let mut map = BTreeMap::new(alloc);
    for entry in entries {
        map.insert(entry.0.clone()?, entry.1.copy()?)?;
    }
    Ok(map)
}
