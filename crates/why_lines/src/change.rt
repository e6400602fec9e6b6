//! Changed records.

ghost use Rattle.std.specs.Prelude.{◌≡◌, IfOk, OnOk};
ghost use Rattle.std.specs.Bool.{Decides};
ghost use Rattle.std.specs.Option.{option_copied};
ghost use Rattle.why_lines.specs.Changes.{AreChanges, AreRising};
ghost use Rattle.why_lines.specs.Devices.Noted.{AreNoted, Each, IsNoted};
ghost use Rattle.circ_records.specs.declared.key.Key.{Key};

use circ_records::{Key, Record, Records};
use std::alloc::{AllocError, Global};
use std::collections::BTreeMap;

/// What was at a key, and what is there now. These differ.
#[derive(Drop)]
pub struct Change {
    /// The record before, where there was one.
    pub before: Option<Record>,
    /// The record after, where there is one.
    pub after: Option<Record>,
}

/// What changed from records to records, by rising keys: each key at which they differ, once.
pub fn changes(
    alloc: Global,
    before: &Records,
    after: &Records,
) -> Result<Vec<(Key, Change)>, AllocError>
    ensures { IfOk result (λ v. AreChanges before.now after.now v.items) }
{
    let mut changes = BTreeMap::new(alloc);
    note_all(&mut changes, before, after, after)?;
    note_all(&mut changes, before, after, before)?;
    listed(alloc, changes)
}

/// Notes what changed at each key of some records.
fn note_all(
    changes: &mut BTreeMap<Key, Change>,
    before: &Records,
    after: &Records,
    records: &Records,
) -> Result<(), AllocError>
    requires { AreNoted before.now after.now changes.old.entries }
    ensures noted { OnOk result (AreNoted before.now after.now changes.new.entries) }
    ensures keeps { OnOk result ((k : Key) → IsNoted before.now after.now changes.old.entries k → IsNoted before.now after.now changes.new.entries k) }
    ensures each { OnOk result (Each records.now (IsNoted before.now after.now changes.new.entries)) }
{
    let entries = records.as_slice();
    for entry in entries {
        note(changes, before, after, &entry.0)?;
    }
    Ok(())
}

/// Notes what changed at a key.
fn note(
    changes: &mut BTreeMap<Key, Change>,
    before: &Records,
    after: &Records,
    key: &Key,
) -> Result<(), AllocError>
    requires { AreNoted before.now after.now changes.old.entries }
    ensures noted { OnOk result (AreNoted before.now after.now changes.new.entries) }
    ensures keeps { OnOk result ((k : Key) → IsNoted before.now after.now changes.old.entries k → IsNoted before.now after.now changes.new.entries k) }
    ensures there { OnOk result (IsNoted before.now after.now changes.new.entries key.now) }
{
    let was = before.get(key.as_ref());
    let is = after.get(key.as_ref());
    if is_same(was, is) {
        return Ok(());
    }
    let change = Change {
        before: copy(was)?,
        after: copy(is)?,
    };
    let _ = changes.insert(key.clone()?, change)?;
    Ok(())
}

/// The entries of a map in a list.
fn listed(alloc: Global, changes: BTreeMap<Key, Change>) -> Result<Vec<(Key, Change)>, AllocError>
    ensures same { IfOk result (λ v. v.items ≡ changes.entries) }
    ensures rising { IfOk result (λ v. AreRising v.items) }
{
    let mut list = Vec::new(alloc);
    for entry in changes {
        list.push(entry)?;
    }
    Ok(list)
}

fn copy(found: Option<&Record>) -> Result<Option<Record>, AllocError>
    ensures { IfOk result (λ r. r ≡ option_copied found.entry) }
{
    match found {
        Some(found) => Ok(Some(found.copy()?)),
        None => Ok(None),
    }
}

/// Whether two records are one, or there is neither.
fn is_same(a: Option<&Record>, b: Option<&Record>) -> bool
    ensures { Decides result (option_copied a.entry ≡ option_copied b.entry) }
{
    match (a, b) {
        (None, None) => true,
        (Some(a), Some(b)) => is_same_record(a, b),
        _ => false,
    }
}

fn is_same_record(a: &Record, b: &Record) -> bool
    ensures { Decides result (a.now ≡ b.now) }
{
    match (a, b) {
        (Record::Patron(a), Record::Patron(b)) => a.get().is_same(b.get()),
        (Record::Item(a), Record::Item(b)) => a.get().is_same(b.get()),
        (Record::Fee(a), Record::Fee(b)) => a.get().is_same(b.get()),
        _ => false,
    }
}
