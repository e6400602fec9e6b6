//! Patrons of whom a case's base has no more than what it needs.

ghost use Rattle.std.specs.Prelude.{◌≡◌, OnOk};
ghost use Rattle.circ_records.specs.Records.{record_at};
ghost use Rattle.circ_records.specs.declared.key.Key.TheVariants as keys;
ghost use Rattle.read_set.specs.Replay.{before};
ghost use Rattle.why_lines.specs.Devices.Adding.{Adds};

use circ_records::{Ids, Key, KeyRef, Patron, Record, RecordMap};
use line_origins::Tracer;
use sip_reader::Id;
use std::alloc::{AllocError, Global};

/// Puts a patron that isn't there yet. On its lists is what is there of them.
pub(crate) fn put_patron(
    alloc: Global,
    tracer: &Tracer<'_>,
    id: &Id,
    records: &mut RecordMap,
) -> Result<(), AllocError>
    ensures { OnOk result (Adds (λ k. k ≡ keys.Patron id.now) (before tracer.now.plan.now tracer.now.next) (record_at records.old) (record_at records.new)) }
{
    let key = Key::Patron(id.clone()?);
    if records.get(KeyRef::Patron(id)).is_some() {
        return Ok(());
    }
    if let Some(Record::Patron(patron)) = tracer.record(&key)? {
        let alone = with_what_is_there(alloc, patron.get(), records)?;
        records.put(alloc, key, Record::patron(alloc, alone)?)?;
    }
    Ok(())
}

/// A patron with those of its loans and fees that are among records.
fn with_what_is_there(
    alloc: Global,
    patron: &Patron,
    records: &RecordMap,
) -> Result<Patron, AllocError> {
    Ok(Patron {
        name: patron.name.clone()?,
        class: patron.class.clone()?,
        blocked: patron.blocked,
        loans: items_there(alloc, &patron.loans, records)?,
        fees: fees_there(alloc, &patron.fees, records)?,
    })
}

/// Those of a list of items that are among records.
fn items_there(alloc: Global, ids: &Ids, records: &RecordMap) -> Result<Ids, AllocError> {
    let mut there = Vec::new(alloc);
    for id in ids.as_slice() {
        if records.get(KeyRef::Item(id)).is_some() {
            there.push(id.clone()?)?;
        }
    }
    Ids::from_vec(alloc, there)
}

/// Those of a list of fees that are among records.
fn fees_there(alloc: Global, ids: &Ids, records: &RecordMap) -> Result<Ids, AllocError> {
    let mut there = Vec::new(alloc);
    for id in ids.as_slice() {
        if records.get(KeyRef::Fee(id)).is_some() {
            there.push(id.clone()?)?;
        }
    }
    Ids::from_vec(alloc, there)
}
