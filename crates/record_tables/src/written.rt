//! The tables as they are written.

ghost use Rattle.std.specs.Prelude.{◌≡◌, IfOk};
ghost use Rattle.schema.specs.Texts.{texts_of};
ghost use Rattle.record_tables.specs.Writing.{HoldsItems, HoldsPatrons};
ghost use Rattle.record_tables.specs.Written.{tables_of};

use crate::table_texts::{ItemTexts, PatronTexts, finish};
use circ_records::Records;
use schema::Tables;
use std::alloc::{AllocError, Global};
use std::thread::{Threads, join};

/// Writes the tables whose rows say these records, each record once, and nothing else.
pub fn write_records(alloc: Global, records: &Records) -> Result<Tables, AllocError>
    ensures { IfOk result (λ tables. texts_of tables ≡ tables_of records.now) }
{
    let patrons = write_patrons(alloc, records)?;
    let items = write_items(alloc, records)?;
    finish(patrons, items)
}

/// Writes by two threads just what `write_records` writes.
pub fn write_records_parallel<R: Threads + Sync>(
    rt: &R,
    alloc: Global,
    records: &Records,
) -> Result<Tables, AllocError>
    ensures { IfOk result (λ tables. texts_of tables ≡ tables_of records.now) }
{
    let (items, patrons) = join(
        rt,
        || -> Result<ItemTexts, AllocError>
            ensures { IfOk result (HoldsItems records.entry.now) }
        { write_items(alloc, records) },
        || -> Result<PatronTexts, AllocError>
            ensures { IfOk result (HoldsPatrons records.entry.now records.entry.now) }
        { write_patrons(alloc, records) },
    );
    finish(patrons?, items?)
}

/// What the patrons and fees of the records have in the tables.
fn write_patrons(alloc: Global, records: &Records) -> Result<PatronTexts, AllocError>
    ensures { IfOk result (HoldsPatrons records.now records.now) }
{
    let mut texts = PatronTexts::new(alloc)?;
    let entries = records.as_slice();
    for entry in entries {
        texts.entry(alloc, records, &entry.0, &entry.1)?;
    }
    Ok(texts)
}

/// What the items of the records have in the tables.
fn write_items(alloc: Global, records: &Records) -> Result<ItemTexts, AllocError>
    ensures { IfOk result (HoldsItems records.now) }
{
    let mut texts = ItemTexts::new(alloc)?;
    let entries = records.as_slice();
    for entry in entries {
        texts.entry(&entry.0, &entry.1)?;
    }
    Ok(texts)
}
