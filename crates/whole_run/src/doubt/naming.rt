//! Whether what requests name is known.

use super::LinesDoubt;
use circ_policy::Policy;
use csv::{ByteRecord, ReaderBuilder};
use journal_table::Journal;
use memchr::memmem;
use read_set::named_by;
use schema::Tables;
use sip_reader::{Id, Reading};
use std::alloc::{AllocError, Global};
use std::collections::BTreeSet;

/// It is doubted if more than one in this many requests names an unknown patron, or item.
const QUARTER: u64 = 4;

/// Gives the doubt exactly if no request has the policy's institution. None if memory ran out.
pub fn institution_doubt(
    alloc: Global,
    policy: &Policy,
    journal: &Journal<'_>,
) -> Option<Option<LinesDoubt>> {
    let institution = str::from_utf8(policy.institution().as_bytes()).ok()?;
    if names_institution(alloc, journal, institution)? {
        return Some(None);
    }
    let id = String::from_str(alloc, institution).ok()?;
    Some(Some(LinesDoubt::Institution { id }))
}

/// Whether a request has this institution.
fn names_institution(alloc: Global, journal: &Journal<'_>, institution: &str) -> Option<bool> {
    let field = format!(in alloc; "AO{institution}|").ok()?;
    let field = field.as_bytes();
    Some(
        journal
            .lines()
            .iter()
            .any(|line| memmem::find(line.parts().request, field).is_some()),
    )
}

/// The ids of the base's patrons and items.
#[derive(Drop)]
pub struct KnownIds {
    patrons: BTreeSet<Id>,
    items: BTreeSet<Id>,
}

impl KnownIds {
    /// Keeps the ids of all patrons and items of the base.
    pub fn of(alloc: Global, base: &Tables) -> Result<KnownIds, AllocError> {
        let patrons = ids_of(alloc, base.patrons.as_slice())?;
        let items = ids_of(alloc, base.items.as_slice())?;
        Ok(KnownIds { patrons, items })
    }
}

/// The ids of a table: its first column.
fn ids_of(alloc: Global, text: &[u8]) -> Result<BTreeSet<Id>, AllocError> {
    let mut reader = ReaderBuilder::new()
        .has_headers(true)
        .from_reader(alloc, text);
    let mut row = ByteRecord::new(alloc);
    let mut ids = BTreeSet::new(alloc);
    for _ in 0..text.len() {
        match reader.read_byte_record(&mut row) {
            Ok(true) => {}
            _ => break,
        }
        if let Some(id) = Id::read(alloc, row.get(0).unwrap_or(b""))? {
            let _ = ids.insert(id)?;
        }
    }
    Ok(ids)
}

/// How many requests name a patron or an item, and how many of them one that isn't known.
#[derive(Clone, Copy)]
pub struct Named {
    patrons: u64,
    unknown_patrons: u64,
    items: u64,
    unknown_items: u64,
}

impl Named {
    /// Begins with no request counted.
    pub fn none() -> Named {
        Named {
            patrons: 0,
            unknown_patrons: 0,
            items: 0,
            unknown_items: 0,
        }
    }

    /// Counts a request, and whether its patron and its item are among the known ones.
    pub fn count(&mut self, reading: &Reading, known: &KnownIds) {
        if let Reading::Asked(request) = reading {
            let (patron, item) = named_by(&request.act);
            self.count_known(
                patron.map(|id| known.patrons.contains(id)),
                item.map(|id| known.items.contains(id)),
            );
        }
    }

    /// Counts whether the patron and the item that a request names are known, if it names them.
    fn count_known(&mut self, patron: Option<bool>, item: Option<bool>) {
        if let Some(known) = patron {
            self.patrons = self.patrons.saturating_add(1);
            if !known {
                self.unknown_patrons = self.unknown_patrons.saturating_add(1);
            }
        }
        if let Some(known) = item {
            self.items = self.items.saturating_add(1);
            if !known {
                self.unknown_items = self.unknown_items.saturating_add(1);
            }
        }
    }

    /// Gives the doubt exactly if many of the requests that name a patron name one that the base
    /// doesn't have.
    pub fn patrons_doubt(self) -> Option<LinesDoubt> {
        let (unknown, named) = (self.unknown_patrons, self.patrons);
        if is_many(unknown, named) {
            Some(LinesDoubt::Patrons { unknown, named })
        } else {
            None
        }
    }

    /// Gives the doubt exactly if many of the requests that name an item name one that the base
    /// doesn't have.
    pub fn items_doubt(self) -> Option<LinesDoubt> {
        let (unknown, named) = (self.unknown_items, self.items);
        if is_many(unknown, named) {
            Some(LinesDoubt::Items { unknown, named })
        } else {
            None
        }
    }
}

/// Whether it is more than a quarter.
fn is_many(unknown: u64, named: u64) -> bool {
    unknown > named / QUARTER
}
