//! The records of what a line has noted.

ghost use Rattle.std.specs.Prelude.{◌≡◌, ◌<◌, IfOk, Some, length, option_copied, option_map, slice_get};
ghost use Rattle.read_set.specs.Settling.{Contents};
ghost use Rattle.board_steps.specs.Steps.{IsVersion};
ghost use Rattle.board_lines.specs.Notes.{found_by, notes_by, contents_at};

use crate::notes::PlaceNotes;
use circ_records::{Key, Record};
use read_set::{Note, NotedRecord, Notes, Plan, PlanName, found_in};
use std::alloc::{AllocError, Global};
use version_store::Place;

/// Up to this many writes are searched one by one: testing two keys for equality costs less than
/// ordering them.
const SCANNED_MAX: usize = 4;

/// Gives the record that was seen at a key: what the version at the place writes; the base's if
/// there is no place.
pub fn record_seen<'p, 't: 'p, J: PlanName>(
    plan: &'p Plan,
    key: &Key,
    place: Option<Place<'t, J>>,
) -> Option<&'p Record>
    ensures { option_copied result ≡ found_by plan.now.base key.now
        (option_map contents_at place.entry) }
{
    match place {
        Some(place) => {
            let writes = place.show().writes();
            if writes.len() <= SCANNED_MAX {
                return found_in(writes, key);
            }
            let Ok(position) = writes.binary_search_by(|write| write.0.cmp(key)) else {
                return None;
            };
            Some(&writes[position].1)
        }
        None => plan.base(key),
    }
}

/// Gives the notes of a line, each with the record that was seen.
pub fn read_notes<J: PlanName>(
    alloc: Global,
    plan: &Plan,
    noted: &PlaceNotes<'_, J>,
) -> Result<Notes, AllocError>
    ensures { IfOk result (λ notes. notes ≡ notes_by plan.now.base noted.now) }
{
    let mut notes = Notes::new(alloc);
    for i in 0..noted.len() {
        notes.add(read_note(plan, noted, i)?)?;
    }
    Ok(notes)
}

/// The i-th note with its record.
fn read_note<J: PlanName>(
    plan: &Plan,
    noted: &PlaceNotes<'_, J>,
    i: usize,
) -> Result<Note, AllocError>
    requires { i < length noted.now }
    ensures { IfOk result (λ note. Some note ≡ slice_get (notes_by plan.now.base noted.now) i) }
{
    let Some(seen) = noted.get(i) else {
        unreachable!()
    };
    let found = NotedRecord::new(copied(record_seen(plan, &seen.key, seen.place))?);
    Ok(Note {
        key: seen.key.clone()?,
        name: seen.name,
        found,
    })
}

/// Gives a copy of this record, or none if there is none.
pub fn copied(found: Option<&Record>) -> Result<Option<Record>, AllocError>
    ensures { IfOk result (λ copy. copy ≡ option_copied found.entry) }
{
    match found {
        Some(record) => Ok(Some(record.copy()?)),
        None => Ok(None),
    }
}
