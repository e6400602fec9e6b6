//! Whether the notes of a version are those of its line.

ghost use Rattle.std.specs.Prelude.{◌≡◌, Some, slice_get};
ghost use Rattle.std.specs.Bool.{Decides};
ghost use Rattle.board_lines.specs.Notes.{notes_by};

use crate::notes::PlaceNotes;
use crate::reading::record_seen;
use read_set::{Note, Plan, PlanName};

/// Whether the notes of a version are those of its line: keys, names and records.
pub(crate) fn same_notes<J: PlanName>(
    plan: &Plan,
    ours: &PlaceNotes<'_, J>,
    theirs: &[Note],
) -> bool
    ensures { Decides result (theirs.now ≡ notes_by plan.now.base ours.now) }
{
    if theirs.len() != ours.len() {
        return false;
    }
    for i in 0..theirs.len() {
        if !same_note(plan, ours, i, &theirs[i]) {
            return false;
        }
    }
    true
}

/// Whether a note of a version is the i-th note of its line.
fn same_note<J: PlanName>(plan: &Plan, ours: &PlaceNotes<'_, J>, i: usize, theirs: &Note) -> bool
    ensures { Decides result (Some theirs.now ≡ slice_get (notes_by plan.now.base ours.now) i) }
{
    let Some(seen) = ours.get(i) else {
        return false;
    };
    if theirs.key != seen.key {
        return false;
    }
    if theirs.name != seen.name {
        return false;
    }
    let record = record_seen(plan, &seen.key, seen.place);
    theirs.found.is_same(record)
}
