//! What the board has of a line besides its state and its entries.

use crate::notes::PlaceNotes;
use read_set::PlanName;
use version_store::Place;

/// How far the publication of a version has come.
#[derive(Clone, Copy)]
pub struct LineProgress {
    /// How many of its first writes are placed.
    pub placed: usize,
}

/// What a line has noted, the place of the version that it published last, how far that publication
/// has come, and the clock at the last change of the line's entries.
pub struct LineRow<'t, J: PlanName> {
    pub notes: PlaceNotes<'t, J>,
    pub version: Option<Place<'t, J>>,
    pub course: LineProgress,
    pub changed: u64,
}

impl<J: PlanName> Drop for LineRow<'_, J> {
    fn drop(self) {
        let LineRow {
            notes: _,
            version: _,
            course: _,
            changed: _,
        } = self;
    }
}

impl<'t, J: PlanName> LineRow<'t, J> {
    ghost use Rattle.std.specs.Prelude.{◌≡◌};
    ghost use Rattle.board_lines.specs.Parts.{no_notes, row_shown};

    /// Makes the row of a line that never ran.
    pub fn new() -> LineRow<'t, J>
        ensures { row_shown result ≡ no_notes }
    {
        LineRow {
            notes: PlaceNotes::new(),
            version: None,
            course: LineProgress { placed: 0 },
            changed: 0,
        }
    }
}
