//! The replies of the board's calls.

use circ_records::Key;
use read_set::{Name, PlanName};
use version_store::{Found, Place};

/// The reply of a call of the board.
#[derive(Drop)]
pub enum Reply<'t, J: PlanName> {
    /// The call doesn't apply to this state; nothing changed.
    Idle,
    /// The worker has the line in hand, with this attempt.
    Taken {
        attempt: u32,
    },
    /// The key is noted under this name. The record is what the version at the place writes;
    /// without a place it is the base's.
    Seen {
        name: Name,
        place: Option<Place<'t, J>>,
    },
    /// The entry of this line is suspect: the attempt ended.
    Suspect {
        line: u64,
    },
    /// The version is of another line, attempt or notes.
    Stranger,
    /// The next write was placed.
    Placed,
    /// An entry that an earlier attempt left was removed.
    Lifted,
    /// All is published, or all notes were compared.
    Whole,
    /// The noted name is that of the visible entry.
    Same,
    /// The noted name isn't that of the visible entry: the line waits again, and its entries are
    /// suspect.
    Changed {
        key: Key,
        noted: Name,
        found: Found,
    },
    /// The line is committed.
    Committed,
    /// The line can't commit yet.
    Later,
    /// The line has no attempt number left.
    Attempts {
        line: u64,
    },
    /// The clock can't be raised any more.
    ClockSpent,
    /// Out of memory; nothing changed.
    Memory,
}
