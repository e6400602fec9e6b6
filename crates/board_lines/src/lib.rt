//! The lines of the board: for each line its current attempt, what that has noted and published,
//! and which worker has the line in hand. A value of `Lines` is a state that some steps lead to.
//!
//! `Lines` has the five calls `take`, `look`, `publish`, `check` and `commit`; each is one step of
//! `board_steps`. `take` and `commit` are in the module `lines`, each of the others in a child
//! module, and the results of lines in the child `committed`. `Lines` uses the versions and entries
//! of `version_store` and the states of `attempts`; it knows no message and no table. `speculate`
//! adds the sets of lines from which a free worker chooses.
#![tactic(auto)]

mod acts;
mod hand;
mod lines;
mod notes;
mod reading;
mod reply;
mod row;
mod same;

pub use hand::Hand;
pub use lines::Lines;
pub use notes::{PlaceNote, PlaceNotes};
pub use reading::{copied, read_notes, record_seen};
pub use reply::Reply;
