//! The board in code: lines run early, on versions of records, and commit in the order of the
//! journal if what they have read is still right.
//!
//! `Board` has the five calls `take`, `look`, `publish`, `check` and `commit`; each is one step of
//! `board_steps`. It uses the versions and entries of `version_store` and the states of `attempts`;
//! it knows no message and no table.
#![tactic(auto)]

mod board;
mod choice;
mod driving;
mod end;
mod ending;
mod finished;
mod laws;
mod line_set;
mod playing;
mod ready;
mod steps;

pub use board::Board;
pub use board_lines::{Hand, PlaceNote, PlaceNotes, Reply, read_notes};
pub use choice::Choice;
pub use driving::drive_in_order;
pub use finished::{Finished, Open};
pub use laws::{nobody_waits_for_nobody, plays_are_reached, plays_lead_to_one_board};
pub use playing::play;
pub use steps::{BoardFault, Halt, Step};
