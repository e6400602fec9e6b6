//! The workers: threads that run the lines of a plan over one board under one lock.
//!
//! A `SharedBoard` lets one worker at a time hold its board (`FusedBoard`). The rules of lines run
//! outside the lock, and the table of versions is outside it too. This crate knows no message and
//! no csv table.
#![tactic(auto)]

mod calls;
mod gate;
mod held;
mod on_board;
mod shared;
mod workers;

pub use calls::{Begun, Left};
pub use gate::{Gate, Moment, NoGate};
pub use held::FusedBoard;
pub use shared::{SharedBoard, TRIES_AT_EASE};
pub use workers::run_workers;
