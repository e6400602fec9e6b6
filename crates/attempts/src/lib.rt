//! Attempts: the state of each line of a journal, which of its attempts were begun, and how often
//! lines were taken, sent back and committed.
//!
//! An attempt's number is used once: each take of a line gives it the next one. The counts balance
//! in every table: its type's invariant says so. This crate knows nothing of records, keys or
//! versions; the board decides when a line changes its state.
#![tactic(auto)]

mod counts;
mod state;
mod table;

pub use counts::Counts;
pub use state::LineState;
pub use table::AttemptTable;
