//! Reads the journal, a recording of a library's SIP2 traffic: numbered lines, each with a request,
//! the connection that the request came over, and the response that was recorded.
#![tactic(auto)]

mod error;
mod journal;
mod line;
mod number;
mod readings;
mod row_text;

pub use error::{JournalError, JournalRule};
pub use journal::Journal;
pub use line::{Line, LineParts};
pub use number::{number_of, spells_decimal};
pub use readings::{Readings, STRETCH, read_all, read_in_turn};

/// The most lines that a journal has.
pub const LINE_LIMIT: usize = 1_000_000;

/// The most bytes that the name of a connection has.
pub const CONNECTION_LIMIT: usize = 64;
