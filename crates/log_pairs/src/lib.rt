//! Makes a journal from a server's log. Requests and responses are added line by line, as the log has them; pairs
//! of a request and its response are taken in the order of the requests, and written as rows. A pair is in memory
//! only until it is taken.
#![tactic(auto)]

mod client;
mod escapes;
mod exchange;
mod fitting;
mod odd;
mod pairing;
mod rows;
mod waiting;

pub use client::{Answered, FitCounts};
pub use escapes::{Escapes, unescaped};
pub use exchange::Exchange;
pub use fitting::fits;
pub use odd::{Direction, Odd, lacks_end, odd_of};
pub use pairing::{PATIENCE, Pairing, gives_rightly};
pub use rows::{head_text, joins, reads_back, rows_text};
