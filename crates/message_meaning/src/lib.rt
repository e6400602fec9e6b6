//! What each line of a plan does: the meaning of a line, computed over any source of records.
//! `read_set` says what a line means over the whole map of records; the replay, by one thread or by many, calls this crate.
//! `Live` has the records as they are while one thread replays lines: a source that has all of them.
#![tactic(auto)]

mod blocks;
mod holds;
mod item_statuses;
mod laws;
mod lines;
mod live;
mod needs;
mod payments;
mod told;

pub use holds::hold_refusal;
pub use laws::payments_pay_what_is_meant;
pub use lines::perform;
pub use live::Live;
pub use needs::need;
