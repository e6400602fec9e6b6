//! A whole run of `sip_replay`: what the words of its command line ask for, the files that they
//! name, the replay, what is written, one printed line and the status. `replay_run` and the crates
//! below it compute; all that is asked of files and streams goes through an `Outside`.
#![tactic(auto)]

mod checking;
mod doubt;
mod files;
mod loss;
mod progress;
mod replaying;

pub use checking::first_is_refused;
pub use replaying::{refuse_words, run};
