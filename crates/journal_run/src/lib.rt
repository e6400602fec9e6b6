//! A run of `sip_journal` but for what finds messages: pairs are made of what is found, and printed as rows of a journal as soon as they are
//! whole; then what was counted is reported. What finds messages has no outside, so it can print nothing.
#![tactic(auto)]

mod batch;
mod ending;
mod finding;
mod making;
mod place;
mod printing;
mod running;
mod source;
mod stop;
mod tally;

pub use ending::{make_journal, print_text, refuse, refuse_words, tell_error};
pub use finding::Finding;
pub use making::{JournalRows, Making, Taken};
pub use place::{LineHead, LogPlace};
pub use source::ExchangeSource;
pub use stop::MakingError;
pub use tally::LogTally;
