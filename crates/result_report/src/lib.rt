//! The outcome of a run, and its result tables, line by line: answers, the report of recorded
//! responses that differ, and the lines that are passed over. It uses the journal, the plan and the
//! answers.
#![tactic(auto)]

mod ends;
mod listing;
mod outcome;
mod telling;
mod texts;
mod words;

pub use ends::{End, collect};
pub use outcome::{LastRecords, Outcome};
pub use telling::Telling;
pub use texts::{ResultTexts, Sizes, report, report_parallel};
pub use words::reason_of;
