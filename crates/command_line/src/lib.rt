//! The words of the command lines of the programs: what they ask for, read by `clap`, of which the crates above see nothing.
#![tactic(auto)]

mod chosen;
mod diff;
mod journal;
mod page;
mod parts;
mod refusal;
mod why;
mod words;

pub use chosen::{Options, PageOptions};
pub use diff::{DiffOptions, diff_options};
pub use journal::{JournalOptions, journal_options};
pub use page::page_options;
pub use refusal::Refusal;
pub use why::{WhyOptions, why_options};
pub use words::options;
