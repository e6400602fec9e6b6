//! A whole run of `sip_page`: what the words of its command line ask for, the files that they name,
//! the page that a maker makes of these, one printed text and the status. The maker computes, and
//! asks nothing of files and streams: all of that goes through an `Outside`.
#![tactic(auto)]

mod files;
mod maker;
mod printing;
mod stop;
mod texts;

pub use maker::Maker;
pub use printing::{refuse_words, run};
pub use stop::NoPage;
pub use texts::{BaseTexts, BothTexts, FateTexts, NameTexts, PageTexts};
