//! Whether a journal and the tables of an output are of one run, line by line. Whoever shows or explains a run asks here first: tables
//! of two runs side by side would give sentences that nobody's library ever saw.
#![tactic(auto)]

mod ahead;
mod fate;
mod fits;
mod no_run;
mod run;

pub use fate::Fate;
pub use no_run::NoRun;
pub use run::{RunTexts, fates};
