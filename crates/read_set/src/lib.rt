//! The plan of a replay (policy, base, reading of each line), and all rules (`specs/`): what each line reads, writes and
//! answers. A rule reads records from a `Source`.
//! This crate uses those that read messages, policy, records and journal, and `sip_answer`; `loan_meaning` and
//! `message_meaning`, which have the rules in code, use it.
#![tactic(auto)]

mod deeds;
mod effect;
mod found;
mod known;
mod laws;
mod names;
mod notes;
mod noting;
mod plan;
mod progress;
mod sorted;
mod source;
mod verdict;
mod version;
mod way;

pub use deeds::Deeds;
pub use effect::{Draft, Effect, Writes};
pub use found::NotedRecord;
pub use known::{Article, Member, known_fee, known_item, known_patron};
pub use laws::{
    asking_gives_the_rules, lines_give_the_rules, meaning_keeps_coherence,
    read_plans_stay_coherent, replay_keeps_coherence,
};
pub use names::named_by;
pub use notes::{Name, Note, Notes};
pub use noting::{NotesName, NotesSource, RecordReader, RecordingSource};
pub use plan::{Plan, PlanName};
pub use progress::{Payments, Renewals};
pub use sorted::found_in;
pub use source::{Source, Stop};
pub use verdict::{LoanRequest, Verdict};
pub use version::{Need, Version};
pub use way::Way;
