//! A library's records: patrons, items and fees, and how they are kept, by their keys.
//!
//! A `Key` names a record. `RecordMap` is a map of records that are put in or changed, `Records`
//! one to which none are added.
#![tactic(auto)]

mod changes;
mod holds;
mod ids;
mod key;
mod position_hints;
mod record;
mod record_list;
mod record_map;
mod records;
mod rule;
mod same;
mod shared;

pub use changes::{ListChange, put_fee};
pub use holds::{Hold, Holds, QUEUE_MAX};
pub use ids::Ids;
pub use key::{Key, KeyRef};
pub use position_hints::LikelyPositions;
pub use record::{Fee, FeeType, Item, Loan, Patron, Record};
pub use record_map::RecordMap;
pub use records::Records;
pub use rule::BaseRule;
pub use shared::Shared;
