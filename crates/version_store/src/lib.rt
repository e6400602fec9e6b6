//! What the attempts at the lines have written, and which entry a line sees.
//!
//! A version is put into the `VersionTable` once and stays there; threads put and read without a
//! lock. A `Place` is a reference into it. An `EntryStore` says, for each line, at which keys it
//! has an entry, of which attempt, and the place of the version; a line sees the entry of the
//! greatest line below it that has one. The store has keys, names and places, and no record.
#![tactic(auto)]

mod column;
mod entry;
mod entry_list;
mod index;
mod line;
mod parts;
mod store;
mod table;

pub use entry::{Found, StoredEntry};
pub use store::EntryStore;
pub use table::{Place, VersionTable};
