//! The tables by name: the file that each is in, its header, and its columns. Whatever reads,
//! writes or speaks of a table has its names from here, where each is written once.
#![tactic(auto)]

mod line_table;
mod table_name;
mod tables;

pub use line_table::LineTable;
pub use table_name::{NO_HOLDS, TableName};
pub use tables::Tables;
