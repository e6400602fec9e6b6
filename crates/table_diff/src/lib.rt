//! How two folders of tables are compared: rows of one name against one another, and of what only
//! one side has which rows the other lacks. What differs becomes the rows of a table.
#![tactic(auto)]

mod changes;
mod differences;
mod laws;
mod names;
mod row;
mod surplus;

pub use differences::Report;
pub use laws::lists_nothing_where_same;
pub use names::DiffFault;
pub use row::{DiffRow, TableForm};
