//! The six tables of a library's records: read as a base, which a run begins with, and written of
//! the records that it ends with.
//!
//! `read_base` makes records of six tables, or names the first rule that they break, and
//! `check_base` lists all that they break;
//! `write_records` makes the tables of records, and `write_records_parallel` makes the same by two
//! threads.
#![tactic(auto)]

mod adding;
mod base;
mod check;
mod closed;
mod fault;
mod fee_rows;
mod fees;
mod hold_rows;
mod items;
mod judge;
mod known;
mod laws;
mod loan_rows;
mod loans;
mod made_fees;
mod patrons;
mod queues;
mod row_texts;
mod rows;
mod seen_holds;
mod seen_ids;
mod seen_loans;
mod sizes;
mod table_texts;
mod values;
mod written;

pub use base::read_base;
pub use check::{TableCheck, check_base};
pub use fault::{BaseError, RowValues};
pub use laws::{entries_are_told, first_is_the_fault, written_is_told, written_reads_back};
pub use made_fees::is_taken;
pub use row_texts::{day_text, flag_text};
pub use sizes::TableSizes;
pub use values::{due_of, flag_of, renewals_of};
pub use written::{write_records, write_records_parallel};
