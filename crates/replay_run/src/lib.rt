//! Whole runs: from the bytes of policy, tables and journal to the tables after the last line, the
//! answers and the report; by one thread, by a list of workers' steps, or by workers in threads. It
//! uses all crates that read, the meaning of lines, the board and the report; the program uses it.
#![tactic(auto)]

mod by_steps;
mod by_workers;
mod fault;
mod in_order;
mod inputs;
mod judge;
mod laws;
mod prepared;
mod replay;
mod replay_end;
mod run;
mod written;

pub use by_steps::{Run, collect_output, rebuild_by_steps};
pub use by_workers::{finished_of, rebuild};
pub use fault::Fault;
pub use inputs::{Inputs, Output};
pub use laws::final_tables_read_back;
pub use prepared::Prepared;
pub use result_report::Sizes;
pub use run::{judge_inputs, one_thread};
pub use speculate::Step;
pub use worker_pool::{Gate, Moment};
