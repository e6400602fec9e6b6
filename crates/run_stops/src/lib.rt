//! What ends a run of `sip_replay` before its last line: why, with the values of the row that is to
//! blame; what is printed of that, with what to do about it; and the status. `whole_run` uses it.
#![tactic(auto)]

mod remedy;
mod seen;
mod stop;
mod trouble;
mod values;

pub use remedy::Remedy;
pub use seen::{FaultDetail, stop_of};
pub use stop::{FAILED, InputName, REFUSED, RunError};
pub use values::ValueForm;
