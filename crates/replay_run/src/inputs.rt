//! The inputs and the output of a run.

use read_set::Way;
use result_report::Sizes;
use schema::Tables;

/// The inputs of a run, as the bytes of its files.
pub struct Inputs {
    pub policy: Vec<u8>,
    pub tables: Tables,
    pub journal: Vec<u8>,
    /// Whether the rules or the recorded responses say what was done.
    pub way: Way,
}

impl Drop for Inputs {
    fn drop(self) {
        let Inputs {
            policy: _,
            tables: _,
            journal: _,
            way: _,
        } = self;
    }
}

/// The output of a run: the tables after the last line and the result tables, as the bytes of their
/// files, the numbers of rows, and of each line the number of the attempt whose answer counts, from
/// 0.
pub struct Output {
    pub tables: Tables,
    pub answers: Vec<u8>,
    pub report: Vec<u8>,
    pub passed: Vec<u8>,
    pub sizes: Sizes,
    pub attempts: Vec<u32>,
}

impl Drop for Output {
    fn drop(self) {
        let Output {
            tables: _,
            answers: _,
            report: _,
            passed: _,
            sizes: _,
            attempts: _,
        } = self;
    }
}
