//! What the command lines ask for.

/// The files and folders of a run, as the words name them, how many workers are wanted, and how much is reported.
pub struct Options {
    /// The policy, a TOML file.
    pub policy: String,
    /// The folder of the tables to start from.
    pub base: String,
    /// The journal, a CSV file.
    pub journal: String,
    /// The folder that gets the files of the run.
    pub out: String,
    /// How many workers, of which 1 to 64 are taken.
    pub workers: u32,
    /// Whether what to do about a fault is printed too.
    pub explain: bool,
    /// Whether the inputs are only checked.
    pub check: bool,
    /// Whether the records follow what the recorded responses say was done.
    pub as_recorded: bool,
}

impl Drop for Options {
    fn drop(self) {
        let Options {
            policy: _,
            base: _,
            journal: _,
            out: _,
            workers: _,
            explain: _,
            check: _,
            as_recorded: _,
        } = self;
    }
}

/// The files and folders of a page, as the words name them, and how much of them it shows.
pub struct PageOptions {
    /// The journal of the run, a CSV file.
    pub journal: String,
    /// The folder of the tables that the run began with.
    pub base: Option<String>,
    /// The folder that has the files of the run.
    pub out: String,
    /// Why responses were wrong, as sip_why wrote it, a CSV file.
    pub why: Option<String>,
    /// How many wrong responses, and how many changes, are shown.
    pub limit: u32,
}

impl Drop for PageOptions {
    fn drop(self) {
        let PageOptions {
            journal: _,
            base: _,
            out: _,
            why: _,
            limit: _,
        } = self;
    }
}
