//! The two ways to replay a journal.

ghost use Rattle.std.specs.Prelude.{◌≡◌};
ghost use Rattle.read_set.specs.Plans.{way_of};

/// By what the records follow the lines of a journal.
#[derive(Clone, Copy, PartialEq, Eq)]
pub enum Way {
    /// What the rules do with the requests.
    ByRules,
    /// What the recorded responses say was done.
    AsRecorded,
}

impl Way {
    /// The way that is asked for: by the rules, unless it is said otherwise.
    pub fn of(as_recorded: bool) -> Way
        ensures { result ≡ way_of as_recorded }
    {
        if as_recorded {
            Way::AsRecorded
        } else {
            Way::ByRules
        }
    }
}
