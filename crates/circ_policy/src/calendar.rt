//! The days on which a library is open.

ghost use Rattle.std.specs.Prelude.{◌≡◌, ◌≤◌, true, not, length};
ghost use Rattle.std.specs.List.{list_any};

use std::collections::BTreeSet;

/// The days on which a library is closed. A weekday is open and at most 400 dates are closed: 401
/// weeks have an open day.
pub(crate) struct Calendar {
    /// For each weekday, from Monday on, whether it is closed.
    pub closed_weekdays: [bool; 7],
    /// The closed dates, as numbers of days.
    pub closed_dates: BTreeSet<u32>,
    pub ghost seven: { length closed_weekdays ≡ 7 },
    pub ghost some_open: { list_any not closed_weekdays ≡ true },
    pub ghost few_closed: { length closed_dates.keys ≤ 400 },
}

impl Drop for Calendar {
    fn drop(self) {
        let Calendar {
            closed_weekdays: _,
            closed_dates: _,
        } = self;
    }
}
