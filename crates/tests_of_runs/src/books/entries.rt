//! Calls of two stores of entries, and what lines see: `place LINE.ATTEMPT KEY`, `lift LINE KEY`,
//! `suspect LINE`; keys by their numbers.

/// A checkin runs before other words for its item, and again.
pub const EARLY: &str = "\
see 2 1 = base
see 2 0 = base
place 2.0 0
place 2.0 1
see 1 1 = base
place 1.0 1
see 1 1 = base
see 2 1 = 1.0
suspect 2
see 3 1 = suspect 2
see 2 1 = 1.0
see 2 0 = base
place 2.1 0
place 2.1 1
see 2 1 = 1.0
see 2 0 = base
see 3 0 = 2.1
see 3 1 = 2.1
";

/// A checkout and a checkin run before the line that lets their patron in; both are found changed.
/// One stops at a suspect entry, and each runs again.
pub const STALE: &str = "\
see 2 0 = base
see 2 1 = base
place 2.0 0
place 2.0 1
see 3 1 = 2.0
see 3 0 = 2.0
place 3.0 0
place 3.0 1
see 1 0 = base
place 1.0 0
see 1 0 = base
see 2 0 = 1.0
suspect 2
see 3 1 = suspect 2
suspect 3
see 3 1 = suspect 2
see 4 1 = suspect 3
see 2 0 = 1.0
see 2 1 = base
place 2.1 0
place 2.1 1
see 2 0 = 1.0
see 2 1 = base
see 3 1 = 2.1
see 3 0 = 2.1
place 3.2 0
place 3.2 1
see 3 1 = 2.1
see 3 0 = 2.1
see 4 0 = 3.2
see 4 1 = 3.2
";

/// A checkin charges a fee for a loan that is renewed before it, and its second attempt lifts the
/// fee.
pub const LIFTED: &str = "\
place 2.0 0
place 2.0 1
place 2.0 2
see 3 2 = 2.0
place 1.0 1
see 2 1 = 1.0
suspect 2
see 3 0 = suspect 2
see 3 2 = suspect 2
place 2.1 0
place 2.1 1
see 3 2 = suspect 2
lift 2 2
see 3 2 = base
see 3 0 = 2.1
";
