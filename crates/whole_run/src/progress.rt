//! A line on a terminal that says how far a run has come.

ghost use Rattle.std.specs.Prelude.{◌≡◌, ◌-◌, Some, nat_le};
ghost use Rattle.whole_run.specs.Showing.{phase_text};

use replay_run::{Gate, Moment};
use std::fmt;
use std::rt::Clock;
use std::sync::atomic::{AtomicU64, Ordering};

/// How many milliseconds lie at least between two counts that are shown: five a second.
const BETWEEN: u64 = 200;

/// What a run is at. As a text it takes the place of the one before, on the same line of a
/// terminal.
#[derive(Clone, Copy)]
enum Phase {
    /// Files are read and judged.
    Reading,
    /// How many lines are committed, of all.
    Running { committed: u64, lines: u64 },
    /// All are committed; tables are made and written.
    Writing,
    /// Nothing more is to be seen.
    Over,
}

impl fmt::Display for Phase {
    ghost output = { λ phase. Some (phase_text phase) };

    fn fmt<W: fmt::Write>(&self, f: &mut fmt::Formatter<W>) -> fmt::Result {
        match self {
            Phase::Reading => f.write_str("\rreading"),
            Phase::Running { committed, lines } => write!(f, "\r{committed} of {lines} lines"),
            Phase::Writing => f.write_str("\rwriting                 "),
            Phase::Over => f.write_str("\r                        \r"),
        }
    }
}

/// A gate that shows on standard error how many lines are committed, at most five times a second,
/// and what else a run is at. It looks at the clock once a line, outside of the lock, and only
/// where it shows anything.
pub struct Progress<'a, R> {
    rt: &'a R,
    shown: bool,
    /// The number of the first line, and the one after the last line's.
    first: AtomicU64,
    end: AtomicU64,
    /// The milliseconds of the clock at the last count.
    shown_at: AtomicU64,
}

impl<R> Drop for Progress<'_, R> {
    fn drop(self) {
        let Progress {
            rt: _,
            shown: _,
            first: _,
            end: _,
            shown_at: _,
        } = self;
    }
}

impl<'a, R: Clock + Eprint> Progress<'a, R> {
    /// Gives what shows a run that begins to read, or, if nothing is to be shown, does nothing.
    pub fn new(rt: &'a R, shown: bool) -> Progress<'a, R> {
        let progress = Progress {
            rt,
            shown,
            first: AtomicU64::new(0),
            end: AtomicU64::new(0),
            shown_at: AtomicU64::new(0),
        };
        progress.show(Phase::Reading);
        progress
    }

    /// Notes how many lines there will be: by the numbers of the journal's first row and its last
    /// one, which have no gap between them in a journal that isn't refused. Of a journal without
    /// numbers no counts are shown.
    pub fn expect(&self, journal: &[u8]) {
        if !self.shown {
            return;
        }
        let mut rows = journal.split(|byte| *byte == b'\n');
        let mut rows_from_end = journal.rsplit(|byte| *byte == b'\n');
        let Some(first) = rows.find_map(|row| number_of(row)) else {
            return;
        };
        let Some(last) = rows_from_end.find_map(|row| number_of(row)) else {
            return;
        };
        self.first.store(first, Ordering::SeqCst);
        self.end.store(last.saturating_add(1), Ordering::SeqCst);
    }

    /// Leaves nothing of it on the screen.
    pub fn clear(&self) {
        self.show(Phase::Over);
    }

    /// Prints what the run is at. A failure to print is ignored.
    fn show(&self, phase: Phase) {
        if self.shown {
            let _ = self.rt.eprint(phase);
        }
    }

    /// Shows that a line is committed, where it is the last one, or the last count is old enough.
    fn count(&self, line: u64) {
        let first = self.first.load(Ordering::SeqCst);
        let end = self.end.load(Ordering::SeqCst);
        let next = line.saturating_add(1);
        if next == end {
            self.show(Phase::Writing);
        } else if next < end && self.is_due() {
            self.show(Phase::Running {
                committed: next.saturating_sub(first),
                lines: end.saturating_sub(first),
            });
        }
    }

    /// Whether the last count is old enough; of several workers that ask, one gets yes.
    fn is_due(&self) -> bool {
        let Ok(since) = self.rt.monotonic() else {
            return false;
        };
        let now = u64::try_from(since.as_millis()).unwrap_or(0);
        let shown_at = self.shown_at.load(Ordering::SeqCst);
        is_old(shown_at, now)
            && self
                .shown_at
                .compare_exchange(shown_at, now, Ordering::SeqCst, Ordering::SeqCst)
                .is_ok()
    }
}

/// Whether a count of one time may be followed by one of another.
fn is_old(shown_at: u64, now: u64) -> bool
    ensures { result ≡ nat_le 200 (now - shown_at) }
{
    now.saturating_sub(shown_at) >= BETWEEN
}

/// The number that a row of a journal begins with.
fn number_of(row: &[u8]) -> Option<u64> {
    let mut fields = row.split(|byte| *byte == b',');
    let text = str::from_utf8(fields.next()?).ok()?;
    text.trim_matches('"').parse::<u64>().ok()
}

impl<R: Clock + Eprint> Gate for Progress<'_, R> {
    fn at(&self, _worker: u32, line: u64, moment: Moment) {
        if self.shown && moment == Moment::Committed {
            self.count(line);
        }
    }
}
