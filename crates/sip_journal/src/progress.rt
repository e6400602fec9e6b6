//! How far a run has come, on a terminal.

use std::rt::Clock;

/// How many milliseconds lie at least between two counts that are shown: five a second.
const BETWEEN: u64 = 200;

/// How many lines are read between two looks at the clock.
const STRIDE: u64 = 512;

/// What shows on standard error how many lines were read.
pub struct ReadProgress<'a, R> {
    rt: &'a R,
    is_shown: bool,
    /// How many strides of lines were read.
    strides: u64,
    shown_at: u64,
}

impl<R> Drop for ReadProgress<'_, R> {
    fn drop(self) {
        let ReadProgress {
            rt: _,
            is_shown: _,
            strides: _,
            shown_at: _,
        } = self;
    }
}

impl<'a, R: Clock + Eprint> ReadProgress<'a, R> {
    pub fn new(rt: &'a R, is_shown: bool) -> ReadProgress<'a, R> {
        ReadProgress {
            rt,
            is_shown,
            strides: 0,
            shown_at: 0,
        }
    }

    /// Shows how many lines were read, at most five times a second.
    pub fn show(&mut self, lines: u64) {
        let strides = lines / STRIDE;
        if !self.is_shown || strides == self.strides {
            return;
        }
        self.strides = strides;
        let Ok(since) = self.rt.monotonic() else {
            return;
        };
        let now = u64::try_from(since.as_millis()).unwrap_or(0);
        if now.saturating_sub(self.shown_at) >= BETWEEN {
            self.shown_at = now;
            let _ = self.rt.eprint(format_args!("\r{lines} lines"));
        }
    }

    /// Leaves nothing on the screen.
    pub fn clear(&self) {
        if self.is_shown {
            let _ = self.rt.eprint("\r                        \r");
        }
    }
}
