//! What finds the exchanges of a journal, as `journal_run` asks for them.

ghost use Rattle.std.specs.Prelude.{None};

use crate::progress::ReadProgress;
use crate::reading::JournalReader;
use journal_run::{ExchangeSource, Finding, LogPlace, LogTally, MakingError};
use std::alloc::AllocError;
use std::rt::Clock;

/// What reads logs or captures, a record or a packet at a time.
pub trait ReadsOn<'l> {
    /// Reads on; false at the end.
    fn read_on(&mut self, reading: &mut JournalReader<'l>) -> Result<bool, MakingError>;
}

/// Logs or captures, what was read of them, and how far that is shown.
pub struct Exchanges<'a, 'l, R, T> {
    pub reading: JournalReader<'l>,
    pub progress: ReadProgress<'a, R>,
    pub input: T,
}

impl<R, T: Drop> Drop for Exchanges<'_, '_, R, T> {
    fn drop(self) {
        let Exchanges {
            reading: _,
            progress: _,
            input: _,
        } = self;
    }
}

/// No contract says what was found, what was counted or which errors end it: that is to be checked by reading, and by tests.
impl<'l, R: Clock + Eprint, T: ReadsOn<'l>> ExchangeSource for Exchanges<'_, 'l, R, T> {
    ghost found = { λ _. None };

    ghost at_end = { λ _. Unit {0} };

    ghost counts = { λ _ _. Unit {0} };

    ghost fails = { λ _ _. Unit {0} };

    fn next(&mut self, batch: &mut Vec<Finding>) -> Result<bool, MakingError> {
        let more = self.input.read_on(&mut self.reading);
        self.reading.hand_on(!matches!(&more, Ok(true)), batch)?;
        self.progress.show(self.reading.judge.lines);
        more
    }

    fn place(&self) -> LogPlace<'_> {
        self.reading.place
    }

    fn tally(&self) -> LogTally {
        self.reading.tally()
    }

    fn report(&self, notes: &mut String) -> Result<(), AllocError> {
        self.reading.report(notes)
    }

    fn clear(&self) {
        self.progress.clear();
    }
}
