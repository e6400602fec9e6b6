//! What finds messages.

ghost use Rattle.std.specs.Prelude.{◌≡◌, IfErr, IfOk, List, Option, false};
ghost use Rattle.log_pairs.specs.Pairs.{Said};
ghost use Rattle.journal_run.specs.Found.{found_more, said_in};
ghost use Rattle.journal_run.specs.declared.stop.MakingError.{MakingError};
ghost use Rattle.journal_run.specs.declared.tally.LogTally.{LogTally};

use crate::finding::Finding;
use crate::place::LogPlace;
use crate::stop::MakingError;
use crate::tally::LogTally;
use std::alloc::AllocError;

/// What finds requests and responses in logs or captures. It has no outside.
pub trait ExchangeSource {
    /// What was found so far, where that is known.
    ghost found: { Self → Option (List Said) };

    /// There is nothing more to find.
    ghost at_end: { Self → Type 0 };

    /// What may be counted.
    ghost counts: { Self → LogTally → Type 0 };

    /// Why it may have found nothing more.
    ghost fails: { Self → MakingError → Type 0 };

    /// Reads on, and puts what it finds into an empty list. Says whether there is more.
    fn next(&mut self, batch: &mut Vec<Finding>) -> Result<bool, MakingError>
        ensures found { found self.new ≡ found_more (said_in batch.new.items) (found self.old) }
        ensures end { IfOk result (λ more. more ≡ false → at_end self.new) }
        ensures error { IfErr result (fails self.new) };

    /// The place of what was read last.
    fn place(&self) -> LogPlace<'_>;

    /// What was counted.
    fn tally(&self) -> LogTally
        ensures { counts self.now result };

    /// Adds what is to be reported at the end.
    fn report(&self, notes: &mut String) -> Result<(), AllocError>;

    /// Something is about to be reported: leaves nothing on the screen that shows how far the run has come.
    fn clear(&self);
}
