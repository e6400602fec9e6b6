//! Rows of a journal, printed.

ghost use Rattle.std.specs.Prelude.{◌≡◌, ◌+◌, IfErr, OnOk, Some, [], ◌∷◌, length, true};
ghost use Rattle.csv_table.specs.Text.{table_text};
ghost use Rattle.journal_table.specs.Journal.{header};
ghost use Rattle.log_pairs.specs.Rows.{rows_from};
ghost use Rattle.outside.specs.Events.{Did};
ghost use Rattle.journal_run.specs.Printing.{BreaksOff, FailsToPrint, HasPrinted, Prints, head_to_print, to_print};
ghost use Rattle.journal_run.specs.Stops.{IsFailure, IsPastEnd};

use crate::making::Making;
use crate::stop::{JournalStop, MakingError};
use log_pairs::{head_text, rows_text};
use outside::Outside;
use sip_reader::LINE_NUMBER_END;

impl Making {
    /// Prints the exchanges that are whole, under the header where nothing was printed yet.
    pub(crate) fn print<O: Outside>(&mut self, outside: &mut O) -> Result<(), JournalStop>
        ensures printed { OnOk result (HasPrinted self.old self.new) }
        ensures text { OnOk result (Did (Prints (to_print self.old)) (O.log outside.old) (O.log outside.new)) }
        ensures kind { IfErr result (IsFailure (IsPastEnd (self.old.number + length self.old.ready.items))) }
        ensures stops { IfErr result (λ stop. Did (BreaksOff (to_print self.old) stop) (O.log outside.old) (O.log outside.new)) }
    {
        self.print_head(outside)?;
        self.print_rows(outside)?;
        Ok(())
    }

    /// Prints the header, where it wasn't.
    fn print_head<O: Outside>(&mut self, outside: &mut O) -> Result<(), JournalStop>
        ensures printed { OnOk result (self.new ≡ record self.old { begun = true }) }
        ensures text { OnOk result (Did (Prints (head_to_print self.old.begun)) (O.log outside.old) (O.log outside.new)) }
        ensures kind { IfErr result (IsFailure (λ _. ⊥)) }
        ensures stops { IfErr result (λ stop. Did (FailsToPrint (head_to_print self.old.begun) stop) (O.log outside.old) (O.log outside.new)) }
    {
        if self.begun {
            return Ok(());
        }
        let head = head_text(self.alloc)?;
        print_bytes(outside, head.as_slice())?;
        self.begun = true;
        Ok(())
    }

    /// Prints the rows of the exchanges that are whole.
    fn print_rows<O: Outside>(&mut self, outside: &mut O) -> Result<(), JournalStop>
        requires { self.old.begun ≡ true }
        ensures printed { OnOk result (HasPrinted self.old self.new) }
        ensures text { OnOk result (Did (Prints (table_text (rows_from self.old.number self.old.ready.items))) (O.log outside.old) (O.log outside.new)) }
        ensures kind { IfErr result (IsFailure (IsPastEnd (self.old.number + length self.old.ready.items))) }
        ensures stops { IfErr result (λ stop. Did (FailsToPrint (table_text (rows_from self.old.number self.old.ready.items)) stop) (O.log outside.old) (O.log outside.new)) }
    {
        let after = self.number.saturating_add(self.ready.len() as u64);
        if after > LINE_NUMBER_END {
            let what = "the number of a row would be past";
            let error = MakingError::refused(self.alloc, what, "9999999999");
            return Err(JournalStop::Source(error));
        }
        let rows = rows_text(self.alloc, self.number, self.ready.as_slice())?;
        print_bytes(outside, rows.as_slice())?;
        self.ready.clear();
        self.number = after;
        Ok(())
    }
}

/// Prints these bytes.
fn print_bytes<O: Outside>(outside: &mut O, bytes: &[u8]) -> Result<(), JournalStop>
    ensures text { OnOk result (Did (Prints bytes.now) (O.log outside.old) (O.log outside.new)) }
    ensures kind { IfErr result (IsFailure (λ _. ⊥)) }
    ensures stops { IfErr result (λ stop. Did (FailsToPrint bytes.now stop) (O.log outside.old) (O.log outside.new)) }
{
    if outside.write(bytes) {
        Ok(())
    } else {
        Err(JournalStop::Output)
    }
}
