//! A journal of what a source finds, printed as it becomes whole.

ghost use Rattle.std.specs.Prelude.{◌≡◌, ◌==◌, ◌+◌, ◌⊎◌, ℕ, IfErr, IfOk, List, OnOk, Option, false, length, true, []};
ghost use Rattle.log_pairs.specs.Pairs.{Said};
ghost use Rattle.outside.specs.Events.{Did, Event};
ghost use Rattle.journal_run.specs.Found.{said_in};
ghost use Rattle.journal_run.specs.Making.{StopsTaking, TakesAll};
ghost use Rattle.journal_run.specs.Printing.{BreaksOff, HasPrinted, Prints, to_print};
ghost use Rattle.journal_run.specs.Counts.{is_too_odd};
ghost use Rattle.journal_run.specs.Run.{HasCause, IsBrokenOff, IsPrinted, IsUnderWay, IsWanted};
ghost use Rattle.journal_run.specs.Stops.{IsPastEnd, IsUseless};
ghost use Rattle.journal_run.specs.declared.making.JournalRows.{JournalRows};
ghost use Rattle.journal_run.specs.declared.tally.LogTally.{LogTally};

use crate::batch::take_all;
use crate::finding::Finding;
use crate::making::Making;
use crate::source::ExchangeSource;
use crate::stop::{JournalStop, MakingError};
use crate::tally::LogTally;
use outside::Outside;
use std::alloc::Global;

const NOTHING_IN_LINES: &str =
    "no exchange was found: no line has a request. The first lines that were skipped stand above; \
--try LOG shows which preset fits a log, and --force writes the empty journal";

const NOTHING_IN_PACKETS: &str =
    "no exchange was found: no packet has a request to the server. --port N names the server's port, \
and --force writes the empty journal";

const ODD_LINES: &str =
    "more than one message in ten is odd: the log is read in a wrong form, or it cut or changed its messages. \
--try LOG shows which preset fits a log, and --force writes the journal all the same";

const ODD_PACKETS: &str =
    "more than one message in ten is odd: the server speaks no SIP2, or in a way of its own. \
--port N names the server's port, and --force writes the journal all the same";

/// Takes all that the source finds, and prints the whole journal of it.
pub fn run_through<O: Outside, S: ExchangeSource>(
    outside: &mut O,
    alloc: Global,
    force: bool,
    source: &mut S,
    making: &mut Making,
) -> Result<(), JournalStop>
    ensures end { OnOk result (S.at_end source.new) }
    ensures wanted { OnOk result (IsWanted force (S.counts source.new) making.new.exchanges) }
    ensures printed { OnOk result ((first : JournalRows) (begin : Option (List Event)) (start : Option (List Said)) → IsUnderWay first begin (O.log outside.old) start (S.found source.old) making.old
        → IsPrinted first begin (O.log outside.new) start (S.found source.new) making.new) }
    ensures stops { IfErr result (λ stop. (first : JournalRows) (begin : Option (List Event)) (start : Option (List Said)) → IsUnderWay first begin (O.log outside.old) start (S.found source.old) making.old
        → IsBrokenOff first force (S.counts source.new) (S.fails source.new) (S.at_end source.new) begin (O.log outside.new) start (S.found source.new) stop) }
{
    find_all(outside, alloc, force, source, making)?;
    making.close()?;
    check_found(force, source, making)?;
    print_good(outside, force, source, making)?;
    Ok(())
}

/// Refuses a journal without exchanges, unless it is wanted all the same.
fn check_found<S: ExchangeSource>(
    force: bool,
    source: &S,
    making: &Making,
) -> Result<(), JournalStop>
    ensures found { OnOk result ((force ≡ true) ⊎ ((making.now.exchanges == 0) ≡ false)) }
    ensures cause { IfErr result (λ stop. IsUseless stop × (force ≡ false) × (making.now.exchanges ≡ 0)) }
{
    if force || making.exchanges > 0 {
        return Ok(());
    }
    Err(JournalStop::Useless(if source.tally().is_of_packets {
        NOTHING_IN_PACKETS
    } else {
        NOTHING_IN_LINES
    }))
}

/// Takes all that the source finds, and prints the rows that are whole.
fn find_all<O: Outside, S: ExchangeSource>(
    outside: &mut O,
    alloc: Global,
    force: bool,
    source: &mut S,
    making: &mut Making,
) -> Result<(), JournalStop>
    ensures end { OnOk result (S.at_end source.new) }
    ensures goes { OnOk result ((first : JournalRows) (begin : Option (List Event)) (start : Option (List Said)) → IsUnderWay first begin (O.log outside.old) start (S.found source.old) making.old
        → IsUnderWay first begin (O.log outside.new) start (S.found source.new) making.new) }
    ensures stops { IfErr result (λ stop. (first : JournalRows) (begin : Option (List Event)) (start : Option (List Said)) → IsUnderWay first begin (O.log outside.old) start (S.found source.old) making.old
        → IsBrokenOff first force (S.counts source.new) (S.fails source.new) (S.at_end source.new) begin (O.log outside.new) start (S.found source.new) stop) }
{
    let mut batch = Vec::new(alloc);
    // the turns are counted, so that the loop is known to end
    for _turn in 0..u64::MAX {
        if !find_more(outside, alloc, force, source, making, &mut batch)? {
            return Ok(());
        }
    }
    Err(JournalStop::Source(MakingError::Memory))
}

/// Takes what the source finds next, and prints the rows that are whole, where they are many. Says whether there is more to find.
fn find_more<O: Outside, S: ExchangeSource>(
    outside: &mut O,
    alloc: Global,
    force: bool,
    source: &mut S,
    making: &mut Making,
    batch: &mut Vec<Finding>,
) -> Result<bool, JournalStop>
    ensures end { IfOk result (λ more. more ≡ false → S.at_end source.new) }
    ensures goes { OnOk result ((first : JournalRows) (begin : Option (List Event)) (start : Option (List Said)) → IsUnderWay first begin (O.log outside.old) start (S.found source.old) making.old
        → IsUnderWay first begin (O.log outside.new) start (S.found source.new) making.new) }
    ensures stops { IfErr result (λ stop. (first : JournalRows) (begin : Option (List Event)) (start : Option (List Said)) → IsUnderWay first begin (O.log outside.old) start (S.found source.old) making.old
        → IsBrokenOff first force (S.counts source.new) (S.fails source.new) (S.at_end source.new) begin (O.log outside.new) start (S.found source.new) stop) }
{
    batch.clear();
    let more = source.next(batch)?;
    take_batch(outside, alloc, source, batch.as_slice(), making)?;
    print_full(outside, force, source, making)?;
    Ok(more)
}

/// Takes what was found, and reports what is to be reported of it.
fn take_batch<O: Outside, S: ExchangeSource>(
    outside: &mut O,
    alloc: Global,
    source: &S,
    batch: &[Finding],
    making: &mut Making,
) -> Result<(), MakingError>
    ensures took { OnOk result (TakesAll (said_in batch.now) making.old making.new) }
    ensures stops { IfErr result (StopsTaking (said_in batch.now) making.old making.new) }
    ensures told { Did (Prints []) (O.log outside.old) (O.log outside.new) }
{
    let mut notes = String::new(alloc);
    let taken = take_all(alloc, source.place(), batch, making, &mut notes);
    tell_notes(outside, source, &notes);
    taken
}

/// Reports these texts.
pub fn tell_notes<O: Outside, S: ExchangeSource>(outside: &mut O, source: &S, notes: &String)
    ensures { Did (Prints []) (O.log outside.old) (O.log outside.new) }
{
    if notes.is_empty() {
        return;
    }
    source.clear();
    let _taken = outside.tell(notes);
}

/// Prints the rows that are whole, where they are many.
fn print_full<O: Outside, S: ExchangeSource>(
    outside: &mut O,
    force: bool,
    source: &S,
    making: &mut Making,
) -> Result<(), JournalStop>
    ensures goes { OnOk result ((first : JournalRows) (begin : Option (List Event)) (start found : Option (List Said)) → IsUnderWay first begin (O.log outside.old) start found making.old
        → IsUnderWay first begin (O.log outside.new) start found making.new) }
    ensures stops { IfErr result (λ stop. (first : JournalRows) (begin : Option (List Event)) (start found : Option (List Said)) → IsUnderWay first begin (O.log outside.old) start found making.old
        → IsBrokenOff first force (S.counts source.now) (S.fails source.now) (S.at_end source.now) begin (O.log outside.new) start found stop) }
{
    if !making.is_full() {
        return Ok(());
    }
    print_good(outside, force, source, making)?;
    Ok(())
}

/// Prints the rows that are whole, unless too much is odd; or where they are wanted all the same.
fn print_good<O: Outside, S: ExchangeSource>(
    outside: &mut O,
    force: bool,
    source: &S,
    making: &mut Making,
) -> Result<(), JournalStop>
    ensures good { OnOk result ((force ≡ true) ⊎ ((tally : LogTally) × S.counts source.now tally × (is_too_odd tally ≡ false))) }
    ensures printed { OnOk result (HasPrinted making.old making.new) }
    ensures text { OnOk result (Did (Prints (to_print making.old)) (O.log outside.old) (O.log outside.new)) }
    ensures cause { IfErr result (HasCause force (S.counts source.now) ⊥ (IsPastEnd (making.old.number + length making.old.ready.items))) }
    ensures stops { IfErr result (λ stop. Did (BreaksOff (to_print making.old) stop) (O.log outside.old) (O.log outside.new)) }
{
    if !force {
        refuse_odd(&source.tally())?;
    }
    making.print(outside)?;
    Ok(())
}

/// Refuses a journal of which too much is odd.
fn refuse_odd(tally: &LogTally) -> Result<(), JournalStop>
    ensures good { OnOk result (is_too_odd tally.now ≡ false) }
    ensures cause { IfErr result (λ stop. IsUseless stop × (is_too_odd tally.now ≡ true)) }
{
    if !tally.is_too_odd() {
        return Ok(());
    }
    Err(JournalStop::Useless(if tally.is_of_packets {
        ODD_PACKETS
    } else {
        ODD_LINES
    }))
}
