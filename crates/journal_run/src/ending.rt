//! A journal from its first message to the status of the run.

ghost use Rattle.std.specs.Prelude.{◌≡◌, ◌⊎◌};
ghost use Rattle.outside.specs.Events.{Did};
ghost use Rattle.journal_run.specs.Run.{IsJournal, IsText, ReportsCounts, TellsRefusal, TellsStop};
ghost use Rattle.journal_run.specs.Sums.{made_sums};
ghost use Rattle.journal_run.specs.declared.stop.JournalStop.TheVariants as stops;
ghost use Rattle.journal_run.specs.declared.stop.MakingError.TheVariants as errors;

use crate::making::{JournalRows, Making};
use crate::running::{run_through, tell_notes};
use crate::source::ExchangeSource;
use crate::stop::{JournalStop, MakingError, REFUSED};
use crate::tally::{CountsLine, LastReport, LogTally, WHOLE};
use command_line::Refusal;
use outside::Outside;
use std::alloc::Global;
use std::io;

/// Prints the journal of what the source finds, reports what was counted, and gives the status of that:
///
/// - 0 where each request has its response and each response its request, and nothing is odd;
/// - 1 where some has none or is odd, times fall back, or an empty journal was wanted by force;
/// - 2 where a message is refused, nothing was found, or more than one message in ten is odd;
/// - 3 where a file can't be read, standard output takes no text, or memory ran out.
pub fn make_journal<O: Outside, S: ExchangeSource>(
    outside: &mut O,
    alloc: Global,
    rows: JournalRows,
    force: bool,
    source: &mut S,
) -> u8
    ensures { Did (IsJournal rows force (S.counts source.new) (S.fails source.new) (S.at_end source.new) (S.found source.old) (S.found source.new) result) (O.log outside.old) (O.log outside.new) }
{
    let mut making = Making::new(alloc, rows);
    match run_through(outside, alloc, force, source, &mut making) {
        Ok(()) => end(outside, alloc, source, &making),
        Err(JournalStop::Useless(why)) => end_useless(outside, alloc, source, &making, why),
        Err(stop) => end_stopped(outside, source, &stop),
    }
}

/// Reports what was counted of a journal that is printed, and gives its status.
fn end<O: Outside, S: ExchangeSource>(
    outside: &mut O,
    alloc: Global,
    source: &S,
    making: &Making,
) -> u8
    ensures { Did (ReportsCounts (S.counts source.now) (made_sums making.now) result) (O.log outside.old) (O.log outside.new) }
{
    let mut notes = String::new(alloc);
    let reported = source.report(&mut notes);
    let hinted = making.hint(&mut notes);
    source.clear();
    if reported.is_err() || hinted.is_err() {
        return JournalStop::Source(MakingError::Memory).tell(outside);
    }
    let counts = counts_line(source.tally(), making);
    let report = LastReport {
        text: notes.as_str(),
        counts,
    };
    let _taken = outside.tell(&report);
    counts.status()
}

/// Reports what stopped the run.
fn end_stopped<O: Outside, S: ExchangeSource>(outside: &mut O, source: &S, stop: &JournalStop) -> u8
    ensures { Did (TellsStop stop.now result) (O.log outside.old) (O.log outside.new) }
{
    source.clear();
    stop.tell(outside)
}

/// Reports why a journal is of no use, after what was odd, and what was counted.
fn end_useless<O: Outside, S: ExchangeSource>(
    outside: &mut O,
    alloc: Global,
    source: &S,
    making: &Making,
    why: &'static str,
) -> u8
    ensures { Did (λ events. TellsStop (stops.Useless why.entry) result events ⊎ TellsStop (stops.Source errors.Memory) result events) (O.log outside.old) (O.log outside.new) }
{
    let mut notes = String::new(alloc);
    let reported = source.report(&mut notes);
    let hinted = making.hint(&mut notes);
    source.clear();
    if reported.is_err() || hinted.is_err() {
        return JournalStop::Source(MakingError::Memory).tell(outside);
    }
    tell_notes(outside, source, &notes);
    let counts = counts_line(source.tally(), making);
    let status = JournalStop::Useless(why).tell(outside);
    let _told = outside.tell(&counts);
    status
}

/// What was counted of logs and of exchanges.
fn counts_line(tally: LogTally, making: &Making) -> CountsLine
    ensures { result ≡ record { tally = tally; exchanges = making.now.exchanges; unanswered = making.now.unanswered; unasked = making.now.pairing.unasked; mismatched = making.now.pairing.mismatched } }
{
    CountsLine {
        tally,
        exchanges: making.exchanges,
        unanswered: making.unanswered,
        unasked: making.pairing.unasked(),
        mismatched: making.pairing.mismatched(),
    }
}

/// Reports why nothing is found, and returns the status of that.
pub fn tell_error<O: Outside>(outside: &mut O, error: MakingError) -> u8
    ensures { Did (λ events. (error : MakingError) × TellsStop (stops.Source error) result events) (O.log outside.old) (O.log outside.new) }
{
    JournalStop::Source(error).tell(outside)
}

/// Prints a text that is no journal: help, or a table of what presets find.
pub fn print_text<O: Outside>(outside: &mut O, text: &str) -> u8
    ensures { Did (IsText text.now result) (O.log outside.old) (O.log outside.new) }
{
    if outside.write(text.as_bytes()) {
        WHOLE
    } else {
        JournalStop::Output.tell(outside)
    }
}

/// Prints what clap says of the words: help, or a refusal.
pub fn refuse<O: Outside>(outside: &mut O, refusal: &Refusal) -> u8
    ensures { Did (TellsRefusal refusal.now result) (O.log outside.old) (O.log outside.new) }
{
    match refusal {
        Refusal::Help(text) => print_text(outside, text.as_str()),
        Refusal::Words(text) => {
            let _taken = outside.tell(text);
            REFUSED
        }
        Refusal::Memory => JournalStop::Source(MakingError::Memory).tell(outside),
    }
}

/// Reports that the system gave no words, or none that are text, and returns the status.
pub fn refuse_words<O: Outside>(outside: &mut O, error: &io::Error) -> u8 {
    if error.kind() == io::ErrorKind::OutOfMemory {
        return JournalStop::Source(MakingError::Memory).tell(outside);
    }
    let _taken = outside.tell(&"error: a word of the command line isn't text\n");
    REFUSED
}
