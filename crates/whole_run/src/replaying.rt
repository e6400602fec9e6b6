//! The whole run: words, files, the replay, one line and the status.

ghost use Rattle.std.specs.Prelude.{◌≡◌, ◌++◌, Bool, IfErr, IfOk, List, Ok, Some, map, option_map};
ghost use Rattle.outside.specs.Events.{Did, Event, after};
ghost use Rattle.replay_run.specs.declared.inputs.Output.{Output};
ghost use Rattle.whole_run.specs.Doubting.{AreToldDoubts, doubts_events, some_events};
ghost use Rattle.whole_run.specs.Run.{HasEnded, HasStopped, IsAsked, IsReplayed, IsRun, sizes_line, writes_of};
ghost use Rattle.whole_run.specs.Statuses.{ended_status};
ghost use Rattle.whole_run.specs.Checking.{IsCheck};
ghost use Rattle.whole_run.specs.Words.{IsDone, IsSession, TellsRefusal};

use crate::checking::check;
use crate::doubt::Doubts;
use crate::files::{read_inputs, write_output};
use crate::progress::Progress;
use command_line::{Options, Refusal, options};
use outside::Outside;
use replay_run::{Fault, Inputs, Output, Sizes, rebuild};
use run_stops::{FAILED, REFUSED, RunError, stop_of};
use std::alloc::Global;
use std::convert::AsStr;
use std::rt::Clock;
use std::sync::Wait;
use std::thread::Threads;
use std::{fmt, io};

/// The status of a run whose recorded responses all agree.
const SAME: u8 = 0;

/// The status of a run in which some recorded response differs.
const DIFFERENT: u8 = 1;

/// Reads the words, of which the first is the program's name, then the files, replays the journal,
/// writes the files and prints one line, or says on standard error what stopped it. Gives the
/// status of the program:
///
/// - 0 where no recorded response differs, where a check finds no fault, and for help, whose text
///   goes to standard output;
/// - 1 where some recorded response differs;
/// - 2 where the command line, the workers, the policy, a table or the journal is refused, or a
///   check finds a fault in them;
/// - 3 where a file can't be read or written, standard output takes no text, or memory ran out.
///
/// What stopped the run is printed on standard error, and what to do too where that is a terminal
/// or the words ask for it.
pub fn run<R: AllocGlobal + Threads + Wait + Sync + Clock + Eprint, S: AsStr, O: Outside>(
    rt: &R,
    outside: &mut O,
    words: &[S],
) -> u8
    ensures { Did (IsSession (map S.text words.now) result) (O.log outside.old)
        (O.log outside.new) }
{
    match options(rt.alloc(), words) {
        Ok(options) => do_as_asked(rt, outside, &options),
        Err(refusal) => refuse(&refusal, outside),
    }
}

/// Reports that the system passed no words, or some that are no text, and returns the status.
pub fn refuse_words<O: Outside>(outside: &mut O, error: &io::Error) -> u8 {
    if error.kind() == io::ErrorKind::OutOfMemory {
        return RunError::Fault(Fault::Memory).say_why(None, outside);
    }
    let _taken = outside.tell(&"error: a word of the command line isn't text\n");
    REFUSED
}

/// The same, of what the words ask for: a check, or a run.
fn do_as_asked<R: AllocGlobal + Threads + Wait + Sync + Clock + Eprint, O: Outside>(
    rt: &R,
    outside: &mut O,
    options: &Options,
) -> u8
    ensures { Did (IsDone options.now result) (O.log outside.old) (O.log outside.new) }
{
    if options.check {
        check_with(rt.alloc(), outside, options)
    } else {
        run_with(rt, outside, options)
    }
}

/// The check, with what is said where it is stopped.
fn check_with<O: Outside>(alloc: Global, outside: &mut O, options: &Options) -> u8
    ensures { Did (IsCheck options.now result) (O.log outside.old) (O.log outside.new) }
{
    match check(outside, alloc, options) {
        Ok(status) => status,
        Err(stop) => stop.say_why(asked_of(options, outside.is_terminal()), outside),
    }
}

/// The run, with what is said where it is stopped.
fn run_with<R: AllocGlobal + Threads + Wait + Sync + Clock + Eprint, O: Outside>(
    rt: &R,
    outside: &mut O,
    options: &Options,
) -> u8
    ensures { Did (IsRun options.now result) (O.log outside.old) (O.log outside.new) }
{
    match replay(rt, outside, options) {
        Ok(ended) => {
            tell_doubts(outside, &ended.doubts);
            ended.status()
        }
        Err(stop) => stop.say_why(asked_of(options, outside.is_terminal()), outside),
    }
}

/// Prints why the result is doubtful, where it is.
fn tell_doubts<O: Outside>(outside: &mut O, doubts: &Option<Doubts>)
    ensures { (taken : Bool) × (O.log outside.new
        ≡ after (doubts_events doubts.now taken) (O.log outside.old)) }
{
    if let Some(doubts) = doubts {
        tell_some(outside, doubts);
    }
}

/// The same, of the doubts that there are.
fn tell_some<O: Outside>(outside: &mut O, doubts: &Doubts)
    ensures { (taken : Bool) × (O.log outside.new
        ≡ after (some_events doubts.now taken) (O.log outside.old)) }
{
    if !doubts.are_none() {
        let _taken = outside.tell(doubts);
    }
}

/// What the run was asked for, where what to do about a stop is to be printed too.
fn asked_of(options: &Options, is_terminal: bool) -> Option<&Options>
    ensures { IsAsked options.entry.now (option_map (λ o. o.now) result) }
{
    if options.explain || is_terminal {
        Some(options)
    } else {
        None
    }
}

/// Prints what clap says of the words: help, or a refusal.
fn refuse<O: Outside>(refusal: &Refusal, outside: &mut O) -> u8
    ensures { Did (TellsRefusal refusal.now result) (O.log outside.old) (O.log outside.new) }
{
    match refusal {
        Refusal::Help(text) => { if outside.print(text) { SAME } else { FAILED } }
        Refusal::Words(text) => {
            let _taken = outside.tell(text);
            REFUSED
        }
        Refusal::Memory => RunError::Fault(Fault::Memory).say_why(None, outside),
    }
}

/// The result of a run that isn't stopped.
#[derive(Drop)]
struct RunResult {
    sizes: Sizes,
    /// Why its result is doubtful, where that is to be printed.
    doubts: Option<Doubts>,
}

impl RunResult {
    fn status(&self) -> u8
        ensures { result ≡ ended_status self.now.sizes.differences }
    {
        if self.sizes.differences == 0 {
            SAME
        } else {
            DIFFERENT
        }
    }
}

/// Does the run, shows meanwhile how far it has come where that is to be seen, and prints the line.
fn replay<R: AllocGlobal + Threads + Wait + Sync + Clock + Eprint, O: Outside>(
    rt: &R,
    outside: &mut O,
    options: &Options,
) -> Result<RunResult, RunError>
    ensures ended { IfOk result
        (λ e. Did (HasEnded options.now e.sizes) (O.log outside.old) (O.log outside.new)) }
    ensures doubts { IfOk result (λ e. AreToldDoubts options.now e.sizes e.doubts) }
    ensures stops { IfErr result
        (λ stop. Did (HasStopped options.now stop) (O.log outside.old) (O.log outside.new)) }
{
    let progress = Progress::new(rt, outside.is_terminal());
    let outcome = rewrite(rt, outside, options, &progress);
    progress.clear();
    let ended = outcome?;
    if outside.print(&SizesLine { sizes: ended.sizes }) {
        Ok(ended)
    } else {
        Err(RunError::Output)
    }
}

/// Reads all files before any of them is judged, replays the journal by the workers, and writes all
/// files.
fn rewrite<R: AllocGlobal + Threads + Wait + Sync + Clock + Eprint, O: Outside>(
    rt: &R,
    outside: &mut O,
    options: &Options,
    progress: &Progress<'_, R>,
) -> Result<RunResult, RunError>
    ensures doubts { IfOk result (λ e. AreToldDoubts options.now e.sizes e.doubts) }
    ensures written { IfOk result (λ e. Did (λ events. (output : Output) × (reads : List Event) × IsReplayed options.now (Ok output) reads × (e.sizes ≡ output.sizes)
        × (events ≡ reads ++ writes_of options.now output)) (O.log outside.old) (O.log outside.new)) }
    ensures stops { IfErr result
        (λ stop. Did (HasStopped options.now stop) (O.log outside.old) (O.log outside.new)) }
{
    let inputs = read_inputs(outside, rt.alloc(), options)?;
    progress.expect(inputs.journal.as_slice());
    let output = match rebuild(rt, rt.alloc(), &inputs, options.workers, progress) {
        Ok(output) => output,
        Err(fault) => return Err(stop_of(rt.alloc(), fault, &inputs)),
    };
    write_output(outside, rt.alloc(), options.out.as_str(), &output)?;
    let sizes = output.sizes;
    let is_terminal = outside.is_terminal();
    let doubts = doubts_where_asked(rt.alloc(), options, is_terminal, &inputs, &output);
    Ok(RunResult { sizes, doubts })
}

/// Why the result is doubtful, where that is to be printed.
fn doubts_where_asked(
    alloc: Global,
    options: &Options,
    is_terminal: bool,
    inputs: &Inputs,
    output: &Output,
) -> Option<Doubts>
    ensures { AreToldDoubts options.now output.now.sizes result }
{
    if options.explain || is_terminal {
        Some(Doubts::of(alloc, inputs, output))
    } else {
        None
    }
}

/// The line that is printed at the end.
#[derive(Clone, Copy)]
struct SizesLine {
    sizes: Sizes,
}

impl fmt::Display for SizesLine {
    ghost output = { λ line. Some (sizes_line line.sizes) };

    fn fmt<W: fmt::Write>(&self, f: &mut fmt::Formatter<W>) -> fmt::Result {
        let Sizes {
            answered,
            passed,
            differences,
        } = self.sizes;
        let lines = u128::from(answered) + u128::from(passed);
        write!(
            f,
            "lines {lines} answered {answered} passed {passed} differences {differences}\n"
        )
    }
}
