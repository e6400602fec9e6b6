//! Scripts: calls of the board beside their replies, and what runs and lists of steps give.

ghost use Rattle.std.specs.Prelude.{◌≡◌};
ghost use Rattle.read_set.specs.Plans.{readings_of};

use crate::calls::{number, parts_of, reply_to, small};
use crate::shared::share_board;
use crate::texts::{inputs_of, is_same, plan_of, tell_files};
use crate::told::{tell_fault, tell_number};
use journal_table::Journal;
use read_set::{Plan, PlanName};
use replay_run::{
    Inputs, Output, Prepared, Run, Step, collect_output, finished_of, judge_inputs, one_thread,
    rebuild_by_steps,
};
use speculate::{Board, Halt, play};
use std::alloc::{AllocError, AllocGlobal, Global};
use std::marker::Brand;
use std::process::Abort;
use std::sync::Wait;
use std::test::Fail;
use std::thread::Threads;
use version_store::VersionTable;
use worker_pool::SharedBoard;

/// For how many workers each board is made: 0 to 63.
pub(crate) const WORKERS: u32 = 64;

/// A script: the files of its runs, with which attempt and at which clock its board begins, and its
/// calls.
struct Script<'s> {
    inputs: &'s Inputs,
    attempt: u32,
    clock: u64,
    calls: &'s str,
}

impl Drop for Script<'_> {
    fn drop(self) {
        let Script {
            inputs: _,
            attempt: _,
            clock: _,
            calls: _,
        } = self;
    }
}

/// The script of a text and its calls. It begins as the text says, else as a new board does.
fn script_of<'s>(inputs: &'s Inputs, text: &str, calls: &'s str) -> Script<'s> {
    let (_, rest) = text.split_once("starting ").unwrap_or(("", "0 0"));
    let (line, _) = rest.split_once('\n').unwrap_or((rest, ""));
    let (attempt, clock) = line.split_once(' ').unwrap_or((line, "0"));
    Script {
        inputs,
        attempt: small(attempt),
        clock: number(clock),
        calls,
    }
}

/// The step of a call, if it is one: a `look` at the key that the line needs, a `publish` of its
/// version, and each `take`, `check` and `commit`.
fn step_of(call: &str) -> Option<Step> {
    let (word, first, second) = parts_of(call);
    let (worker, line) = (small(first), number(second));
    match word {
        "take" => Some(Step::Take { worker, line }),
        "look" => Some(Step::Look { worker }),
        "publish" => Some(Step::Publish { worker }),
        "check" => Some(Step::Check { worker, line }),
        "commit" => Some(Step::Commit {
            line: number(first),
        }),
        _ => None,
    }
}

/// The calls of a text that are steps.
pub(crate) fn steps_of(alloc: Global, text: &str) -> Result<Vec<Step>, AllocError> {
    let mut steps = Vec::new(alloc);
    for line in text.split('\n') {
        if let Some((call, _)) = line.split_once(" = ")
            && let Some(step) = step_of(call)
        {
            steps.push(step)?;
        }
    }
    Ok(steps)
}

/// Runs each script of a book: its files, an empty line, its calls with their replies, and perhaps
/// an empty line and calls of a shared board.
pub(crate) fn run_scripts<R: Threads + Wait + Sync + AllocGlobal + Abort>(
    rt: &R,
    book: &str,
) -> Result<(), Fail> {
    for script in book.split('#') {
        if let Some((text, calls)) = script.split_once("\n\n") {
            run_script(rt, text, calls)?;
        }
    }
    Ok(())
}

fn run_script<R: Threads + Wait + Sync + AllocGlobal + Abort>(
    rt: &R,
    text: &str,
    calls: &str,
) -> Result<(), Fail> {
    let alloc = rt.alloc();
    let inputs = inputs_of(alloc, text)?;
    let plan = plan_of(alloc, &inputs).expect(rt, "a plan");
    let script = script_of(&inputs, text, calls);
    let out = play_script::<Brand, R>(rt, &plan, &script)?;
    assert_eq!(rt; out.as_str(), calls);
    Ok(())
}

/// The calls of a script with their replies, on a board, and of further ones on that board where it
/// is shared.
fn play_script<J: PlanName + Send + Sync + 'static, R: Threads + Wait + Sync + AllocGlobal>(
    rt: &R,
    plan: &Plan,
    script: &Script<'_>,
) -> Result<String, AllocError>
    requires { plan.now ≡ J.plan }
{
    let alloc = rt.alloc();
    let (calls, shared) = script
        .calls
        .split_once("\n\n")
        .unwrap_or((script.calls, ""));
    let table: VersionTable<J> = VersionTable::new(alloc)?;
    let mut board = Board::starting(alloc, plan, WORKERS, script.attempt, script.clock)?;
    let mut out = String::new(alloc);
    play_calls(rt, &table, &mut board, script, calls, &mut out)?;
    if shared.is_empty() {
        return Ok(out);
    }
    share_board(rt, &table, board, shared, &mut out)?;
    Ok(out)
}

/// Plays the calls, each of which is before its reply. Other lines are of the reply above them.
fn play_calls<'t, J: PlanName + 'static, R: Wait + AllocGlobal>(
    rt: &R,
    table: &'t VersionTable<J>,
    board: &mut Board<'_, 't, J>,
    script: &Script<'_>,
    calls: &str,
    out: &mut String,
) -> Result<(), AllocError> {
    for line in calls.split('\n') {
        if let Some((call, _)) = line.split_once(" = ") {
            out.push_str(call)?;
            out.push_str(" = ")?;
            play_call(rt, table, board, script, call, out)?;
            out.push_str("\n")?;
        }
    }
    Ok(())
}

/// A call of the board, or a run by its steps so far.
fn play_call<'t, J: PlanName + 'static, R: Wait + AllocGlobal>(
    rt: &R,
    table: &'t VersionTable<J>,
    board: &mut Board<'_, 't, J>,
    script: &Script<'_>,
    call: &str,
    out: &mut String,
) -> Result<(), AllocError> {
    match call.split_once(' ') {
        Some(("run", workers)) => tell_run(rt, script.inputs, small(workers), out),
        Some(("one", _)) => tell_one_thread(rt.alloc(), script.inputs, out),
        Some(("play", _)) => tell_play(rt, script, out),
        _ => reply_to(rt, table, board, call, out),
    }
}

/// What one thread gives.
fn tell_one_thread(alloc: Global, inputs: &Inputs, out: &mut String) -> Result<(), AllocError> {
    out.push_str("\n")?;
    match one_thread(alloc, inputs) {
        Ok(output) => tell_files(out, &output),
        Err(fault) => write!(out, "{fault}"),
    }
}

/// What a run by the steps so far gives.
fn tell_run<R: Wait + AllocGlobal>(
    rt: &R,
    inputs: &Inputs,
    workers: u32,
    out: &mut String,
) -> Result<(), AllocError> {
    let steps = steps_of(rt.alloc(), out.as_str())?;
    match rebuild_by_steps(rt, rt.alloc(), inputs, workers, steps.as_slice()) {
        Ok(Run::Output(output)) => tell_attempts(rt.alloc(), inputs, &output, out),
        Ok(Run::Unfinished { committed }) => tell_number(out, "unfinished ", committed),
        Err(fault) => write!(out, "{fault}"),
    }
}

/// The attempts that were committed, where all else is what one thread gives.
fn tell_attempts(
    alloc: Global,
    inputs: &Inputs,
    output: &Output,
    out: &mut String,
) -> Result<(), AllocError> {
    if !is_of_one_thread(alloc, inputs, output) {
        return out.push_str("another output");
    }
    out.push_str("output")?;
    for attempt in output.attempts.as_slice() {
        tell_number(out, " ", u64::from(*attempt))?;
    }
    Ok(())
}

/// Whether one thread gives the same.
pub(crate) fn is_of_one_thread(alloc: Global, inputs: &Inputs, output: &Output) -> bool {
    match one_thread(alloc, inputs) {
        Ok(one) => is_same(&one, output),
        Err(_) => false,
    }
}

/// Plays the steps so far as a list on another board, which is then closed as where workers have
/// ended without a fault.
fn tell_play<R: Wait + AllocGlobal>(
    rt: &R,
    script: &Script<'_>,
    out: &mut String,
) -> Result<(), AllocError> {
    match judge_inputs(rt.alloc(), script.inputs) {
        Ok(Prepared { plan, journal }) => play_on::<Brand, R>(rt, &plan, &journal, script, out),
        Err(fault) => write!(out, "{fault}"),
    }
}

/// What comes of that board: its own end, or that of a new board where a line is open; or where the
/// list halts.
fn play_on<J: PlanName + 'static, R: Wait + AllocGlobal>(
    rt: &R,
    plan: &Plan,
    journal: &Journal,
    script: &Script<'_>,
    out: &mut String,
) -> Result<(), AllocError>
    requires named { plan.now ≡ J.plan }
    requires fits { plan.now.readings ≡ readings_of journal.now }
{
    let alloc = rt.alloc();
    let steps = steps_of(alloc, out.as_str())?;
    let table: VersionTable<J> = VersionTable::new(alloc)?;
    let mut board = Board::starting(alloc, plan, WORKERS, script.attempt, script.clock)?;
    if let Err(halt) = play(rt, alloc, &table, &mut board, steps.as_slice()) {
        return tell_halt(out, halt);
    }
    let closed = SharedBoard::new(board, &table).close();
    let Ok(finished) = finished_of(rt, alloc, plan, &table, closed) else {
        return out.push_str("no end");
    };
    let output = collect_output(alloc, plan, journal, &finished)?;
    tell_attempts(alloc, script.inputs, &output, out)
}

fn tell_halt(out: &mut String, halt: Halt) -> Result<(), AllocError> {
    tell_number(out, "", halt.done as u64)?;
    out.push_str(" steps, then ")?;
    tell_fault(out, halt.fault)
}
