//! Runs of which one growth of the heap is refused.
//!
//! `.ci/growths` runs each test here whose name ends in `_refused` again and again, each time with
//! another growth of the whole test refused, until a run meets no refusal. So of all calls of a
//! test one at most is out of memory. A call that is tried gives all that it gives else, or is out
//! of memory; any other fault fails the test. Each is tried twice, or goes on where it was refused,
//! so all that it gives is seen in each run. Where the growth was the test's own, nothing more is
//! asked. Tests print what they met: `.ci/growths` wants to see `out of memory` at least once, and
//! `full output` where nothing is refused.

ghost use Rattle.std.specs.Prelude.{◌≡◌};
ghost use Rattle.read_set.specs.Plans.{readings_of};
ghost use Rattle.speculate.specs.Driving.{IsNew};

use crate::books::rows::{IN_ORDER, IN_PART, STALE, SUSPECT};
use crate::calls::tell_counts;
use crate::script::{WORKERS, steps_of};
use crate::texts::{inputs_of, tell_files};
use crate::threads::{COMMITTED, Watch};
use crate::told::{tell_id, tell_name, tell_number};
use journal_table::Journal;
use read_set::{Plan, PlanName};
use replay_run::{
    Fault, Inputs, Output, Prepared, Run, Step, collect_output, judge_inputs, one_thread, rebuild,
    rebuild_by_steps,
};
use speculate::{Board, BoardFault, drive_in_order, play};
use std::alloc::{AllocError, AllocGlobal, Global};
use std::io::Print;
use std::marker::Brand;
use std::ops::Range;
use std::process::Abort;
use std::sync::Wait;
use std::thread::Threads;
use version_store::VersionTable;

/// How many lines the longest of the journals here has.
const LINES: u64 = 6;

/// How a run is made.
#[derive(Clone, Copy)]
enum Way {
    OneThread,
    Steps,
    Workers,
}

/// A run by the steps of a script, which commit all lines.
fn by_steps<R: Wait + AllocGlobal + Abort>(
    rt: &R,
    inputs: &Inputs,
    steps: &[Step],
) -> Result<Output, Fault> {
    match rebuild_by_steps(rt, rt.alloc(), inputs, WORKERS, steps) {
        Ok(Run::Output(output)) => Ok(output),
        Ok(Run::Unfinished { .. }) => panic!(rt; "unfinished"),
        Err(fault) => Err(fault),
    }
}

/// A run by two workers. One that is out of memory doesn't begin again, so no line is committed
/// twice.
fn by_workers<R: Threads + Wait + Sync + AllocGlobal + Abort>(
    rt: &R,
    inputs: &Inputs,
) -> Result<Output, Fault> {
    let gate = Watch::new(None);
    let run = rebuild(rt, rt.alloc(), inputs, 2, &gate);
    assert!(rt; gate.count() / COMMITTED <= LINES, "committed twice");
    run
}

fn run_by<R: Threads + Wait + Sync + AllocGlobal + Abort>(
    rt: &R,
    way: Way,
    inputs: &Inputs,
    steps: &[Step],
) -> Result<Output, Fault> {
    match way {
        Way::OneThread => one_thread(rt.alloc(), inputs),
        Way::Steps => by_steps(rt, inputs, steps),
        Way::Workers => by_workers(rt, inputs),
    }
}

/// Whether a run gave the output that is wanted. Else it was out of memory.
fn is_given<R: Threads + Wait + Sync + AllocGlobal + Abort>(
    rt: &R,
    way: Way,
    script: &str,
) -> Result<bool, AllocError> {
    let inputs = inputs_of(rt.alloc(), script)?;
    let steps = steps_of(rt.alloc(), script)?;
    match run_by(rt, way, &inputs, steps.as_slice()) {
        Ok(output) => must_be(rt, &output, script),
        Err(fault) => {
            assert!(rt; fault.number() == MEMORY, "another fault");
            Ok(false)
        }
    }
}

/// The number of the fault out of memory.
const MEMORY: u8 = 10;

/// Compares an output with the one at the end of a script, as they must be the same.
fn must_be<R: AllocGlobal + Abort>(
    rt: &R,
    output: &Output,
    script: &str,
) -> Result<bool, AllocError> {
    let (_, wanted) = script.split_once("one thread = \n").unwrap_or(("", ""));
    let mut told = String::new(rt.alloc());
    tell_files(&mut told, output)?;
    told.push_str("\n")?;
    assert_eq!(rt; told.as_str(), wanted);
    Ok(true)
}

/// Makes a run twice, of which one may be out of memory, and prints what they gave.
fn try_twice<R: Threads + Wait + Sync + AllocGlobal + Abort + Print>(
    rt: &R,
    way: Way,
    script: &str,
) -> Result<(), AllocError> {
    let one = is_given(rt, way, script)?;
    let other = is_given(rt, way, script)?;
    assert!(rt; one || other, "out of memory twice");
    let _ = println!(rt;
        "{}",
        if one && other {
            "full output"
        } else {
            "out of memory"
        }
    );
    Ok(())
}

#[test]
fn one_thread_refused(rt: HostRuntime) {
    let _ = try_twice(&rt, Way::OneThread, IN_ORDER);
}

#[test]
fn rebuild_by_steps_refused(rt: HostRuntime) {
    for script in [STALE, IN_PART, SUSPECT] {
        let _ = try_twice(&rt, Way::Steps, script);
    }
}

#[test]
fn rebuild_refused(rt: HostRuntime) {
    let _ = try_twice(&rt, Way::Workers, IN_ORDER);
}

/// Plays the steps of a script on a board, or drives the board, which makes the same steps. Only
/// the test's own growths are given back as a fault.
fn try_board<R: Wait + AllocGlobal + Abort + Print>(
    rt: &R,
    script: &str,
    is_driven: bool,
) -> Result<(), Fault> {
    let alloc = rt.alloc();
    let inputs = inputs_of(alloc, script)?;
    let steps = steps_of(alloc, script)?;
    let Prepared { plan, journal } = judge_inputs(alloc, &inputs)?;
    let output = try_over::<Brand, R>(rt, &plan, &journal, steps.as_slice(), is_driven)?;
    let _ = must_be(rt, &output, script)?;
    let _ = println!(rt; "full output");
    Ok(())
}

/// The output of a board after all steps. One that is out of memory is as it was before the refused
/// step, and the rest is played on it.
fn try_over<J: PlanName + 'static, R: Wait + AllocGlobal + Abort + Print>(
    rt: &R,
    plan: &Plan,
    journal: &Journal,
    steps: &[Step],
    is_driven: bool,
) -> Result<Output, AllocError>
    requires named { plan.now ≡ J.plan }
    requires fits { plan.now.readings ≡ readings_of journal.now }
{
    let alloc = rt.alloc();
    let table: VersionTable<J> = VersionTable::new(alloc)?;
    let mut board = Board::new(alloc, plan, WORKERS)?;
    if let Some((fault, done)) = halted(rt, &table, &mut board, steps, is_driven) {
        assert!(rt; fault == BoardFault::Memory, "another fault");
        let _ = println!(rt; "out of memory");
        let seen = sight(alloc, &board)?;
        let found = same_sight(rt, &table, plan, steps, done, seen.as_str())?;
        let done = found.expect(rt, "another board");
        let rest = steps.get(done..).unwrap_or(&[]);
        assert!(rt;
            play(rt, alloc, &table, &mut board, rest).is_ok(),
            "out of memory twice"
        );
    }
    let Ok(finished) = board.finish() else {
        panic!(rt; "a line is open")
    };
    collect_output(alloc, plan, journal, &finished)
}

/// Plays the steps on a new board, or drives it in order. The fault, and how many steps were made:
/// as `play` says; any number where the board is driven.
fn halted<'t, J: PlanName + 'static, R: Wait + AllocGlobal>(
    rt: &R,
    table: &'t VersionTable<J>,
    board: &mut Board<'_, 't, J>,
    steps: &[Step],
    is_driven: bool,
) -> Option<(BoardFault, Range<usize>)>
    requires { IsNew J.plan board.old }
{
    if is_driven {
        let fault = drive_in_order(rt, rt.alloc(), table, board).err()?;
        return Some((fault, 0..steps.len()));
    }
    let halt = play(rt, rt.alloc(), table, board, steps).err()?;
    Some((halt.fault, halt.done..halt.done.saturating_add(1)))
}

/// The first of these numbers of steps after which another board is seen so.
fn same_sight<J: PlanName + 'static, R: Wait + AllocGlobal + Abort>(
    rt: &R,
    table: &VersionTable<J>,
    plan: &Plan,
    steps: &[Step],
    numbers: Range<usize>,
    seen: &str,
) -> Result<Option<usize>, AllocError>
    requires { plan.now ≡ J.plan }
{
    for number in numbers {
        let made = steps.get(..number).unwrap_or(steps);
        let mut board = Board::new(rt.alloc(), plan, WORKERS)?;
        assert!(rt; play(rt, rt.alloc(), table, &mut board, made).is_ok());
        if sight(rt.alloc(), &board)?.as_str() == seen {
            return Ok(Some(number));
        }
    }
    Ok(None)
}

/// What is seen of a board: its counts, committed lines and clock, and what each worker has in
/// hand.
fn sight<J: PlanName>(alloc: Global, board: &Board<'_, '_, J>) -> Result<String, AllocError> {
    let mut out = String::new(alloc);
    tell_counts(&mut out, board)?;
    tell_number(&mut out, ", ", board.committed())?;
    tell_number(&mut out, " at ", board.clock())?;
    for worker in 0..WORKERS {
        if let Some(hand) = board.hand(worker) {
            tell_number(&mut out, "; ", hand.line)?;
            tell_number(&mut out, ".", u64::from(hand.attempt))?;
            tell_notes(&mut out, board, worker)?;
        }
    }
    Ok(out)
}

/// What a worker has noted, and whether its publication was begun.
fn tell_notes<J: PlanName>(
    out: &mut String,
    board: &Board<'_, '_, J>,
    worker: u32,
) -> Result<(), AllocError> {
    if let Some(noted) = board.notes(worker) {
        for i in 0..noted.len() {
            if let Some(note) = noted.get(i) {
                tell_id(out, " ", note.key.id())?;
                tell_name(out, note.name)?;
            }
        }
    }
    out.push_str(if board.placing(worker).is_some() {
        " placing"
    } else {
        ""
    })
}

#[test]
fn play_refused(rt: HostRuntime) {
    for script in [STALE, IN_PART, SUSPECT] {
        assert!(rt; is_own(try_board(&rt, script, false)));
    }
}

#[test]
fn drive_in_order_refused(rt: HostRuntime) {
    assert!(rt; is_own(try_board(&rt, IN_ORDER, true)));
}

/// The test's own growth was refused, or none of it.
fn is_own(tried: Result<(), Fault>) -> bool {
    match tried {
        Ok(()) => true,
        Err(fault) => fault.number() == MEMORY,
    }
}
