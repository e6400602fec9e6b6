//! Workers in threads: runs whose gate is called at each step and may hold a worker, and workers
//! that begin after a fault was left.

ghost use Rattle.std.specs.Prelude.{◌≡◌};
ghost use Rattle.worker_pool.specs.Rows.{IsStatic};

use crate::script::is_of_one_thread;
use crate::steps;
use crate::texts::{inputs_of, plan_of};
use read_set::{Plan, PlanName};
use replay_run::{Gate, Moment, rebuild};
use speculate::{Board, BoardFault};
use std::alloc::{AllocGlobal, Global};
use std::marker::Brand;
use std::process::Abort;
use std::sync::Wait;
use std::sync::atomic::{AtomicU64, Ordering};
use std::test::Fail;
use std::thread;
use std::thread::Threads;
use version_store::VersionTable;
use worker_pool::{Left, SharedBoard, run_workers};

/// Other words for an item, and then its loan.
const STATUS_AND_LOAN: &str = "\
journal 1,C1,1920260302    101500AOL1|ABI1|ACx|CHtorn|,
journal 2,C1,11NN20260302    101500                  AOL1|AAP1|ABI1|ACx|,";

/// How often a gate lets others go first before it gives up.
const TURNS: u32 = 1_000_000;

/// What a gate counts of a line that was whole, checked or committed, and of one that was held and
/// never let go; of one that was taken, 1.
const WHOLE: u64 = 1_000;

const CHECKED: u64 = 1_000_000;

pub(crate) const COMMITTED: u64 = 1_000_000_000;

const GAVE_UP: u64 = 1_000_000_000_000;

/// Yields until a number is no longer 0; false where it gave up.
fn wait_for(number: &AtomicU64) -> bool {
    for _ in 0..TURNS {
        if number.load(Ordering::SeqCst) > 0 {
            return true;
        }
        thread::yield_now();
    }
    false
}

/// Counts the calls. It may hold line 1 as it is taken, until this moment of line 2.
pub(crate) struct Watch {
    until: Option<Moment>,
    pub(crate) seen: AtomicU64,
    free: AtomicU64,
}

impl Drop for Watch {
    fn drop(self) {
        let Watch {
            until: _,
            seen: _,
            free: _,
        } = self;
    }
}

impl Watch {
    pub(crate) fn new(until: Option<Moment>) -> Watch {
        Watch {
            until,
            seen: AtomicU64::new(0),
            free: AtomicU64::new(0),
        }
    }

    /// What was counted.
    pub(crate) fn count(&self) -> u64 {
        self.seen.load(Ordering::SeqCst)
    }
}

impl Gate for Watch {
    fn at(&self, _worker: u32, line: u64, moment: Moment) {
        let counted = match moment {
            Moment::Taken => 1,
            Moment::Whole => WHOLE,
            Moment::Checked => CHECKED,
            Moment::Committed => COMMITTED,
        };
        self.seen.fetch_add(counted, Ordering::SeqCst);
        let Some(until) = self.until else {
            return;
        };
        if line == 2 && moment == until {
            self.free.store(1, Ordering::SeqCst);
        }
        if line == 1 && moment == Moment::Taken && !wait_for(&self.free) {
            self.seen.fetch_add(GAVE_UP, Ordering::SeqCst);
        }
    }
}

/// The attempts of the two lines in a run by workers that gives, else, what one thread gives.
fn attempts_by<R: Threads + Wait + Sync + AllocGlobal + Abort>(
    rt: &R,
    workers: u32,
    gate: &Watch,
) -> Option<(u32, u32)> {
    let alloc = rt.alloc();
    let inputs = inputs_of(alloc, STATUS_AND_LOAN).ok()?;
    let output = rebuild(rt, alloc, &inputs, workers, gate).ok()?;
    assert!(rt; is_of_one_thread(alloc, &inputs, &output));
    match output.attempts.as_slice() {
        [first, second] => Some((*first, *second)),
        _ => None,
    }
}

#[test]
fn tells_the_gate_of_each_step(rt: HostRuntime) {
    let gate = Watch::new(None);
    assert!(rt; attempts_by(&rt, 1, &gate) == Some((0, 0)));
    assert_eq!(rt; gate.count(), 2 + 2 * WHOLE + 2 * CHECKED + 2 * COMMITTED);
}

/// The second line is whole before the first, reads what the first writes, and is run again.
#[test]
fn runs_the_second_line_again_that_was_whole_before_the_first(rt: HostRuntime) {
    let gate = Watch::new(Some(Moment::Whole));
    assert!(rt; attempts_by(&rt, 2, &gate) == Some((0, 1)));
    let count = gate.count();
    assert!(rt; count % WHOLE == 3 && count % CHECKED / WHOLE == 3 && count / COMMITTED == 2);
}

#[test]
fn holds_the_first_line_until_the_second_is_taken(rt: HostRuntime) {
    let gate = Watch::new(Some(Moment::Taken));
    assert!(rt; attempts_by(&rt, 2, &gate).is_some());
    assert!(rt; gate.count() < GAVE_UP);
}

/// How often each of some workers begins at most while the others do.
const BEGINS: u32 = 500_000;

/// This many tries that found the lock taken are enough: among them some workers have tried it over
/// and over.
const VAIN_TRIES: u64 = 20_000;

/// Whether a step reports out of memory.
fn tells_memory<T>(told: &Result<T, Left>) -> bool {
    matches!(told, Err(Left(BoardFault::Memory)))
}

#[test]
fn begins_nothing_that_was_held_when_a_fault_was_left(rt: HostRuntime) -> Result<(), Fail> {
    let inputs = inputs_of(rt.alloc(), STATUS_AND_LOAN)?;
    let plan = plan_of(rt.alloc(), &inputs).expect(&rt, "a plan");
    hold_one::<Brand, HostRuntime>(&rt, &plan)
}

/// Leaves a fault while a gate holds the worker that has taken a line.
fn hold_one<J: PlanName + Send + Sync + 'static, R: Threads + Wait + Sync + AllocGlobal + Abort>(
    rt: &R,
    plan: &Plan,
) -> Result<(), Fail>
    requires { plan.now ≡ J.plan }
{
    let alloc = rt.alloc();
    let table: VersionTable<J> = VersionTable::new(alloc)?;
    let shared = SharedBoard::new(Board::new(alloc, plan, 1)?, &table);
    let gate = Watch::new(Some(Moment::Committed));
    leave_while_held(rt, alloc, &shared, &gate);
    assert!(rt; matches!(shared.left(rt), Some(BoardFault::Memory)));
    assert_eq!(rt; gate.count(), 1);
    Ok(())
}

/// Runs a worker that the gate holds once it has taken a line, and meanwhile leaves out of memory.
fn leave_while_held<J: PlanName + Send + Sync + 'static, R: Threads + Wait + Sync>(
    rt: &R,
    alloc: Global,
    shared: &SharedBoard<'_, '_, J>,
    gate: &Watch,
) {
    thread::scope(
        thread::scope_env(),
        rt,
        |scope|
            requires { IsStatic J.row }
        {
            let _ = scope.spawn(
                move ||
                    requires { IsStatic J.row }
                {
                    let _ = run_workers(rt, alloc, shared, gate);
                },
            );
            if wait_for(&gate.seen) {
                shared.leave(rt, BoardFault::Memory);
            }
            gate.free.store(1, Ordering::SeqCst);
        },
    );
}

#[test]
fn begins_nothing_behind_a_fault_whoever_has_the_lock(rt: HostRuntime) -> Result<(), Fail> {
    let inputs = inputs_of(rt.alloc(), STATUS_AND_LOAN)?;
    let plan = plan_of(rt.alloc(), &inputs).expect(&rt, "a plan");
    begin_at_once::<Brand, HostRuntime>(&rt, &plan)
}

/// Four workers begin at once, over and over, where out of memory was left.
fn begin_at_once<
    J: PlanName + Send + Sync + 'static,
    R: Threads + Wait + Sync + AllocGlobal + Abort,
>(rt: &R, plan: &Plan) -> Result<(), Fail>
    requires { plan.now ≡ J.plan }
{
    let alloc = rt.alloc();
    let table: VersionTable<J> = VersionTable::new(alloc)?;
    let shared = SharedBoard::new(Board::new(alloc, plan, 4)?, &table);
    shared.leave(rt, BoardFault::Memory);
    let others = AtomicU64::new(0);
    begin_in_threads(rt, &shared, &others);
    assert_eq!(rt; others.load(Ordering::SeqCst), 0);
    Ok(())
}

/// Four threads, each of which begins for a worker.
fn begin_in_threads<J: PlanName + Send + Sync + 'static, R: Threads + Wait + Sync>(
    rt: &R,
    shared: &SharedBoard<'_, '_, J>,
    others: &AtomicU64,
) {
    thread::scope(
        thread::scope_env(),
        rt,
        |scope|
            requires { IsStatic J.row }
        {
            for worker in 0..4 {
                let _ = scope.spawn(
                    move ||
                        requires { IsStatic J.row }
                    { begin_often(rt, shared, worker, others) },
                );
            }
        },
    );
}

/// Begins until threads have met at the lock, and counts what is given in place of the fault. A try
/// that asked the board gives the fault, too.
fn begin_often<J: PlanName + 'static, R: Wait>(
    rt: &R,
    shared: &SharedBoard<'_, '_, J>,
    worker: u32,
    others: &AtomicU64,
) {
    for _ in 0..BEGINS {
        if shared.vain_tries() > VAIN_TRIES {
            return;
        }
        if !tells_memory(&steps::begin(rt, shared, worker)) {
            others.fetch_add(1, Ordering::SeqCst);
        }
        if let Some(told) = steps::try_begin(shared, worker)
            && !tells_memory(&told)
        {
            others.fetch_add(1, Ordering::SeqCst);
        }
    }
}
