//! What each worker does.

ghost use Rattle.std.specs.Prelude.{IfOk, IfSome};
ghost use Rattle.message_meaning.specs.Needs.{AreAsked};
ghost use Rattle.worker_pool.specs.Rows.{IsStatic};

use crate::calls::Left;
use crate::gate::{Gate, Moment};
use crate::on_board::OnBoard;
use crate::shared::{SharedBoard, TRIES_AT_EASE};
use board_lines::Reply;
use message_meaning::perform;
use read_set::{Effect, Notes, PlanName, RecordingSource, Stop, Version};
use speculate::{BoardFault, Choice};
use std::alloc::Global;
use std::hint::spin_loop;
use std::sync::Wait;
use std::thread;
use std::thread::Threads;
use std::time::Duration;
use version_store::Place;

/// How many microseconds a worker rests before it chooses again, where its choice waits for others:
/// as long as some dozens of lines take. A worker that comes back at once takes the same line over
/// and over, or a line whose records others are still about to write (`bench/threads`).
const STAND_BACK: u64 = 800;

/// The lock is busy if, in one turn of a worker, at least this number of tries found it taken. One
/// more line in hand then speeds nothing up, and slows the others down: the board goes from one
/// core's cache to another's at each step.
const BUSY: u64 = 10;

/// How often a worker doubles the time for which it rests while the lock is busy turn after turn:
/// up to a tenth of a second. In that time the other workers get little done, and each of their
/// lines takes the board from the first worker's cache.
const DOUBLINGS: u32 = 7;

/// For how many pause instructions of the processor (5 to 50 nanoseconds each) the first worker
/// rests. It never sleeps, so that a line for which all others wait is soon in hand.
const PAUSES: u32 = 5_000;

/// A line that a worker has in hand.
#[derive(Clone, Copy)]
struct WorkerTask {
    worker: u32,
    line: u64,
    attempt: u32,
}

/// How a worker goes on.
#[derive(Clone, Copy)]
enum WorkerTurn {
    /// The worker chooses again.
    Next,
    /// What the worker might choose now waits for other workers: it lets them go first.
    Yield,
    /// All lines are committed.
    Last,
}

/// Runs as many workers as the board was made for, until all lines are committed or a fault was
/// stored; a fault is returned. The first worker runs in the calling thread; a worker whose thread
/// can't be made is left out.
pub fn run_workers<J: PlanName + Send + Sync + 'static, G: Gate + Sync, R: Threads + Wait + Sync>(
    rt: &R,
    alloc: Global,
    shared: &SharedBoard<'_, '_, J>,
    gate: &G,
) -> Result<(), BoardFault> {
    let workers = shared.workers();
    thread::scope(
        thread::scope_env(),
        rt,
        |scope|
            requires { IsStatic J.row }
        {
            for worker in 1..workers {
                let Ok(worker) = u32::try_from(worker) else {
                    break;
                };
                let _ = scope.spawn(
                    move ||
                        requires { IsStatic J.row }
                    { work(rt, alloc, shared, gate, worker) },
                );
            }
            work(rt, alloc, shared, gate, 0);
        },
    );
    match shared.left(rt) {
        Some(fault) => Err(fault),
        None => Ok(()),
    }
}

/// Works until all lines are committed or a fault was stored. Then all workers that rest are woken.
fn work<J: PlanName + 'static, G: Gate, R: Wait>(
    rt: &R,
    alloc: Global,
    shared: &SharedBoard<'_, '_, J>,
    gate: &G,
    worker: u32,
) {
    let mut busy_turns: u32 = 0;
    for _ in rt.forever() {
        let before = shared.vain_tries();
        let turn = take_turn(rt, alloc, shared, gate, worker);
        let after = shared.vain_tries();
        let is_busy = after.saturating_sub(before) >= BUSY;
        busy_turns = if is_busy {
            busy_turns.saturating_add(1)
        } else {
            0
        };
        match turn {
            Ok(WorkerTurn::Next) if worker == 0 || !is_busy => {}
            Ok(WorkerTurn::Next | WorkerTurn::Yield) => stand_back(rt, shared, worker, busy_turns),
            Ok(WorkerTurn::Last) => break,
            Err(Left(fault)) => {
                shared.leave(rt, fault);
                break;
            }
        }
    }
    shared.end_rests();
}

/// Lets other workers go first. Only to yield does nothing if no other thread wants the core.
fn stand_back<J: PlanName + 'static, R: Wait>(
    rt: &R,
    shared: &SharedBoard<'_, '_, J>,
    worker: u32,
    busy_turns: u32,
) {
    if worker > 0 {
        let micros = STAND_BACK << busy_turns.min(DOUBLINGS);
        shared.rest(rt, Duration::from_micros(micros));
        return;
    }
    for _ in 0..PAUSES {
        spin_loop();
    }
    thread::yield_now();
}

/// What a free worker does next: a commit, a check of a line, or an attempt at a line. The first
/// worker waits for the lock; any other lets the workers that keep the lock busy go first.
fn take_turn<J: PlanName + 'static, G: Gate, R: Wait>(
    rt: &R,
    alloc: Global,
    shared: &SharedBoard<'_, '_, J>,
    gate: &G,
    worker: u32,
) -> Result<WorkerTurn, Left> {
    let begun = if worker == 0 {
        shared.hold(rt).begin(worker)
    } else {
        let Some(mut held) = shared.try_hold(TRIES_AT_EASE) else {
            return Ok(WorkerTurn::Yield);
        };
        held.begin(worker)
    };
    match &begun {
        Ok((Choice::End, _)) => Ok(WorkerTurn::Last),
        Ok((Choice::Commit(line), Some(Reply::Committed))) => {
            gate.at(worker, *line, Moment::Committed);
            Ok(WorkerTurn::Next)
        }
        Ok((Choice::Check(line), Some(Reply::Same))) => {
            check_line(rt, shared, gate, worker, *line)
        }
        Ok((Choice::Check(line), Some(Reply::Whole))) => {
            gate.at(worker, *line, Moment::Checked);
            Ok(WorkerTurn::Next)
        }
        Ok((Choice::Take(line), Some(Reply::Taken { attempt }))) => {
            let task = WorkerTask {
                worker,
                line: *line,
                attempt: *attempt,
            };
            run_line(rt, alloc, shared, gate, task)
        }
        Ok(_) => Ok(WorkerTurn::Yield),
        Err(left) => Err(*left),
    }
}

/// Goes on with a check that has begun, until all notes were compared or the check ends.
fn check_line<J: PlanName + 'static, G: Gate, R: Wait>(
    rt: &R,
    shared: &SharedBoard<'_, '_, J>,
    gate: &G,
    worker: u32,
    line: u64,
) -> Result<WorkerTurn, Left> {
    for _ in rt.forever() {
        let checked = shared.hold(rt).check(worker, line);
        match &checked {
            Ok(Reply::Same) => {}
            Ok(Reply::Whole) => {
                gate.at(worker, line, Moment::Checked);
                return Ok(WorkerTurn::Next);
            }
            Ok(_) => return Ok(WorkerTurn::Yield),
            Err(left) => return Err(*left),
        }
    }
    unreachable!()
}

/// Runs a line that the worker has taken, and publishes its version act by act, until all is
/// published or the attempt ends.
fn run_line<J: PlanName + 'static, G: Gate, R: Wait>(
    rt: &R,
    alloc: Global,
    shared: &SharedBoard<'_, '_, J>,
    gate: &G,
    task: WorkerTask,
) -> Result<WorkerTurn, Left> {
    gate.at(task.worker, task.line, Moment::Taken);
    let Some(place) = read_line(rt, alloc, shared, task)? else {
        return Ok(WorkerTurn::Yield);
    };
    let published = shared.hold(rt).publish(task.worker, place);
    match &published {
        Ok(Reply::Placed | Reply::Lifted) => {}
        Ok(Reply::Whole) => {
            gate.at(task.worker, task.line, Moment::Whole);
            return Ok(WorkerTurn::Next);
        }
        Ok(_) => return Ok(WorkerTurn::Yield),
        Err(left) => return Err(*left),
    }
    for _ in rt.forever() {
        let more = shared.hold(rt).publish_more(task.worker);
        match &more {
            Ok(Some(Reply::Placed | Reply::Lifted)) => {}
            Ok(Some(Reply::Whole)) => {
                gate.at(task.worker, task.line, Moment::Whole);
                return Ok(WorkerTurn::Next);
            }
            Ok(_) => return Ok(WorkerTurn::Yield),
            Err(left) => return Err(*left),
        }
    }
    unreachable!()
}

/// Runs the rule of a line on what the worker looks at on the board, and notes. Returns the place
/// of the line's version, which has read only what the rule asks for; None if the attempt has
/// ended.
fn read_line<'t, J: PlanName + 'static, R: Wait>(
    rt: &R,
    alloc: Global,
    shared: &SharedBoard<'_, 't, J>,
    task: WorkerTask,
) -> Result<Option<Place<'t, J>>, Left>
    ensures { IfOk result (λ o. IfSome o (λ p. AreAsked J.plan task.line p.version.now.reads)) }
{
    let mut source = RecordingSource {
        notes: Notes::new(alloc),
        reader: OnBoard {
            rt,
            shared,
            worker: task.worker,
            left: None,
        },
    };
    match perform(alloc, shared.plan(), task.line, &mut source) {
        Ok(Effect { writes, answer }) => {
            let version = Version::new(task.line, task.attempt, source.notes, writes, answer);
            match shared.table().put(rt, version) {
                Ok(place) => Ok(Some(place)),
                Err(_) => Err(Left(BoardFault::Memory)),
            }
        }
        Err(Stop::Unnoted(_)) => match source.reader.left {
            Some(left) => Err(left),
            None => Ok(None),
        },
        Err(Stop::Memory) => Err(Left(BoardFault::Memory)),
    }
}
