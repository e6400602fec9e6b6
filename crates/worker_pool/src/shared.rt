//! A board that threads share.

ghost use Rattle.std.specs.Prelude.{◌≡◌, ◌<◌, IfErr, length};

use crate::held::FusedBoard;
use read_set::{Plan, PlanName};
use speculate::{Board, BoardFault, Finished, Open};
use std::hint::spin_loop;
use std::sync::atomic::{AtomicU64, Ordering};
use std::sync::{Mutex, MutexGuard, Wait};
use std::time::Duration;
use version_store::VersionTable;

/// How often a worker tries the lock before it sleeps. A hold of the lock is short; to sleep and be
/// woken costs far more, and delays the publication of the line that the worker has in hand.
const TRIES: u32 = 1000;

/// How often a free worker tries the lock before it rests (`try_hold`). While others keep the lock
/// busy, one more line in hand speeds nothing up, and the worker that held the lock last has the
/// board in its core's cache (`bench/threads`).
pub const TRIES_AT_EASE: u32 = 20;

/// A board under a lock, and, outside the lock, the plan and the table of the versions. A step of a
/// worker is one hold of the lock (`hold`, `try_hold`), in which it calls one method of the
/// `FusedBoard`. The two counters don't need the board.
#[derive(Drop)]
pub struct SharedBoard<'p, 't, J: PlanName> {
    plan: &'p Plan,
    table: &'t VersionTable<J>,
    workers: usize,
    /// How many tries at the lock have found it taken.
    vain_tries: AtomicU64,
    /// 1 once a worker has ended. A worker that rests waits for a change of this.
    ended: AtomicU64,
    held: Mutex<FusedBoard<'p, 't, J>>,
    ghost named: { plan.now ≡ J.plan },
}

impl<'p, 't, J: PlanName + 'static> SharedBoard<'p, 't, J> {
    /// Makes a board that workers share, with the table of its versions.
    pub fn new(board: Board<'p, 't, J>, table: &'t VersionTable<J>) -> SharedBoard<'p, 't, J> {
        let plan = board.plan();
        let workers = board.workers();
        SharedBoard {
            plan,
            table,
            workers,
            vain_tries: AtomicU64::new(0),
            ended: AtomicU64::new(0),
            held: Mutex::new(FusedBoard { board, left: None }),
        }
    }

    /// Gives the plan of which the board was made.
    pub fn plan(&self) -> &'p Plan
        ensures { result.now ≡ J.plan }
    {
        self.plan
    }

    /// Gives the table of the versions that workers put there.
    pub fn table(&self) -> &'t VersionTable<J> {
        self.table
    }

    /// Gives how many workers the board was made for.
    pub fn workers(&self) -> usize {
        self.workers
    }

    /// Gives how many tries at the lock have found it taken so far, by all workers.
    pub fn vain_tries(&self) -> u64 {
        self.vain_tries.load(Ordering::Relaxed)
    }

    /// Takes the lock, only if it is free at one of this number of tries; else None: the board
    /// wasn't asked, and a stored fault wasn't looked for.
    pub fn try_hold(&self, tries: u32) -> Option<MutexGuard<'_, FusedBoard<'p, 't, J>>> {
        for tried in 0..tries {
            if let Some(held) = self.held.try_lock() {
                self.count(tried);
                return Some(held);
            }
            spin_loop();
        }
        self.count(tries);
        None
    }

    /// Counts tries at the lock that found it taken. Mostly there are none, and nothing is written.
    fn count(&self, vain_tries: u32) {
        if vain_tries > 0 {
            let _ = self
                .vain_tries
                .fetch_add(u64::from(vain_tries), Ordering::Relaxed);
        }
    }

    /// Takes the lock, without sleeping if it can. (`lock` alone sleeps at once where another
    /// worker sleeps.)
    pub fn hold<R: Wait>(&self, rt: &R) -> MutexGuard<'_, FusedBoard<'p, 't, J>> {
        match self.try_hold(TRIES) {
            Some(held) => held,
            None => self.held.lock(rt),
        }
    }

    /// Stores a fault, unless one was stored before. Then all workers have to end.
    pub fn leave<R: Wait>(&self, rt: &R, fault: BoardFault) {
        self.hold(rt).leave(fault);
    }

    /// Gives the first fault that was stored; None if none was.
    pub fn left<R: Wait>(&self, rt: &R) -> Option<BoardFault> {
        self.hold(rt).left
    }

    /// Sleeps for this time, or until a worker ends.
    pub fn rest<R: Wait>(&self, rt: &R, time: Duration) {
        self.ended.park_timeout(rt, 0, time);
    }

    /// Wakes all workers that sleep. One has ended, and the others have to end too.
    pub fn end_rests(&self) {
        self.ended.store(1, Ordering::SeqCst);
        self.ended.wake_all();
    }

    /// Gives the end of the replay if all lines are committed; else the board, on which there are
    /// more lines than are committed.
    pub fn close(self) -> Result<Finished<'p, 't, J>, Open<'p, 't, J>>
        ensures { IfErr result (λ rest. (rest.committed ≡ rest.board.committed)
            × (rest.committed < length J.plan.readings)) }
    {
        let SharedBoard {
            plan: _,
            table: _,
            workers: _,
            vain_tries: _,
            ended: _,
            held,
        } = self;
        let FusedBoard { board, left: _ } = held.into_inner();
        board.finish()
    }
}
