//! A whole run by a list of workers' steps.

ghost use Rattle.std.specs.Prelude.{◌≡◌, ◌≤◌, IfOk};
ghost use Rattle.read_set.specs.Plans.{readings_of};
ghost use Rattle.replay_run.specs.Attempts.{AreOnePerLine, IfOutput};
ghost use Rattle.replay_run.specs.BySteps.{AreWorkers, IsBySteps, IsRun, attempts_on};
ghost use Rattle.replay_run.specs.OneThread.{IsOutputBy, judgement};
ghost use Rattle.speculate.specs.Finishing.{IsWhole};

use crate::fault::Fault;
use crate::inputs::{Inputs, Output};
use crate::prepared::Prepared;
use crate::run::{judge_inputs, output_of};
use board_steps::WORKERS_MAX;
use journal_table::Journal;
use read_set::{Plan, PlanName};
use result_report::collect;
use speculate::{Board, Finished, Halt, Step, play};
use std::alloc::{AllocError, Global};
use std::marker::Brand;
use std::sync::Wait;
use version_store::VersionTable;

/// The outcome of a run by a list of steps.
#[derive(Drop)]
pub enum Run {
    /// All lines are committed.
    Output(Output),
    /// This number of lines is committed, and there are more.
    Unfinished { committed: u64 },
}

/// Gives the output of one thread if the steps of 1 to 64 workers commit every line of the journal;
/// its attempts are those that were committed. Else how many lines they commit. The faults: first
/// the number of workers, then those of the inputs, then the first step that is refused, since the
/// attempts or the clock are spent. `Look` takes the key that its line needs next, `Publish` the
/// version that its notes determine.
pub fn rebuild_by_steps<R: Wait>(
    rt: &R,
    alloc: Global,
    inputs: &Inputs,
    workers: u32,
    steps: &[Step],
) -> Result<Run, Fault>
    ensures run { IsBySteps inputs.now workers steps.now result }
    ensures attempts { IfOk result
        (λ run. IfOutput run (λ o. AreOnePerLine (judgement inputs.now) o.attempts.items)) }
{
    if workers == 0 {
        return Err(Fault::BadWorkers);
    }
    if workers > WORKERS_MAX {
        return Err(Fault::BadWorkers);
    }
    match judge_inputs(alloc, inputs) {
        Ok(Prepared { plan, journal }) => {
            run_steps::<Brand, R>(rt, alloc, &plan, &journal, workers, steps)
        }
        Err(fault) => Err(fault),
    }
}

/// The run of the steps over the plan of a journal.
fn run_steps<J: PlanName + 'static, R: Wait>(
    rt: &R,
    alloc: Global,
    plan: &Plan,
    journal: &Journal,
    workers: u32,
    steps: &[Step],
) -> Result<Run, Fault>
    requires named { plan.now ≡ J.plan }
    requires fits { plan.now.readings ≡ readings_of journal.now }
    requires workers { AreWorkers workers }
    ensures { IsRun (record { plan = plan.now; lines = journal.now }) workers steps.now result }
{
    let table: VersionTable<J> = VersionTable::new(alloc)?;
    let mut board = Board::new(alloc, plan, workers)?;
    if let Err(Halt { fault, .. }) = play(rt, alloc, &table, &mut board, steps) {
        return Err(Fault::from(fault));
    }
    match board.finish() {
        Ok(finished) => Ok(Run::Output(collect_output(alloc, plan, journal, &finished)?)),
        Err(open) => Ok(Run::Unfinished {
            committed: open.committed,
        }),
    }
}

/// Gives the output of a board on which all lines are committed: that of one thread; its attempts
/// are those that were committed.
pub fn collect_output<J: PlanName + 'static>(
    alloc: Global,
    plan: &Plan,
    journal: &Journal,
    finished: &Finished<'_, '_, J>,
) -> Result<Output, AllocError>
    requires named { plan.now ≡ J.plan }
    requires fits { plan.now.readings ≡ readings_of journal.now }
    ensures { IfOk result (IsOutputBy plan.now journal.now (attempts_on plan.now finished.now)) }
{
    let _plan = finished.plan();
    let outcome = collect(alloc, finished)?;
    output_of(alloc, plan, journal, outcome)
}
