//! A whole run by workers in threads.

ghost use Rattle.std.specs.Prelude.{◌≡◌, ◌+◌, [], IfErr, IfOk, length};
ghost use Rattle.std.specs.Thread.{IsSync};
ghost use Rattle.read_set.specs.Plans.{plan_over, readings_of};
ghost use Rattle.schema.specs.Texts.{texts_of};
ghost use Rattle.record_tables.specs.Written.{tables_of};
ghost use Rattle.result_report.specs.Report.{AreAnswers, answers_behind, line_results};
ghost use Rattle.result_report.specs.Tables.{AreTexts};
ghost use Rattle.replay_run.specs.Attempts.{AreOnePerLine};
ghost use Rattle.replay_run.specs.BySteps.{AreWorkers, attempts_on};
ghost use Rattle.replay_run.specs.ByWorkers.{IsByWorkers, IsMade, MayFail};
ghost use Rattle.replay_run.specs.OneThread.{IsOutputBy, judgement};
ghost use Rattle.replay_run.specs.Outcomes.{IsOutcome};

use crate::fault::Fault;
use crate::in_order::run_in_order;
use crate::inputs::{Inputs, Output};
use crate::prepared::Prepared;
use crate::run::{judge_parallel, put_together};
use board_steps::WORKERS_MAX;
use journal_table::Journal;
use read_set::{Plan, PlanName};
use record_tables::write_records;
use result_report::{Outcome, ResultTexts, collect, report_parallel};
use schema::Tables;
use speculate::{Board, Finished, Open, drive_in_order};
use std::alloc::{AllocError, Global};
use std::marker::Brand;
use std::mem::forget;
use std::sync::Wait;
use std::thread::{Threads, join};
use version_store::VersionTable;
use worker_pool::{Gate, SharedBoard, run_workers};

/// Gives the output of one thread, made by 1 to 64 workers, several of them in threads; its
/// attempts are those that were committed. The faults: first the number of workers, then those of
/// the inputs, then the first that a worker meets. The gate is called after each worker's steps.
///
/// What an output was made of isn't dropped: its memory stays allocated until the process ends,
/// which frees all of it at once.
pub fn rebuild<G: Gate + Sync, R: Threads + Wait + Sync>(
    rt: &R,
    alloc: Global,
    inputs: &Inputs,
    workers: u32,
    gate: &G,
) -> Result<Output, Fault>
    ensures output { IsByWorkers inputs.now workers result }
    ensures attempts { IfOk result (λ o. AreOnePerLine (judgement inputs.now) o.attempts.items) }
{
    if workers == 0 {
        return Err(Fault::BadWorkers);
    }
    if workers > WORKERS_MAX {
        return Err(Fault::BadWorkers);
    }
    match judge_parallel(rt, alloc, inputs) {
        Ok(Prepared { plan, journal }) => {
            let output = run(rt, alloc, plan, &journal, workers, gate);
            forget(journal);
            output
        }
        Err(fault) => Err(fault),
    }
}

/// The run over the plan of a journal: by workers round a board or, as one worker has nobody to
/// share a board with, in order.
fn run<G: Gate + Sync, R: Threads + Wait + Sync>(
    rt: &R,
    alloc: Global,
    plan: Plan,
    journal: &Journal,
    workers: u32,
    gate: &G,
) -> Result<Output, Fault>
    requires fits { plan.readings ≡ readings_of journal.now }
    requires workers { AreWorkers workers }
    ensures output { IsMade (record { plan = plan; lines = journal.now }) result }
    ensures attempts { IfOk result (λ o. length o.attempts.items ≡ length journal.now) }
{
    if workers == 1 {
        let output = run_in_order::<Brand, G, R>(rt, alloc, plan, journal, gate)?;
        Ok(output)
    } else {
        run_named::<Brand, G, R>(rt, alloc, plan, journal, workers, gate)
    }
}

/// The run of the workers over the plan of a journal. Once they are done, the records before the
/// first line aren't needed, and their memory is freed for the texts.
fn run_named<J: PlanName + Send + Sync + 'static, G: Gate + Sync, R: Threads + Wait + Sync>(
    rt: &R,
    alloc: Global,
    plan: Plan,
    journal: &Journal,
    workers: u32,
    gate: &G,
) -> Result<Output, Fault>
    requires named { plan ≡ J.plan }
    requires fits { plan.readings ≡ readings_of journal.now }
    requires workers { AreWorkers workers }
    ensures output { IsMade (record { plan = J.plan; lines = journal.now }) result }
    ensures attempts { IfOk result (λ o. length o.attempts.items ≡ length journal.now) }
{
    let table: VersionTable<J> = VersionTable::for_lines(alloc, plan.readings().len())?;
    let outcome = outcome_of(rt, alloc, &plan, &table, workers, gate)?;
    let mut bare = plan;
    drop(bare.take_base(alloc));
    let output = output_parallel::<J, R>(rt, alloc, &bare, journal, outcome)?;
    forget(table);
    forget(bare);
    Ok(output)
}

/// The outcome of the workers. A fault that they return ends the run, whatever is committed by
/// then.
#[tactic(auto, using(crate::proofs::Stepping::met))]
fn outcome_of<'t, J: PlanName + Send + Sync + 'static, G: Gate + Sync, R: Threads + Wait + Sync>(
    rt: &R,
    alloc: Global,
    plan: &Plan,
    table: &'t VersionTable<J>,
    workers: u32,
    gate: &G,
) -> Result<Outcome<'t>, Fault>
    requires named { plan.now ≡ J.plan }
    requires workers { AreWorkers workers }
    ensures outcome { IfOk result (IsOutcome J.plan) }
    ensures fault { IfErr result MayFail }
{
    let board = Board::new(alloc, plan, workers)?;
    let shared = SharedBoard::new(board, table);
    let run = run_workers(rt, alloc, &shared, gate);
    let finished = match (run, shared.close()) {
        (Err(fault), _) => return Err(Fault::from(fault)),
        (Ok(()), closed) => finished_of(rt, alloc, plan, table, closed)?,
    };
    let outcome = collected(alloc, finished)?;
    Ok(outcome)
}

/// Gives the end of the replay if workers have ended without a fault: on their board; or, if they
/// have left lines open, on a new one.
pub fn finished_of<'p, 't, J: PlanName + 'static, R: Wait>(
    rt: &R,
    alloc: Global,
    plan: &'p Plan,
    table: &'t VersionTable<J>,
    closed: Result<Finished<'p, 't, J>, Open<'p, 't, J>>,
) -> Result<Finished<'p, 't, J>, Fault>
    requires { plan.now ≡ J.plan }
    ensures { IfErr result MayFail }
{
    match closed {
        Ok(finished) => Ok(finished),
        Err(open) => {
            drop(open);
            begin_again(rt, alloc, plan, table)
        }
    }
}

/// The replay from its beginning, in the calling thread: all lines of a new board, in the order of
/// the journal.
#[tactic(auto, using(crate::proofs::Stepping::met))]
fn begin_again<'p, 't, J: PlanName + 'static, R: Wait>(
    rt: &R,
    alloc: Global,
    plan: &'p Plan,
    table: &'t VersionTable<J>,
) -> Result<Finished<'p, 't, J>, Fault>
    requires { plan.now ≡ J.plan }
    ensures { IfErr result MayFail }
{
    let mut board = Board::new(alloc, plan, 1)?;
    drive_in_order(rt, alloc, table, &mut board)?;
    match board.finish() {
        Ok(finished) => Ok(finished),
        Err(_) => unreachable!(),
    }
}

/// What is collected from a board on which all lines are committed. The board's memory is freed for
/// the texts.
fn collected<'t, J: PlanName + 'static>(
    alloc: Global,
    finished: Finished<'_, 't, J>,
) -> Result<Outcome<'t>, AllocError>
    ensures outcome { IfOk result (IsOutcome J.plan) }
    ensures attempts { IfOk result (λ o. o.attempts.items ≡ attempts_on J.plan finished.entry) }
{
    let _plan = finished.plan();
    let outcome = collect(alloc, &finished)?;
    drop(finished);
    Ok(outcome)
}

/// The output of a run over the plan of a journal that ended with the records and the answers of
/// one thread; its records before the first line aren't needed. The tables of the records and the
/// result tables are made side by side, the latter by all cores.
fn output_parallel<J: PlanName, R: Threads + Sync>(
    rt: &R,
    alloc: Global,
    plan: &Plan,
    journal: &Journal,
    outcome: Outcome<'_>,
) -> Result<Output, AllocError>
    requires bare { plan.now ≡ plan_over J.plan [] }
    requires fits { J.plan.readings ≡ readings_of journal.now }
    requires outcome { IsOutcome J.plan outcome }
    ensures { IfOk result (IsOutputBy J.plan journal.now outcome.entry.attempts.items) }
{
    let (records, lent) = (outcome.records.as_records(), &outcome);
    let write = || -> Result<Tables, AllocError>
        ensures { IfOk result (λ tables. texts_of tables ≡ tables_of records.entry.now) }
    { write_records(alloc, records) };
    let tell = || -> Result<ResultTexts, AllocError>
        requires { IsSync R.row × (plan.now.readings ≡ readings_of journal.now)
            × AreAnswers (readings_of journal.now) (answers_behind lent.now.answers.items) }
        ensures { IfOk result (λ t. AreTexts (line_results journal.entry.now (readings_of journal.entry.now) (answers_behind lent.entry.now.answers.items)) t
            × (t.sizes.answered + t.sizes.passed ≡ length journal.entry.now)) }
    { report_parallel(rt, alloc, journal, plan, lent) };
    let (tables, texts) = join(rt, write, tell);
    Ok(put_together(tables?, texts?, outcome.attempts))
}
