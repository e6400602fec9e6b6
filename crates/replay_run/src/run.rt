//! A whole run by one thread, and the output of any run whose outcome is that of one thread.

ghost use Rattle.std.specs.Prelude.{◌≡◌, IfOk};
ghost use Rattle.circ_records.specs.Coherent.{Coherent, number_before};
ghost use Rattle.journal_table.specs.Entry.{first_number};
ghost use Rattle.journal_table.specs.Readings.{readings_of as all_read};
ghost use Rattle.read_set.specs.Plans.{readings_of};
ghost use Rattle.read_set.specs.Replay.{last};
ghost use Rattle.result_report.specs.Report.{answers_behind};
ghost use Rattle.replay_run.specs.Answers.{answers_of};
ghost use Rattle.replay_run.specs.Entries.{AreEntries};
ghost use Rattle.replay_run.specs.Prepared.{IsJudgement, accepted_by, accepted_of};
ghost use Rattle.replay_run.specs.OneThread.{IsOneThread, IsOutput, IsOutputBy, judgement, results_of};

use crate::fault::Fault;
use crate::inputs::{Inputs, Output};
use crate::judge::{judge, judge_side_by_side};
use crate::prepared::{Prepared, Sound};
use crate::replay::replay;
use crate::replay_end::ReplayEnd;
use journal_table::{Journal, Readings, read_all, read_in_turn};
use read_set::{Deeds, Plan, Way};
use record_tables::write_records;
use result_report::{Outcome, ResultTexts, collect, report};
use schema::Tables;
use std::alloc::{AllocError, Global};
use std::mem::forget;
use std::thread::Threads;

/// Gives the output of one thread that takes the lines in the order of the journal, or the first
/// fault of the inputs: first the policy, then the tables, then the journal. Each line is attempted
/// once.
///
/// What an output was made of isn't dropped: its memory stays allocated until the process ends,
/// which frees all of it at once.
pub fn one_thread(alloc: Global, inputs: &Inputs) -> Result<Output, Fault>
    ensures { IsOneThread inputs.now result }
{
    match judge_inputs(alloc, inputs) {
        Ok(Prepared { plan, journal }) => {
            let output = output(alloc, &plan, &journal)?;
            forget(plan);
            forget(journal);
            Ok(output)
        }
        Err(fault) => Err(fault),
    }
}

/// Gives the plan and the journal that inputs make, or exactly their first fault: first of the
/// policy, then of the tables, then of the journal.
pub fn judge_inputs(alloc: Global, inputs: &Inputs) -> Result<Prepared<'_>, Fault>
    ensures due { IsJudgement result (judgement inputs.now) }
    ensures fits { IfOk result (λ j. j.plan.readings ≡ readings_of j.journal) }
{
    match judge(alloc, inputs) {
        Ok(sound) => {
            let readings = read_in_turn(alloc, &sound.journal)?;
            Ok(prepare(alloc, inputs.way, sound, readings)?)
        }
        Err(fault) => Err(fault),
    }
}

/// Gives just what `judge_inputs` gives; tables and journal are read side by side, and then the
/// requests by all cores.
pub fn judge_parallel<'i, R: Threads + Sync>(
    rt: &R,
    alloc: Global,
    inputs: &'i Inputs,
) -> Result<Prepared<'i>, Fault>
    ensures due { IsJudgement result (judgement inputs.now) }
    ensures fits { IfOk result (λ j. j.plan.readings ≡ readings_of j.journal) }
{
    match judge_side_by_side(rt, alloc, inputs) {
        Ok(sound) => {
            let readings = read_all(rt, alloc, &sound.journal)?;
            Ok(prepare(alloc, inputs.way, sound, readings)?)
        }
        Err(fault) => Err(fault),
    }
}

/// The plan of inputs that no rule refuses, whose requests were read as these.
fn prepare(
    alloc: Global,
    way: Way,
    sound: Sound<'_>,
    readings: Readings,
) -> Result<Prepared<'_>, AllocError>
    requires read { readings ≡ all_read sound.journal }
    requires coherent { Coherent sound.policy
        (number_before (first_number sound.journal)) sound.base }
    ensures { IfOk result (λ j. accepted_of j ≡ accepted_by way sound.entry) }
{
    let Sound {
        policy,
        base,
        journal,
    } = sound;
    let deeds = Deeds::of(alloc, way, policy.due_form(), &journal, &readings)?;
    let plan = Plan::from_readings(policy, base, readings, deeds);
    Ok(Prepared { plan, journal })
}

/// The output of one thread over the plan of a journal. The outcome of the replay isn't dropped.
fn output(alloc: Global, plan: &Plan, journal: &Journal) -> Result<Output, AllocError>
    requires { plan.now.readings ≡ readings_of journal.now }
    ensures { IfOk result (IsOutput plan.now journal.now) }
{
    let replayed = replay(alloc, plan)?;
    let outcome = collect(
        alloc,
        &ReplayEnd {
            plan,
            replayed: &replayed,
        },
    )?;
    let output = output_of(alloc, plan, journal, outcome)?;
    forget(replayed);
    Ok(output)
}

/// Gives the output of a run over the plan of a journal that ended with the records and the answers
/// of one thread: the tables of these records, and the result tables of the lines with these
/// answers.
pub fn output_of(
    alloc: Global,
    plan: &Plan,
    journal: &Journal,
    outcome: Outcome<'_>,
) -> Result<Output, AllocError>
    requires fits { plan.now.readings ≡ readings_of journal.now }
    requires answers { answers_behind outcome.answers.items ≡ answers_of plan.now }
    requires records { AreEntries (last plan.now) outcome.records }
    ensures { IfOk result (IsOutputBy plan.now journal.now outcome.entry.attempts.items) }
{
    let tables = write_records(alloc, outcome.records.as_records())?;
    let texts = report(alloc, journal, plan, &outcome)?;
    Ok(put_together(tables, texts, outcome.attempts))
}

/// Gives the output of exactly these tables, texts and attempts.
pub fn put_together(tables: Tables, texts: ResultTexts, attempts: Vec<u32>) -> Output
    ensures tables { result.tables ≡ tables }
    ensures results { results_of result ≡ texts }
    ensures attempts { result.attempts ≡ attempts }
{
    let ResultTexts {
        answers,
        report,
        passed,
        sizes,
    } = texts;
    Output {
        tables,
        answers,
        report,
        passed,
        sizes,
        attempts,
    }
}
