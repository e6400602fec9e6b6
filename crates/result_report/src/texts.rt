//! The texts of the result tables.

ghost use Rattle.std.specs.Prelude.{◌≡◌, ◌<◌, ◌+◌, ◌++◌, ◌^◌, ◌*◌, ℕ, List, IfOk, OnOk, take, length, option_copied, option_map, slice_get};
ghost use Rattle.read_set.specs.Plans.{readings_of};
ghost use Rattle.result_report.specs.Report.{AreAnswers, LineResult, answers_behind, line_results};
ghost use Rattle.journal_table.specs.declared.readings.TheConstants.{STRETCH};
ghost use Rattle.result_report.specs.Stretches.{AreParts, between, stretch};
ghost use Rattle.result_report.specs.Tables.{AreHeads, AreTexts};
ghost use Rattle.result_report.specs.Tellings.{Tells};

use crate::outcome::Outcome;
use crate::telling::Telling;
use journal_table::{Journal, Line, STRETCH};
use rayon::prelude::*;
use read_set::Plan;
use sip_answer::Answer;
use sip_reader::Reading;
use std::alloc::{AllocError, Global};
use std::thread::Threads;

/// The number of rows under the header of each result table.
#[derive(Clone, Copy, PartialEq, Eq)]
pub struct Sizes {
    pub answered: u64,
    pub passed: u64,
    /// Rows of the report.
    pub differences: u64,
}

/// The result tables as csv prints them, and the numbers of their rows.
#[derive(Drop)]
pub struct ResultTexts {
    pub answers: Vec<u8>,
    pub report: Vec<u8>,
    pub passed: Vec<u8>,
    pub sizes: Sizes,
}

/// Writes the result tables of a run over the plan of a journal: each line in just one of answers
/// and passed, and in the report exactly if its recorded response differs. The run has an answer
/// for each line, and none just if the line is passed over or can't be read.
pub fn report(
    alloc: Global,
    journal: &Journal,
    plan: &Plan,
    outcome: &Outcome<'_>,
) -> Result<ResultTexts, AllocError>
    requires planned { plan.now.readings ≡ readings_of journal.now }
    requires answered { AreAnswers (readings_of journal.now)
        (answers_behind outcome.now.answers.items) }
    ensures texts { IfOk result
        (AreTexts (line_results journal.now (readings_of journal.now)
        (answers_behind outcome.now.answers.items))) }
    ensures each_once { IfOk result (λ t. t.sizes.answered + t.sizes.passed ≡ length journal.now) }
{
    let lines = journal.lines();
    let answers = outcome.answers.as_slice();
    write_lines(alloc, lines, plan, answers, 0, lines.len())?.finish()
}

/// This many stretches are written in parallel and then joined: enough for most processors, and
/// their texts are small in comparison.
const BATCH: usize = 8;

/// The answers get the capacity that they need if rows have this number of bytes. Most are shorter,
/// so that their text never moves;
/// memory that is never written to isn't touched.
const USUAL_ANSWER: usize = 160;

/// Writes just what `report` writes, by as many threads as there are processors, a stretch of lines
/// at a time.
pub fn report_parallel(
    rt: &(impl Threads + Sync),
    alloc: Global,
    journal: &Journal,
    plan: &Plan,
    outcome: &Outcome<'_>,
) -> Result<ResultTexts, AllocError>
    requires planned { plan.now.readings ≡ readings_of journal.now }
    requires answered { AreAnswers (readings_of journal.now)
        (answers_behind outcome.now.answers.items) }
    ensures texts { IfOk result
        (AreTexts (line_results journal.now (readings_of journal.now)
        (answers_behind outcome.now.answers.items))) }
    ensures each_once { IfOk result (λ t. t.sizes.answered + t.sizes.passed ≡ length journal.now) }
{
    let lines = journal.lines();
    let answers = outcome.answers.as_slice();
    let mut whole = Telling::new(alloc)?.finish()?;
    let heads = Heads {
        answers: whole.answers.len(),
        report: whole.report.len(),
        passed: whole.passed.len(),
    };
    whole
        .answers
        .reserve(lines.len().saturating_mul(USUAL_ANSWER))?;
    let stretches = lines.len() / STRETCH + 1;
    for batch in 0..stretches / BATCH + 1 {
        let from = batch * BATCH;
        let parts: Result<Vec<ResultTexts>, AllocError> = (from..stretches.min(from + BATCH))
            .into_par_iter()
            .map(
                |k: usize| -> Result<ResultTexts, AllocError>
                    ensures { IfOk result (AreTexts
                        (stretch k (line_results lines.entry.now plan.entry.now.readings
                        (answers_behind answers.entry.now)))) }
                { write_stretch(alloc, lines, plan, answers, k) },
            )
            .with_min_len(1)
            .collect(rt, alloc)?;
        whole = join(whole, heads, parts?)?;
    }
    Ok(whole)
}

/// The result tables of one stretch of lines; stretches count from 0.
fn write_stretch<'e>(
    alloc: Global,
    lines: &[Line],
    plan: &Plan,
    answers: &[Option<&'e Answer>],
    k: usize,
) -> Result<ResultTexts, AllocError>
    ensures { IfOk result (AreTexts
        (stretch k (line_results lines.now plan.now.readings (answers_behind answers.now)))) }
{
    let from = k.saturating_mul(STRETCH);
    write_lines(
        alloc,
        lines,
        plan,
        answers,
        from,
        from.saturating_add(STRETCH),
    )?
    .finish()
}

/// Writes each line from one position up to another.
fn write_lines<'e>(
    alloc: Global,
    lines: &[Line],
    plan: &Plan,
    answers: &[Option<&'e Answer>],
    from: usize,
    to: usize,
) -> Result<Telling, AllocError>
    ensures { IfOk result (Tells
        (between from to (line_results lines.now plan.now.readings (answers_behind answers.now)))) }
{
    let mut telling = Telling::new(alloc)?;
    for position in from..to {
        if let Some((line, reading, answer)) = result_at(lines, plan, answers, position) {
            telling.line(alloc, line, reading, answer)?;
        }
    }
    Ok(telling)
}

/// The line at a position, with its reading and its answer.
fn result_at<'l, 't, 'p, 'e>(
    lines: &'l [Line<'t>],
    plan: &'p Plan,
    answers: &[Option<&'e Answer>],
    position: usize,
) -> Option<(&'l Line<'t>, &'p Reading, Option<&'e Answer>)>
    ensures { option_map (λ t. (t.0.now, t.1.now, option_copied t.2)) result
        ≡ slice_get (line_results lines.now plan.now.readings
        (answers_behind answers.now)) position }
{
    let line = lines.get(position)?;
    let reading = plan.readings().get(position)?;
    let answer = answers.get(position)?;
    Some((line, reading, *answer))
}

/// The result tables with those of the next stretches after them. A part is freed once it is
/// joined.
fn join(
    whole: ResultTexts,
    heads: Heads,
    parts: Vec<ResultTexts>,
) -> Result<ResultTexts, AllocError>
    ensures { IfOk result (λ t. (lines : List LineResult) (told : ℕ) → length lines < 2 ^ 64 → AreHeads heads
        → AreTexts (take (told * STRETCH) lines) whole → AreParts told lines parts.items → AreTexts (take ((told + length parts.items) * STRETCH) lines) t) }
{
    let mut joined = whole;
    for part in parts {
        joined.add(heads, &part)?;
    }
    Ok(joined)
}

/// How many bytes the header of each table has.
#[derive(Clone, Copy)]
pub(crate) struct Heads {
    pub(crate) answers: usize,
    pub(crate) report: usize,
    pub(crate) passed: usize,
}

impl ResultTexts {
    /// Appends the rows of more lines, without the headers. Out of memory, the caller drops them
    /// all.
    fn add(&mut self, heads: Heads, more: &ResultTexts) -> Result<(), AllocError>
        ensures { OnOk result ((front back : List LineResult) → length front + length back < 2 ^ 64 → AreHeads heads
            → AreTexts front self.old → AreTexts back more.now → AreTexts (front ++ back) self.new) }
    {
        let answers = more.answers.get(heads.answers..).unwrap_or(&[]);
        let report = more.report.get(heads.report..).unwrap_or(&[]);
        let passed = more.passed.get(heads.passed..).unwrap_or(&[]);
        self.answers.extend_from_slice(answers)?;
        self.report.extend_from_slice(report)?;
        self.passed.extend_from_slice(passed)?;
        let (sizes, more) = (&mut self.sizes, more.sizes);
        sizes.answered = sizes.answered.saturating_add(more.answered);
        sizes.passed = sizes.passed.saturating_add(more.passed);
        sizes.differences = sizes.differences.saturating_add(more.differences);
        Ok(())
    }
}
