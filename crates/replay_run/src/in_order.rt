//! A whole run by one worker, who has nobody to share a board with: the lines in the order of the
//! journal, on records that they change in place. While some of them are replayed, another core
//! reports those before them.

ghost use Rattle.std.specs.Prelude.{◌≡◌, ◌≤◌, ◌+◌, [], IfOk, OnOk, length};
ghost use Rattle.circ_records.specs.Records.{record_at};
ghost use Rattle.circ_records.specs.declared.key.Key.{Key};
ghost use Rattle.read_set.specs.Plans.{plan_over, readings_of};
ghost use Rattle.read_set.specs.Replay.{after};
ghost use Rattle.replay_run.specs.InOrder.{HasReplayed};
ghost use Rattle.replay_run.specs.OneThread.{IsOutput};

use crate::inputs::Output;
use crate::replay::effect_of;
use crate::run::put_together;
use circ_records::LikelyPositions;
use journal_table::Journal;
use message_meaning::Live;
use read_set::{Effect, Plan, PlanName};
use record_tables::write_records_parallel;
use result_report::Telling;
use sip_answer::Answer;
use std::alloc::{AllocError, Global};
use std::mem::forget;
use std::thread::{Threads, join_mut};
use worker_pool::{Gate, Moment};

/// This many lines are replayed while those before them are reported.
const SPAN: usize = 4096;

/// The records that lines name are looked for this number of lines in advance.
const AHEAD: u64 = 64;

/// The records after some lines, and the answers of the last of these lines.
#[derive(Drop)]
pub(crate) struct Replaying {
    pub(crate) live: Live,
    pub(crate) answers: Vec<Option<Answer>>,
}

/// A run after some lines.
#[derive(Drop)]
pub(crate) struct InOrder {
    pub(crate) replaying: Replaying,
    /// How many lines are reported: all but the last ones, whose answers are above.
    pub(crate) told: usize,
    pub(crate) telling: Telling,
    /// Answers of lines that are reported: their memory is used again.
    pub(crate) spare: Vec<Option<Answer>>,
}

/// Gives the output of one thread over the plan of a journal: each line's answer, the records after
/// the last line, and the result tables. The gate is called as after the steps of a worker 0. The
/// lines change the records of the plan, which aren't copied, so the plan is used up.
pub fn run_in_order<J: PlanName, G: Gate + Sync, R: Threads + Sync>(
    rt: &R,
    alloc: Global,
    plan: Plan,
    journal: &Journal,
    gate: &G,
) -> Result<Output, AllocError>
    requires named { plan ≡ J.plan }
    requires fits { plan.readings ≡ readings_of journal.now }
    ensures { IfOk result (IsOutput J.plan journal.now) }
{
    let mut bare = plan;
    let live = Live::of(bare.take_base(alloc));
    let plan = bare;
    let mut run = InOrder::new(alloc, live)?;
    for _ in 0..plan.readings().len() / SPAN + 1 {
        run = run.go_on::<J, G, R>(rt, alloc, &plan, journal, gate)?;
    }
    let output = run.finish::<J, R>(rt, alloc, &plan, journal)?;
    forget(plan);
    Ok(output)
}

impl InOrder {
    ghost use Rattle.std.specs.Prelude.{◌≡◌, ◌<◌, ◌+◌, ◌++◌, ◌^◌, ◌⊎◌, [], List, Option, length};
    ghost use Rattle.std.specs.Thread.{IsSync};
    ghost use Rattle.read_set.specs.Plans.{Planned, plan_over};
    ghost use Rattle.journal_table.specs.Entry.{Entry};
    ghost use Rattle.sip_answer.specs.declared.answer.Answer.{Answer};
    ghost use Rattle.replay_run.specs.InOrder.{HasTold, IsUnderWay, reached};
    ghost use Rattle.replay_run.specs.declared.in_order.TheConstants.{SPAN};

    /// A run before the first line, on the records before it.
    fn new(alloc: Global, live: Live) -> Result<InOrder, AllocError>
        ensures begun { IfOk result
            (λ run. (plan : Planned) (lines : List Entry) → live ≡ plan.base
            → IsUnderWay plan lines run) }
        ensures start { IfOk result (λ run. reached run ≡ 0) }
    {
        Ok(InOrder {
            replaying: Replaying {
                live,
                answers: Vec::new(alloc),
            },
            told: 0,
            telling: Telling::new(alloc)?,
            spare: Vec::new(alloc),
        })
    }

    /// The run after `SPAN` lines more, or after all. The lines that were replayed before are
    /// reported meanwhile. The plan has no records: the run has them.
    fn go_on<J: PlanName, G: Gate + Sync, R: Threads + Sync>(
        self,
        rt: &R,
        alloc: Global,
        plan: &Plan,
        journal: &Journal,
        gate: &G,
    ) -> Result<InOrder, AllocError>
        requires bare { plan.now ≡ plan_over J.plan [] }
        requires so { IsUnderWay J.plan journal.now self }
        ensures so { IfOk result (IsUnderWay J.plan journal.now) }
        ensures further { IfOk result
            (λ run. (reached run ≡ length J.plan.readings) ⊎ (reached run ≡ reached self + SPAN)) }
    {
        let InOrder {
            replaying: Replaying { live, answers },
            told,
            telling,
            spare,
        } = self;
        let count = plan.readings().len();
        let from = told + answers.len();
        let to = count.min(from.saturating_add(SPAN));
        let given = answers.as_slice();
        let mut telling = telling;
        let mut tell = || -> Result<(), AllocError>
            requires { (told + length given.now < 2 ^ 64) × (before : List (Option Answer))
                × (length before ≡ told) × HasTold plan.now journal.now before telling }
            ensures { OnOk result ((before : List (Option Answer)) → length before ≡ told → HasTold plan.entry.now journal.entry.now before telling.entry
                → HasTold plan.entry.now journal.entry.now (before ++ given.entry.now) telling.exit) }
        { telling.lines(alloc, journal, plan, told, given) };
        let mut replaying = Replaying {
            live,
            answers: spare,
        };
        let mut replay = || -> Result<(), AllocError>
            requires { IsSync G.row × (plan.now ≡ plan_over J.plan []) × (from ≤ to)
                × (to ≤ length J.plan.readings)
                × ((k : Key) → record_at replaying.live k ≡ after J.plan from k) }
            ensures { OnOk result (HasReplayed J.plan from to replaying.exit) }
        { replay_span::<J, G>(alloc, plan, gate, from, to, &mut replaying) };
        let (told_on, replayed) = join_mut(rt, &mut tell, &mut replay);
        told_on?;
        replayed?;
        Ok(InOrder {
            replaying,
            told: from,
            telling,
            spare: answers,
        })
    }

    /// The output of a run after all lines. What it was made of isn't dropped.
    fn finish<J: PlanName, R: Threads + Sync>(
        self,
        rt: &R,
        alloc: Global,
        plan: &Plan,
        journal: &Journal,
    ) -> Result<Output, AllocError>
        requires bare { plan.now ≡ plan_over J.plan [] }
        requires fits { J.plan.readings ≡ readings_of journal.now }
        requires so { IsUnderWay J.plan journal.now self }
        requires all { reached self ≡ length J.plan.readings }
        ensures { IfOk result (IsOutput J.plan journal.now) }
    {
        let InOrder {
            replaying: Replaying { live, answers },
            told,
            telling,
            spare,
        } = self;
        let attempts = vec![in alloc; 0; plan.readings().len()]?;
        let mut telling = telling;
        telling.lines(alloc, journal, plan, told, answers.as_slice())?;
        let texts = telling.finish()?;
        let records = live.into_records(alloc)?;
        let tables = write_records_parallel(rt, alloc, &records)?;
        let output = put_together(tables, texts, attempts);
        forget(records);
        forget(answers);
        forget(spare);
        Ok(output)
    }
}

/// Replays the lines of a plan from one position on up to another. The list of answers is emptied,
/// and then has these lines'.
fn replay_span<J: PlanName, G: Gate>(
    alloc: Global,
    plan: &Plan,
    gate: &G,
    from: usize,
    to: usize,
    replaying: &mut Replaying,
) -> Result<(), AllocError>
    requires bare { plan.now ≡ plan_over J.plan [] }
    requires rises { from ≤ to }
    requires within { to ≤ length J.plan.readings }
    requires records { (k : Key) → record_at replaying.old.live k ≡ after J.plan from k }
    ensures { OnOk result (HasReplayed J.plan from to replaying.new) }
{
    let Replaying { live, answers } = replaying;
    answers.clear();
    answers.reserve(to - from)?;
    let numbers = plan.numbers();
    let mut likely = Vec::with_capacity(alloc, AHEAD as usize)?;
    for i in from..to {
        let line = numbers.start + i as u64;
        expect(plan, line, live, &mut likely)?;
        gate.at(0, line, Moment::Taken);
        let Effect { writes, answer } = effect_of(alloc, plan, line, live)?;
        answers.push(answer)?;
        live.put(writes)?;
        pass(gate, line);
    }
    Ok(())
}

/// Has the records that a line names be looked for first where they likely are. If no line is
/// left for which that is known, the next `AHEAD` lines' records are looked for and read: one after
/// the other, while no rule runs, so that they wait for memory side by side.
fn expect(
    plan: &Plan,
    line: u64,
    live: &mut Live,
    likely: &mut Vec<LikelyPositions>,
) -> Result<(), AllocError>
    ensures { OnOk result (live.new ≡ live.old) }
{
    if likely.is_empty() {
        // the last of these lines first: its positions are taken last
        for i in (0..AHEAD).rev() {
            let reading = plan.reading(line.saturating_add(i));
            likely.push(live.likely(reading))?;
        }
        live.read_ahead(likely.as_slice());
    }
    if let Some(positions) = likely.pop() {
        live.expect(positions);
    }
    Ok(())
}

/// Calls the gate for a line that is replayed: nobody else changes a record, so it is published,
/// checked and committed at once.
fn pass<G: Gate>(gate: &G, line: u64) {
    gate.at(0, line, Moment::Whole);
    gate.at(0, line, Moment::Checked);
    gate.at(0, line, Moment::Committed);
}
