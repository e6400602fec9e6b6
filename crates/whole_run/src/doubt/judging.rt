//! What the lines of a journal, and of its report, say against a result.

use super::LinesDoubt;
use super::naming::{KnownIds, Named, institution_doubt};
use super::reported::Reported;
use super::responses::Responses;
use circ_policy::{DueForm, Policy};
use journal_table::Journal;
use read_set::Way;
use replay_run::{Inputs, Output, Sizes};
use sip_reader::read_request;
use std::alloc::{AllocError, Global};

/// Gives all that the lines say, in the order in which it is printed. None if memory ran out, or if
/// there is no result: the policy, the journal or the report can't be read.
pub fn doubts_of_lines(alloc: Global, inputs: &Inputs, output: &Output) -> Option<Vec<LinesDoubt>> {
    let policy = Policy::read(alloc, inputs.policy.as_slice()).ok()?;
    let journal = Journal::read(alloc, inputs.journal.as_slice()).ok()?;
    if journal.lines().is_empty() {
        return Some(Vec::new(alloc));
    }
    let known = KnownIds::of(alloc, &inputs.tables).ok()?;
    let counts = LineCounts::of(alloc, &journal, policy.due_form(), &known).ok()?;
    let reported = Reported::of(alloc, output.report.as_slice(), &journal)?;
    let candidates = vec![in alloc;
        institution_doubt(alloc, &policy, &journal)?,
        counts.named.patrons_doubt(),
        counts.named.items_doubt(),
        way_doubt(inputs.way, &counts.responses, &reported, output.sizes),
        counts.responses.resent_doubt(),
        reported.alerts_doubt(),
    ];
    those_there(alloc, candidates.ok()?).ok()
}

/// What is said of one way to replay alone.
fn way_doubt(
    way: Way,
    responses: &Responses,
    reported: &Reported,
    sizes: Sizes,
) -> Option<LinesDoubt> {
    match way {
        Way::ByRules => reported.differing_doubt(sizes.answered),
        Way::AsRecorded => responses.undated_doubt(),
    }
}

/// The doubts among these.
fn those_there(
    alloc: Global,
    candidates: Vec<Option<LinesDoubt>>,
) -> Result<Vec<LinesDoubt>, AllocError> {
    let mut doubts = Vec::new(alloc);
    for candidate in candidates {
        if let Some(doubt) = candidate {
            doubts.push(doubt)?;
        }
    }
    Ok(doubts)
}

/// What is counted in one pass over the lines of a journal.
#[derive(Clone, Copy)]
struct LineCounts {
    named: Named,
    responses: Responses,
}

impl LineCounts {
    fn of(
        alloc: Global,
        journal: &Journal<'_>,
        form: DueForm,
        known: &KnownIds,
    ) -> Result<LineCounts, AllocError> {
        let mut counts = LineCounts {
            named: Named::none(),
            responses: Responses::none(),
        };
        for line in journal.lines() {
            let line = line.parts();
            let reading = read_request(alloc, line.request)?;
            counts.named.count(&reading, known);
            counts
                .responses
                .count(alloc, form, &reading, line.response)?;
        }
        Ok(counts)
    }
}
