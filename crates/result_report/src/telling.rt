//! The three result tables, written line by line.

ghost use Rattle.std.specs.Prelude.{◌≡◌, ◌⊎◌, [], None, Some, IfOk, IfSome, OnOk, option_copied, slice_get};
ghost use Rattle.result_report.specs.Report.{difference_row, passed_row};
ghost use Rattle.result_report.specs.Listings.{Gains, HasRoomFor};
ghost use Rattle.sip_answer.specs.Differ.{differ};
ghost use Rattle.sip_answer.specs.Texts.{answer_text};

use crate::listing::Listing;
use crate::texts::{ResultTexts, Sizes};
use crate::words::reason_of;
use journal_table::{Journal, Line};
use read_set::Plan;
use schema::LineTable;
use sip_answer::{Answer, differences, is_own_text, put_answer};
use sip_reader::Reading;
use std::alloc::{AllocError, Global};

/// The result tables while they are written.
pub struct Telling {
    pub(crate) answers: Listing,
    pub(crate) report: Listing,
    pub(crate) passed: Listing,
    /// The text of the last answer: its memory is used again for the next.
    pub(crate) text: Vec<u8>,
}

impl Drop for Telling {
    fn drop(self) {
        let Telling {
            answers: _,
            report: _,
            passed: _,
            text: _,
        } = self;
    }
}

impl Telling {
    ghost use Rattle.std.specs.Prelude.{◌≡◌, ◌<◌, ◌+◌, ◌++◌, ◌^◌, List, Option, length};
    ghost use Rattle.sip_answer.specs.declared.answer.Answer.{Answer};
    ghost use Rattle.result_report.specs.Report.{LineResult, line_results};
    ghost use Rattle.result_report.specs.Tables.{AreTexts};
    ghost use Rattle.result_report.specs.Tellings.{Gained, HasRoom, Tells};

    /// Begins the three result tables with their headers alone.
    pub fn new(alloc: Global) -> Result<Telling, AllocError>
        ensures { IfOk result (Tells []) }
    {
        Ok(Telling {
            answers: Listing::under(alloc, LineTable::Answers.header())?,
            report: Listing::under(alloc, LineTable::Report.header())?,
            passed: Listing::under(alloc, LineTable::Passed.header())?,
            text: Vec::new(alloc),
        })
    }

    /// Gives the three tables of all lines that were written.
    pub fn finish(self) -> Result<ResultTexts, AllocError>
        ensures { IfOk result (λ t. (lines : List LineResult) → Tells lines self
            → AreTexts lines t) }
    {
        let Telling {
            answers,
            report,
            passed,
            text: _,
        } = self;
        Ok(ResultTexts {
            sizes: Sizes {
                answered: answers.rows,
                passed: passed.rows,
                differences: report.rows,
            },
            answers: answers.table.finish()?,
            report: report.table.finish()?,
            passed: passed.table.finish()?,
        })
    }

    /// Writes the rows of further lines, each in the tables that it belongs to: those after the
    /// first `told` lines, of which these are the answers. Out of memory, the caller drops all
    /// tables, so the contract says nothing of them.
    pub fn lines(
        &mut self,
        alloc: Global,
        journal: &Journal,
        plan: &Plan,
        told: usize,
        answers: &[Option<Answer>],
    ) -> Result<(), AllocError>
        requires few { told + length answers.now < 2 ^ 64 }
        requires told { (before : List (Option Answer)) × (length before ≡ told)
            × Tells (line_results journal.now plan.now.readings before) self.old }
        ensures { OnOk result ((before : List (Option Answer)) → length before ≡ told → Tells (line_results journal.now plan.now.readings before) self.old
            → Tells (line_results journal.now plan.now.readings (before ++ answers.now)) self.new) }
    {
        let lines = journal.lines();
        for (i, answer) in answers.iter().enumerate() {
            if let Some((line, reading)) = line_at(lines, plan, told + i) {
                self.line(alloc, line, reading, answer.as_ref())?;
            }
        }
        Ok(())
    }

    /// Writes the rows of one line. Out of memory, the caller drops all tables, so the contract
    /// says nothing of them.
    #[inline(always)]
    pub(crate) fn line(
        &mut self,
        alloc: Global,
        line: &Line,
        reading: &Reading,
        answer: Option<&Answer>,
    ) -> Result<(), AllocError>
        requires { HasRoom self.old }
        ensures { OnOk result (Gained
            (line.now, reading.now, option_copied answer.entry) self.old self.new) }
    {
        match answer {
            Some(answer) => {
                let sequence = match reading {
                    Reading::Asked(request) => request.sequence,
                    Reading::Passed(_) | Reading::BadSum | Reading::Unread(_) => None,
                };
                put_answer(&mut self.text, answer, sequence)?;
                let text = self.text.as_slice();
                self.answers.row(line, text)?;
                write_differences(alloc, &mut self.report, line, answer, sequence, text)
            }
            None => write_reason(&mut self.passed, line, reading),
        }
    }
}

/// The line at a position, with its reading.
fn line_at<'l, 't, 'p>(
    lines: &'l [Line<'t>],
    plan: &'p Plan,
    position: usize,
) -> Option<(&'l Line<'t>, &'p Reading)>
    ensures some { IfSome result
        (λ t. (slice_get lines.now position ≡ Some t.0.now)
        × (slice_get plan.now.readings position ≡ Some t.1.now)) }
    ensures none { result ≡ None → (slice_get lines.now position ≡ None)
        ⊎ (slice_get plan.now.readings position ≡ None) }
{
    let line = lines.get(position)?;
    let reading = plan.readings().get(position)?;
    Some((line, reading))
}

/// An answered line whose recorded response differs, with the words of what differs. If the
/// response is the text that was just written of the answer, nothing has to be looked for in it.
fn write_differences(
    alloc: Global,
    report: &mut Listing,
    line: &Line,
    answer: &Answer,
    sequence: Option<u8>,
    text: &[u8],
) -> Result<(), AllocError>
    requires room { HasRoomFor report.old }
    requires written { text.now ≡ answer_text answer.now sequence }
    ensures { OnOk result (Gains
        (difference_row line.now (differ answer.now line.now.response)) report.old report.new) }
{
    let response = line.parts().response;
    if is_own_text(answer, sequence, text, response) {
        return Ok(());
    }
    let fields = differences(alloc, answer, response)?;
    if fields.is_empty() {
        return Ok(());
    }
    let words: Vec<&'static str> = fields.iter().map(|field| field.word()).collect(alloc)?;
    let words = words.join(alloc, " ")?;
    report.row(line, words.as_bytes())
}

/// A line without an answer, with the reason.
fn write_reason(passed: &mut Listing, line: &Line, reading: &Reading) -> Result<(), AllocError>
    requires { HasRoomFor passed.old }
    ensures { OnOk result (Gains (passed_row (line.now, reading.now, None)) passed.old passed.new) }
{
    let Some(reason) = reason_of(reading) else {
        return Ok(());
    };
    passed.row(line, reason.as_bytes())
}
