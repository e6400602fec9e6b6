//! The answers of a case.

ghost use Rattle.std.specs.Prelude.{◌≡◌, IfOk, option_copied};
ghost use Rattle.read_set.specs.Replay.{answer_of};
ghost use Rattle.result_report.specs.Report.{sequence_of};
ghost use Rattle.why_lines.specs.Cases.{answers_text, in_run};

use csv_table::TableText;
use itoa::Buffer;
use journal_table::Line;
use read_set::Plan;
use schema::LineTable;
use sip_answer::{Answer, write_answer};
use sip_reader::Reading;
use std::alloc::{AllocError, Global};

/// What `answers.csv` has of one line of a plan, which has this answer, or none.
pub(crate) fn answers_of_one(
    alloc: Global,
    plan: &Plan,
    line: &Line,
    answer: Option<&Answer>,
) -> Result<Vec<u8>, AllocError>
    requires { option_copied answer ≡ answer_of plan.now line.now.number }
    ensures { IfOk result (λ text. text.items ≡ answers_text (in_run plan.now line.now)) }
{
    let mut table = TableText::under(alloc, LineTable::Answers.header())?;
    let line = line.parts();
    if let Some(reading) = plan.reading(line.number) {
        if let Some(answer) = answer {
            let text = write_answer(alloc, answer, sequence_of(reading))?;
            let mut digits = Buffer::new();
            let number = digits.format(line.number);
            table.row(&[number.as_bytes(), line.connection, text.as_slice()])?;
        }
    }
    table.finish()
}

/// The sequence digit of a request.
fn sequence_of(reading: &Reading) -> Option<u8>
    ensures { result ≡ sequence_of reading.now }
{
    match reading {
        Reading::Asked(request) => request.sequence,
        Reading::Passed(_) | Reading::BadSum | Reading::Unread(_) => None,
    }
}
