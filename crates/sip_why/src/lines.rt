//! The lines of the table.

use line_origins::Tracer;
use page_words::{REASONS, cut, known};
use read_set::Plan;
use result_report::reason_of;
use sip_reader::Reading;
use std::alloc::{AllocError, Global};
use why_lines::WhyTable;
use why_run::Remark;

/// Adds each answered line to the table.
pub fn add_all(alloc: Global, plan: &Plan, table: &mut WhyTable) -> Result<(), AllocError> {
    let mut tracer = Tracer::new(alloc, plan)?;
    for number in plan.numbers() {
        tracer = reach(alloc, tracer, number)?;
        add_line(alloc, &tracer, table)?;
    }
    Ok(())
}

/// Adds the lines that are wanted, whose numbers rise, to the table. One that the journal lacks, or that has no answer, is remarked.
pub fn add_lines(
    alloc: Global,
    plan: &Plan,
    wanted: &[u64],
    table: &mut WhyTable,
    remarks: &mut Vec<Remark>,
) -> Result<(), AllocError> {
    let mut tracer = Tracer::new(alloc, plan)?;
    for &number in wanted {
        let Some(reading) = plan.reading(number) else {
            remarks.push(Remark::NoLine { number })?;
            continue;
        };
        tracer = reach(alloc, tracer, number)?;
        if !add_line(alloc, &tracer, table)? {
            remarks.push(no_answer(alloc, number, reading)?)?;
        }
    }
    Ok(())
}

/// That a line has no answer, with the reason in the words of the table of such lines and of the page.
fn no_answer(alloc: Global, number: u64, reading: &Reading) -> Result<Remark, AllocError> {
    let word = reason_of(reading).unwrap_or("");
    let (words, _) = cut(known(REASONS, word.as_bytes()), b':');
    let words = str::from_utf8(words).unwrap_or("");
    let reason = format!(in alloc; "{word}, {words}")?;
    Ok(Remark::NoAnswer { number, reason })
}

/// The replay before a line, which is this or a later one.
pub fn reach<'p>(alloc: Global, tracer: Tracer<'p>, line: u64) -> Result<Tracer<'p>, AllocError> {
    if line < tracer.next() {
        return Ok(tracer);
    }
    tracer.pass_to(alloc, line)
}

/// Adds the line that a replay is before. Whether it has an answer.
fn add_line(alloc: Global, tracer: &Tracer<'_>, table: &mut WhyTable) -> Result<bool, AllocError> {
    let seen = tracer.see(alloc)?;
    table.line(alloc, tracer.plan(), tracer.next(), &seen)
}
