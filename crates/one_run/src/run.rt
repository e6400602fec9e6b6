//! The journal and the tables of an output, line by line.

ghost use Rattle.std.specs.Prelude.{◌≡◌, ◌<◌, ◌∷◌, List, [], Some, IfOk, true, false, option_map};
ghost use Rattle.csv.specs.Records.{fields_of};
ghost use Rattle.csv_table.specs.Rows.{rows_under};
ghost use Rattle.one_run.specs.OneRun.{Row, Taken, are_of, is_answered, is_one_run, is_passed, is_wrong};
ghost use Rattle.schema.specs.Names.{answers_header, journal_header, passed_header, report_header};

use crate::ahead::Ahead;
use crate::fate::{Fate, fate_of};
use crate::no_run::NoRun;
use csv::ByteRecord;
use csv_table::{RowReader, column};
use schema::LineTable;
use std::alloc::Global;

/// The texts of a journal and of three tables of an output.
#[derive(Clone, Copy)]
pub struct RunTexts<'t> {
    pub journal: &'t [u8],
    pub answers: &'t [u8],
    pub passed: &'t [u8],
    pub report: &'t [u8],
}

/// The rows of the output that no line had yet.
struct RowsAhead<'t> {
    answers: Ahead<'t>,
    passed: Ahead<'t>,
    report: Ahead<'t>,
}

impl Drop for RowsAhead<'_> {
    fn drop(self) {
        let RowsAhead {
            answers: _,
            passed: _,
            report: _,
        } = self;
    }
}

impl RowsAhead<'_> {
    /// Takes the rows of the next line of the journal, and returns what became of that line.
    fn take(&mut self, alloc: Global, line: &ByteRecord) -> Result<Fate, NoRun>
        ensures answers { IfOk result (λ fate. Taken (is_answered fate) (fields_of line.now) self.old.answers self.new.answers) }
        ensures passed { IfOk result (λ fate. Taken (is_passed fate) (fields_of line.now) self.old.passed self.new.passed) }
        ensures report { IfOk result (λ fate. Taken (is_wrong fate) (fields_of line.now) self.old.report self.new.report) }
    {
        let answered = self.answers.take(line)?;
        let passed = self.passed.take(line)?;
        let wrong = self.report.take(line)?;
        match fate_of(answered, passed, wrong) {
            Some(fate) => Ok(fate),
            None => Err(NoRun::of_line(alloc, column(line, 0), clash(answered, passed))),
        }
    }
}

/// What is said of a line that has rows in these tables and no fate.
fn clash(answered: bool, passed: bool) -> &'static str {
    if answered && passed {
        "it stands in answers.csv and in passed.csv"
    } else if passed {
        "it stands in passed.csv and in report.csv"
    } else {
        "it stands neither in answers.csv nor in passed.csv, or under another connection"
    }
}

/// Reads the next line of the journal. Without one, at the end, `line` means nothing.
fn next_line(journal: &mut RowReader<'_>, line: &mut ByteRecord) -> Result<bool, NoRun>
    ensures row { IfOk result (λ found. found ≡ true → journal.old.rows ≡ option_map (λ rest. fields_of line.new ∷ rest) journal.new.rows) }
    ensures shorter { IfOk result (λ found. found ≡ true → journal.new.size < journal.old.size) }
    ensures end { IfOk result (λ found. found ≡ false → (journal.old.rows ≡ Some []) × (journal.new.rows ≡ Some [])) }
{
    match journal.next(line) {
        Ok(found) => Ok(found),
        Err(error) => Err(NoRun::of_table(error, LineTable::Journal)),
    }
}

/// What became of each line of the journal that is left, in its order, whose rows the output gives.
fn read_fates(
    alloc: Global,
    journal: &mut RowReader<'_>,
    output: &mut RowsAhead<'_>,
) -> Result<Vec<Fate>, NoRun>
    ensures { IfOk result (λ fates. are_of output.new.answers [] ≡ true → are_of output.new.passed [] ≡ true → are_of output.new.report [] ≡ true → is_one_run fates.items journal.old.rows output.old.answers output.old.passed output.old.report ≡ true) }
{
    let mut fates = Vec::new(alloc);
    let mut line = ByteRecord::new(alloc);
    while next_line(journal, &mut line)? {
        fates.push(output.take(alloc, &line)?)?;
    }
    Ok(fates)
}

/// What became of each line of the journal, where all tables are of one run: each line is either in the answers or in what was passed
/// over, those of the report are in the answers, and no table has another row.
pub fn fates(alloc: Global, texts: &RunTexts<'_>) -> Result<Vec<Fate>, NoRun>
    ensures { IfOk result (λ fates. is_one_run fates.items (rows_under journal_header texts.now.journal.now) (rows_under answers_header texts.now.answers.now) (rows_under passed_header texts.now.passed.now) (rows_under report_header texts.now.report.now) ≡ true) }
{
    let mut output = RowsAhead {
        answers: Ahead::of(alloc, LineTable::Answers, texts.answers)?,
        passed: Ahead::of(alloc, LineTable::Passed, texts.passed)?,
        report: Ahead::of(alloc, LineTable::Report, texts.report)?,
    };
    let mut journal = match RowReader::under(alloc, LineTable::Journal.header(), texts.journal) {
        Ok(rows) => rows,
        Err(error) => return Err(NoRun::of_table(error, LineTable::Journal)),
    };
    let fates = read_fates(alloc, &mut journal, &mut output)?;
    output.answers.end()?;
    output.passed.end()?;
    output.report.end()?;
    Ok(fates)
}
