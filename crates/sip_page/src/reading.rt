//! The journal, the answers and the report, read side by side.

use crate::files::FileRows;
use crate::stop::PageError;
use csv::ByteRecord;
use csv_table::column;
use one_run::{Fate, RunTexts};
use page_words::{Case, add_fields, name_of};
use schema::LineTable;
use std::alloc::{AllocError, Global};

/// A line of the journal with its rows of the answers and of the report.
pub struct LineRows {
    pub number: u64,
    pub journal: ByteRecord,
    pub answer: ByteRecord,
    pub report: ByteRecord,
}

impl Drop for LineRows {
    fn drop(self) {
        let LineRows {
            number: _,
            journal: _,
            answer: _,
            report: _,
        } = self;
    }
}

impl LineRows {
    fn none(alloc: Global) -> LineRows {
        LineRows {
            number: 0,
            journal: ByteRecord::new(alloc),
            answer: ByteRecord::new(alloc),
            report: ByteRecord::new(alloc),
        }
    }

    /// The name of the connection.
    pub fn connection(&self) -> &[u8] {
        column(&self.journal, 1)
    }

    /// The words of the report.
    pub fn words(&self) -> &[u8] {
        column(&self.report, 2)
    }

    /// Whether the right answer asks for the request again, whose checksum was wrong: nothing that it says can be relied on.
    pub fn is_damaged(&self) -> bool {
        column(&self.answer, 2).starts_with(b"96")
    }

    /// A copy.
    pub fn copy(&self) -> Result<LineRows, AllocError> {
        Ok(LineRows {
            number: self.number,
            journal: self.journal.clone()?,
            answer: self.answer.clone()?,
            report: self.report.clone()?,
        })
    }

    /// What was asked, recorded and right.
    pub fn case(&self, alloc: Global) -> Result<Case<'_>, AllocError> {
        let request = column(&self.journal, 2);
        let response = column(&self.journal, 3);
        let kind = request.get(..2).unwrap_or(b"");
        let mut case = Case::new(alloc, kind, name_of(response));
        add_fields(&mut case.asked, request)?;
        add_fields(&mut case.recorded, response)?;
        add_fields(&mut case.right, column(&self.answer, 2))?;
        Ok(case)
    }
}

/// The three tables of a run, read side by side; each has its rows in the order of the lines.
pub struct RunReader<'t> {
    journal: FileRows<'t>,
    answers: FileRows<'t>,
    report: FileRows<'t>,
    line: LineRows,
}

impl Drop for RunReader<'_> {
    fn drop(self) {
        let RunReader {
            journal: _,
            answers: _,
            report: _,
            line: _,
        } = self;
    }
}

impl<'t> RunReader<'t> {
    /// Begins before the first line.
    pub fn of(alloc: Global, texts: &RunTexts<'t>) -> Result<RunReader<'t>, PageError> {
        Ok(RunReader {
            journal: FileRows::of_lines(alloc, LineTable::Journal, texts.journal)?,
            answers: FileRows::of_lines(alloc, LineTable::Answers, texts.answers)?,
            report: FileRows::of_lines(alloc, LineTable::Report, texts.report)?,
            line: LineRows::none(alloc),
        })
    }

    /// Reads the next line of the journal, which has this fate, with those rows that such a line has. Its number is that of the
    /// line before plus one.
    pub fn next(&mut self, fate: Fate) -> Result<&LineRows, PageError> {
        self.journal.next(&mut self.line.journal)?;
        let before = self.line.number;
        match number_of(column(&self.line.journal, 0)) {
            Some(number) if before == 0 || number == before.saturating_add(1) => {
                self.line.number = number;
            }
            _ => return Err(PageError::Table(LineTable::Journal.file())),
        }
        if fate != Fate::Passed {
            self.answers.next(&mut self.line.answer)?;
        }
        if fate == Fate::Wrong {
            self.report.next(&mut self.line.report)?;
        }
        Ok(&self.line)
    }
}

/// The number that a field spells, from 1 on.
pub fn number_of(field: &[u8]) -> Option<u64> {
    let mut number = 0u64;
    for byte in field {
        if !byte.is_ascii_digit() {
            return None;
        }
        number = number
            .saturating_mul(10)
            .saturating_add(u64::from(byte.saturating_sub(b'0')));
    }
    if number == 0 { None } else { Some(number) }
}
