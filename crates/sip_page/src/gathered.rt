//! What the tables of a run say, gathered before the page is written.

use crate::changes::{check_base, names_of, note_changes};
use crate::files::{FileRows, rows_of};
use crate::findings::Findings;
use crate::stop::PageError;
use crate::subjects::{SubjectChange, SubjectList};
use crate::tally::{Tally, count};
use crate::whys::Whys;
use csv_table::column;
use one_run::{RunTexts, fates};
use page_run::PageTexts;
use page_words::CaseNames;
use schema::LineTable;
use std::alloc::Global;
use std::collections::BTreeMap;

/// What the tables of a run say.
pub struct Gathered {
    pub alloc: Global,
    pub names: CaseNames,
    pub findings: Findings,
    /// How many lines were passed over for each reason.
    pub passed: Tally,
    pub whys: Whys,
    /// What changed for patrons that no wrong response is about, where base tables were given.
    pub others: Option<Vec<SubjectChange>>,
}

impl Drop for Gathered {
    fn drop(self) {
        let Gathered {
            alloc: _,
            names: _,
            findings: _,
            passed: _,
            whys: _,
            others: _,
        } = self;
    }
}

impl Gathered {
    /// Nothing yet; at most `limit` wrong responses are shown.
    pub fn none(alloc: Global, limit: u64) -> Gathered {
        Gathered {
            alloc,
            names: CaseNames {
                titles: BTreeMap::new(alloc),
                patrons: BTreeMap::new(alloc),
            },
            findings: Findings::none(alloc, limit),
            passed: BTreeMap::new(alloc),
            whys: Whys::none(alloc),
            others: None,
        }
    }

    /// Takes in the tables of the run. Its names are those of the base, too, where there is one.
    pub fn read(&mut self, texts: &PageTexts) -> Result<(), PageError> {
        self.names = names_of(self.alloc, &texts.names)?;
        if let Some(base) = &texts.base {
            check_base(self.alloc, &base.names, &self.names)?;
        }
        self.read_result(texts)?;
        if let Some(base) = &texts.base {
            let findings = &mut self.findings;
            self.others = Some(note_changes(
                self.alloc,
                &texts.names,
                base,
                &self.names,
                findings,
            )?);
        }
        Ok(())
    }

    /// Takes in the journal and the result tables.
    fn read_result(&mut self, texts: &PageTexts) -> Result<(), PageError> {
        let result = &texts.result;
        if let Some(why) = &texts.why {
            self.whys.read(why, &result.report)?;
        }
        self.note(&RunTexts {
            journal: &result.journal,
            answers: &result.answers,
            passed: &result.passed,
            report: &result.report,
        })
    }

    /// Notes what became of each line of a run.
    fn note(&mut self, texts: &RunTexts<'_>) -> Result<(), PageError> {
        let fates = fates(self.alloc, texts)?;
        self.findings
            .note_lines(texts, &fates, &self.names, &self.whys)?;
        self.count_passed(texts.passed)
    }

    /// Counts the reasons of the lines that were passed over.
    fn count_passed(&mut self, passed: &[u8]) -> Result<(), PageError> {
        for row in &rows_of(
            self.alloc,
            FileRows::of_lines(self.alloc, LineTable::Passed, passed)?,
        )? {
            count(self.alloc, &mut self.passed, column(row, 2), 1)?;
        }
        Ok(())
    }

    /// The patrons that wrong responses are about.
    pub fn patrons(&self) -> SubjectList<'_> {
        SubjectList {
            place: "<details class=\"s\" id=\"p",
            link: "<a href=\"#p",
            subjects: &self.findings.patrons,
            texts: &self.names.patrons,
        }
    }

    /// The items that wrong responses are about.
    pub fn items(&self) -> SubjectList<'_> {
        SubjectList {
            place: "<details class=\"s\" id=\"i",
            link: "<a href=\"#i",
            subjects: &self.findings.items,
            texts: &self.names.titles,
        }
    }
}
