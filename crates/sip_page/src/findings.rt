//! What is found in a run: its counts, and its wrong responses in groups.

use crate::facts::{key_of, put_facts};
use crate::groups::{Group, Groups, count_in, show_in};
use crate::reading::{LineRows, RunReader};
use crate::stop::PageError;
use crate::subjects::{Subjects, items_of, note, patrons_of};
use crate::tally::{Tally, count};
use crate::whys::Whys;
use one_run::{Fate, RunTexts};
use page_words::{Case, CaseNames, value_in};
use std::alloc::{AllocError, Global};
use std::collections::BTreeMap;

/// What is found in a run.
pub struct Findings {
    alloc: Global,
    /// How many wrong responses are shown at most.
    pub limit: u64,
    pub lines: u64,
    pub answered: u64,
    /// How many recorded responses were wrong.
    pub wrong: u64,
    /// The numbers of the first line and of the last.
    pub first_line: u64,
    pub last_line: u64,
    /// The institution of the first answer that has one.
    pub library: Vec<u8>,
    /// The transaction date of the last line that wasn't damaged.
    date: Vec<u8>,
    /// How many of the wrong responses came on each day, as eight digits, and in each hour of the clock, as two.
    pub days: Tally,
    pub hours: Tally,
    /// How many responses of each message over each connection were right.
    right: Tally,
    pub groups: Groups,
    pub patrons: Subjects,
    pub items: Subjects,
}

impl Drop for Findings {
    fn drop(self) {
        let Findings {
            alloc: _,
            limit: _,
            lines: _,
            answered: _,
            wrong: _,
            first_line: _,
            last_line: _,
            library: _,
            date: _,
            days: _,
            hours: _,
            right: _,
            groups: _,
            patrons: _,
            items: _,
        } = self;
    }
}

impl Findings {
    /// Of no line; `limit` wrong responses are shown at most.
    pub fn none(alloc: Global, limit: u64) -> Findings {
        Findings {
            alloc,
            limit,
            lines: 0,
            answered: 0,
            wrong: 0,
            first_line: 0,
            last_line: 0,
            library: Vec::new(alloc),
            date: Vec::new(alloc),
            days: BTreeMap::new(alloc),
            hours: BTreeMap::new(alloc),
            right: BTreeMap::new(alloc),
            groups: BTreeMap::new(alloc),
            patrons: BTreeMap::new(alloc),
            items: BTreeMap::new(alloc),
        }
    }

    /// Whether the journal has more than one day, so that times need dates.
    pub fn is_dated(&self) -> bool {
        self.days.len() > 1
    }

    /// How many wrong responses have this weight.
    pub fn wrong_of(&self, weight: u8) -> u64 {
        let mut count = 0u64;
        for group in self.groups.values() {
            if group.weight == weight {
                count = count.saturating_add(group.count);
            }
        }
        count
    }

    /// How many responses to a message over a connection were right.
    pub fn right_at(&self, kind: &[u8], connection: &[u8]) -> Result<u64, AllocError> {
        let name = message_at(self.alloc, kind, connection)?;
        Ok(self.right.get(name.as_slice()).copied().unwrap_or(0))
    }

    /// Notes the lines of a run, which have these fates.
    pub fn note_lines(
        &mut self,
        texts: &RunTexts<'_>,
        fates: &[Fate],
        names: &CaseNames,
        whys: &Whys,
    ) -> Result<(), PageError> {
        let mut reading = RunReader::of(self.alloc, texts)?;
        for fate in fates {
            self.note_line(reading.next(*fate)?, *fate, names, whys)?;
        }
        Ok(())
    }

    /// Notes a line, which has this fate.
    fn note_line(
        &mut self,
        line: &LineRows,
        fate: Fate,
        names: &CaseNames,
        whys: &Whys,
    ) -> Result<(), AllocError> {
        if self.lines == 0 {
            self.first_line = line.number;
        }
        self.last_line = line.number;
        self.lines = self.lines.saturating_add(1);
        if fate == Fate::Passed {
            return Ok(());
        }
        self.note_answered(line, fate == Fate::Wrong, names, whys)
    }

    /// Notes an answered line, whose recorded response is wrong or right.
    fn note_answered(
        &mut self,
        line: &LineRows,
        is_wrong: bool,
        names: &CaseNames,
        whys: &Whys,
    ) -> Result<(), AllocError> {
        self.answered = self.answered.saturating_add(1);
        let case = line.case(self.alloc)?;
        if self.library.is_empty() {
            self.library
                .extend_from_slice(value_in(&case.right, b"AO"))?;
        }
        if !line.is_damaged() {
            self.date.clear();
            self.date.extend_from_slice(value_in(&case.asked, b"date"))?;
        }
        self.note_time(u64::from(is_wrong))?;
        if is_wrong {
            self.wrong = self.wrong.saturating_add(1);
            return self.note_wrong(line, &case, names, whys);
        }
        let name = message_at(self.alloc, case.kind, line.connection())?;
        count(self.alloc, &mut self.right, &name, 1)
    }

    /// Counts this many wrong responses more in the day and the hour of the last line that wasn't damaged, where there was one.
    fn note_time(&mut self, more: u64) -> Result<(), AllocError> {
        let (Some(day), Some(hour)) = (self.date.get(..8), self.date.get(12..14)) else {
            return Ok(());
        };
        count(self.alloc, &mut self.days, day, more)?;
        count(self.alloc, &mut self.hours, hour, more)
    }

    /// Notes a wrong response, which is shown where fewer than the limit were before it.
    fn note_wrong(
        &mut self,
        line: &LineRows,
        case: &Case<'_>,
        names: &CaseNames,
        whys: &Whys,
    ) -> Result<(), AllocError> {
        let right = self.right_at(case.kind, line.connection())?;
        let mut group = Group::none(self.alloc, right);
        put_facts(self.alloc, &mut group, line, case, names, whys)?;
        let key = key_of(self.alloc, &group, whys.reason_of(line.number))?;
        count_in(self.alloc, &mut self.groups, &key, group)?;
        if self.wrong > self.limit {
            return Ok(());
        }
        show_in(&mut self.groups, &key, line)?;
        self.note_subjects(line.number, case)
    }

    /// Notes whom and what a wrong response is about.
    fn note_subjects(&mut self, line: u64, case: &Case<'_>) -> Result<(), AllocError> {
        let patrons = patrons_of(self.alloc, case)?;
        note(self.alloc, &mut self.patrons, &patrons, line)?;
        let items = items_of(self.alloc, case)?;
        note(self.alloc, &mut self.items, &items, line)
    }
}

/// The name of a message over a connection, in a tally.
fn message_at(alloc: Global, kind: &[u8], connection: &[u8]) -> Result<Vec<u8>, AllocError> {
    [kind, b" ", connection].concat(alloc)
}
