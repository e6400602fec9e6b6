//! What is doubtful in the report.

use super::LinesDoubt;
use csv::{ByteRecord, ReaderBuilder};
use journal_table::{Journal, number_of};
use sip_answer::Field;
use std::alloc::Global;

/// It is doubted if one in this many answers, or more, differs in ok or due.
const TWENTIETH: u64 = 20;

/// The fixed part of a checkin response (SIP 2.00): the identifier, four flags and a date.
const CHECKIN_FIXED: usize = 24;

/// What is counted of the report's rows.
#[derive(Clone, Copy)]
pub struct Reported {
    /// Those with ok or due.
    differing: u64,
    /// Those with alert, if the response names no hold.
    alerts: u64,
}

impl Reported {
    /// Counts the rows of the report on a journal. None if memory ran out or it can't be read.
    pub fn of(alloc: Global, report: &[u8], journal: &Journal<'_>) -> Option<Reported> {
        let mut reader = ReaderBuilder::new()
            .has_headers(true)
            .from_reader(alloc, report);
        let mut row = ByteRecord::new(alloc);
        let mut counts = Reported {
            differing: 0,
            alerts: 0,
        };
        for _ in 0..report.len() {
            if !reader.read_byte_record(&mut row).ok()? {
                break;
            }
            counts.count(&row, journal);
        }
        Some(counts)
    }

    fn count(&mut self, row: &ByteRecord, journal: &Journal<'_>) {
        let words = row.get(2).unwrap_or(b"");
        if names(words, Field::Ok) || names(words, Field::Due) {
            self.differing = self.differing.saturating_add(1);
        }
        if names(words, Field::Alert) && !is_of_hold(row, journal) {
            self.alerts = self.alerts.saturating_add(1);
        }
    }

    /// Gives the doubt exactly if a twentieth of all answers differ in ok or due, or more.
    pub fn differing_doubt(&self, answered: u64) -> Option<LinesDoubt> {
        let differing = self.differing;
        if differing > 0 && differing.saturating_mul(TWENTIETH) >= answered {
            Some(LinesDoubt::Differing {
                differing,
                answered,
            })
        } else {
            None
        }
    }

    /// Gives the doubt exactly if an alert differs though the recorded response doesn't say that
    /// the item is on hold.
    pub fn alerts_doubt(&self) -> Option<LinesDoubt> {
        let alerts = self.alerts;
        if alerts > 0 {
            Some(LinesDoubt::Alerts { alerts })
        } else {
            None
        }
    }
}

/// Whether a field is among the words of a row.
fn names(words: &[u8], field: Field) -> bool {
    let field = field.word().as_bytes();
    words.split(|b| *b == b' ').any(|word| word == field)
}

/// Whether the recorded response of a row's line says that the item is on hold.
fn is_of_hold(row: &ByteRecord, journal: &Journal<'_>) -> bool {
    let number = row.get(0).unwrap_or(b"");
    match place_of(journal, number) {
        Some(place) => match journal.lines().get(place) {
            Some(line) => names_hold(line.parts().response),
            None => false,
        },
        None => false,
    }
}

/// The place of the line with this number, counted from 0.
fn place_of(journal: &Journal<'_>, number: &[u8]) -> Option<usize> {
    let place = number_of(number)?.checked_sub(journal.first()?)?;
    usize::try_from(place).ok()
}

/// Whether a checkin response says by its type of alert (CV, an extension of SIP 2.00) that the
/// item is on hold. One without a type, or of type 04, doesn't: 04 sends it to another branch.
fn names_hold(response: &[u8]) -> bool {
    let fields = response.get(CHECKIN_FIXED..).unwrap_or(b"");
    let kind = fields
        .split(|b| *b == b'|')
        .find(|field| field.starts_with(b"CV"));
    !matches!(kind, None | Some(b"CV") | Some(b"CV04"))
}
