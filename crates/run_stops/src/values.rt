//! The values of a row that breaks a rule, by the names of their columns.

ghost use Rattle.std.specs.Prelude.{IfSome, Some};
ghost use Rattle.circ_records.specs.declared.rule.BaseRule.TheVariants as base;
ghost use Rattle.run_stops.specs.Seeing.{AreValues};
ghost use Rattle.run_stops.specs.Telling.{form_words};

use crate::seen::FaultDetail;
use circ_records::BaseRule;
use csv::ByteRecord;
use journal_table::JournalRule;
use record_tables::{due_of, flag_of, renewals_of};
use schema::{LineTable, TableName};
use sip_reader::{Amount, is_id, is_text};
use std::alloc::Global;
use std::fmt;

/// How much of a value is printed, in characters.
const TOLD: usize = 60;

/// The form that a value should have.
#[derive(Clone, Copy)]
pub enum ValueForm {
    /// Y or N.
    Flag,
    /// A day, as 20260316.
    Day,
    /// A whole number.
    Number,
    /// A fee type, 01 to 09.
    FeeType,
    Amount,
}

impl fmt::Display for ValueForm {
    ghost output = { λ form. Some (form_words form) };

    fn fmt<W: fmt::Write>(&self, f: &mut fmt::Formatter<W>) -> fmt::Result {
        f.write_str(match self {
            ValueForm::Flag => "blocked is Y or N",
            ValueForm::Day => "a due day is eight digits of a day of the calendar, as 20260316",
            ValueForm::Number => "renewals are a whole number, in digits without leading zeros",
            ValueForm::FeeType => "a fee type is 01 to 09",
            ValueForm::Amount =>
                "an amount is up to nine digits, with up to two after a point, as 1.50",
        })
    }
}

/// What a column has.
#[derive(Clone, Copy)]
enum ColumnKind {
    /// An id: 1 to 64 bytes.
    Id,
    /// A text.
    Text,
    Value(ValueForm),
}

/// What the columns of a table have, in the order of its header.
fn kinds_of(table: TableName) -> &'static [ColumnKind] {
    use ColumnKind::{Id, Text, Value};
    match table {
        TableName::Patrons => &[Id, Text, Text, Value(ValueForm::Flag)],
        TableName::Items => &[Id, Text, Text, Text, Text],
        TableName::Loans => &[Id, Id, Value(ValueForm::Day), Value(ValueForm::Number)],
        TableName::Fees => &[
            Id,
            Id,
            Value(ValueForm::FeeType),
            Value(ValueForm::Amount),
            Value(ValueForm::Amount),
        ],
        TableName::Closed => &[Id, Id, Value(ValueForm::FeeType), Value(ValueForm::Amount)],
        TableName::Holds => &[Id, Id, Text],
    }
}

/// Gives what is said of a row of a table that breaks a rule: the value that names the row, and
/// those that break the rule. None if memory runs out.
pub fn seen_in_row(
    alloc: Global,
    table: TableName,
    rule: BaseRule,
    row: &ByteRecord,
) -> Option<FaultDetail>
    ensures { IfSome result (AreValues rule) }
{
    match rule {
        BaseRule::Value => seen_in_values(alloc, table, row),
        _ => {
            let text = row_values(alloc, table, rule, row)?;
            Some(FaultDetail::Values { text })
        }
    }
}

/// The first value of a row that has another form than it should, after the one that names the row.
fn seen_in_values(alloc: Global, table: TableName, row: &ByteRecord) -> Option<FaultDetail>
    ensures { IfSome result (AreValues base.Value) }
{
    let (place, form) = wrong_form(table, row)?;
    let header = table.header();
    let mut text = String::new(alloc);
    tell_value(alloc, &mut text, *header.first()?, row.get(0)?)?;
    tell_value(alloc, &mut text, *header.get(place)?, row.get(place)?)?;
    Some(FaultDetail::Form { text, form })
}

/// The place of the first value of a row that has another form than it should, and the right form.
fn wrong_form(table: TableName, row: &ByteRecord) -> Option<(usize, ValueForm)> {
    for (place, (kind, value)) in kinds_of(table).iter().zip(row.iter()).enumerate() {
        if let ColumnKind::Value(form) = kind {
            if !has_form(*form, value) {
                return Some((place, *form));
            }
        }
    }
    None
}

/// The value that names a row of a table, and those that break its rule: `patron "P1", due
/// "2026-03-16"`.
fn row_values(alloc: Global, table: TableName, rule: BaseRule, row: &ByteRecord) -> Option<String> {
    let mut told = String::new(alloc);
    let columns = table.header().iter().zip(kinds_of(table));
    for (place, ((name, kind), value)) in columns.zip(row.iter()).enumerate() {
        if place == 0 || is_about(rule, *name, *kind, value) {
            tell_value(alloc, &mut told, *name, value)?;
        }
    }
    Some(told)
}

/// Gives what is said of a row of the journal that breaks a rule, without the row's messages: they
/// may have passwords. Its messages aren't printed: they may have passwords.
pub fn journal_values(alloc: Global, rule: JournalRule, row: &ByteRecord) -> Option<String> {
    let mut told = String::new(alloc);
    let header = LineTable::Journal.header();
    tell_value(alloc, &mut told, *header.first()?, row.get(0)?)?;
    if rule == JournalRule::Connection {
        tell_value(alloc, &mut told, *header.get(1)?, row.get(1)?)?;
    }
    Some(told)
}

/// Whether a rule that is broken is about a column of this name with this value.
fn is_about(rule: BaseRule, name: &str, kind: ColumnKind, value: &[u8]) -> bool {
    match rule {
        BaseRule::Text => !is_spelt(kind, value),
        BaseRule::Class => name == "class",
        BaseRule::Media => name == "media",
        BaseRule::Double | BaseRule::Patron | BaseRule::Borrower | BaseRule::Queue => name
            == "patron",
        BaseRule::Item | BaseRule::Lent => name == "item",
        BaseRule::Paid => name == "amount" || name == "paid",
        BaseRule::Value | BaseRule::Number => false,
    }
}

/// Whether an id or a text is one.
fn is_spelt(kind: ColumnKind, value: &[u8]) -> bool {
    match kind {
        ColumnKind::Id => is_id(value),
        ColumnKind::Text => is_text(value),
        ColumnKind::Value(_) => true,
    }
}

/// Whether a value has its form.
fn has_form(form: ValueForm, value: &[u8]) -> bool {
    match form {
        ValueForm::Flag => flag_of(value).is_some(),
        ValueForm::Day => due_of(value).is_some(),
        ValueForm::Number => renewals_of(value).is_some(),
        ValueForm::FeeType => matches!(value, [b'0', b'1'..=b'9']),
        ValueForm::Amount => Amount::read(value).is_some(),
    }
}

/// Puts a value after others, in double quotes. Of a long one the beginning is printed.
fn tell_value(alloc: Global, told: &mut String, name: &str, value: &[u8]) -> Option<()> {
    let before = if told.is_empty() { "" } else { ", " };
    let value = shown(alloc, value)?;
    let more = format!(in alloc; "{before}{name} \"{value}\"").ok()?;
    told.push_str(more.as_str()).ok()
}

/// Gives the first characters of a value, at most `TOLD` of them, and escapes in place of line ends
/// and others that don't show. Of line ends and others that don't show, the escapes are.
pub fn shown(alloc: Global, value: &[u8]) -> Option<String> {
    let Ok(text) = str::from_utf8(value) else {
        return String::from_str(alloc, "bytes that are no UTF-8").ok();
    };
    let mut shown = String::new(alloc);
    for char in text.chars().take(TOLD) {
        if char == '\'' {
            shown.push(char).ok()?;
        } else {
            push_escaped(&mut shown, char)?;
        }
    }
    if text.chars().count() > TOLD {
        shown.push_str("..").ok()?;
    }
    Some(shown)
}

/// A character, or its escape where it isn't printed.
fn push_escaped(shown: &mut String, char: char) -> Option<()> {
    for escaped in char.escape_debug() {
        shown.push(escaped).ok()?;
    }
    Some(())
}
