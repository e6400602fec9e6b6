//! The closed days of a policy file.

ghost use Rattle.std.specs.Prelude.{◌≡◌, ◌≤◌, [], true, false, not, length, replicate, Some, IfSome, IfOk, option_map, IsTrue, nat_le};
ghost use Rattle.std.specs.List.{list_any};
ghost use Rattle.toml.specs.View.{array_view, table_view, view};
ghost use Rattle.circ_policy.specs.Reading.{Gives, closed_in};
ghost use Rattle.circ_policy.specs.Calendars.{closed_of};
ghost use Rattle.circ_policy.specs.Values.{closed_dates_of, closed_weekdays_of, date_in, day_set, each, item_count, marked, not_all, text_of, weekday_in};

use crate::calendar::Calendar;
use crate::document::{broken, value_at};
use crate::error::PolicyError;
use crate::values::{date_of, weekday_of};
use sip_reader::Day;
use std::alloc::{AllocError, Global};
use std::collections::BTreeSet;
use toml::value::Array;
use toml::{Table, Value};

/// The most closed dates that a policy may list.
const DATES_MAX: usize = 400;

/// The days on which the library is closed.
#[tactic(auto, unfolding(crate::specs::Reading::closed_in))]
pub(crate) fn read_calendar(alloc: Global, table: &Table) -> Result<Calendar, PolicyError>
    ensures { Gives closed_of result (closed_in (table_view table.now)) }
{
    let Some(closed_weekdays) = closed_weekdays(value_at(table, "closed_weekdays")) else {
        return Err(broken(alloc, "closed_weekdays"));
    };
    let Some(closed_dates) = closed_dates(alloc, value_at(table, "closed_dates"))? else {
        return Err(broken(alloc, "closed_dates"));
    };
    Ok(Calendar {
        closed_weekdays,
        closed_dates,
    })
}

/// For each weekday from Monday on, whether it is closed.
#[tactic(auto, unfolding(crate::specs::Values::closed_weekdays_of))]
fn closed_weekdays(value: Option<&Value>) -> Option<[bool; 7]>
    ensures value { result ≡ closed_weekdays_of (option_map (λ v. view v.now) value.entry) }
    ensures some_open { IfSome result (λ flags. list_any not flags ≡ true) }
{
    let Some(value) = value else {
        return Some([false; 7]);
    };
    not_all(listed_weekdays(value.as_array()?)?)
}

/// The flags; None if all of them are set.
fn not_all(flags: [bool; 7]) -> Option<[bool; 7]>
    ensures value { result ≡ not_all flags }
    ensures some_open { IfSome result (λ open_days. list_any not open_days ≡ true) }
{
    for flag in flags {
        if !flag {
            return Some(flags);
        }
    }
    None
}

/// For each weekday from Monday on, whether the list names it.
fn listed_weekdays(items: &Array) -> Option<[bool; 7]>
    ensures { result ≡ option_map (marked (replicate 7 false))
        (each (λ i. text_of weekday_in (Some i)) (array_view items.now)) }
{
    let mut flags = [false; 7];
    for item in items {
        flags[named_weekday(item)?] = true;
    }
    Some(flags)
}

/// The weekday that a value names, counted from Monday as 0.
fn named_weekday(value: &Value) -> Option<usize>
    ensures value { result ≡ text_of weekday_in (Some (view value.now)) }
    ensures range { IfSome result (λ w. w ≤ 6) }
{
    match value.as_str() {
        Some(text) => weekday_of(text),
        None => None,
    }
}

/// The numbers of the dates on which the library is closed.
#[tactic(auto, unfolding(crate::specs::Values::closed_dates_of))]
fn closed_dates(alloc: Global, value: Option<&Value>) -> Result<Option<BTreeSet<u32>>, AllocError>
    ensures value { IfOk result
        (λ o. option_map (λ s. s.keys) o ≡ closed_dates_of
        (option_map (λ v. view v.now) value.entry)) }
    ensures few { IfOk result (λ o. IfSome o (λ s. length s.keys ≤ 400)) }
{
    let Some(value) = value else {
        return Ok(Some(BTreeSet::new(alloc)));
    };
    match value.as_array() {
        Some(items) if is_short(items) => listed_dates(alloc, items),
        _ => Ok(None),
    }
}

/// Whether a list has at most 400 dates.
fn is_short(items: &Array) -> bool
    ensures value { result ≡ nat_le (item_count (array_view items.now)) 400 }
    ensures length { IsTrue result → length items.now.items ≤ 400 }
{
    items.len() <= DATES_MAX
}

/// The numbers of the dates that the list names.
fn listed_dates(alloc: Global, items: &Array) -> Result<Option<BTreeSet<u32>>, AllocError>
    ensures value { IfOk result
        (λ o. option_map (λ s. s.keys) o ≡ option_map (day_set [])
        (each (λ i. text_of date_in (Some i)) (array_view items.now))) }
    ensures few { IfOk result (λ o. IfSome o (λ s. length s.keys ≤ length items.now.items)) }
{
    let mut dates = BTreeSet::new(alloc);
    for item in items {
        let Some(date) = named_date(item) else {
            return Ok(None);
        };
        dates.insert(date.number())?;
    }
    Ok(Some(dates))
}

/// The date that a value names.
fn named_date(value: &Value) -> Option<Day>
    ensures { result ≡ text_of date_in (Some (view value.now)) }
{
    match value.as_str() {
        Some(text) => date_of(text),
        None => None,
    }
}
