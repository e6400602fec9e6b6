//! The classes and the types of media of a policy file.

ghost use Rattle.std.specs.Prelude.{◌≡◌, codes, IfOk};
ghost use Rattle.toml.specs.View.{table_view, view};
ghost use Rattle.circ_policy.specs.Order.{HaveRisingNames, in_byte_order};
ghost use Rattle.circ_policy.specs.Reading.{Gives, class_in, entries, lending, limits, media_in, section, within};

use crate::class::Class;
use crate::document::{broken, table_at};
use crate::entry::{Entry, broken_within};
use crate::error::PolicyError;
use crate::loan_days::LoanDays;
use crate::media::Media;
use crate::media_type::MediaType;
use crate::{CLASS_KEYS, MEDIA_KEYS};
use sip_reader::Id;
use std::alloc::Global;
use toml::{Table, Value};

/// The classes of patrons, rising by their names.
#[tactic(auto, unfolding(crate::specs::Reading::section))]
pub(crate) fn read_classes(alloc: Global, policy: &Table) -> Result<Vec<(Id, Class)>, PolicyError>
    ensures value { Gives (λ m. m.items) result
        (section (codes "class") class_in (table_view policy.now)) }
    ensures rising { IfOk result (λ m. HaveRisingNames m.items) }
{
    match table_at(policy, "class") {
        Some(table) => class_entries(alloc, table),
        None => Err(broken(alloc, "class")),
    }
}

/// The classes of the table, in byte order of their names, which is the table's order.
fn class_entries(alloc: Global, table: &Table) -> Result<Vec<(Id, Class)>, PolicyError>
    ensures value { Gives (λ m. m.items) result
        (entries class_in (in_byte_order (table_view table.now))) }
    ensures rising { IfOk result (λ m. HaveRisingNames m.items) }
{
    let mut classes = Vec::new(alloc);
    for (name, value) in table {
        let (id, class) = read_class(alloc, name.as_str(), value)?;
        classes.push((id, class))?;
    }
    Ok(classes)
}

/// A class, with its name.
#[tactic(auto, unfolding(crate::specs::Reading::class_in))]
fn read_class(alloc: Global, name: &str, value: &Value) -> Result<(Id, Class), PolicyError>
    ensures { Gives (λ c. c) result (class_in name.now (view value.now)) }
{
    let Some(id) = Id::read(alloc, name.as_bytes())? else {
        return Err(broken_within(alloc, "class", name));
    };
    let Some(table) = value.as_table() else {
        return Err(broken_within(alloc, "class", name));
    };
    let entry = Entry {
        section: "class",
        name,
        table,
    };
    match read_limits(alloc, &entry) {
        Ok(class) => Ok((id, class)),
        Err(e) => Err(e),
    }
}

/// The limits of a class.
#[tactic(auto, unfolding(crate::specs::Reading::limits))]
fn read_limits(alloc: Global, entry: &Entry) -> Result<Class, PolicyError>
    ensures { Gives (λ c. c) result
        (limits (within entry.now.section.now entry.now.name.now)
        (table_view entry.now.table.now)) }
{
    entry.has_only(alloc, &CLASS_KEYS)?;
    let max_loans = entry.limit_at(alloc, "max_loans")?;
    let max_fees = entry.amount_at(alloc, "max_fees")?;
    let max_renewals = entry.limit_at(alloc, "max_renewals")?;
    Ok(Class {
        max_loans,
        max_fees,
        max_renewals,
    })
}

/// The types of media, in the order of their codes.
#[tactic(auto, unfolding(crate::specs::Reading::section))]
pub(crate) fn read_media_types(
    alloc: Global,
    policy: &Table,
) -> Result<Vec<(MediaType, Media)>, PolicyError>
    ensures { Gives (λ m. m.items) result
        (section (codes "media") media_in (table_view policy.now)) }
{
    match table_at(policy, "media") {
        Some(table) => media_entries(alloc, table),
        None => Err(broken(alloc, "media")),
    }
}

/// The types of media of the table, in byte order of their codes, which is the table's order.
fn media_entries(alloc: Global, table: &Table) -> Result<Vec<(MediaType, Media)>, PolicyError>
    ensures { Gives (λ m. m.items) result
        (entries media_in (in_byte_order (table_view table.now))) }
{
    let mut media = Vec::new(alloc);
    for (name, value) in table {
        media.push(read_media_type(alloc, name.as_str(), value)?)?;
    }
    Ok(media)
}

/// A type of media, with its terms.
#[tactic(auto, unfolding(crate::specs::Reading::media_in))]
fn read_media_type(
    alloc: Global,
    name: &str,
    value: &Value,
) -> Result<(MediaType, Media), PolicyError>
    ensures { Gives (λ m. m) result (media_in name.now (view value.now)) }
{
    let Some(media_type) = MediaType::of_code(name.as_bytes()) else {
        return Err(broken_within(alloc, "media", name));
    };
    let Some(table) = value.as_table() else {
        return Err(broken_within(alloc, "media", name));
    };
    let entry = Entry {
        section: "media",
        name,
        table,
    };
    match read_lending(alloc, &entry) {
        Ok(media) => Ok((media_type, media)),
        Err(e) => Err(e),
    }
}

/// The terms of a type of media.
#[tactic(auto, unfolding(crate::specs::Reading::lending))]
fn read_lending(alloc: Global, entry: &Entry) -> Result<Media, PolicyError>
    ensures { Gives (λ m. m) result
        (lending (within entry.now.section.now entry.now.name.now)
        (table_view entry.now.table.now)) }
{
    entry.has_only(alloc, &MEDIA_KEYS)?;
    let days = entry.whole_at(alloc, "days", 1, 3_650)?;
    let rental = entry.amount_at(alloc, "rental")?;
    let late = entry.amount_at(alloc, "late")?;
    let cap = entry.amount_at(alloc, "cap")?;
    Ok(Media {
        days: LoanDays::new(days).unwrap(),
        rental,
        late,
        cap,
    })
}
