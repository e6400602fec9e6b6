//! The holds that rows have: who waits for what, and how many wait for each item.

ghost use Rattle.std.specs.BTreeMap.{get};
ghost use Rattle.std.specs.Cmp.Lexicographic.{slice_cmp};
ghost use Rattle.std.specs.Ordering.{nat_cmp};
ghost use Rattle.std.specs.Prelude.{◌&&◌, ◌++◌, ◌∷◌, ◌≡◌, [], is_some, unwrap_or, IfOk, IfSome, List, OnOk};
ghost use Rattle.csv.specs.Records.{fields_of};
ghost use Rattle.record_tables.specs.RowsBefore.{HasHolds, HasQueues};
ghost use Rattle.record_tables.specs.Rules as Rules;
ghost use Rattle.record_tables.specs.Tables.{Row, field};
ghost use Rattle.sip_reader.specs.Texts.{is_id};

use circ_records::QUEUE_MAX;
use csv::ByteRecord;
use csv_table::column;
use sip_reader::{Id, is_text};
use std::alloc::{AllocError, Global};
use std::collections::{BTreeMap, BTreeSet};

/// The item and the patron of a row, where all texts of the row are valid.
#[tactic(auto, unfolding(crate::specs::Rules::has_hold_texts))]
pub(crate) fn hold_ids(alloc: Global, row: &ByteRecord) -> Result<Option<(Id, Id)>, AllocError>
    ensures texts { IfOk result (λ ids. is_some ids ≡ Rules.has_hold_texts (fields_of row.now)) }
    ensures item { IfOk result (λ ids. IfSome ids (λ it. it.0 ≡ field 0 (fields_of row.now))) }
    ensures patron { IfOk result (λ ids. IfSome ids (λ it. it.1 ≡ field 1 (fields_of row.now))) }
{
    if !is_text(column(row, 2)) {
        return Ok(None);
    }
    both_ids(alloc, row)
}

/// The item and the patron of a row, or a fee and its patron, where both are ids.
pub(crate) fn both_ids(alloc: Global, row: &ByteRecord) -> Result<Option<(Id, Id)>, AllocError>
    ensures some { IfOk result
        (λ ids. is_some ids ≡ (is_id (field 0 (fields_of row.now))
        && is_id (field 1 (fields_of row.now)))) }
    ensures first { IfOk result (λ ids. IfSome ids (λ it. it.0 ≡ field 0 (fields_of row.now))) }
    ensures second { IfOk result (λ ids. IfSome ids (λ it. it.1 ≡ field 1 (fields_of row.now))) }
{
    let Some(first) = Id::read(alloc, column(row, 0))? else {
        return Ok(None);
    };
    let Some(second) = Id::read(alloc, column(row, 1))? else {
        return Ok(None);
    };
    Ok(Some((first, second)))
}

/// Whether the patron waits for the item already.
pub(crate) fn is_waiting(waiting: &BTreeSet<(Id, Id)>, hold: &(Id, Id)) -> bool
    ensures { (holds : List Row) → HasHolds holds waiting.now
        → result ≡ Rules.has_hold hold.now.0 hold.now.1 holds }
{
    hold.0.keeps_its_form();
    hold.1.keeps_its_form();
    waiting.contains(hold)
}

/// Whether as many wait for an item as a queue takes.
#[tactic(auto, unfolding(crate::specs::Rules::is_full))]
pub(crate) fn is_full(lengths: &BTreeMap<Id, usize>, item: &Id) -> bool
    ensures { (holds : List Row) → HasQueues holds lengths.now
        → result ≡ Rules.is_full item.now holds }
{
    item.keeps_its_form();
    length_of(lengths, item) >= QUEUE_MAX
}

/// How many wait for an item, counted as far as a queue goes.
fn length_of(lengths: &BTreeMap<Id, usize>, item: &Id) -> usize
    ensures { result ≡ unwrap_or (get (slice_cmp nat_cmp) lengths.now item.now) 0 }
{
    match lengths.get(item) {
        Some(length) => *length,
        None => 0,
    }
}

/// Adds one more row to those who wait.
pub(crate) fn note_hold(
    alloc: Global,
    waiting: &mut BTreeSet<(Id, Id)>,
    row: &ByteRecord,
) -> Result<(), AllocError>
    ensures { OnOk result ((before : List Row) → HasHolds before waiting.old
        → HasHolds (before ++ fields_of row.now ∷ []) waiting.new) }
{
    if let Some(hold) = both_ids(alloc, row)? {
        waiting.insert(hold)?;
    }
    Ok(())
}

/// Adds one more row, with this text for its item, to the lengths of the queues.
pub(crate) fn note_length(
    alloc: Global,
    lengths: &mut BTreeMap<Id, usize>,
    text: &[u8],
) -> Result<(), AllocError>
    ensures { OnOk result ((before : List Row) (row : Row) → text.now ≡ field 0 row
        → HasQueues before lengths.old → HasQueues (before ++ row ∷ []) lengths.new) }
{
    let Some(item) = Id::read(alloc, text)? else {
        return Ok(());
    };
    let length = length_of(lengths, &item);
    if length < QUEUE_MAX {
        lengths.insert(item, length + 1)?;
    }
    Ok(())
}
