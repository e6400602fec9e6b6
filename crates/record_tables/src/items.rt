//! The table of items.

ghost use Rattle.std.specs.Prelude.{◌≡◌, ◌++◌, ◌∷◌, [], List, true, false, Some, None, is_some, IfSome, IfOk, OnOk};
ghost use Rattle.csv.specs.Records.{fields_of};
ghost use Rattle.circ_policy.specs.Medias.{media_of_code};
ghost use Rattle.record_tables.specs.Read.{AreTold, no_rows, up_to};
ghost use Rattle.record_tables.specs.Rules as Rules;
ghost use Rattle.record_tables.specs.Tables.{Row, Rows, field};
ghost use Rattle.record_tables.specs.Told.{item_told};
ghost use Rattle.circ_records.specs.declared.record.Record.TheVariants as record_of;
ghost use Rattle.schema.specs.declared.table_name.TableName.TheVariants as table;

use circ_policy::{MediaType, Policy};
use circ_records::{BaseRule, Holds, Item, Key, KeyRef, Record, RecordMap};
use csv::ByteRecord;
use csv_table::column;
use sip_reader::{Id, Text, is_text};
use std::alloc::{AllocError, Global};

/// Adds the item of a row to the records of the rows before it, or returns the first rule that the
/// row breaks. A row that breaks one may leave its item there.
#[tactic(auto, unfolding(crate::specs::Rules::item_rule))]
pub(crate) fn put_item(
    alloc: Global,
    policy: &Policy,
    row: &ByteRecord,
    records: &mut RecordMap,
) -> Result<Option<BaseRule>, AllocError>
    ensures rule { IfOk result
        (λ broken. (r : Rows) → AreTold r records.old
        → broken ≡ Rules.item_rule policy.now r.items (fields_of row.now)) }
    ensures told { IfOk result
        (λ broken. broken ≡ None → (r : Rows) (before : List Row)
        → AreTold (up_to table.Items r before) records.old
        → Rules.has_row 0 (field 0 (fields_of row.now)) before ≡ false
        → AreTold (up_to table.Items r (before ++ fields_of row.now ∷ [])) records.new) }
{
    let Some(id) = item_id(alloc, row)? else {
        return Ok(Some(BaseRule::Text));
    };
    let Some(media) = media_of(policy, row) else {
        return Ok(Some(if is_double(records, &id) {
            BaseRule::Double
        } else {
            BaseRule::Media
        }));
    };
    if add_item(alloc, id, media, row, records)? {
        Ok(Some(BaseRule::Double))
    } else {
        Ok(None)
    }
}

/// The id of a row's item, where all texts of the row are valid.
#[tactic(auto, unfolding(crate::specs::Rules::has_item_texts))]
pub(crate) fn item_id(alloc: Global, row: &ByteRecord) -> Result<Option<Id>, AllocError>
    ensures texts { IfOk result (λ id. is_some id ≡ Rules.has_item_texts (fields_of row.now)) }
    ensures id { IfOk result (λ id. IfSome id (λ it. it ≡ field 0 (fields_of row.now))) }
{
    if is_text(column(row, 1))
        && is_text(column(row, 2))
        && is_text(column(row, 3))
        && is_text(column(row, 4))
    {
        Id::read(alloc, column(row, 0))
    } else {
        Ok(None)
    }
}

/// The media type of a row, where the policy has it.
#[tactic(auto, unfolding(crate::specs::Rules::has_media))]
pub(crate) fn media_of(policy: &Policy, row: &ByteRecord) -> Option<MediaType>
    ensures value { is_some result ≡ Rules.has_media policy.now (field 2 (fields_of row.now)) }
    ensures media { IfSome result
        (λ media. Some media ≡ media_of_code (field 2 (fields_of row.now))) }
{
    let Some(media) = MediaType::of_code(column(row, 2)) else {
        return None;
    };
    if policy.media(media).is_some() {
        Some(media)
    } else {
        None
    }
}

/// Whether there is an item with this id.
fn is_double(records: &RecordMap, id: &Id) -> bool
    ensures { (r : Rows) → AreTold r records.now → result ≡ Rules.has_row 0 id.now r.items }
{
    records.get(KeyRef::Item(id)).is_some()
}

/// Adds the item of a row to the records under its id, and returns whether there was one.
fn add_item(
    alloc: Global,
    id: Id,
    media: MediaType,
    row: &ByteRecord,
    records: &mut RecordMap,
) -> Result<bool, AllocError>
    requires id { id ≡ field 0 (fields_of row.now) }
    requires texts { Rules.has_item_texts (fields_of row.now) ≡ true }
    requires media { Some media ≡ media_of_code (field 2 (fields_of row.now)) }
    ensures double { IfOk result
        (λ double. (r : Rows) → AreTold r records.old
        → double ≡ Rules.has_row 0 (field 0 (fields_of row.now)) r.items) }
    ensures told { OnOk result
        ((r : Rows) (before : List Row) → AreTold (up_to table.Items r before) records.old
        → Rules.has_row 0 (field 0 (fields_of row.now)) before ≡ false
        → AreTold (up_to table.Items r (before ++ fields_of row.now ∷ [])) records.new) }
{
    let item = item_of(alloc, media, row)?;
    let told = Record::item(alloc, item)?;
    records.put(alloc, Key::Item(id), told)
}

/// The item of a row, without a loan and without holds.
#[tactic(auto, unfolding(crate::specs::Rules::has_item_texts))]
fn item_of(alloc: Global, media: MediaType, row: &ByteRecord) -> Result<Item, AllocError>
    requires texts { Rules.has_item_texts (fields_of row.now) ≡ true }
    requires media { Some media ≡ media_of_code (field 2 (fields_of row.now)) }
    ensures { IfOk result (λ item. record_of.Item item
        ≡ item_told no_rows (field 0 (fields_of row.now)) (fields_of row.now)) }
{
    Ok(Item {
        title: Text::new(alloc, column(row, 1))?,
        media,
        location: Text::new(alloc, column(row, 3))?,
        properties: Text::new(alloc, column(row, 4))?,
        loan: None,
        holds: Holds::new(alloc),
    })
}
