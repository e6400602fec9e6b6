//! The table of patrons.

ghost use Rattle.std.specs.Prelude.{◌≡◌, ◌++◌, ◌∷◌, [], List, true, false, Some, None, is_some, IfSome, IfOk, OnOk};
ghost use Rattle.csv.specs.Records.{fields_of};
ghost use Rattle.record_tables.specs.Read.{AreTold, no_rows, up_to};
ghost use Rattle.record_tables.specs.Rules as Rules;
ghost use Rattle.circ_records.specs.Classes as Classes;
ghost use Rattle.record_tables.specs.Tables.{Row, Rows, field};
ghost use Rattle.record_tables.specs.Told.{patron_told};
ghost use Rattle.record_tables.specs.Values.{flag_of};
ghost use Rattle.circ_records.specs.declared.record.Record.TheVariants as record_of;
ghost use Rattle.schema.specs.declared.table_name.TableName.TheVariants as table;

use crate::values::flag_of;
use circ_policy::Policy;
use circ_records::{BaseRule, Ids, Key, KeyRef, Patron, Record, RecordMap};
use csv::ByteRecord;
use csv_table::column;
use sip_reader::{Id, Text, is_text};
use std::alloc::{AllocError, Global};

/// Adds the patron of a row to the records of the rows before it, or returns the first rule that
/// the row breaks. A row that breaks one may leave its patron there.
#[tactic(auto, unfolding(crate::specs::Rules::patron_rule))]
pub(crate) fn put_patron(
    alloc: Global,
    policy: &Policy,
    row: &ByteRecord,
    records: &mut RecordMap,
) -> Result<Option<BaseRule>, AllocError>
    ensures rule { IfOk result
        (λ broken. (r : Rows) → AreTold r records.old
        → broken ≡ Rules.patron_rule policy.now r.patrons (fields_of row.now)) }
    ensures told { IfOk result
        (λ broken. broken ≡ None → (r : Rows) (before : List Row)
        → AreTold (up_to table.Patrons r before) records.old
        → Rules.has_row 0 (field 0 (fields_of row.now)) before ≡ false
        → AreTold (up_to table.Patrons r (before ++ fields_of row.now ∷ [])) records.new) }
{
    let Some(id) = patron_id(alloc, row)? else {
        return Ok(Some(BaseRule::Text));
    };
    let Some(blocked) = flag_of(column(row, 3)) else {
        return Ok(Some(BaseRule::Value));
    };
    let Some(class) = class_of(alloc, policy, column(row, 2))? else {
        return Ok(Some(if is_double(records, &id) {
            BaseRule::Double
        } else {
            BaseRule::Class
        }));
    };
    if add_patron(alloc, id, class, blocked, row, records)? {
        Ok(Some(BaseRule::Double))
    } else {
        Ok(None)
    }
}

/// The id of a row's patron, where all texts of the row are valid.
#[tactic(auto, unfolding(crate::specs::Rules::has_patron_texts))]
pub(crate) fn patron_id(alloc: Global, row: &ByteRecord) -> Result<Option<Id>, AllocError>
    ensures texts { IfOk result (λ id. is_some id ≡ Rules.has_patron_texts (fields_of row.now)) }
    ensures id { IfOk result (λ id. IfSome id (λ it. it ≡ field 0 (fields_of row.now))) }
{
    if is_text(column(row, 1)) && is_text(column(row, 2)) {
        Id::read(alloc, column(row, 0))
    } else {
        Ok(None)
    }
}

/// The class of this name, where the policy has one.
#[tactic(auto, unfolding(circ_records::specs::Classes::has_class))]
pub(crate) fn class_of(
    alloc: Global,
    policy: &Policy,
    name: &[u8],
) -> Result<Option<Id>, AllocError>
    ensures value { IfOk result (λ class. is_some class ≡ Classes.has_class policy.now name.now) }
    ensures name { IfOk result (λ class. IfSome class (λ it. it ≡ name.now)) }
{
    let Some(class) = Id::read(alloc, name)? else {
        return Ok(None);
    };
    if policy.class(&class).is_some() {
        Ok(Some(class))
    } else {
        Ok(None)
    }
}

/// Whether there is a patron with this id.
fn is_double(records: &RecordMap, id: &Id) -> bool
    ensures { (r : Rows) → AreTold r records.now → result ≡ Rules.has_row 0 id.now r.patrons }
{
    records.get(KeyRef::Patron(id)).is_some()
}

/// Adds the patron of a row to the records under its id, and returns whether there was one.
fn add_patron(
    alloc: Global,
    id: Id,
    class: Id,
    blocked: bool,
    row: &ByteRecord,
    records: &mut RecordMap,
) -> Result<bool, AllocError>
    requires id { id ≡ field 0 (fields_of row.now) }
    requires texts { Rules.has_patron_texts (fields_of row.now) ≡ true }
    requires class { class ≡ field 2 (fields_of row.now) }
    requires blocked { Some blocked ≡ flag_of (field 3 (fields_of row.now)) }
    ensures double { IfOk result
        (λ double. (r : Rows) → AreTold r records.old
        → double ≡ Rules.has_row 0 (field 0 (fields_of row.now)) r.patrons) }
    ensures told { OnOk result
        ((r : Rows) (before : List Row) → AreTold (up_to table.Patrons r before) records.old
        → Rules.has_row 0 (field 0 (fields_of row.now)) before ≡ false
        → AreTold (up_to table.Patrons r (before ++ fields_of row.now ∷ [])) records.new) }
{
    let patron = patron_of(alloc, class, blocked, row)?;
    let told = Record::patron(alloc, patron)?;
    records.put(alloc, Key::Patron(id), told)
}

/// The patron of a row, who has nothing and owes nothing.
#[tactic(auto, unfolding(crate::specs::Rules::has_patron_texts))]
fn patron_of(
    alloc: Global,
    class: Id,
    blocked: bool,
    row: &ByteRecord,
) -> Result<Patron, AllocError>
    requires texts { Rules.has_patron_texts (fields_of row.now) ≡ true }
    requires class { class ≡ field 2 (fields_of row.now) }
    requires blocked { Some blocked ≡ flag_of (field 3 (fields_of row.now)) }
    ensures { IfOk result (λ p. record_of.Patron p
        ≡ patron_told no_rows (field 0 (fields_of row.now)) (fields_of row.now)) }
{
    Ok(Patron {
        name: Text::new(alloc, column(row, 1))?,
        class,
        blocked,
        loans: Ids::new(),
        fees: Ids::new(),
    })
}
