//! The table of closed fees, which are paid in full.

ghost use Rattle.std.specs.Prelude.{◌≡◌, ◌++◌, ◌∷◌, [], List, ◌||◌, false, None, IfOk};
ghost use Rattle.csv.specs.Records.{fields_of};
ghost use Rattle.record_tables.specs.Read.{AreTold, SaysClosed, up_to};
ghost use Rattle.record_tables.specs.Rules as Rules;
ghost use Rattle.record_tables.specs.Tables.{Row, Rows, field};
ghost use Rattle.schema.specs.declared.table_name.TableName.TheVariants as table;

use crate::fees::{FeeRow, insert_fee, read_closed};
use crate::known::has_patron;
use crate::made_fees::is_taken;
use circ_records::{BaseRule, RecordMap};
use csv::ByteRecord;
use std::alloc::{AllocError, Global};

/// Adds the closed fee of a row to the records of the rows before it, or returns the first rule
/// that the row breaks. A row that breaks one may leave its fee there.
#[tactic(auto, unfolding(crate::specs::Rules::closed_rule))]
pub(crate) fn add_closed(
    alloc: Global,
    first: Option<u64>,
    row: &ByteRecord,
    records: &mut RecordMap,
) -> Result<Option<BaseRule>, AllocError>
    ensures rule { IfOk result
        (λ broken. (r : Rows) → AreTold r records.old
        → broken ≡ Rules.closed_rule first r.patrons r.fees r.closed (fields_of row.now)) }
    ensures told { IfOk result
        (λ broken. broken ≡ None → (r : Rows) (before : List Row)
        → AreTold (up_to table.Closed r before) records.old
        → (Rules.has_row 0 (field 0 (fields_of row.now)) r.fees || Rules.has_row 0
        (field 0 (fields_of row.now)) before) ≡ false
        → AreTold (up_to table.Closed r (before ++ fields_of row.now ∷ [])) records.new) }
{
    match read_closed(alloc, row)? {
        Ok(said) => put_closed(alloc, first, &said, records),
        Err(rule) => Ok(Some(rule)),
    }
}

/// Adds a closed fee to the records, or returns the first rule that it breaks there.
fn put_closed(
    alloc: Global,
    first: Option<u64>,
    said: &FeeRow,
    records: &mut RecordMap,
) -> Result<Option<BaseRule>, AllocError>
    ensures rule { IfOk result
        (λ broken. (r : Rows) (row : Row) → SaysClosed said.now row → AreTold r records.old
        → broken ≡ Rules.closed_rule first r.patrons r.fees r.closed row) }
    ensures told { IfOk result
        (λ broken. broken ≡ None → (r : Rows) (before : List Row) (row : Row)
        → SaysClosed said.now row → AreTold (up_to table.Closed r before) records.old
        → (Rules.has_row 0 (field 0 row) r.fees || Rules.has_row 0 (field 0 row) before) ≡ false
        → AreTold (up_to table.Closed r (before ++ row ∷ [])) records.new) }
{
    if insert_fee(alloc, said, records)? {
        Ok(Some(BaseRule::Double))
    } else if !has_patron(records, &said.fee.patron) {
        Ok(Some(BaseRule::Patron))
    } else if is_taken(first, said.id.as_bytes()) {
        Ok(Some(BaseRule::Number))
    } else {
        Ok(None)
    }
}
