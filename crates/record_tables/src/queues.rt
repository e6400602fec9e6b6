//! The table of holds: who waits for which item.

ghost use Rattle.std.specs.Prelude.{◌≡◌, ◌++◌, ◌∷◌, [], List, None, is_some, IfSome, IfOk};
ghost use Rattle.csv.specs.Records.{fields_of};
ghost use Rattle.record_tables.specs.Read.{AreTold, AreWaiting, SaysHold, up_to};
ghost use Rattle.record_tables.specs.Rules as Rules;
ghost use Rattle.record_tables.specs.Tables.{Row, Rows};
ghost use Rattle.schema.specs.declared.table_name.TableName.TheVariants as table;

use crate::known::has_patron;
use circ_records::{BaseRule, Hold, Key, ListChange, RecordMap};
use csv::ByteRecord;
use csv_table::column;
use sip_reader::{Id, Text};
use std::alloc::{AllocError, Global};
use std::collections::BTreeSet;

/// Adds the hold of a row to the queue of its item, and its patron to those who wait, or returns
/// the first rule that the row breaks, where these are the records and the waiting patrons of the
/// rows before it. A row that breaks one may leave its patron among those who wait.
#[tactic(auto, unfolding(crate::specs::Rules::hold_rule))]
pub(crate) fn add_hold(
    alloc: Global,
    row: &ByteRecord,
    records: &mut RecordMap,
    waiting: &mut BTreeSet<(Id, Id)>,
) -> Result<Option<BaseRule>, AllocError>
    ensures rule { IfOk result
        (λ broken. (r : Rows) → AreTold r records.old → AreWaiting r.holds waiting.old
        → broken ≡ Rules.hold_rule r.patrons r.items r.loans r.holds (fields_of row.now)) }
    ensures told { IfOk result
        (λ broken. broken ≡ None → (r : Rows) (before : List Row)
        → AreTold (up_to table.Holds r before) records.old
        → AreTold (up_to table.Holds r (before ++ fields_of row.now ∷ [])) records.new) }
    ensures waiting { IfOk result
        (λ broken. broken ≡ None → (holds : List Row) → AreWaiting holds waiting.old
        → AreWaiting (holds ++ fields_of row.now ∷ []) waiting.new) }
{
    match read_hold(alloc, row)? {
        Some((item, hold)) => queue_hold(alloc, item, hold, records, waiting),
        None => Ok(Some(BaseRule::Text)),
    }
}

/// Adds a hold to the queue of its item, and its patron to those who wait, or returns the first
/// rule that it breaks there.
fn queue_hold(
    alloc: Global,
    item: Id,
    hold: Hold,
    records: &mut RecordMap,
    waiting: &mut BTreeSet<(Id, Id)>,
) -> Result<Option<BaseRule>, AllocError>
    ensures rule { IfOk result
        (λ broken. (r : Rows) (row : Row) → SaysHold item hold row → AreTold r records.old
        → AreWaiting r.holds waiting.old → broken
        ≡ Rules.hold_rule r.patrons r.items r.loans r.holds row) }
    ensures told { IfOk result
        (λ broken. broken ≡ None → (r : Rows) (before : List Row) (row : Row)
        → SaysHold item hold row → AreTold (up_to table.Holds r before) records.old
        → AreTold (up_to table.Holds r (before ++ row ∷ [])) records.new) }
    ensures waiting { IfOk result
        (λ broken. broken ≡ None → (holds : List Row) (row : Row) → SaysHold item hold row
        → AreWaiting holds waiting.old → AreWaiting (holds ++ row ∷ []) waiting.new) }
{
    if !waiting.insert((item.clone()?, hold.patron.clone()?))? {
        return Ok(Some(BaseRule::Double));
    }
    if !has_patron(records, &hold.patron) {
        return Ok(Some(BaseRule::Patron));
    }
    let broken = records.change(alloc, Key::Item(item), ListChange::Awaited(hold))?;
    Ok(broken)
}

/// The item of a row and the hold on it, where all texts of the row are valid.
#[tactic(auto, unfolding(crate::specs::Rules::has_hold_texts))]
fn read_hold(alloc: Global, row: &ByteRecord) -> Result<Option<(Id, Hold)>, AllocError>
    ensures texts { IfOk result (λ said. is_some said ≡ Rules.has_hold_texts (fields_of row.now)) }
    ensures says { IfOk result (λ said. IfSome said (λ s. SaysHold s.0 s.1 (fields_of row.now))) }
{
    let Some(item) = Id::read(alloc, column(row, 0))? else {
        return Ok(None);
    };
    let Some(patron) = Id::read(alloc, column(row, 1))? else {
        return Ok(None);
    };
    let pickup = Text::read(alloc, column(row, 2))?;
    let Some(pickup) = pickup else {
        return Ok(None);
    };
    Ok(Some((item, Hold { patron, pickup })))
}
