//! The table of open fees, and what it shares with that of closed ones.

ghost use Rattle.std.specs.Prelude.{◌≡◌, ◌++◌, ◌∷◌, [], List, Option, false, Some, None, is_some, not, cond, nat_lt, if◌then◌else◌, IfOk, IfErr, OnOk};
ghost use Rattle.std.specs.Ordering.{eq_by_cmp};
ghost use Rattle.csv.specs.Records.{fields_of};
ghost use Rattle.circ_records.specs.Keys.{key_cmp};
ghost use Rattle.circ_records.specs.MadeFees as MadeFees;
ghost use Rattle.record_tables.specs.Read.{AreTold, SaysClosed, SaysFee, up_to};
ghost use Rattle.circ_records.specs.Records.{record_at};
ghost use Rattle.record_tables.specs.Rules as Rules;
ghost use Rattle.record_tables.specs.Tables.{Row, Rows, field};
ghost use Rattle.circ_records.specs.declared.rule.BaseRule.{BaseRule};
ghost use Rattle.circ_records.specs.declared.rule.BaseRule.TheVariants as rule;
ghost use Rattle.circ_records.specs.declared.key.Key.{Key};
ghost use Rattle.circ_records.specs.declared.key.Key.TheVariants as key;
ghost use Rattle.circ_records.specs.declared.record.Record.TheVariants as record_of;
ghost use Rattle.schema.specs.declared.table_name.TableName.TheVariants as table;

use crate::fee_rows::is_open;
use crate::made_fees::is_taken;
use circ_records::{BaseRule, Fee, FeeType, Key, ListChange, Record, RecordMap};
use csv::ByteRecord;
use csv_table::column;
use sip_reader::{Amount, Id};
use std::alloc::{AllocError, Global};

/// Adds the open fee of a row to the records of the rows before it and to its patron's list, or
/// returns the first rule that the row breaks. A row that breaks one may leave its fee there.
#[tactic(auto, unfolding(crate::specs::Rules::fee_rule))]
pub(crate) fn add_open(
    alloc: Global,
    first: Option<u64>,
    row: &ByteRecord,
    records: &mut RecordMap,
) -> Result<Option<BaseRule>, AllocError>
    ensures rule { IfOk result
        (λ broken. (r : Rows) → AreTold r records.old → r.closed ≡ []
        → broken ≡ Rules.fee_rule first r.patrons r.fees (fields_of row.now)) }
    ensures told { IfOk result
        (λ broken. broken ≡ None → (r : Rows) (before : List Row)
        → AreTold (up_to table.Fees r before) records.old
        → Rules.has_row 0 (field 0 (fields_of row.now)) before ≡ false
        → AreTold (up_to table.Fees r (before ++ fields_of row.now ∷ [])) records.new) }
{
    match read_fee(alloc, row)? {
        Ok(said) => put_open(alloc, first, &said, records),
        Err(rule) => Ok(Some(rule)),
    }
}

/// Adds an open fee to the records and to its patron's list, or returns the first rule that it
/// breaks there.
fn put_open(
    alloc: Global,
    first: Option<u64>,
    said: &FeeRow,
    records: &mut RecordMap,
) -> Result<Option<BaseRule>, AllocError>
    ensures rule { IfOk result
        (λ broken. (r : Rows) (row : Row) → SaysFee said.now row → AreTold r records.old
        → r.closed ≡ [] → broken ≡ Rules.fee_rule first r.patrons r.fees row) }
    ensures told { IfOk result
        (λ broken. broken ≡ None → (r : Rows) (before : List Row) (row : Row) → SaysFee said.now row
        → AreTold (up_to table.Fees r before) records.old
        → Rules.has_row 0 (field 0 row) before ≡ false
        → AreTold (up_to table.Fees r (before ++ row ∷ [])) records.new) }
{
    if insert_fee(alloc, said, records)? {
        return Ok(Some(BaseRule::Double));
    }
    let key = Key::Patron(said.fee.patron.clone()?);
    let broken = records.change(alloc, key, ListChange::Owes(said.id.clone()?))?;
    if broken.is_some() {
        return Ok(broken);
    }
    Ok(rule_of_fee(first, said))
}

/// Adds a fee to the records, and returns whether there was one with its id.
pub(crate) fn insert_fee(
    alloc: Global,
    said: &FeeRow,
    records: &mut RecordMap,
) -> Result<bool, AllocError>
    ensures double { IfOk result
        (λ double. double ≡ is_some (record_at records.old (key.Fee said.now.id))) }
    ensures put { OnOk result
        ((q : Key) → record_at records.new q ≡ cond (eq_by_cmp key_cmp (key.Fee said.now.id) q)
        (Some (record_of.Fee said.now.fee)) (record_at records.old q)) }
{
    let told = Record::fee(alloc, said.fee.clone()?)?;
    records.put(alloc, Key::Fee(said.id.clone()?), told)
}

/// The rule that an open fee breaks whatever the records are: a rest is to be paid, and no line
/// makes a fee with its id.
fn rule_of_fee(first: Option<u64>, said: &FeeRow) -> Option<BaseRule>
    ensures { result ≡ (if not
        (nat_lt said.now.fee.paid said.now.fee.amount) then Some rule.Paid else if MadeFees.is_taken first said.now.id then Some rule.Number else None) }
{
    if !is_open(&said.fee) {
        Some(BaseRule::Paid)
    } else if is_taken(first, said.id.as_bytes()) {
        Some(BaseRule::Number)
    } else {
        None
    }
}

/// What a row says: a fee and its id.
#[derive(Drop)]
pub(crate) struct FeeRow {
    pub(crate) id: Id,
    pub(crate) fee: Fee,
}

/// The fee of a row of open fees, or the rule that the row breaks whatever the records are.
#[tactic(auto, unfolding(crate::specs::Rules::has_fee_values))]
fn read_fee(alloc: Global, row: &ByteRecord) -> Result<Result<FeeRow, BaseRule>, AllocError>
    ensures ok { IfOk result (λ read. IfOk read (λ said. SaysFee said (fields_of row.now))) }
    ensures err { IfOk result
        (λ read. IfErr read (λ e. (rest : Option BaseRule)
        → (if not (Rules.has_fee_texts (fields_of row.now)) then Some rule.Text else if not
        (Rules.has_fee_values (fields_of row.now)) then Some rule.Value else rest) ≡ Some e)) }
{
    let mut said = match read_closed(alloc, row)? {
        Ok(said) => said,
        Err(rule) => return Ok(Err(rule)),
    };
    let Some(paid) = Amount::read(column(row, 4)) else {
        return Ok(Err(BaseRule::Value));
    };
    said.fee.paid = paid;
    Ok(Ok(said))
}

/// The fee of a row of closed fees, or the rule that the row breaks whatever the records are. All
/// of such a fee is paid.
#[tactic(auto, unfolding(crate::specs::Rules::has_fee_texts, crate::specs::Rules::has_closed_values))]
pub(crate) fn read_closed(
    alloc: Global,
    row: &ByteRecord,
) -> Result<Result<FeeRow, BaseRule>, AllocError>
    ensures ok { IfOk result (λ read. IfOk read (λ said. SaysClosed said (fields_of row.now))) }
    ensures err { IfOk result
        (λ read. IfErr read (λ e. (rest : Option BaseRule)
        → (if not (Rules.has_fee_texts (fields_of row.now)) then Some rule.Text else if not
        (Rules.has_closed_values (fields_of row.now)) then Some rule.Value else rest) ≡ Some e)) }
{
    let Some(id) = Id::read(alloc, column(row, 0))? else {
        return Ok(Err(BaseRule::Text));
    };
    let Some(patron) = Id::read(alloc, column(row, 1))? else {
        return Ok(Err(BaseRule::Text));
    };
    let Some(kind) = FeeType::of_code(column(row, 2)) else {
        return Ok(Err(BaseRule::Value));
    };
    let Some(amount) = Amount::read(column(row, 3)) else {
        return Ok(Err(BaseRule::Value));
    };
    Ok(Ok(FeeRow {
        id,
        fee: Fee {
            patron,
            kind,
            amount,
            paid: amount,
        },
    }))
}
