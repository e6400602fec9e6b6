//! The rules of the tables: which is the first that a row breaks, after all rows before it.

ghost use Rattle.std.specs.Prelude.{◌≡◌, ◌<◌, ◌+◌, ◌++◌, ◌∷◌, [], List, Some, IsSome, true, false, length, not, option_map, None, if◌then◌else◌, IfOk, OnOk};
ghost use Rattle.csv.specs.Records.{fields_of};
ghost use Rattle.record_tables.specs.AllBroken.{all_broken_in, row_fault};
ghost use Rattle.record_tables.specs.Base.{own_rows, rule_of};
ghost use Rattle.record_tables.specs.Read.{no_rows, rows_in, text_rows, up_to};
ghost use Rattle.record_tables.specs.RowsSeen.{HasSeen};
ghost use Rattle.record_tables.specs.Rules as Rules;
ghost use Rattle.record_tables.specs.Tables.{Row, Rows};
ghost use Rattle.record_tables.specs.Values.{hundredths};
ghost use Rattle.circ_records.specs.declared.rule.BaseRule.TheVariants as rule;

use crate::adding::BaseSource;
use crate::fault::BaseError;
use crate::items::{item_id, media_of};
use crate::made_fees::is_taken;
use crate::patrons::{class_of, patron_id};
use crate::rows::TableRows;
use crate::seen_holds::{both_ids, hold_ids, is_full, is_waiting, note_hold, note_length};
use crate::seen_ids::{add_id, has_id};
use crate::seen_loans::{is_borrower, is_lent, note_loan};
use crate::values::{due_of, flag_of, renewals_of};
use circ_policy::Policy;
use circ_records::{BaseRule, FeeType};
use csv::ByteRecord;
use csv_table::column;
use schema::TableName;
use sip_reader::{Amount, Id};
use std::alloc::{AllocError, Global};
use std::collections::{BTreeMap, BTreeSet};

/// What is kept of the rows that were seen, whether they break a rule or not.
pub(crate) struct SeenRows {
    patrons: BTreeSet<Id>,
    items: BTreeSet<Id>,
    /// Of each item that is lent the patron of its first loan, where that is an id.
    lent: BTreeMap<Id, Option<Id>>,
    fees: BTreeSet<Id>,
    closed: BTreeSet<Id>,
    waiting: BTreeSet<(Id, Id)>,
    /// How many wait for each item, at most `QUEUE_MAX`.
    lengths: BTreeMap<Id, usize>,
}

impl Drop for SeenRows {
    fn drop(self) {
        let SeenRows {
            patrons: _,
            items: _,
            lent: _,
            fees: _,
            closed: _,
            waiting: _,
            lengths: _,
        } = self;
    }
}

impl SeenRows {
    /// No row was seen yet.
    pub(crate) fn none(alloc: Global) -> SeenRows
        ensures { HasSeen no_rows result }
    {
        SeenRows {
            patrons: BTreeSet::new(alloc),
            items: BTreeSet::new(alloc),
            lent: BTreeMap::new(alloc),
            fees: BTreeSet::new(alloc),
            closed: BTreeSet::new(alloc),
            waiting: BTreeSet::new(alloc),
            lengths: BTreeMap::new(alloc),
        }
    }

    /// Keeps what other rows may look for.
    fn note(&mut self, alloc: Global, table: TableName, row: &ByteRecord) -> Result<(), AllocError>
        ensures { OnOk result ((r : Rows) (before : List Row)
            → HasSeen (up_to table r before) self.old
            → HasSeen (up_to table r (before ++ fields_of row.now ∷ [])) self.new) }
    {
        match table {
            TableName::Patrons => add_id(alloc, &mut self.patrons, column(row, 0)),
            TableName::Items => add_id(alloc, &mut self.items, column(row, 0)),
            TableName::Loans => note_loan(alloc, &mut self.lent, row),
            TableName::Fees => add_id(alloc, &mut self.fees, column(row, 0)),
            TableName::Closed => add_id(alloc, &mut self.closed, column(row, 0)),
            TableName::Holds => {
                note_hold(alloc, &mut self.waiting, row)?;
                note_length(alloc, &mut self.lengths, column(row, 0))
            }
        }
    }
}

impl BaseSource<'_> {
    /// Lists each row of a table that breaks a rule after those that are listed, and returns how
    /// many rows there are. Its text is a table, and the rows of the tables before it were seen.
    pub(crate) fn judge_rows(
        &self,
        alloc: Global,
        table: TableName,
        seen: &mut SeenRows,
        broken: &mut Vec<BaseError>,
    ) -> Result<usize, AllocError>
        requires table { IsSome (text_rows table self.now.tables.now) }
        requires seen { HasSeen (up_to table (rows_in self.now.tables.now) []) seen.old }
        ensures broken { OnOk result
            (broken.new.items ≡ broken.old.items
            ++ all_broken_in self.now.policy.now self.now.first table
            (rows_in self.now.tables.now)) }
        ensures seen { OnOk result
            (HasSeen (up_to table (rows_in self.now.tables.now)
            (own_rows table (rows_in self.now.tables.now))) seen.new) }
        ensures count { IfOk result
            (λ count. count ≡ length (own_rows table (rows_in self.now.tables.now))) }
    {
        let Ok(mut rows) = TableRows::of(alloc, table, self.tables) else {
            return Err(AllocError);
        };
        let mut row = ByteRecord::new(alloc);
        while next_row(&mut rows, &mut row)? {
            self.judge_row(alloc, &rows, seen, &row, broken)?;
        }
        Ok(rows.count())
    }

    /// Lists the row that was read last where it breaks a rule. From then on it is one of those
    /// that were seen.
    fn judge_row(
        &self,
        alloc: Global,
        rows: &TableRows<'_>,
        seen: &mut SeenRows,
        row: &ByteRecord,
        broken: &mut Vec<BaseError>,
    ) -> Result<(), AllocError>
        ensures broken { OnOk result ((r : Rows) (before : List Row) → HasSeen (up_to rows.now.table r before) seen.old
            → broken.new.items ≡ broken.old.items ++ row_fault rows.now.table rows.now.count (fields_of row.now) (rule_of self.now.policy.now self.now.first rows.now.table r before (fields_of row.now))) }
        ensures seen { OnOk result
            ((r : Rows) (before : List Row) → HasSeen (up_to rows.now.table r before) seen.old
            → HasSeen (up_to rows.now.table r (before ++ fields_of row.now ∷ [])) seen.new) }
    {
        let first = self.rule(alloc, rows.table(), seen, row)?;
        seen.note(alloc, rows.table(), row)?;
        if let Some(rule) = first {
            broken.push(rows.broken(rule, row.clone()?))?;
        }
        Ok(())
    }

    /// The first rule that a row of a table breaks.
    fn rule(
        &self,
        alloc: Global,
        table: TableName,
        seen: &SeenRows,
        row: &ByteRecord,
    ) -> Result<Option<BaseRule>, AllocError>
        ensures { IfOk result (λ broken. (r : Rows) (before : List Row)
            → HasSeen (up_to table r before) seen.now
            → broken ≡ rule_of self.now.policy.now self.now.first table r before
            (fields_of row.now)) }
    {
        match table {
            TableName::Patrons => patron_rule(alloc, self.policy, seen, row),
            TableName::Items => item_rule(alloc, self.policy, seen, row),
            TableName::Loans => loan_rule(alloc, seen, row),
            TableName::Fees => fee_rule(alloc, self.first, seen, row),
            TableName::Closed => closed_rule(alloc, self.first, seen, row),
            TableName::Holds => hold_rule(alloc, seen, row),
        }
    }
}

/// Reads the next row of a text that is a table, of which only memory can fail. Without one, at the
/// end, `row` means nothing.
fn next_row(rows: &mut TableRows<'_>, row: &mut ByteRecord) -> Result<bool, AllocError>
    ensures table { rows.new.table ≡ rows.old.table }
    ensures row { IfOk result
        (λ found. found ≡ true → rows.old.rows
        ≡ option_map (λ rest. fields_of row.new ∷ rest) rows.new.rows) }
    ensures count { IfOk result (λ found. found ≡ true → rows.new.count ≡ rows.old.count + 1) }
    ensures shorter { IfOk result (λ found. found ≡ true → rows.new.size < rows.old.size) }
    ensures end { IfOk result (λ found. found ≡ false → rows.old.rows ≡ Some []) }
    ensures same { IfOk result (λ found. found ≡ false → rows.new.count ≡ rows.old.count) }
{
    rows.next(row).map_err(|_| AllocError)
}

/// The first rule that a row of patrons breaks.
#[tactic(auto, unfolding(crate::specs::Rules::patron_rule))]
fn patron_rule(
    alloc: Global,
    policy: &Policy,
    seen: &SeenRows,
    row: &ByteRecord,
) -> Result<Option<BaseRule>, AllocError>
    ensures { IfOk result (λ broken. (r : Rows) → HasSeen r seen.now
        → broken ≡ Rules.patron_rule policy.now r.patrons (fields_of row.now)) }
{
    let Some(id) = patron_id(alloc, row)? else {
        return Ok(Some(BaseRule::Text));
    };
    if flag_of(column(row, 3)).is_none() {
        return Ok(Some(BaseRule::Value));
    }
    if has_id(&seen.patrons, &id) {
        return Ok(Some(BaseRule::Double));
    }
    if class_of(alloc, policy, column(row, 2))?.is_none() {
        return Ok(Some(BaseRule::Class));
    }
    Ok(None)
}

/// The first rule that a row of items breaks.
#[tactic(auto, unfolding(crate::specs::Rules::item_rule))]
fn item_rule(
    alloc: Global,
    policy: &Policy,
    seen: &SeenRows,
    row: &ByteRecord,
) -> Result<Option<BaseRule>, AllocError>
    ensures { IfOk result (λ broken. (r : Rows) → HasSeen r seen.now
        → broken ≡ Rules.item_rule policy.now r.items (fields_of row.now)) }
{
    let Some(id) = item_id(alloc, row)? else {
        return Ok(Some(BaseRule::Text));
    };
    if has_id(&seen.items, &id) {
        return Ok(Some(BaseRule::Double));
    }
    if media_of(policy, row).is_none() {
        return Ok(Some(BaseRule::Media));
    }
    Ok(None)
}

/// The first rule that a row of loans breaks.
#[tactic(auto, unfolding(crate::specs::Rules::loan_rule, crate::specs::Rules::has_loan_texts, crate::specs::Rules::has_loan_values))]
fn loan_rule(
    alloc: Global,
    seen: &SeenRows,
    row: &ByteRecord,
) -> Result<Option<BaseRule>, AllocError>
    ensures { IfOk result (λ broken. (r : Rows) → HasSeen r seen.now
        → broken ≡ Rules.loan_rule r.patrons r.items r.loans (fields_of row.now)) }
{
    let Some((patron, item)) = both_ids(alloc, row)? else {
        return Ok(Some(BaseRule::Text));
    };
    if due_of(column(row, 2)).is_none() || renewals_of(column(row, 3)).is_none() {
        return Ok(Some(BaseRule::Value));
    }
    if !has_id(&seen.patrons, &patron) {
        return Ok(Some(BaseRule::Patron));
    }
    if !has_id(&seen.items, &item) {
        return Ok(Some(BaseRule::Item));
    }
    if is_lent(&seen.lent, &item) {
        return Ok(Some(BaseRule::Lent));
    }
    Ok(None)
}

/// The first rule that a row of open fees breaks.
#[tactic(auto, unfolding(crate::specs::Rules::fee_rule, crate::specs::Rules::has_fee_texts, crate::specs::Rules::has_fee_values))]
fn fee_rule(
    alloc: Global,
    first: Option<u64>,
    seen: &SeenRows,
    row: &ByteRecord,
) -> Result<Option<BaseRule>, AllocError>
    ensures { IfOk result (λ broken. (r : Rows) → HasSeen r seen.now
        → broken ≡ Rules.fee_rule first r.patrons r.fees (fields_of row.now)) }
{
    let Some((id, patron)) = both_ids(alloc, row)? else {
        return Ok(Some(BaseRule::Text));
    };
    if !has_closed_values(row) || Amount::read(column(row, 4)).is_none() {
        return Ok(Some(BaseRule::Value));
    }
    if has_id(&seen.fees, &id) {
        return Ok(Some(BaseRule::Double));
    }
    if !has_id(&seen.patrons, &patron) {
        return Ok(Some(BaseRule::Patron));
    }
    if !is_owing(row) {
        return Ok(Some(BaseRule::Paid));
    }
    if is_taken(first, column(row, 0)) {
        return Ok(Some(BaseRule::Number));
    }
    Ok(None)
}

/// The first rule that a row of closed fees breaks.
#[tactic(auto, unfolding(crate::specs::Rules::closed_rule, crate::specs::Rules::has_fee_texts))]
fn closed_rule(
    alloc: Global,
    first: Option<u64>,
    seen: &SeenRows,
    row: &ByteRecord,
) -> Result<Option<BaseRule>, AllocError>
    ensures { IfOk result (λ broken. (r : Rows) → HasSeen r seen.now
        → broken ≡ Rules.closed_rule first r.patrons r.fees r.closed (fields_of row.now)) }
{
    let Some((id, patron)) = both_ids(alloc, row)? else {
        return Ok(Some(BaseRule::Text));
    };
    if !has_closed_values(row) {
        return Ok(Some(BaseRule::Value));
    }
    if has_id(&seen.fees, &id) || has_id(&seen.closed, &id) {
        return Ok(Some(BaseRule::Double));
    }
    if !has_id(&seen.patrons, &patron) {
        return Ok(Some(BaseRule::Patron));
    }
    if is_taken(first, column(row, 0)) {
        return Ok(Some(BaseRule::Number));
    }
    Ok(None)
}

/// The first rule that a row of holds breaks.
#[tactic(auto, unfolding(crate::specs::Rules::hold_rule))]
fn hold_rule(
    alloc: Global,
    seen: &SeenRows,
    row: &ByteRecord,
) -> Result<Option<BaseRule>, AllocError>
    ensures { IfOk result (λ broken. (r : Rows) → HasSeen r seen.now
        → broken ≡ Rules.hold_rule r.patrons r.items r.loans r.holds (fields_of row.now)) }
{
    let Some(hold) = hold_ids(alloc, row)? else {
        return Ok(Some(BaseRule::Text));
    };
    if is_waiting(&seen.waiting, &hold) {
        return Ok(Some(BaseRule::Double));
    }
    Ok(queue_rule(seen, &hold.0, &hold.1))
}

/// The first rule that a hold breaks whose patron doesn't wait yet.
fn queue_rule(seen: &SeenRows, item: &Id, patron: &Id) -> Option<BaseRule>
    ensures { (r : Rows) → HasSeen r seen.now → result ≡ (if not (Rules.has_row 0 patron.now r.patrons) then Some rule.Patron else if not (Rules.has_row 0 item.now r.items) then Some rule.Item
        else if Rules.is_borrower patron.now item.now r.loans then Some rule.Borrower else if Rules.is_full item.now r.holds then Some rule.Queue else None) }
{
    if !has_id(&seen.patrons, patron) {
        Some(BaseRule::Patron)
    } else if !has_id(&seen.items, item) {
        Some(BaseRule::Item)
    } else if is_borrower(&seen.lent, item, patron) {
        Some(BaseRule::Borrower)
    } else if is_full(&seen.lengths, item) {
        Some(BaseRule::Queue)
    } else {
        None
    }
}

/// Whether a row has a fee type and an amount.
#[tactic(auto, unfolding(crate::specs::Rules::has_closed_values))]
fn has_closed_values(row: &ByteRecord) -> bool
    ensures { result ≡ Rules.has_closed_values (fields_of row.now) }
{
    FeeType::of_code(column(row, 2)).is_some() && Amount::read(column(row, 3)).is_some()
}

/// Whether what is paid is below the amount.
#[tactic(auto, unfolding(crate::specs::Rules::is_owing))]
fn is_owing(row: &ByteRecord) -> bool
    ensures { result ≡ Rules.is_owing (fields_of row.now) }
{
    hundredths(column(row, 4)) < hundredths(column(row, 3))
}

/// The hundredths of a text that is an amount.
fn hundredths(text: &[u8]) -> u64
    ensures { result ≡ hundredths text.now }
{
    match Amount::read(text) {
        Some(amount) => amount.hundredths(),
        None => 0,
    }
}
