//! The table of loans.

ghost use Rattle.std.specs.Prelude.{◌≡◌, ◌++◌, ◌∷◌, [], List, false, Some, None, IfOk, IfErr};
ghost use Rattle.csv.specs.Records.{fields_of};
ghost use Rattle.record_tables.specs.Read.{AreTold, SaysLoan, up_to};
ghost use Rattle.record_tables.specs.Rules as Rules;
ghost use Rattle.record_tables.specs.Tables.{Row, Rows, field};
ghost use Rattle.schema.specs.declared.table_name.TableName.TheVariants as table;

use crate::values::{due_of, renewals_of};
use circ_records::{BaseRule, Key, ListChange, Loan, RecordMap};
use csv::ByteRecord;
use csv_table::column;
use sip_reader::Id;
use std::alloc::{AllocError, Global};

/// Adds the loan of a row to its patron's list and its item, or returns the first rule that the row
/// breaks, where these are the records of the rows before it. A row that breaks one may leave the
/// loan in the list.
pub(crate) fn add_loan(
    alloc: Global,
    row: &ByteRecord,
    records: &mut RecordMap,
) -> Result<Option<BaseRule>, AllocError>
    ensures rule { IfOk result
        (λ broken. (r : Rows) → AreTold r records.old
        → broken ≡ Rules.loan_rule r.patrons r.items r.loans (fields_of row.now)) }
    ensures told { IfOk result
        (λ broken. broken ≡ None → (r : Rows) (before : List Row)
        → AreTold (up_to table.Loans r before) records.old
        → Rules.has_row 1 (field 1 (fields_of row.now)) before ≡ false
        → AreTold (up_to table.Loans r (before ++ fields_of row.now ∷ [])) records.new) }
{
    match read_loan(alloc, row)? {
        Ok(said) => put_loan(alloc, said, records),
        Err(rule) => Ok(Some(rule)),
    }
}

/// Adds a loan to its patron's list and its item, or returns the first rule that it breaks there.
fn put_loan(
    alloc: Global,
    said: LoanRow,
    records: &mut RecordMap,
) -> Result<Option<BaseRule>, AllocError>
    ensures rule { IfOk result
        (λ broken. (r : Rows) (row : Row) → SaysLoan said row → AreTold r records.old
        → broken ≡ Rules.loan_rule r.patrons r.items r.loans row) }
    ensures told { IfOk result
        (λ broken. broken ≡ None → (r : Rows) (before : List Row) (row : Row) → SaysLoan said row
        → AreTold (up_to table.Loans r before) records.old
        → Rules.has_row 1 (field 1 row) before ≡ false
        → AreTold (up_to table.Loans r (before ++ row ∷ [])) records.new) }
{
    let LoanRow { item, loan } = said;
    let key = Key::Patron(loan.patron.clone()?);
    let broken = records.change(alloc, key, ListChange::Borrows(item.clone()?))?;
    if broken.is_some() {
        return Ok(broken);
    }
    let broken = records.change(alloc, Key::Item(item), ListChange::Lent(loan))?;
    Ok(broken)
}

/// The loan of an item, as a row has it.
#[derive(Drop)]
pub(crate) struct LoanRow {
    pub(crate) item: Id,
    pub(crate) loan: Loan,
}

/// The loan of a row, or the first rule that the row breaks whatever the records are.
#[tactic(auto, unfolding(crate::specs::Rules::loan_rule, crate::specs::Rules::has_loan_texts, crate::specs::Rules::has_loan_values))]
fn read_loan(alloc: Global, row: &ByteRecord) -> Result<Result<LoanRow, BaseRule>, AllocError>
    ensures ok { IfOk result (λ read. IfOk read (λ said. SaysLoan said (fields_of row.now))) }
    ensures err { IfOk result
        (λ read. IfErr read (λ rule. (patrons items before : List Row)
        → Rules.loan_rule patrons items before (fields_of row.now) ≡ Some rule)) }
{
    let Some(patron) = Id::read(alloc, column(row, 0))? else {
        return Ok(Err(BaseRule::Text));
    };
    let Some(item) = Id::read(alloc, column(row, 1))? else {
        return Ok(Err(BaseRule::Text));
    };
    let Some(due) = due_of(column(row, 2)) else {
        return Ok(Err(BaseRule::Value));
    };
    let Some(renewals) = renewals_of(column(row, 3)) else {
        return Ok(Err(BaseRule::Value));
    };
    Ok(Ok(LoanRow {
        item,
        loan: Loan {
            patron,
            due,
            renewals,
        },
    }))
}
