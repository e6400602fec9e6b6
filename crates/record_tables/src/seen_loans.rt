//! The loans that rows have: of each item the patron of the first, where that is an id.

ghost use Rattle.std.specs.Prelude.{◌++◌, ◌∷◌, ◌≡◌, [], List, OnOk};
ghost use Rattle.csv.specs.Records.{fields_of};
ghost use Rattle.record_tables.specs.RowsBefore.{HasLoans};
ghost use Rattle.record_tables.specs.Rules as Rules;
ghost use Rattle.record_tables.specs.Tables.{Row};

use csv::ByteRecord;
use csv_table::column;
use sip_reader::Id;
use std::alloc::{AllocError, Global};
use std::collections::BTreeMap;

/// Whether a loan has this item.
pub(crate) fn is_lent(lent: &BTreeMap<Id, Option<Id>>, item: &Id) -> bool
    ensures { (loans : List Row) → HasLoans loans lent.now
        → result ≡ Rules.has_row 1 item.now loans }
{
    item.keeps_its_form();
    lent.contains_key(item)
}

/// Whether the first loan of an item is this patron's.
#[tactic(auto, unfolding(crate::specs::Rules::is_borrower))]
pub(crate) fn is_borrower(lent: &BTreeMap<Id, Option<Id>>, item: &Id, patron: &Id) -> bool
    ensures { (loans : List Row) → HasLoans loans lent.now
        → result ≡ Rules.is_borrower patron.now item.now loans }
{
    item.keeps_its_form();
    patron.keeps_its_form();
    match lent.get(item) {
        Some(Some(borrower)) => borrower == patron,
        _ => false,
    }
}

/// Adds one more row to the loans. Of an item that is lent already the first loan stays.
pub(crate) fn note_loan(
    alloc: Global,
    lent: &mut BTreeMap<Id, Option<Id>>,
    row: &ByteRecord,
) -> Result<(), AllocError>
    ensures { OnOk result ((before : List Row) → HasLoans before lent.old
        → HasLoans (before ++ fields_of row.now ∷ []) lent.new) }
{
    let Some(item) = Id::read(alloc, column(row, 1))? else {
        return Ok(());
    };
    if !lent.contains_key(&item) {
        let patron = Id::read(alloc, column(row, 0))?;
        lent.insert(item, patron)?;
    }
    Ok(())
}
