//! Records changed in place: by a row of a later table (loans, fees, holds), or by one more fee.

ghost use Rattle.std.specs.Prelude.{◌≡◌, ◌++◌, ◌∷◌, [], OnOk, OnErr, IfOk, Some, None, is_some};
ghost use Rattle.circ_records.specs.Changes.{broken_by, broken_hold, changed};
ghost use Rattle.circ_records.specs.Coherent.{is_loan_of};
ghost use Rattle.circ_records.specs.declared.changes.ListChange.TheVariants as change;

use crate::holds::{Hold, QUEUE_MAX};
use crate::record::{Item, Loan, Patron, Record};
use crate::rule::BaseRule;
use crate::shared::Shared;
use sip_reader::Id;
use std::alloc::{AllocError, Global};

/// What a row of loans, fees or holds changes in a record.
#[derive(Drop)]
pub enum ListChange {
    /// The item is appended to the patron's loans.
    Borrows(Id),
    /// The fee is appended to the patron's open fees.
    Owes(Id),
    /// The item is on loan.
    Lent(Loan),
    /// The hold is appended to the item's queue.
    Awaited(Hold),
}

impl ListChange {
    /// The rule that it breaks where there is no such record.
    pub(crate) fn lacks(&self) -> BaseRule
        ensures { Some result ≡ broken_by self.now None }
    {
        match self {
            ListChange::Borrows(_) | ListChange::Owes(_) => BaseRule::Patron,
            ListChange::Lent(_) | ListChange::Awaited(_) => BaseRule::Item,
        }
    }
}

/// Changes a record, or returns the rule that the change breaks there. Out of memory, nothing
/// changes.
pub(crate) fn apply(
    alloc: Global,
    target: &mut Record,
    what: ListChange,
) -> Result<Option<BaseRule>, AllocError>
    ensures rule { IfOk result (λ broken. broken ≡ broken_by what (Some target.old)) }
    ensures ok { IfOk result (λ broken. broken ≡ None → target.new ≡ changed what target.old) }
    ensures err { OnErr result (target.new ≡ target.old) }
{
    match (target, what) {
        (Record::Patron(patron), ListChange::Borrows(item)) => {
            patron.make_mut()?.loans.push(alloc, item)?;
        }
        (Record::Patron(patron), ListChange::Owes(fee)) => put_fee(alloc, patron, fee)?,
        (Record::Item(item), ListChange::Lent(loan)) => {
            if item.get().loan.is_some() {
                return Ok(Some(BaseRule::Lent));
            }
            item.make_mut()?.loan = Some(loan);
        }
        (Record::Item(item), ListChange::Awaited(hold)) => {
            if let Some(rule) = rule_of_hold(item, &hold.patron) {
                return Ok(Some(rule));
            }
            item.make_mut()?.holds.push(hold)?;
        }
        (_, what) => return Ok(Some(what.lacks())),
    }
    Ok(None)
}

/// The rule that a hold of a patron on an item breaks.
fn rule_of_hold(item: &Shared<Item>, patron: &Id) -> Option<BaseRule>
    ensures { result ≡ broken_hold patron.now item.now }
{
    let item = item.get();
    if is_loan_of(patron, &item.loan) {
        Some(BaseRule::Borrower)
    } else if item.holds.len() >= QUEUE_MAX {
        Some(BaseRule::Queue)
    } else {
        None
    }
}

/// Whether a loan is this patron's.
fn is_loan_of(patron: &Id, loan: &Option<Loan>) -> bool
    ensures { result ≡ is_loan_of patron.now loan.now }
{
    match loan {
        Some(loan) => *patron == loan.patron,
        None => false,
    }
}

/// Appends a fee to a patron's open fees, and changes nothing else of the patron. The patron is
/// changed in place if no copy shares it. Out of memory, nothing changes.
pub fn put_fee(alloc: Global, patron: &mut Shared<Patron>, fee: Id) -> Result<(), AllocError>
    ensures ok { OnOk result (patron.new
        ≡ record patron.old { fees = patron.old.fees ++ fee ∷ [] }) }
    ensures err { OnErr result (patron.new ≡ patron.old) }
{
    patron.make_mut()?.fees.push(alloc, fee)
}
