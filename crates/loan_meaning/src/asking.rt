//! The loan or the renewal for which a request asks, and what the item's record says.

ghost use Rattle.std.specs.Prelude.{◌≡◌, IfOk};
ghost use Rattle.read_set.specs.AsRecorded.{as_told};
ghost use Rattle.read_set.specs.Loans.{by_checkout, by_renew, charge_for, due_for, is_lent, lent_to};

use crate::asked::LoanContext;
use crate::fees::nothing;
use circ_policy::Media;
use circ_records::Loan;
use read_set::LoanRequest;
use sip_answer::ToldLoan;
use sip_reader::{Amount, Checkout, Day, Id, Renew};
use std::alloc::AllocError;

/// The loan or the renewal for which a checkout asks: forced where no block or BI is Y; with BI Y no rental is charged.
pub fn ask_checkout(request: &Checkout) -> Result<LoanRequest, AllocError>
    ensures { IfOk result (λ a. a ≡ by_checkout request.now) }
{
    Ok(LoanRequest {
        patron: request.patron.clone()?,
        item: request.item.clone()?,
        third_party: false,
        forced: request.no_block || request.cancel,
        given: request.due,
        agreed: request.agreed,
        price: if request.cancel {
            Some(nothing())
        } else {
            None
        },
        checkout: true,
    })
}

/// The renewal for which a renewal message asks: forced where no block is Y, and never free of a rental.
pub fn ask_renew(request: &Renew) -> Result<LoanRequest, AllocError>
    ensures { IfOk result (λ a. a ≡ by_renew request.now) }
{
    Ok(LoanRequest {
        patron: request.patron.clone()?,
        item: request.item.clone()?,
        third_party: request.third_party,
        forced: request.no_block,
        given: request.due,
        agreed: request.agreed,
        price: None,
        checkout: false,
    })
}

/// The due day of the loan or renewal.
#[tactic(auto, unfolding(read_set::specs::Loans::due_for))]
pub fn due_of(asked: &LoanContext<'_>, media: &Media) -> Day
    ensures { result ≡ due_for asked.now.policy.now asked.now.request asked.now.date media.now }
{
    let a = &asked.request;
    let due = asked.policy.due(asked.date.day(), media);
    match a.given {
        Some(given) => { if a.forced { given } else { due } }
        None => due,
    }
}

/// What is charged: the price that the request names, else the media type's rental.
pub fn charge_of(asked: &LoanContext<'_>, media: &Media) -> Amount
    ensures { result ≡ charge_for asked.now.request media.now }
{
    asked.request.price.unwrap_or(media.rental)
}

/// The loan or the renewal as a response says it was made: it isn't refused, and has the day and
/// the fee that the response names.
pub fn as_told(asked: LoanRequest, told: &ToldLoan) -> LoanRequest
    ensures { result ≡ as_told asked told.now }
{
    let given = if asked.forced { asked.given } else { None };
    let price = if asked.agreed {
        asked.price
    } else {
        Some(nothing())
    };
    let mut asked = asked;
    asked.forced = true;
    asked.given = told.due.or(given);
    asked.price = told.fee.or(price);
    asked
}

/// Whether there is a loan.
pub fn has_loan(loan: &Option<Loan>) -> bool
    ensures { result ≡ is_lent loan.now }
{
    loan.is_some()
}

/// Whether there is a loan of this patron.
pub fn has_lent_to(patron: &Id, loan: &Option<Loan>) -> bool
    ensures { result ≡ lent_to patron.now loan.now }
{
    match loan {
        Some(loan) => loan.patron == *patron,
        None => false,
    }
}
