//! What a recorded response says was done, and whether an answer agrees with that.

ghost use Rattle.std.specs.Prelude.{◌≡◌, ◌≤◌, Some, IfOk, IfSome, is_some};
ghost use Rattle.std.specs.Option.{option_and_then, option_map};
ghost use Rattle.sip_reader.specs.Days.{IsDay};
ghost use Rattle.sip_reader.specs.declared.amount.TheConstants.{AMOUNT_MAX};
ghost use Rattle.sip_answer.specs.Deeds.{FitsDeed, agrees, checkin_deed, is_told_day, is_us, loan_agrees, loan_deed, deed_by, deed_in, renew_all_deed, told_day};
ghost use Rattle.sip_answer.specs.Responses.{checkin_in, loan_in, renew_all_in};

use crate::answer::{Answer, LoanAnswer};
use crate::comparing::{are_items, is_same_fee};
use crate::deed::{Deed, ToldLoan};
use crate::recorded::{
    RESEND, read_checkin, read_fee_paid, read_hold, read_item_status, read_loan, read_renew_all,
    response_to, response_with,
};
use crate::response::{CheckinResponse, LoanResponse, RenewAllResponse};
use circ_policy::DueForm;
use sip_reader::{Act, Amount, Day, Kind};
use std::alloc::{AllocError, Global};

/// Gives what the recorded response to an act says was done, or None if it says nothing of it;
/// `form` is the policy's form of due dates. The response may have error detection, whose sum isn't
/// looked at, and any number of CR and LF after it. The error is that memory ran out.
pub fn deed_of(
    alloc: Global,
    form: DueForm,
    act: &Act,
    recorded: &[u8],
) -> Result<Option<Deed>, AllocError>
    ensures value { IfOk result (λ o. o ≡ deed_in form act.now recorded.now) }
    ensures fits { IfOk result (λ o. IfSome o FitsDeed) }
{
    let deed = read_deed(alloc, form, act, recorded)?;
    keeps_its_form(&deed);
    Ok(deed)
}

#[tactic(auto, unfolding(crate::specs::Deeds::deed_in))]
fn read_deed(
    alloc: Global,
    form: DueForm,
    act: &Act,
    recorded: &[u8],
) -> Result<Option<Deed>, AllocError>
    ensures { IfOk result (λ o. o ≡ deed_in form act.now recorded.now) }
{
    if response_with(RESEND, recorded).is_ok() {
        return Ok(Some(Deed::NotTaken));
    }
    let kind = act.kind();
    match response_with(response_to(kind), recorded) {
        Ok(response) => deed_by(alloc, form, kind, response),
        Err(_) => Ok(None),
    }
}

/// Of a response to a request of a kind, without line end and error detection.
fn deed_by(
    alloc: Global,
    form: DueForm,
    kind: Kind,
    response: &[u8],
) -> Result<Option<Deed>, AllocError>
    ensures { IfOk result (λ o. o ≡ deed_by form kind response.now) }
{
    let deed = match kind {
        Kind::BlockPatron => None,
        Kind::Checkin => checkin_deed(read_checkin(response)),
        Kind::Checkout => loan_deed(form, read_loan(response)),
        Kind::Hold => read_hold(response).map(|read| Deed::Said(read.ok)),
        Kind::ItemStatus => said(read_item_status(response)),
        Kind::PatronEnable => None,
        Kind::Renew => loan_deed(form, read_loan(response)),
        Kind::FeePaid => said(read_fee_paid(response)),
        Kind::RenewAll => renew_all_deed(read_renew_all(alloc, response)?),
    };
    Ok(deed)
}

fn said(read: Option<bool>) -> Option<Deed>
    ensures { result ≡ option_map Deed.Said read }
{
    Some(Deed::Said(read?))
}

#[tactic(auto, unfolding(crate::specs::Deeds::checkin_deed))]
fn checkin_deed(read: Option<CheckinResponse>) -> Option<Deed>
    ensures { result ≡ option_and_then checkin_deed read }
{
    let read = read?;
    if read.placed {
        return None;
    }
    Some(Deed::Said(read.ok))
}

#[tactic(auto, unfolding(crate::specs::Deeds::loan_deed))]
fn loan_deed(form: DueForm, read: Option<LoanResponse>) -> Option<Deed>
    ensures { result ≡ option_map (loan_deed form) read }
{
    let read = read?;
    if !read.ok {
        return Some(Deed::Refused);
    }
    Some(Deed::Lent(ToldLoan {
        due: told_day(form, &read),
        fee: read.fee,
        renewal: read.renewal,
    }))
}

/// The due day, unless it may have its day before its month.
#[tactic(auto, unfolding(crate::specs::Deeds::told_day))]
fn told_day(form: DueForm, read: &LoanResponse) -> Option<Day>
    ensures { result ≡ told_day form read.now }
{
    if read.slashed && !is_us(form) {
        return None;
    }
    read.due
}

fn is_us(form: DueForm) -> bool
    ensures { result ≡ is_us form }
{
    match form {
        DueForm::Us => true,
        DueForm::Sip => false,
        DueForm::Iso => false,
    }
}

#[tactic(auto, unfolding(crate::specs::Deeds::renew_all_deed))]
fn renew_all_deed(read: Option<RenewAllResponse>) -> Option<Deed>
    ensures { result ≡ option_and_then renew_all_deed read }
{
    let read = read?;
    if read.ok && read.renewed_items.len() < read.renewed {
        return None;
    }
    Some(Deed::Renewed(read.into_renewed()))
}

fn keeps_its_form(deed: &Option<Deed>)
    ensures { IfSome deed.now FitsDeed }
{
    if let Some(Deed::Lent(told)) = deed {
        due_is_real(told.due);
        fee_is_amount(told.fee);
    }
}

#[tactic(auto, using(crate::proofs::Calendar::real_day))]
fn due_is_real(due: Option<Day>)
    ensures { IfSome due IsDay }
{
    if let Some(day) = due {
        let _parts = day.parts();
    }
}

fn fee_is_amount(fee: Option<Amount>)
    ensures { IfSome fee (λ f. f ≤ AMOUNT_MAX) }
{
    if let Some(amount) = fee {
        let _hundredths = amount.hundredths();
    }
}

/// True exactly if an answer has all that a deed says: the same yes, the same refusal, a loan with
/// the day and the rental that it names, or the same items renewed. With a message that wasn't
/// taken none agrees. The error is that memory ran out.
pub fn agrees(alloc: Global, answer: &Answer, deed: &Deed) -> Result<bool, AllocError>
    ensures { IfOk result (λ r. r ≡ agrees answer.now deed.now) }
{
    match (answer, deed) {
        (Answer::Checkin(a), Deed::Said(yes)) => Ok(a.known.is_some() == *yes),
        (Answer::Checkout(a), _) => Ok(loan_agrees(a, deed)),
        (Answer::Hold(a), Deed::Said(yes)) => Ok(a.ok == *yes),
        (Answer::ItemStatus(a), Deed::Said(yes)) => Ok(a.known.is_some() == *yes),
        (Answer::Renew(a), _) => Ok(loan_agrees(a, deed)),
        (Answer::FeePaid(a), Deed::Said(yes)) => Ok(a.accepted == *yes),
        (Answer::RenewAll(a), Deed::Renewed(items)) => {
            are_items(alloc, a.renewed.as_slice(), items)
        }
        _ => Ok(false),
    }
}

fn loan_agrees(answer: &LoanAnswer, deed: &Deed) -> bool
    ensures { result ≡ loan_agrees answer.now deed.now }
{
    match deed {
        Deed::Refused => answer.due.is_none(),
        Deed::Lent(told) => {
            is_told_day(answer.due, told.due) && is_same_fee(answer.rental, told.fee)
        }
        _ => false,
    }
}

/// Whether there is a due day, and that one if one is named.
fn is_told_day(due: Option<Day>, told: Option<Day>) -> bool
    ensures { result ≡ is_told_day due told }
{
    match (due, told) {
        (Some(day), Some(told)) => day.number() == told.number(),
        (Some(_), None) => true,
        (None, _) => false,
    }
}
