//! Checkin.

ghost use Rattle.std.specs.Prelude.{◌≡◌, IfOk, OnOk, Some, None};
ghost use Rattle.read_set.specs.Checkins.{checkin_rule, return_reason, returned_item, checkin_answer, day_back, lateness, returner, returned_by, returned_writes, returned, checked_in};
ghost use Rattle.read_set.specs.Lookups.{borrower_at};
ghost use Rattle.read_set.specs.Asks.{follow, Done, Gains};
ghost use Rattle.read_set.specs.Effects.{unwritten, written};
ghost use Rattle.read_set.specs.Maps.{Map, Agrees};
ghost use Rattle.read_set.specs.Stops.{Follows};
ghost use Rattle.read_set.specs.Loans.{loan_of};
ghost use Rattle.read_set.specs.WholeMap.{checkin};
ghost use Rattle.sip_answer.specs.declared.reason.Reason.TheVariants as reasons;

use crate::asked::LineContext;
use crate::fees::{Charge, list_fee, make_fee, nothing};
use crate::lists::{has_queue, without};
use crate::lookup::{borrower_of, item_of};
use circ_policy::{Media, Policy, late_fee};
use circ_records::{FeeType, Item, Key, Loan, Patron, Record};
use read_set::{Article, Draft, Effect, Member, Source, Stop};
use sip_answer::{Answer, CheckinAnswer, Reason, ReturnedItem};
use sip_reader::{Amount, Checkin, Day, Id, Stamp};
use std::alloc::{AllocError, Global};

fn tell_unknown(line: &LineContext<'_>, request: &Checkin) -> Result<Answer, AllocError>
    ensures { IfOk result (λ a. a ≡ checkin_answer line.now.policy.now request.now line.now.date None None reasons.UnknownItem) }
{
    Ok(Answer::Checkin(CheckinAnswer {
        date: line.date,
        institution: line.policy.institution().clone()?,
        item: request.item.clone()?,
        known: None,
        borrower: None,
        alert: false,
        reason: Reason::UnknownItem,
    }))
}

fn show(item: &Item) -> Result<ReturnedItem, AllocError>
    ensures { IfOk result (λ s. s ≡ returned_item item.now) }
{
    Ok(ReturnedItem {
        location: item.location.clone()?,
        title: item.title.clone()?,
        media: item.media,
        properties: item.properties.clone()?,
    })
}

/// Inlined where an effect is made, so that its answer is made in place and isn't moved.
#[inline(always)]
fn tell(
    line: &LineContext<'_>,
    request: &Checkin,
    article: &Article,
    borrower: Option<Id>,
    reason: Reason,
) -> Result<Answer, AllocError>
    ensures { IfOk result (λ a. a ≡ checkin_answer line.now.policy.now request.now line.now.date (Some article.now.item) borrower reason) }
{
    Ok(Answer::Checkin(CheckinAnswer {
        date: line.date,
        institution: line.policy.institution().clone()?,
        item: request.item.clone()?,
        known: Some(show(article.item.get())?),
        borrower,
        alert: has_queue(article.item.get().holds.as_slice()),
        reason,
    }))
}

fn back(request: &Checkin, date: Stamp) -> Day
    ensures { result ≡ day_back request.now date }
{
    match request.back {
        Some(day) => day,
        None => date.day(),
    }
}

fn lateness_of(request: &Checkin, date: Stamp, loan: &Loan, media: &Media) -> Amount
    ensures { result ≡ lateness request.now date loan.now media.now }
{
    if request.cancel {
        nothing()
    } else {
        late_fee(loan.due, back(request, date), media)
    }
}

fn return_from(
    alloc: Global,
    n: u64,
    item: &Id,
    fee: Amount,
    member: Member,
) -> Result<Patron, AllocError>
    ensures { IfOk result (λ p. p ≡ returner n item.now fee member.patron) }
{
    let mut patron = member.patron.get().clone()?;
    patron.loans = without(alloc, &patron.loans, item)?;
    list_fee(alloc, n, 0, fee, &mut patron.fees)?;
    Ok(patron)
}

/// The borrower's record without the loan and with its late fee, and that fee. Where memory runs out between the two, only the
/// record is written: no clause says so, since the caller then drops all that is written.
fn return_by(
    line: &LineContext<'_>,
    item: &Id,
    borrower: &Id,
    fee: Amount,
    member: Option<Member>,
    writes: &mut Draft,
) -> Result<(), AllocError>
    ensures { OnOk result (writes.new ≡ written writes.old (returned_by line.now.number item.now borrower.now fee member)) }
{
    let Some(member) = member else {
        return Ok(());
    };
    let patron = return_from(line.alloc, line.number, item, fee, member)?;
    writes.put(
        Key::Patron(borrower.clone()?),
        Record::patron(line.alloc, patron)?,
    )?;
    let charge = Charge {
        patron: borrower,
        kind: FeeType::Overdue,
        amount: fee,
    };
    make_fee(line.alloc, line.number, 0, &charge, writes)
}

fn unlent(alloc: Global, article: &Article) -> Result<Item, AllocError>
    ensures { IfOk result (λ i. i ≡ record article.now.item { loan = None }) }
{
    let item = article.item.get();
    item.with(None, item.holds.copy(alloc)?)
}

fn write_return(
    line: &LineContext<'_>,
    item: &Id,
    fee: Amount,
    article: &Article,
    member: Option<Member>,
    loan: &Loan,
) -> Result<Draft, AllocError>
    ensures { IfOk result (λ w. w ≡ returned_writes line.now.number item.now fee article.now member loan.now) }
{
    let mut writes = Draft::with_room(line.alloc, if fee.hundredths() > 0 { 3 } else { 2 })?;
    return_by(line, item, &loan.patron, fee, member, &mut writes)?;
    let back = unlent(line.alloc, article)?;
    writes.put(Key::Item(item.clone()?), Record::item(line.alloc, back)?)?;
    Ok(writes)
}

/// A borrower that counts as unknown isn't charged.
fn reason_of_return(borrower: &Option<Member>, fee: Amount) -> Reason
    ensures { result ≡ return_reason borrower.now fee }
{
    if borrower.is_some() && fee.hundredths() > 0 {
        Reason::ReturnedLate
    } else {
        Reason::Returned
    }
}

fn end_loan(
    line: &LineContext<'_>,
    request: &Checkin,
    article: &Article,
    loan: &Loan,
    member: Option<Member>,
) -> Result<Effect, Stop>
    ensures { Follows result (Done (returned line.now.policy.now line.now.number request.now line.now.date article.now member (Some loan.now))) }
{
    let fee = lateness_of(request, line.date, loan, &article.media);
    let reason = reason_of_return(&member, fee);
    let writes = write_return(line, &request.item, fee, article, member, loan)?;
    let writes = writes.finish(line.alloc)?;
    let borrower = loan.patron.clone()?;
    let answer = tell(line, request, article, Some(borrower), reason)?;
    Ok(Effect {
        writes,
        answer: Some(answer),
    })
}

/// An item that isn't on loan stays as it is. It is a function of its own: the memory of an answer is filled with zeros before it is known
/// whether there is one.
#[inline(never)]
fn end_unlent(line: &LineContext<'_>, request: &Checkin, article: &Article) -> Result<Effect, Stop>
    ensures { Follows result (Done (unwritten (Some (checkin_answer line.now.policy.now request.now line.now.date (Some article.now.item) None reasons.WasIn)))) }
{
    let answer = tell(line, request, article, None, Reason::WasIn)?;
    Ok(Effect::unwritten(line.alloc, Some(answer)))
}

/// An unknown item is refused. It is a function of its own for the same reason.
#[inline(never)]
fn end_unknown(line: &LineContext<'_>, request: &Checkin) -> Result<Effect, Stop>
    ensures { Follows result (Done (unwritten (Some (checkin_answer line.now.policy.now request.now line.now.date None None reasons.UnknownItem)))) }
{
    let answer = tell_unknown(line, request)?;
    Ok(Effect::unwritten(line.alloc, Some(answer)))
}

#[tactic(auto, unfolding(read_set::specs::Checkins::checked_in))]
fn end(
    line: &LineContext<'_>,
    request: &Checkin,
    article: Option<Article>,
    member: Option<Member>,
) -> Result<Effect, Stop>
    ensures { Follows result (Done (checked_in line.now.policy.now line.now.number request.now line.now.date article member)) }
{
    let Some(article) = article else {
        return end_unknown(line, request);
    };
    let Some(loan) = &article.item.get().loan else {
        return end_unlent(line, request, &article);
    };
    end_loan(line, request, &article, loan, member)
}

/// The patron who has the item, where both are known.
#[tactic(auto, unfolding(read_set::specs::Lookups::borrower_at), using(read_set::proofs::Gaining::gains_none))]
fn any_borrower_of<S: Source>(
    alloc: Global,
    policy: &Policy,
    source: &mut S,
    article: &Option<Article>,
) -> Result<Option<Member>, Stop>
    ensures gives { Follows result (follow (S.has source.new) (borrower_at policy.now (loan_of article.now))) }
    ensures keeps { Gains S.one_by_one (S.has source.old) (S.has source.new) (borrower_at policy.now (loan_of article.now)) }
{
    match article {
        Some(article) => borrower_of(alloc, policy, source, &article.item.get().loan),
        None => Ok(None),
    }
}

/// A checkin (message 09) on line n.
#[tactic(auto, unfolding(read_set::specs::Checkins::checkin_rule), using(read_set::proofs::Gaining::gains_none, read_set::proofs::Gaining::gains_first, read_set::proofs::Following::follow_wants))]
pub fn check_in<S: Source>(
    alloc: Global,
    policy: &Policy,
    n: u64,
    request: &Checkin,
    date: Stamp,
    source: &mut S,
) -> Result<Effect, Stop>
    ensures gives { Follows result (follow (S.has source.new) (checkin_rule policy.now n request.now date)) }
    ensures means { IfOk result (λ e. (M : Map) → Agrees (S.has source.new) M → e ≡ checkin policy.now n request.now date M) }
    ensures keeps { Gains S.one_by_one (S.has source.old) (S.has source.new) (checkin_rule policy.now n request.now date) }
{
    let article = item_of(alloc, policy, source, &request.item)?;
    let member = any_borrower_of(alloc, policy, source, &article)?;
    let line = LineContext {
        alloc,
        policy,
        number: n,
        date,
    };
    end(&line, request, article, member)
}
