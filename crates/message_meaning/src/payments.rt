//! Payments (message 37).

ghost use Rattle.std.specs.Prelude.{◌≡◌, ◌≤◌, ◌<◌, ◌-◌, ◌+◌, [], not, IfOk, Some, true, false};
ghost use Rattle.read_set.specs.Payments.{pay_rule_each, named, meant_at, payment_rule, fee_paid_rule_known, fee_paid_rule, paid_reason, part_of, part_paid, pay_one, only_known, payment_answer, all_paid};
ghost use Rattle.read_set.specs.Asks.{follow, Gains};
ghost use Rattle.read_set.specs.Effects.{unwritten};
ghost use Rattle.read_set.specs.Ids.{same, is_any, without_all};
ghost use Rattle.read_set.specs.Maps.{Map, Agrees};
ghost use Rattle.read_set.specs.Stops.{Follows};
ghost use Rattle.read_set.specs.WholeMap.{fee_paid};

use circ_policy::Policy;
use circ_records::{Fee, Ids, Key, Patron, Record, Shared};
use loan_meaning::{fee_of, has_id, patron_of, read_after, without_all};
use read_set::{Draft, Effect, Member, Payments, Source, Stop, known_fee};
use sip_answer::{Answer, FeePaidAnswer, Reason};
use sip_reader::{Amount, FeePaid, Id, Stamp};
use std::alloc::{AllocError, Global};

fn rest(fee: &Fee) -> u64
    ensures { result ≡ fee.now.amount - fee.now.paid }
{
    fee.amount
        .hundredths()
        .saturating_sub(fee.paid.hundredths())
}

/// What is paid of a fee from what is left of the money.
fn part(left: u64, fee: &Fee) -> u64
    ensures value { result ≡ part_of left fee.now }
    ensures money { result ≤ left }
    ensures rest { result ≤ fee.now.amount - fee.now.paid }
{
    left.min(rest(fee))
}

fn with_paid(fee: &Fee, part: u64) -> Result<Fee, AllocError>
    requires some { 0 < part }
    requires rest { part ≤ fee.now.amount - fee.now.paid }
    ensures { IfOk result (λ f. f ≡ record fee.now { paid = fee.now.paid + part }) }
{
    let left = rest(fee) - part;
    Ok(Fee {
        patron: fee.patron.clone()?,
        kind: fee.kind,
        amount: fee.amount,
        paid: less(fee.amount, left),
    })
}

/// An amount minus `left` hundredths.
fn less(amount: Amount, left: u64) -> Amount
    requires { left ≤ amount }
    ensures { result ≡ amount - left }
{
    Amount::new(amount.hundredths() - left).unwrap()
}

fn pay_part(
    alloc: Global,
    id: &Id,
    part: u64,
    fee: &Fee,
    mut done: Payments,
) -> Result<Payments, AllocError>
    requires money { part ≤ done.left }
    requires rest { part ≤ fee.now.amount - fee.now.paid }
    ensures { IfOk result (λ next. next ≡ part_paid id.now part fee.now done) }
{
    if part == 0 {
        return Ok(done);
    }
    done.left -= part;
    let written = Record::fee(alloc, with_paid(fee, part)?)?;
    done.writes.put(Key::Fee(id.clone()?), written)?;
    if part == rest(fee) {
        done.closed.push(alloc, id.clone()?)?;
    }
    Ok(done)
}

#[tactic(auto, unfolding(read_set::specs::Payments::pay_one))]
fn pay(
    alloc: Global,
    id: &Id,
    done: Payments,
    fee: Option<Shared<Fee>>,
) -> Result<Payments, AllocError>
    ensures { IfOk result (λ next. next ≡ pay_one id.now done fee) }
{
    match fee {
        Some(fee) => {
            let part = part(done.left, fee.get());
            pay_part(alloc, id, part, fee.get(), done)
        }
        None => Ok(done),
    }
}

/// The fee that is named, where it has a record; else all.
#[tactic(auto, using(read_set::proofs::Gaining::gains_none, read_set::proofs::Gaining::gains_first, read_set::proofs::Following::follow_wants))]
fn named_ids<S: Source>(alloc: Global, id: &Id, fees: &Ids, source: &mut S) -> Result<Ids, Stop>
    ensures gives { Follows result (follow (S.has source.new) (named true id.now fees.now)) }
    ensures keeps { Gains S.one_by_one (S.has source.old) (S.has source.new) (named true id.now fees.now) }
{
    let fee = fee_of(alloc, source, id)?;
    Ok(only(alloc, id, fees, fee)?)
}

fn only(alloc: Global, id: &Id, fees: &Ids, fee: Option<Shared<Fee>>) -> Result<Ids, AllocError>
    ensures { IfOk result (λ ids. ids ≡ only_known id.now fees.now fee) }
{
    match fee {
        Some(_) => Ids::one(alloc, id.clone()?),
        None => fees.copy(),
    }
}

/// The fees that are meant.
#[tactic(auto, unfolding(read_set::specs::Payments::meant_at), using(read_set::proofs::Gaining::gains_none, read_set::proofs::Gaining::gains_first))]
fn meant_ids<S: Source>(
    alloc: Global,
    fee: &Option<Id>,
    fees: &Ids,
    source: &mut S,
) -> Result<Ids, Stop>
    ensures gives { Follows result (follow (S.has source.new) (meant_at fee.now fees.now)) }
    ensures keeps { Gains S.one_by_one (S.has source.old) (S.has source.new) (meant_at fee.now fees.now) }
{
    match fee {
        Some(id) => {
            if has_id(fees.as_slice(), id) {
                named_ids(alloc, id, fees, source)
            } else {
                Ok(fees.copy()?)
            }
        }
        None => Ok(fees.copy()?),
    }
}

/// Pays the fees of a list, in order, while money is left.
#[tactic(auto, using(read_set::proofs::Gaining::gains_none, read_set::proofs::Gaining::gains_first))]
fn pay_all<S: Source>(
    alloc: Global,
    ids: &[Id],
    amount: u64,
    source: &mut S,
) -> Result<Payments, Stop>
    ensures gives { Follows result (follow (S.has source.new) (pay_rule_each ids.now (record { left = amount; writes = []; closed = [] }))) }
    ensures keeps { Gains S.one_by_one (S.has source.old) (S.has source.new) (pay_rule_each ids.now (record { left = amount; writes = []; closed = [] })) }
{
    let mut done = Payments {
        left: amount,
        writes: Draft::new(alloc),
        closed: Ids::new(),
    };
    for id in ids {
        if done.left == 0 {
            return Ok(done);
        }
        let found = read_after(alloc, source, &done.writes, &Key::Fee(id.clone()?))?;
        done = pay(alloc, id, done, known_fee(found))?;
    }
    Ok(done)
}

fn tell(
    policy: &Policy,
    request: &FeePaid,
    date: Stamp,
    reason: Reason,
) -> Result<Answer, AllocError>
    ensures { IfOk result (λ a. a ≡ payment_answer policy.now request.now date reason) }
{
    Ok(Answer::FeePaid(FeePaidAnswer {
        date,
        institution: policy.institution().clone()?,
        patron: request.patron.clone()?,
        accepted: reason.grants(),
        reason,
    }))
}

fn refuse(
    alloc: Global,
    policy: &Policy,
    request: &FeePaid,
    date: Stamp,
    reason: Reason,
) -> Result<Effect, AllocError>
    ensures { IfOk result (λ e. e ≡ unwritten (Some (payment_answer policy.now request.now date reason))) }
{
    let answer = tell(policy, request, date, reason)?;
    Ok(Effect::unwritten(alloc, Some(answer)))
}

fn close(alloc: Global, closed: &Ids, member: Member) -> Result<Patron, AllocError>
    ensures { IfOk result (λ p. p ≡ record member.patron { fees = without_all closed.now member.patron.fees }) }
{
    let mut patron = Patron::of(member.into_patron())?;
    patron.fees = without_all(alloc, &patron.fees, closed.as_slice())?;
    Ok(patron)
}

fn is_some_id(ids: &[Id]) -> bool
    ensures { result ≡ is_any ids.now }
{
    !ids.is_empty()
}

/// Whether any of the money was taken, by what is left of it.
fn reason_of_payment(request: &FeePaid, left: u64) -> Reason
    ensures { result ≡ paid_reason request.now left }
{
    if left == request.amount.hundredths() {
        Reason::NothingOwed
    } else {
        Reason::Paid
    }
}

#[tactic(auto, unfolding(read_set::specs::Payments::all_paid))]
fn finish(
    alloc: Global,
    policy: &Policy,
    request: &FeePaid,
    date: Stamp,
    member: Member,
    done: Payments,
) -> Result<Effect, AllocError>
    ensures { IfOk result (λ e. e ≡ all_paid policy.now request.now date member.patron done) }
{
    let reason = reason_of_payment(request, done.left);
    let Payments {
        left: _,
        mut writes,
        closed,
    } = done;
    if is_some_id(closed.as_slice()) {
        let patron = close(alloc, &closed, member)?;
        let key = Key::Patron(request.patron.clone()?);
        writes.put(key, Record::patron(alloc, patron)?)?;
    }
    Ok(Effect {
        writes: writes.finish(alloc)?,
        answer: Some(tell(policy, request, date, reason)?),
    })
}

#[tactic(auto, unfolding(read_set::specs::Payments::payment_rule), using(read_set::proofs::Gaining::gains_none, read_set::proofs::Gaining::gains_first, read_set::proofs::Following::follow_wants))]
fn pay_fees<S: Source>(
    alloc: Global,
    policy: &Policy,
    request: &FeePaid,
    date: Stamp,
    member: Member,
    source: &mut S,
) -> Result<Effect, Stop>
    ensures gives { Follows result (follow (S.has source.new) (payment_rule policy.now request.now date member.patron)) }
    ensures keeps { Gains S.one_by_one (S.has source.old) (S.has source.new) (payment_rule policy.now request.now date member.patron) }
{
    let ids = meant_ids(alloc, &request.fee, &member.patron.get().fees, source)?;
    let done = pay_all(alloc, ids.as_slice(), request.amount.hundredths(), source)?;
    Ok(finish(alloc, policy, request, date, member, done)?)
}

fn is_other_currency(a: [u8; 3], b: [u8; 3]) -> bool
    ensures { result ≡ not (same a b) }
{
    a.as_slice().cmp(b.as_slice()).is_ne()
}

#[tactic(auto, using(read_set::proofs::Gaining::gains_none, read_set::proofs::Gaining::gains_first))]
fn pay_known<S: Source>(
    alloc: Global,
    policy: &Policy,
    request: &FeePaid,
    date: Stamp,
    member: Option<Member>,
    source: &mut S,
) -> Result<Effect, Stop>
    ensures gives { Follows result (follow (S.has source.new) (fee_paid_rule_known policy.now request.now date member)) }
    ensures keeps { Gains S.one_by_one (S.has source.old) (S.has source.new) (fee_paid_rule_known policy.now request.now date member) }
{
    let Some(member) = member else {
        let why = Reason::UnknownPatron;
        return Ok(refuse(alloc, policy, request, date, why)?);
    };
    if is_other_currency(request.currency, policy.currency()) {
        let why = Reason::Currency;
        return Ok(refuse(alloc, policy, request, date, why)?);
    }
    if request.amount.hundredths() == 0 {
        let why = Reason::NoAmount;
        return Ok(refuse(alloc, policy, request, date, why)?);
    }
    pay_fees(alloc, policy, request, date, member, source)
}

/// A payment (message 37).
#[tactic(auto, unfolding(read_set::specs::Payments::fee_paid_rule), using(read_set::proofs::Gaining::gains_none, read_set::proofs::Gaining::gains_first, read_set::proofs::Following::follow_wants))]
pub fn take_payment<S: Source>(
    alloc: Global,
    policy: &Policy,
    request: &FeePaid,
    date: Stamp,
    source: &mut S,
) -> Result<Effect, Stop>
    ensures gives { Follows result (follow (S.has source.new) (fee_paid_rule policy.now request.now date)) }
    ensures means { IfOk result (λ e. (M : Map) → Agrees (S.has source.new) M → e ≡ fee_paid policy.now request.now date M) }
    ensures keeps { Gains S.one_by_one (S.has source.old) (S.has source.new) (fee_paid_rule policy.now request.now date) }
{
    let member = patron_of(alloc, policy, source, &request.patron)?;
    pay_known(alloc, policy, request, date, member, source)
}
