//! Renewal.

ghost use Rattle.std.specs.Prelude.{◌≡◌, ◌∷◌, [], if◌then◌else◌, nat_lt, IfOk, OnOk, Some};
ghost use Rattle.circ_records.specs.declared.key.Key.TheVariants as keys;
ghost use Rattle.circ_records.specs.declared.record.FeeType.TheVariants as fee_types;
ghost use Rattle.circ_records.specs.declared.record.Record.TheVariants as records;
ghost use Rattle.read_set.specs.Renewals.{renewal_tests, renewal_rule, renew_rule_known, renew_rule, one_more, renewed_loan, renewed, renewal_made, renewal_by};
ghost use Rattle.loan_meaning.specs.Devices.Sums.{IsKnown};
ghost use Rattle.read_set.specs.Asks.{follow, Done, Gains};
ghost use Rattle.read_set.specs.Effects.{◌⊕◌};
ghost use Rattle.read_set.specs.Fees.{fee_made};
ghost use Rattle.read_set.specs.Maps.{Map, Agrees};
ghost use Rattle.read_set.specs.Stops.{Follows};
ghost use Rattle.read_set.specs.Tests.{first_of};
ghost use Rattle.read_set.specs.Rules.{early_renewal};
ghost use Rattle.read_set.specs.Loans.{not_own, may_renew, renewals_of};
ghost use Rattle.read_set.specs.WholeMap.{renew};

use crate::asked::LoanContext;
use crate::asking::{ask_renew, charge_of, due_of};
use crate::fees::{Charge, list_fee, make_fee, test_owing};
use crate::lists::has_queue;
use crate::lookup::{item_of, patron_of};
use crate::telling::{refuse, tell};
use circ_policy::Policy;
use circ_records::{FeeType, Item, Key, Loan, Patron, Record};
use read_set::{Article, Draft, Effect, LoanRequest, Member, Source, Stop, Verdict};
use sip_answer::Reason;
use sip_reader::{Amount, Day, Renew, Stamp};
use std::alloc::{AllocError, Global};

/// Whether this request may renew a loan.
pub fn is_renewable(a: &LoanRequest, loan: &Option<Loan>) -> bool
    ensures { result ≡ may_renew a.now loan.now }
{
    match loan {
        Some(loan) => loan.patron == a.patron || a.third_party,
        None => false,
    }
}

/// How often a loan was renewed; 0 where there is none.
fn renewals_of(loan: &Option<Loan>) -> u32
    ensures { result ≡ renewals_of loan.now }
{
    match loan {
        Some(loan) => loan.renewals,
        None => 0,
    }
}

/// Why a loan isn't the patron's to renew: there is none, or it is another's.
fn not_own(loan: &Option<Loan>) -> Reason
    ensures { result ≡ not_own loan.now }
{
    match loan {
        Some(_) => Reason::ThirdParty,
        None => Reason::NotLent,
    }
}

/// The tests of a renewal before what is owed.
#[tactic(auto, unfolding(read_set::specs::Rules::early_renewal))]
fn early_renewal(a: &LoanRequest, member: &Member, article: &Article) -> Option<Verdict>
    ensures { result ≡ first_of (early_renewal a.now member.now article.now) }
{
    let item = article.item.get();
    if !is_renewable(a, &item.loan) {
        return Some(Verdict::Refused(not_own(&item.loan)));
    }
    if a.forced {
        return Some(Verdict::Made);
    }
    if member.patron.get().blocked {
        return Some(Verdict::Refused(Reason::Blocked));
    }
    if has_queue(item.holds.as_slice()) {
        return Some(Verdict::Refused(Reason::WaitedFor));
    }
    if member.class.max_renewals <= renewals_of(&item.loan) {
        return Some(Verdict::Refused(Reason::MaxRenewals));
    }
    None
}

/// The tests of a renewal, after the writes so far. `sum` is what is known of the sum that is owed.
#[tactic(auto, unfolding(read_set::specs::Renewals::renewal_tests), using(read_set::proofs::Gaining::gains_none, read_set::proofs::Gaining::gains_first))]
pub fn test_renewal<S: Source>(
    asked: &LoanContext<'_>,
    writes: &Draft,
    member: &Member,
    article: &Article,
    sum: &mut Option<u128>,
    source: &mut S,
) -> Result<Verdict, Stop>
    requires { IsKnown (S.has source.old) writes.now member.now.patron.fees sum.old }
    ensures gives { Follows result (follow (S.has source.new) (renewal_tests writes.now asked.now.request member.now article.now)) }
    ensures keeps { Gains S.one_by_one (S.has source.old) (S.has source.new) (renewal_tests writes.now asked.now.request member.now article.now) }
    ensures known { OnOk result (IsKnown (S.has source.new) writes.now member.now.patron.fees sum.new) }
{
    if let Some(verdict) = early_renewal(&asked.request, member, article) {
        return Ok(verdict);
    }
    test_owing(asked, writes, member, article, sum, source)
}

fn one_more(renewals: u32) -> u32
    ensures { result ≡ one_more renewals }
{
    renewals.saturating_add(1)
}

fn renew_loan(due: Day, loan: Option<Loan>) -> Option<Loan>
    ensures { result ≡ renewed_loan due loan }
{
    match loan {
        Some(loan) => {
            let renewals = one_more(loan.renewals);
            Some(loan.with_due(due, renewals))
        }
        None => None,
    }
}

/// The item with its loan renewed.
pub fn renew_loan_of(alloc: Global, due: Day, article: Article) -> Result<Item, AllocError>
    ensures { IfOk result (λ i. i ≡ renewed due article.item) }
{
    let mut item = Item::of(alloc, article.into_item())?;
    item.loan = renew_loan(due, item.loan.take());
    Ok(item)
}

#[tactic(auto, unfolding(read_set::specs::Renewals::renewal_made))]
fn make_renewal(asked: &LoanContext<'_>, member: Member, article: Article) -> Result<Effect, Stop>
    ensures { Follows result (Done (renewal_made asked.now.policy.now asked.now.number asked.now.request asked.now.date member article)) }
{
    let media = &article.media;
    let due = due_of(asked, media);
    let charge = charge_of(asked, media);
    let answer = tell(
        asked,
        Some(&article),
        Some(due),
        true,
        charge,
        Reason::Renewed,
    )?;
    let mut patron = member.patron.get().clone()?;
    list_fee(asked.alloc, asked.number, 0, charge, &mut patron.fees)?;
    let writes = write_renewal(asked, due, charge, patron, article)?;
    Ok(Effect {
        writes: writes.finish(asked.alloc)?,
        answer: Some(answer),
    })
}

/// The patron is written first, where a rental is charged, and its fee last.
fn write_renewal(
    asked: &LoanContext<'_>,
    due: Day,
    charge: Amount,
    patron: Patron,
    article: Article,
) -> Result<Draft, AllocError>
    ensures { IfOk result (λ w. w ≡ [] ⊕ (if nat_lt 0 charge then (keys.Patron asked.now.request.patron, records.Patron patron) ∷ [] else []) ⊕ ((keys.Item asked.now.request.item, records.Item (renewed due article.item)) ∷ []) ⊕ fee_made asked.now.number 0 asked.now.request.patron fee_types.Rental charge) }
{
    let alloc = asked.alloc;
    let a = &asked.request;
    let item = renew_loan_of(alloc, due, article)?;
    let is_charged = charge.hundredths() > 0;
    let mut writes = Draft::with_room(alloc, if is_charged { 3 } else { 2 })?;
    if is_charged {
        writes.put(
            Key::Patron(a.patron.clone()?),
            Record::patron(alloc, patron)?,
        )?;
    }
    writes.put(Key::Item(a.item.clone()?), Record::item(alloc, item)?)?;
    let rental = Charge {
        patron: &a.patron,
        kind: FeeType::Rental,
        amount: charge,
    };
    make_fee(alloc, asked.number, 0, &rental, &mut writes)?;
    Ok(writes)
}

fn renew_by(
    asked: &LoanContext<'_>,
    member: Member,
    article: Article,
    verdict: Verdict,
) -> Result<Effect, Stop>
    ensures { Follows result (Done (renewal_by asked.now.policy.now asked.now.number asked.now.request asked.now.date member article verdict)) }
{
    match verdict {
        Verdict::Refused(why) => refuse(asked, Some(article), why),
        Verdict::Made => make_renewal(asked, member, article),
    }
}

/// A renewal of a known item by a known patron.
#[tactic(auto, unfolding(read_set::specs::Renewals::renewal_rule), using(read_set::proofs::Gaining::gains_none, read_set::proofs::Gaining::gains_first, read_set::proofs::Following::follow_wants))]
pub fn renew_one<S: Source>(
    asked: &LoanContext<'_>,
    member: Member,
    article: Article,
    source: &mut S,
) -> Result<Effect, Stop>
    ensures gives { Follows result (follow (S.has source.new) (renewal_rule asked.now.policy.now asked.now.number asked.now.request asked.now.date member article)) }
    ensures keeps { Gains S.one_by_one (S.has source.old) (S.has source.new) (renewal_rule asked.now.policy.now asked.now.number asked.now.request asked.now.date member article) }
{
    let writes = Draft::new(asked.alloc);
    let verdict = test_renewal(asked, &writes, &member, &article, &mut None, source)?;
    renew_by(asked, member, article, verdict)
}

#[tactic(auto, using(read_set::proofs::Gaining::gains_none, read_set::proofs::Gaining::gains_first))]
fn renew_both<S: Source>(
    asked: &LoanContext<'_>,
    member: Option<Member>,
    article: Option<Article>,
    source: &mut S,
) -> Result<Effect, Stop>
    ensures gives { Follows result (follow (S.has source.new) (renew_rule_known asked.now.policy.now asked.now.number asked.now.request asked.now.date member article)) }
    ensures keeps { Gains S.one_by_one (S.has source.old) (S.has source.new) (renew_rule_known asked.now.policy.now asked.now.number asked.now.request asked.now.date member article) }
{
    let Some(member) = member else {
        return refuse(asked, article, Reason::UnknownPatron);
    };
    let Some(article) = article else {
        return refuse(asked, None, Reason::UnknownItem);
    };
    renew_one(asked, member, article, source)
}

/// A renewal (message 29) on line n.
#[tactic(auto, unfolding(read_set::specs::Renewals::renew_rule), using(read_set::proofs::Gaining::gains_none, read_set::proofs::Gaining::gains_first, read_set::proofs::Following::follow_wants))]
pub fn renew_item<S: Source>(
    alloc: Global,
    policy: &Policy,
    n: u64,
    request: &Renew,
    date: Stamp,
    source: &mut S,
) -> Result<Effect, Stop>
    ensures gives { Follows result (follow (S.has source.new) (renew_rule policy.now n request.now date)) }
    ensures means { IfOk result (λ e. (M : Map) → Agrees (S.has source.new) M → e ≡ renew policy.now n request.now date M) }
    ensures keeps { Gains S.one_by_one (S.has source.old) (S.has source.new) (renew_rule policy.now n request.now date) }
{
    let asked = LoanContext {
        alloc,
        policy,
        number: n,
        date,
        request: ask_renew(request)?,
    };
    let member = patron_of(alloc, policy, source, &request.patron)?;
    let article = item_of(alloc, policy, source, &request.item)?;
    renew_both(&asked, member, article, source)
}
