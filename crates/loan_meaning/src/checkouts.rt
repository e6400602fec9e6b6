//! Checkout.

ghost use Rattle.std.specs.Prelude.{◌≡◌, ◌∷◌, [], IfOk, Some, true};
ghost use Rattle.circ_records.specs.declared.key.Key.TheVariants as keys;
ghost use Rattle.circ_records.specs.declared.record.FeeType.TheVariants as fee_types;
ghost use Rattle.circ_records.specs.declared.record.Record.TheVariants as records;
ghost use Rattle.read_set.specs.Checkouts.{lending_tests, other_at, lending_rule, checkout_rule_known, checkout_rule, checkout_rule_for, loan_ended_by, lent, lending_made};
ghost use Rattle.read_set.specs.Asks.{follow, Done, Gains};
ghost use Rattle.read_set.specs.Effects.{◌⊕◌};
ghost use Rattle.read_set.specs.Fees.{fee_made};
ghost use Rattle.read_set.specs.Ids.{without};
ghost use Rattle.read_set.specs.AsRecorded.{as_told};
ghost use Rattle.read_set.specs.Loans.{by_checkout, by_renew};
ghost use Rattle.read_set.specs.Maps.{Map, Agrees};
ghost use Rattle.read_set.specs.Stops.{Follows};
ghost use Rattle.read_set.specs.Tests.{first_of};
ghost use Rattle.read_set.specs.Rules.{early_lending};
ghost use Rattle.read_set.specs.WholeMap.{checkout};

use crate::asked::{LineContext, LoanContext};
use crate::asking::{as_told, ask_checkout, ask_renew, charge_of, due_of, has_lent_to, has_loan};
use crate::fees::{Charge, list_fee, make_fee, test_owing};
use crate::lists::{is_first_another, without, without_hold};
use crate::lookup::{item_of, patron_of};
use crate::renewals::{is_renewable, renew_one};
use crate::telling::{refuse, tell};
use circ_policy::Policy;
use circ_records::{FeeType, Key, Loan, Patron, Record};
use read_set::{Article, Draft, Effect, LoanRequest, Member, Source, Stop, Verdict};
use sip_answer::{Reason, ToldLoan};
use sip_reader::{Amount, Checkout, Day, Id, Renew, Stamp};
use std::alloc::{AllocError, Global};

/// The tests of a loan before what is owed.
#[tactic(auto, unfolding(read_set::specs::Rules::early_lending))]
fn early_lending(a: &LoanRequest, member: &Member, article: &Article) -> Option<Verdict>
    ensures { result ≡ first_of (early_lending a.now member.now article.now) }
{
    if a.forced {
        return Some(Verdict::Made);
    }
    let item = article.item.get();
    if has_lent_to(&a.patron, &item.loan) {
        return Some(Verdict::Refused(Reason::OwnLoan));
    }
    if has_loan(&item.loan) {
        return Some(Verdict::Refused(Reason::Lent));
    }
    if is_first_another(item.holds.as_slice(), &a.patron) {
        return Some(Verdict::Refused(Reason::Queue));
    }
    let patron = member.patron.get();
    if patron.blocked {
        return Some(Verdict::Refused(Reason::Blocked));
    }
    if member.class.max_loans as usize <= patron.loans.len() {
        return Some(Verdict::Refused(Reason::MaxLoans));
    }
    None
}

#[tactic(auto, unfolding(read_set::specs::Checkouts::lending_tests), using(read_set::proofs::Gaining::gains_none, read_set::proofs::Gaining::gains_first))]
fn test_lending<S: Source>(
    asked: &LoanContext<'_>,
    member: &Member,
    article: &Article,
    source: &mut S,
) -> Result<Verdict, Stop>
    ensures gives { Follows result (follow (S.has source.new) (lending_tests asked.now.request member.now article.now)) }
    ensures keeps { Gains S.one_by_one (S.has source.old) (S.has source.new) (lending_tests asked.now.request member.now article.now) }
{
    if let Some(verdict) = early_lending(&asked.request, member, article) {
        return Ok(verdict);
    }
    let writes = Draft::new(asked.alloc);
    test_owing(asked, &writes, member, article, &mut None, source)
}

#[tactic(auto, using(read_set::proofs::Gaining::gains_none, read_set::proofs::Gaining::gains_first))]
fn other_of<S: Source>(
    asked: &LoanContext<'_>,
    loan: &Option<Loan>,
    source: &mut S,
) -> Result<Option<Member>, Stop>
    ensures gives { Follows result (follow (S.has source.new) (other_at asked.now.policy.now asked.now.request.patron loan.now)) }
    ensures keeps { Gains S.one_by_one (S.has source.old) (S.has source.new) (other_at asked.now.policy.now asked.now.request.patron loan.now) }
{
    let Some(loan) = loan else {
        return Ok(None);
    };
    if loan.patron == asked.request.patron {
        return Ok(None);
    }
    patron_of(asked.alloc, asked.policy, source, &loan.patron)
}

/// The other borrower, without the item among the loans. A function of its own also in the program, since few loans end another.
#[inline(never)]
fn without_loan(alloc: Global, item: &Id, other: Member) -> Result<Patron, AllocError>
    ensures { IfOk result (λ p. p ≡ record other.patron { loans = without item.now other.patron.loans }) }
{
    let mut patron = other.patron.get().clone()?;
    patron.loans = without(alloc, &patron.loans, item)?;
    Ok(patron)
}

/// The patron and the item are written after the other borrower, and the rental's fee last.
fn write_lending(
    asked: &LoanContext<'_>,
    due: Day,
    charge: Amount,
    patron: Patron,
    article: &Article,
    other: Option<Member>,
) -> Result<Draft, AllocError>
    ensures { IfOk result (λ w. w ≡ [] ⊕ loan_ended_by asked.now.request.item article.now.item.loan other ⊕ ((keys.Patron asked.now.request.patron, records.Patron patron) ∷ (keys.Item asked.now.request.item, records.Item (lent asked.now.request due article.now.item)) ∷ []) ⊕ fee_made asked.now.number 0 asked.now.request.patron fee_types.Rental charge) }
{
    let alloc = asked.alloc;
    let a = &asked.request;
    let item = article.item.get();
    let mut writes = Draft::with_room(alloc, if charge.hundredths() > 0 { 3 } else { 2 })?;
    if let (Some(loan), Some(other)) = (&item.loan, other) {
        let borrower = without_loan(alloc, &a.item, other)?;
        writes.put(
            Key::Patron(loan.patron.clone()?),
            Record::patron(alloc, borrower)?,
        )?;
    }
    writes.put(
        Key::Patron(a.patron.clone()?),
        Record::patron(alloc, patron)?,
    )?;
    let holds = without_hold(alloc, &item.holds, &a.patron)?;
    let loan = Loan {
        patron: a.patron.clone()?,
        due,
        renewals: 0,
    };
    let item = item.with(Some(loan), holds)?;
    writes.put(Key::Item(a.item.clone()?), Record::item(alloc, item)?)?;
    let rental = Charge {
        patron: &a.patron,
        kind: FeeType::Rental,
        amount: charge,
    };
    make_fee(alloc, asked.number, 0, &rental, &mut writes)?;
    Ok(writes)
}

/// Inlined, so that its effect isn't moved again.
#[inline(always)]
#[tactic(auto, unfolding(read_set::specs::Checkouts::lending_made))]
fn make_loan(
    asked: &LoanContext<'_>,
    member: Member,
    article: Article,
    other: Option<Member>,
) -> Result<Effect, Stop>
    ensures { Follows result (Done (lending_made asked.now.policy.now asked.now.number asked.now.request asked.now.date member article other)) }
{
    let alloc = asked.alloc;
    let (a, media) = (&asked.request, &article.media);
    let due = due_of(asked, media);
    let charge = charge_of(asked, media);
    let mut patron = member.patron.get().clone()?;
    // the item goes last in the patron's list, once
    if has_lent_to(&a.patron, &article.item.get().loan) {
        patron.loans = without(alloc, &patron.loans, &a.item)?;
    }
    patron.loans.push(alloc, a.item.clone()?)?;
    list_fee(alloc, asked.number, 0, charge, &mut patron.fees)?;
    let writes = write_lending(asked, due, charge, patron, &article, other)?;
    let writes = writes.finish(alloc)?;
    let answer = tell(
        asked,
        Some(&article),
        Some(due),
        false,
        charge,
        Reason::Made,
    )?;
    Ok(Effect {
        writes,
        answer: Some(answer),
    })
}

/// Where the loan is made, the record of the other patron whose loan ends is read first.
#[tactic(auto, unfolding(read_set::specs::Checkouts::lending_rule, read_set::specs::Checkouts::lending_of), using(read_set::proofs::Gaining::gains_none, read_set::proofs::Gaining::gains_first, read_set::proofs::Following::follow_wants))]
fn lend<S: Source>(
    asked: &LoanContext<'_>,
    member: Member,
    article: Article,
    source: &mut S,
) -> Result<Effect, Stop>
    ensures gives { Follows result (follow (S.has source.new) (lending_rule asked.now.policy.now asked.now.number asked.now.request asked.now.date member article)) }
    ensures keeps { Gains S.one_by_one (S.has source.old) (S.has source.new) (lending_rule asked.now.policy.now asked.now.number asked.now.request asked.now.date member article) }
{
    let verdict = test_lending(asked, &member, &article, source)?;
    // returned at once: what is done by one of several branches would move once more after them, and is large
    match verdict {
        Verdict::Refused(why) => return refuse(asked, Some(article), why),
        Verdict::Made => {}
    }
    let other = other_of(asked, &article.item.get().loan, source)?;
    make_loan(asked, member, article, other)
}

#[tactic(auto, using(read_set::proofs::Gaining::gains_none, read_set::proofs::Gaining::gains_first))]
fn lend_both<S: Source>(
    asked: &LoanContext<'_>,
    renewal: bool,
    member: Option<Member>,
    article: Option<Article>,
    source: &mut S,
) -> Result<Effect, Stop>
    ensures gives { Follows result (follow (S.has source.new) (checkout_rule_known asked.now.policy.now asked.now.number renewal asked.now.request asked.now.date member article)) }
    ensures keeps { Gains S.one_by_one (S.has source.old) (S.has source.new) (checkout_rule_known asked.now.policy.now asked.now.number renewal asked.now.request asked.now.date member article) }
{
    let Some(member) = member else {
        return refuse(asked, article, Reason::UnknownPatron);
    };
    let Some(article) = article else {
        return refuse(asked, None, Reason::UnknownItem);
    };
    if renewal && is_renewable(&asked.request, &article.item.get().loan) {
        return renew_one(asked, member, article, source);
    }
    lend(asked, member, article, source)
}

/// A loan that is asked for; `renewal` says whether one that the patron may renew is renewed.
#[tactic(auto, unfolding(read_set::specs::Checkouts::checkout_rule_for), using(read_set::proofs::Gaining::gains_none, read_set::proofs::Gaining::gains_first, read_set::proofs::Following::follow_wants))]
fn lend_known<S: Source>(
    asked: &LoanContext<'_>,
    renewal: bool,
    source: &mut S,
) -> Result<Effect, Stop>
    ensures gives { Follows result (follow (S.has source.new) (checkout_rule_for asked.now.policy.now asked.now.number renewal asked.now.request asked.now.date)) }
    ensures keeps { Gains S.one_by_one (S.has source.old) (S.has source.new) (checkout_rule_for asked.now.policy.now asked.now.number renewal asked.now.request asked.now.date) }
{
    let member = patron_of(asked.alloc, asked.policy, source, &asked.request.patron)?;
    let article = item_of(asked.alloc, asked.policy, source, &asked.request.item)?;
    lend_both(asked, renewal, member, article, source)
}

/// A checkout (message 11) on line n.
#[tactic(auto, using(read_set::proofs::Gaining::gains_none))]
pub fn check_out<S: Source>(
    alloc: Global,
    policy: &Policy,
    n: u64,
    request: &Checkout,
    date: Stamp,
    source: &mut S,
) -> Result<Effect, Stop>
    ensures gives { Follows result (follow (S.has source.new) (checkout_rule policy.now n request.now date)) }
    ensures means { IfOk result (λ e. (M : Map) → Agrees (S.has source.new) M → e ≡ checkout policy.now n request.now date M) }
    ensures keeps { Gains S.one_by_one (S.has source.old) (S.has source.new) (checkout_rule policy.now n request.now date) }
{
    let asked = LoanContext {
        alloc,
        policy,
        number: n,
        date,
        request: ask_checkout(request)?,
    };
    lend_known(&asked, request.renewal, source)
}

/// A checkout that was made, as a response says.
#[tactic(auto, using(read_set::proofs::Gaining::gains_none))]
pub fn check_out_told<S: Source>(
    line: &LineContext<'_>,
    request: &Checkout,
    told: &ToldLoan,
    source: &mut S,
) -> Result<Effect, Stop>
    ensures gives { Follows result (follow (S.has source.new) (checkout_rule_for line.now.policy.now line.now.number told.now.renewal (as_told (by_checkout request.now) told.now) line.now.date)) }
    ensures keeps { Gains S.one_by_one (S.has source.old) (S.has source.new) (checkout_rule_for line.now.policy.now line.now.number told.now.renewal (as_told (by_checkout request.now) told.now) line.now.date) }
{
    let asked = line.asking(as_told(ask_checkout(request)?, told));
    lend_known(&asked, told.renewal, source)
}

/// A renewal that was made, as a response says: what can't be renewed is lent.
#[tactic(auto, using(read_set::proofs::Gaining::gains_none))]
pub fn renew_item_told<S: Source>(
    line: &LineContext<'_>,
    request: &Renew,
    told: &ToldLoan,
    source: &mut S,
) -> Result<Effect, Stop>
    ensures gives { Follows result (follow (S.has source.new) (checkout_rule_for line.now.policy.now line.now.number true (as_told (by_renew request.now) told.now) line.now.date)) }
    ensures keeps { Gains S.one_by_one (S.has source.old) (S.has source.new) (checkout_rule_for line.now.policy.now line.now.number true (as_told (by_renew request.now) told.now) line.now.date) }
{
    let asked = line.asking(as_told(ask_renew(request)?, told));
    lend_known(&asked, true, source)
}
