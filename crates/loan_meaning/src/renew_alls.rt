//! Renewal of all items.

ghost use Rattle.std.specs.Prelude.{◌≡◌, ◌+◌, ◌<◌, ◌≤◌, ◌^◌, ◌∷◌, [], nat_lt, if◌then◌else◌, IfOk, OnOk, Some, filter, is_some, option_copied};
ghost use Rattle.circ_records.specs.declared.key.Key.TheVariants as keys;
ghost use Rattle.circ_records.specs.declared.record.FeeType.TheVariants as fee_types;
ghost use Rattle.circ_records.specs.declared.record.Record.TheVariants as records;
ghost use Rattle.read_set.specs.RenewAlls.{turn_rule_known, turn_rule, turns_rule, renew_all_rule_known, renew_all_rule, by_renew_all, one_renewed, one_left, turn_by, none_renewed, renew_all_answer, all_renewed, turns_of};
ghost use Rattle.sip_answer.specs.Deeds.{names_item};
ghost use Rattle.loan_meaning.specs.Devices.Sums.{Runs};
ghost use Rattle.read_set.specs.Asks.{follow, Gains};
ghost use Rattle.read_set.specs.Effects.{written};
ghost use Rattle.read_set.specs.Fees.{fee_made};
ghost use Rattle.read_set.specs.Renewals.{renewed};
ghost use Rattle.read_set.specs.Maps.{Map, Agrees};
ghost use Rattle.read_set.specs.Stops.{Follows};
ghost use Rattle.read_set.specs.WholeMap.{renew_all};

use crate::asked::{LineContext, LoanContext};
use crate::asking::{charge_of, due_of};
use crate::fees::{Charge, list_fee_of, make_fee, nothing};
use crate::lookup::{patron_of, read_after};
use crate::renewals::{renew_loan_of, test_renewal};
use crate::running::{are_new, charge_by, owed_with};
use circ_records::{FeeType, Ids, Key, Record};
use read_set::{
    Article, Draft, Effect, LoanRequest, Member, Renewals, Source, Stop, Verdict, known_item,
};
use sip_answer::{Answer, ItemIds, NamedItems, Reason, Reasons, RenewAllAnswer};
use sip_reader::{Amount, Day, Id, RenewAll};
use std::alloc::{AllocError, Global};

/// The renewal of an item for which a renewal of all items asks, by the borrower. It is forced if a response named the item.
fn ask_for(forced: bool, request: &RenewAll, item: &Id) -> Result<LoanRequest, AllocError>
    ensures { IfOk result (λ a. a ≡ by_renew_all forced request.now item.now) }
{
    Ok(LoanRequest {
        patron: request.patron.clone()?,
        item: item.clone()?,
        third_party: false,
        forced,
        given: None,
        agreed: request.agreed,
        price: if forced && !request.agreed {
            Some(nothing())
        } else {
            None
        },
        checkout: false,
    })
}

/// The renewed item and its fee. Where memory runs out between the two, only the item is written: no clause says so, since the
/// caller then drops all that is written.
fn write_turn(
    asked: &LoanContext<'_>,
    k: u64,
    due: Day,
    rental: Amount,
    article: Article,
    writes: &mut Draft,
) -> Result<(), AllocError>
    ensures { OnOk result (writes.new ≡ written (written writes.old ((keys.Item asked.now.request.item, records.Item (renewed due article.item)) ∷ [])) (fee_made asked.now.number k asked.now.request.patron fee_types.Rental rental)) }
{
    let alloc = asked.alloc;
    let item = renew_loan_of(alloc, due, article)?;
    let a = &asked.request;
    writes.put(Key::Item(a.item.clone()?), Record::item(alloc, item)?)?;
    let charge = Charge {
        patron: &a.patron,
        kind: FeeType::Rental,
        amount: rental,
    };
    make_fee(alloc, asked.number, k, &charge, writes)
}

fn count(made: u64, rental: Amount) -> u64
    requires { made + 1 < 2 ^ 64 }
    ensures value { result ≡ (if nat_lt 0 rental then made + 1 else made) }
    ensures few { result ≤ made + 1 }
{
    if rental.hundredths() > 0 {
        made + 1
    } else {
        made
    }
}

fn renew_next(
    asked: &LoanContext<'_>,
    article: Article,
    done: Renewals,
) -> Result<Renewals, AllocError>
    requires { done.made + 1 < 2 ^ 64 }
    ensures value { IfOk result (λ next. next ≡ one_renewed asked.now.policy.now asked.now.number asked.now.request asked.now.date article done) }
    ensures few { IfOk result (λ next. next.made ≤ done.made + 1) }
{
    let n = asked.number;
    let media = &article.media;
    let due = due_of(asked, media);
    let rental = charge_of(asked, media);
    let made = done.made;
    let mut done = done;
    write_turn(asked, made, due, rental, article, &mut done.writes)?;
    list_fee_of(asked.alloc, n, made, rental, &mut done.member.patron)?;
    done.renewed.push(asked.request.item.clone()?)?;
    done.made = count(made, rental);
    Ok(done)
}

fn leave(item: &Id, reason: Reason, done: Renewals) -> Result<Renewals, AllocError>
    ensures value { IfOk result (λ next. next ≡ one_left item.now reason done) }
    ensures few { IfOk result (λ next. next.made ≤ done.made + 1) }
{
    let mut done = done;
    done.others.push(item.clone()?)?;
    done.reasons.push(reason)?;
    Ok(done)
}

#[tactic(auto, unfolding(read_set::specs::RenewAlls::turn_by))]
fn end_turn(
    asked: &LoanContext<'_>,
    article: Article,
    done: Renewals,
    verdict: Verdict,
) -> Result<Renewals, AllocError>
    requires { done.made + 1 < 2 ^ 64 }
    ensures value { IfOk result (λ next. next ≡ turn_by asked.now.policy.now asked.now.number asked.now.request asked.now.date article done verdict) }
    ensures few { IfOk result (λ next. next.made ≤ done.made + 1) }
{
    match verdict {
        Verdict::Made => renew_next(asked, article, done),
        Verdict::Refused(why) => leave(&asked.request.item, why, done),
    }
}

#[tactic(auto, using(read_set::proofs::Gaining::gains_none, read_set::proofs::Gaining::gains_first, read_set::proofs::Following::follow_wants))]
fn turn_known<S: Source>(
    asked: &LoanContext<'_>,
    done: Renewals,
    article: Article,
    fresh: bool,
    sum: &mut Option<u128>,
    source: &mut S,
) -> Result<Renewals, Stop>
    requires small { done.made + 1 < 2 ^ 64 }
    requires runs { Runs (S.has source.old) asked.now.number fresh done sum.old }
    ensures gives { Follows result (follow (S.has source.new) (turn_rule_known asked.now.policy.now asked.now.number asked.now.request asked.now.date done (Some article))) }
    ensures keeps { Gains S.one_by_one (S.has source.old) (S.has source.new) (turn_rule_known asked.now.policy.now asked.now.number asked.now.request asked.now.date done (Some article)) }
    ensures few { IfOk result (λ next. next.made ≤ done.made + 1) }
    ensures runs { IfOk result (λ next. Runs (S.has source.new) asked.now.number fresh next sum.new) }
{
    let verdict = test_renewal(asked, &done.writes, &done.member, &article, sum, source)?;
    let charge = charge_by(verdict, charge_of(asked, &article.media));
    *sum = owed_with(fresh, charge, *sum);
    Ok(end_turn(asked, article, done, verdict)?)
}

#[tactic(auto, using(read_set::proofs::Gaining::gains_none, read_set::proofs::Gaining::gains_first))]
fn turn_any<S: Source>(
    asked: &LoanContext<'_>,
    done: Renewals,
    article: Option<Article>,
    fresh: bool,
    sum: &mut Option<u128>,
    source: &mut S,
) -> Result<Renewals, Stop>
    requires small { done.made + 1 < 2 ^ 64 }
    requires runs { Runs (S.has source.old) asked.now.number fresh done sum.old }
    ensures gives { Follows result (follow (S.has source.new) (turn_rule_known asked.now.policy.now asked.now.number asked.now.request asked.now.date done article)) }
    ensures keeps { Gains S.one_by_one (S.has source.old) (S.has source.new) (turn_rule_known asked.now.policy.now asked.now.number asked.now.request asked.now.date done article) }
    ensures few { IfOk result (λ next. next.made ≤ done.made + 1) }
    ensures runs { IfOk result (λ next. Runs (S.has source.new) asked.now.number fresh next sum.new) }
{
    match article {
        Some(article) => turn_known(asked, done, article, fresh, sum, source),
        None => Ok(leave(&asked.request.item, Reason::UnknownItem, done)?),
    }
}

/// An item's turn, after the ones before it.
#[tactic(auto, unfolding(read_set::specs::RenewAlls::turn_rule), using(read_set::proofs::Gaining::gains_none, read_set::proofs::Gaining::gains_first, read_set::proofs::Following::follow_wants))]
fn take_turn<S: Source>(
    asked: &LoanContext<'_>,
    done: Renewals,
    fresh: bool,
    sum: &mut Option<u128>,
    source: &mut S,
) -> Result<Renewals, Stop>
    requires small { done.made + 1 < 2 ^ 64 }
    requires runs { Runs (S.has source.old) asked.now.number fresh done sum.old }
    ensures gives { Follows result (follow (S.has source.new) (turn_rule asked.now.policy.now asked.now.number asked.now.request asked.now.date done)) }
    ensures keeps { Gains S.one_by_one (S.has source.old) (S.has source.new) (turn_rule asked.now.policy.now asked.now.number asked.now.request asked.now.date done) }
    ensures few { IfOk result (λ next. next.made ≤ done.made + 1) }
    ensures runs { IfOk result (λ next. Runs (S.has source.new) asked.now.number fresh next sum.new) }
{
    let key = Key::Item(asked.request.item.clone()?);
    let found = read_after(asked.alloc, source, &done.writes, &key)?;
    let article = known_item(asked.policy, found);
    turn_any(asked, done, article, fresh, sum, source)
}

fn begin(alloc: Global, member: Member) -> Renewals
    ensures { result ≡ none_renewed member }
{
    Renewals {
        writes: Draft::new(alloc),
        member,
        made: 0,
        renewed: ItemIds::new(alloc),
        others: ItemIds::new(alloc),
        reasons: Reasons::new(alloc),
    }
}

/// The items of a list, each after the ones before it.
#[tactic(auto, using(read_set::proofs::Gaining::gains_none, read_set::proofs::Gaining::gains_first))]
fn take_turns<S: Source>(
    line: &LineContext<'_>,
    forced: bool,
    request: &RenewAll,
    items: &[Id],
    member: Member,
    source: &mut S,
) -> Result<Renewals, Stop>
    ensures gives { Follows result (follow (S.has source.new) (turns_rule line.now.policy.now line.now.number forced request.now line.now.date items.now (none_renewed member))) }
    ensures keeps { Gains S.one_by_one (S.has source.old) (S.has source.new) (turns_rule line.now.policy.now line.now.number forced request.now line.now.date items.now (none_renewed member)) }
{
    let fresh = are_new(line.alloc, line.number, member.patron.get().fees.as_slice())?;
    let mut sum = None;
    let mut done = begin(line.alloc, member);
    for item in items {
        let asked = line.asking(ask_for(forced, request, item)?);
        done = take_turn(&asked, done, fresh, &mut sum, source)?;
    }
    Ok(done)
}

fn tell(
    line: &LineContext<'_>,
    reason: Reason,
    renewed: ItemIds,
    unrenewed: ItemIds,
    reasons: Reasons,
) -> Result<Answer, AllocError>
    ensures { IfOk result (λ a. a ≡ renew_all_answer line.now.policy.now line.now.date reason renewed unrenewed reasons) }
{
    Ok(Answer::RenewAll(RenewAllAnswer {
        date: line.date,
        institution: line.policy.institution().clone()?,
        ok: reason.grants(),
        reason,
        renewed,
        unrenewed,
        reasons,
    }))
}

#[tactic(auto, unfolding(read_set::specs::RenewAlls::all_renewed))]
fn finish(line: &LineContext<'_>, request: &RenewAll, done: Renewals) -> Result<Effect, AllocError>
    ensures { IfOk result (λ e. e ≡ all_renewed line.now.policy.now request.now line.now.date done) }
{
    let Renewals {
        mut writes,
        member,
        made,
        renewed,
        others,
        reasons,
    } = done;
    if made > 0 {
        let key = Key::Patron(request.patron.clone()?);
        writes.put(key, Record::Patron(member.into_patron()))?;
    }
    Ok(Effect {
        writes: writes.finish(line.alloc)?,
        answer: Some(tell(line, Reason::Done, renewed, others, reasons)?),
    })
}

#[tactic(auto, using(read_set::proofs::Gaining::gains_none, read_set::proofs::Gaining::gains_first, read_set::proofs::Following::follow_wants))]
fn renew_each<S: Source>(
    line: &LineContext<'_>,
    request: &RenewAll,
    named: Option<&NamedItems>,
    member: Member,
    source: &mut S,
) -> Result<Effect, Stop>
    ensures gives { Follows result (follow (S.has source.new) (renew_all_rule_known line.now.policy.now line.now.number (option_copied named.entry) request.now line.now.date (Some member))) }
    ensures keeps { Gains S.one_by_one (S.has source.old) (S.has source.new) (renew_all_rule_known line.now.policy.now line.now.number (option_copied named.entry) request.now line.now.date (Some member)) }
{
    let items = turns_of(line.alloc, named, &member.patron.get().loans)?;
    let forced = is_forced(named);
    let done = take_turns(line, forced, request, items.as_slice(), member, source)?;
    Ok(finish(line, request, done)?)
}

/// Whether the renewals are forced, which those that a response names are.
fn is_forced(named: Option<&NamedItems>) -> bool
    ensures { result ≡ is_some (option_copied named.entry) }
{
    match named {
        Some(_) => true,
        None => false,
    }
}

/// Whose turn comes: each item of a list, or those that a response names.
fn turns_of(alloc: Global, named: Option<&NamedItems>, loans: &Ids) -> Result<Ids, AllocError>
    ensures { IfOk result (λ turns. turns ≡ turns_of (option_copied named.entry) loans.now) }
{
    match named {
        None => loans.copy(),
        Some(texts) => Ids::from_vec(alloc, named_among(alloc, texts, loans.as_slice())?),
    }
}

fn named_among(alloc: Global, texts: &NamedItems, loans: &[Id]) -> Result<Vec<Id>, AllocError>
    ensures { IfOk result (λ v. v.items ≡ filter (names_item texts.now) loans.now) }
{
    let mut named = Vec::new(alloc);
    for id in loans {
        if texts.has(id) {
            named.push(id.clone()?)?;
        }
    }
    Ok(named)
}

#[tactic(auto, using(read_set::proofs::Gaining::gains_none, read_set::proofs::Gaining::gains_first))]
fn renew_any<S: Source>(
    line: &LineContext<'_>,
    request: &RenewAll,
    named: Option<&NamedItems>,
    member: Option<Member>,
    source: &mut S,
) -> Result<Effect, Stop>
    ensures gives { Follows result (follow (S.has source.new) (renew_all_rule_known line.now.policy.now line.now.number (option_copied named.entry) request.now line.now.date member)) }
    ensures keeps { Gains S.one_by_one (S.has source.old) (S.has source.new) (renew_all_rule_known line.now.policy.now line.now.number (option_copied named.entry) request.now line.now.date member) }
{
    match member {
        Some(member) => renew_each(line, request, named, member, source),
        None => {
            let alloc = line.alloc;
            let why = Reason::UnknownPatron;
            let (none, others) = (ItemIds::new(alloc), ItemIds::new(alloc));
            let none = tell(line, why, none, others, Reasons::new(alloc))?;
            Ok(Effect::unwritten(alloc, Some(none)))
        }
    }
}

/// A renewal of all items (message 65): by the rules of each item, or of those that a response names as renewed.
#[tactic(auto, unfolding(read_set::specs::RenewAlls::renew_all_rule), using(read_set::proofs::Gaining::gains_none, read_set::proofs::Gaining::gains_first, read_set::proofs::Following::follow_wants))]
pub fn renew_all<S: Source>(
    line: &LineContext<'_>,
    request: &RenewAll,
    named: Option<&NamedItems>,
    source: &mut S,
) -> Result<Effect, Stop>
    ensures gives { Follows result (follow (S.has source.new) (renew_all_rule line.now.policy.now line.now.number (option_copied named.entry) request.now line.now.date)) }
    ensures means { IfOk result (λ e. (M : Map) → Agrees (S.has source.new) M → e ≡ renew_all line.now.policy.now line.now.number (option_copied named.entry) request.now line.now.date M) }
    ensures keeps { Gains S.one_by_one (S.has source.old) (S.has source.new) (renew_all_rule line.now.policy.now line.now.number (option_copied named.entry) request.now line.now.date) }
{
    let member = patron_of(line.alloc, line.policy, source, &request.patron)?;
    renew_any(line, request, named, member, source)
}
