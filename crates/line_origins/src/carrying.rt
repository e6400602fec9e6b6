//! Whether what a response says was done could be carried out, by the records before the line.

ghost use Rattle.std.specs.Prelude.{◌≡◌, ◌&&◌, IfOk};
ghost use Rattle.std.specs.List.{list_all};
ghost use Rattle.line_origins.specs.Carried.{are_known, can_carry_out, can_do, can_hold, can_lend, can_renew, carried_at, loans_of};
ghost use Rattle.read_set.specs.AsRecorded.{agrees_with};
ghost use Rattle.read_set.specs.Known.{item_in, patron_in};
ghost use Rattle.read_set.specs.Maps.{Map, Agrees, Grows};
ghost use Rattle.read_set.specs.Plans.{deed_at};
ghost use Rattle.read_set.specs.Replay.{one_at};
ghost use Rattle.sip_answer.specs.Deeds.{names_item};

use crate::carried::Carried;
use crate::finding::{find_item, find_patron};
use circ_policy::Policy;
use message_meaning::hold_refusal;
use read_set::{Article, Member, Plan, Source, Stop};
use sip_answer::{Answer, Deed, NamedItems, agrees};
use sip_reader::{Act, HoldRequest, Id, Reading};
use std::alloc::{AllocError, Global};

/// What came of a line of a plan, by the records that the source has; `answer` is its answer.
pub fn carried_of<S: Source>(
    alloc: Global,
    plan: &Plan,
    line: u64,
    answer: &Option<Answer>,
    source: &mut S,
) -> Result<Carried, Stop>
    ensures means { IfOk result (λ c. (M : Map) → Agrees (S.has source.new) M → answer.now ≡ (one_at plan.now line M).1
        → c ≡ carried_at plan.now line M) }
    ensures keeps { Grows (S.has source.old) (S.has source.new) }
{
    let Some(Reading::Asked(request)) = plan.reading(line) else {
        return Ok(Carried::AsRuled);
    };
    let Some(deed) = plan.deed(line) else {
        return Ok(Carried::AsRuled);
    };
    if agrees_with(alloc, answer, deed)? {
        return Ok(Carried::AsRuled);
    }
    if can_carry_out(alloc, plan.policy(), &request.act, deed, source)? {
        Ok(Carried::AsTold)
    } else {
        Ok(Carried::Not)
    }
}

fn agrees_with(alloc: Global, answer: &Option<Answer>, deed: &Deed) -> Result<bool, AllocError>
    ensures { IfOk result (λ b. b ≡ agrees_with answer.now deed.now) }
{
    match answer {
        Some(answer) => agrees(alloc, answer, deed),
        None => Ok(false),
    }
}

#[tactic(auto, unfolding(crate::specs::Carried::can_carry_out))]
fn can_carry_out<S: Source>(
    alloc: Global,
    policy: &Policy,
    act: &Act,
    deed: &Deed,
    source: &mut S,
) -> Result<bool, Stop>
    ensures means { IfOk result (λ b. (M : Map) → Agrees (S.has source.new) M → b ≡ can_carry_out policy.now act.now deed.now M) }
    ensures keeps { Grows (S.has source.old) (S.has source.new) }
{
    match deed {
        Deed::NotTaken | Deed::Said(false) | Deed::Refused => Ok(true),
        Deed::Said(true) => can_do(alloc, policy, act, source),
        Deed::Lent(_) => can_lend(alloc, policy, act, source),
        Deed::Renewed(named) => can_renew(alloc, policy, act, named, source),
    }
}

/// Whether what the rules refuse could be done.
#[tactic(auto, unfolding(crate::specs::Carried::can_do))]
fn can_do<S: Source>(
    alloc: Global,
    policy: &Policy,
    act: &Act,
    source: &mut S,
) -> Result<bool, Stop>
    ensures means { IfOk result (λ b. (M : Map) → Agrees (S.has source.new) M → b ≡ can_do policy.now act.now M) }
    ensures keeps { Grows (S.has source.old) (S.has source.new) }
{
    match act {
        Act::Hold(asked) => can_hold(alloc, policy, asked, source),
        _ => Ok(false),
    }
}

fn can_hold<S: Source>(
    alloc: Global,
    policy: &Policy,
    asked: &HoldRequest,
    source: &mut S,
) -> Result<bool, Stop>
    ensures means { IfOk result (λ b. (M : Map) → Agrees (S.has source.new) M
        → b ≡ can_hold asked.now (patron_in policy.now M asked.now.patron) (item_in policy.now M asked.now.item)) }
    ensures keeps { Grows (S.has source.old) (S.has source.new) }
{
    let member = find_patron(alloc, policy, source, &asked.patron)?;
    let article = find_item(alloc, policy, source, &asked.item)?;
    Ok(can_hold_found(asked, &member, &article))
}

/// Whether the rules would take the hold of a patron who isn't blocked.
fn can_hold_found(asked: &HoldRequest, member: &Option<Member>, article: &Option<Article>) -> bool
    ensures { result ≡ can_hold asked.now member.now article.now }
{
    match (member, article) {
        (Some(_), Some(article)) => {
            hold_refusal(asked.mode, &asked.patron, false, article.item.get()).is_none()
        }
        _ => false,
    }
}

#[tactic(auto, unfolding(crate::specs::Carried::can_lend))]
fn can_lend<S: Source>(
    alloc: Global,
    policy: &Policy,
    act: &Act,
    source: &mut S,
) -> Result<bool, Stop>
    ensures means { IfOk result (λ b. (M : Map) → Agrees (S.has source.new) M → b ≡ can_lend policy.now act.now M) }
    ensures keeps { Grows (S.has source.old) (S.has source.new) }
{
    match act {
        Act::Checkout(asked) => are_known(alloc, policy, &asked.patron, &asked.item, source),
        Act::Renew(asked) => are_known(alloc, policy, &asked.patron, &asked.item, source),
        _ => Ok(false),
    }
}

/// Whether a patron and an item are known.
fn are_known<S: Source>(
    alloc: Global,
    policy: &Policy,
    patron: &Id,
    item: &Id,
    source: &mut S,
) -> Result<bool, Stop>
    ensures means { IfOk result (λ b. (M : Map) → Agrees (S.has source.new) M
        → b ≡ are_known (patron_in policy.now M patron.now) (item_in policy.now M item.now)) }
    ensures keeps { Grows (S.has source.old) (S.has source.new) }
{
    let member = find_patron(alloc, policy, source, patron)?;
    let article = find_item(alloc, policy, source, item)?;
    Ok(are_found(&member, &article))
}

fn are_found(member: &Option<Member>, article: &Option<Article>) -> bool
    ensures { result ≡ are_known member.now article.now }
{
    member.is_some() && article.is_some()
}

/// Whether all items that are named are in the patron's list.
#[tactic(auto, unfolding(crate::specs::Carried::can_renew))]
fn can_renew<S: Source>(
    alloc: Global,
    policy: &Policy,
    act: &Act,
    named: &NamedItems,
    source: &mut S,
) -> Result<bool, Stop>
    ensures means { IfOk result (λ b. (M : Map) → Agrees (S.has source.new) M → b ≡ can_renew policy.now act.now named.now M) }
    ensures keeps { Grows (S.has source.old) (S.has source.new) }
{
    match act {
        Act::RenewAll(asked) => {
            let member = find_patron(alloc, policy, source, &asked.patron)?;
            Ok(are_lent(named, &member))
        }
        _ => Ok(false),
    }
}

/// Whether all of these texts name items that a patron has on loan; one who is unknown has none.
fn are_lent(named: &NamedItems, member: &Option<Member>) -> bool
    ensures { result ≡ list_all (names_item (loans_of member.now)) named.now }
{
    match member {
        Some(member) => are_listed(named, member.patron.get().loans.as_slice()),
        None => are_listed(named, &[]),
    }
}

fn are_listed(named: &NamedItems, ids: &[Id]) -> bool
    ensures { result ≡ list_all (names_item ids.now) named.now }
{
    all_listed(named.as_slice(), ids)
}

fn all_listed(texts: &[Vec<u8>], ids: &[Id]) -> bool
    ensures { result ≡ list_all (λ t. names_item ids.now t.items) texts.now }
{
    texts.iter().all(|text| is_listed(text, ids))
}

#[tactic(auto, unfolding(sip_answer::specs::Deeds::names_item))]
fn is_listed(text: &[u8], ids: &[Id]) -> bool
    ensures { result ≡ names_item ids.now text.now }
{
    ids.iter().any(|id| text == id.as_bytes())
}
