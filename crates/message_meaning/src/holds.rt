//! Holds (message 15).

ghost use Rattle.std.specs.Prelude.{◌≡◌, ◌++◌, ◌∷◌, [], IfOk, option_map};
ghost use Rattle.read_set.specs.Holds.{hold_done, hold_refusal, hold_rule, queue_after, hold_position, is_available, hold_answer, hold_kept, hold_known, held};
ghost use Rattle.read_set.specs.Asks.{follow, Gains};
ghost use Rattle.read_set.specs.Maps.{Map, Agrees};
ghost use Rattle.read_set.specs.Stops.{Follows};
ghost use Rattle.read_set.specs.WholeMap.{hold};

use circ_policy::Policy;
use circ_records::{Hold, Holds, Item, Key, QUEUE_MAX, Record, Shared};
use loan_meaning::{
    LineContext, has_lent_to, has_loan, has_queue, is_first_another, item_of, patron_of, position,
    waits, with_pickup, without_hold,
};
use read_set::{Article, Effect, Member, Source, Stop, Writes};
use sip_answer::{Answer, HoldAnswer, QueuePosition, Reason};
use sip_reader::{HoldMode, HoldRequest, Id, Stamp, Text};
use std::alloc::{AllocError, Global};

/// What stays the same while a hold is followed.
#[derive(Clone, Copy)]
struct HoldAsked<'p> {
    alloc: Global,
    policy: &'p Policy,
    request: &'p HoldRequest,
    /// Whether it isn't refused because the patron is blocked.
    forced: bool,
    /// The moment of its message.
    date: Stamp,
}

/// Why a hold is refused, where it is; `blocked` says whether a block counts.
#[tactic(auto, unfolding(read_set::specs::Holds::hold_refusal))]
pub fn hold_refusal(mode: HoldMode, patron: &Id, blocked: bool, item: &Item) -> Option<Reason>
    ensures { result ≡ hold_refusal mode patron.now blocked item.now }
{
    match mode {
        HoldMode::Add => add_refusal(patron, blocked, item),
        HoldMode::Delete | HoldMode::Change => {
            (!waits(item.holds.as_slice(), patron)).then_some(Reason::NoEntry)
        }
    }
}

#[tactic(auto, unfolding(read_set::specs::Holds::hold_refusal))]
fn add_refusal(patron: &Id, blocked: bool, item: &Item) -> Option<Reason>
    ensures { result ≡ hold_refusal HoldMode.Add patron.now blocked item.now }
{
    if blocked {
        return Some(Reason::Blocked);
    }
    if waits(item.holds.as_slice(), patron) {
        return Some(Reason::HasEntry);
    }
    if has_lent_to(patron, &item.loan) {
        return Some(Reason::OwnLoan);
    }
    (QUEUE_MAX <= item.holds.len()).then_some(Reason::QueueFull)
}

fn hold_done(mode: HoldMode) -> Reason
    ensures { result ≡ hold_done mode }
{
    match mode {
        HoldMode::Add => Reason::Added,
        HoldMode::Delete => Reason::Deleted,
        HoldMode::Change => Reason::Changed,
    }
}

fn with_hold(alloc: Global, holds: &Holds, patron: &Id, pickup: &Text) -> Result<Holds, AllocError>
    ensures { IfOk result (λ h. h ≡ holds.now ++ (record { patron = patron.now; pickup = pickup.now }) ∷ []) }
{
    let mut queue = holds.copy(alloc)?;
    queue.push(Hold {
        patron: patron.clone()?,
        pickup: pickup.clone()?,
    })?;
    Ok(queue)
}

/// The queue after the change.
#[tactic(auto, unfolding(read_set::specs::Holds::queue_after))]
fn change_queue(alloc: Global, request: &HoldRequest, holds: &Holds) -> Result<Holds, AllocError>
    ensures { IfOk result (λ h. h ≡ queue_after request.now holds.now request.now.mode) }
{
    match request.mode {
        HoldMode::Add => with_hold(alloc, holds, &request.patron, &request.pickup),
        HoldMode::Delete => without_hold(alloc, holds, &request.patron),
        HoldMode::Change => with_pickup(alloc, holds, &request.patron, &request.pickup),
    }
}

#[tactic(auto, unfolding(read_set::specs::Holds::hold_position))]
fn position_in(request: &HoldRequest, holds: &Holds) -> Result<Option<QueuePosition>, AllocError>
    ensures { IfOk result (λ position. position ≡ hold_position request.now holds.now request.now.mode) }
{
    match request.mode {
        HoldMode::Delete => Ok(None),
        HoldMode::Add | HoldMode::Change => match position(holds.as_slice(), &request.patron) {
            Some(number) => Ok(Some(QueuePosition {
                number,
                pickup: request.pickup.clone()?,
            })),
            None => Ok(None),
        },
    }
}

#[tactic(auto, unfolding(read_set::specs::Holds::is_available))]
fn is_available_to(request: &HoldRequest, item: &Item, holds: &Holds) -> bool
    ensures { result ≡ is_available request.now.patron item.now holds.now request.now.mode }
{
    match request.mode {
        HoldMode::Delete => false,
        HoldMode::Add | HoldMode::Change => {
            let queue = holds.as_slice();
            !has_loan(&item.loan) && (has_queue(queue) && !is_first_another(queue, &request.patron))
        }
    }
}

fn tell(
    asked: &HoldAsked<'_>,
    title: Option<Text>,
    reason: Reason,
    available: bool,
    position: Option<QueuePosition>,
) -> Result<Answer, AllocError>
    ensures { IfOk result (λ a. a ≡ hold_answer asked.now.policy.now asked.now.request.now asked.now.date title reason available position) }
{
    Ok(Answer::Hold(HoldAnswer {
        date: asked.date,
        institution: asked.policy.institution().clone()?,
        patron: asked.request.patron.clone()?,
        item: asked.request.item.clone()?,
        ok: reason.grants(),
        reason,
        available,
        position,
        title,
    }))
}

#[tactic(auto, unfolding(read_set::specs::Holds::hold_kept))]
fn with_queue(asked: &HoldAsked<'_>, item: Shared<Item>, holds: Holds) -> Result<Effect, AllocError>
    ensures { IfOk result (λ e. e ≡ hold_kept asked.now.policy.now asked.now.request.now asked.now.date item holds) }
{
    let alloc = asked.alloc;
    let available = is_available_to(asked.request, item.get(), &holds);
    let position = position_in(asked.request, &holds)?;
    let title = item.get().title.clone()?;
    let reason = hold_done(asked.request.mode);
    let answer = tell(asked, Some(title), reason, available, position)?;
    let mut item = Item::of(alloc, item)?;
    item.holds = holds;
    let written = Record::item(alloc, item)?;
    let writes = Writes::one(alloc, Key::Item(asked.request.item.clone()?), written)?;
    Ok(Effect {
        writes,
        answer: Some(answer),
    })
}

fn hold_item(asked: &HoldAsked<'_>, blocked: bool, item: Shared<Item>) -> Result<Effect, AllocError>
    ensures { IfOk result (λ e. e ≡ hold_known asked.now.policy.now asked.now.request.now asked.now.date blocked item) }
{
    let request = asked.request;
    if let Some(why) = hold_refusal(request.mode, &request.patron, blocked, item.get()) {
        let title = item.get().title.clone()?;
        let answer = tell(asked, Some(title), why, false, None)?;
        return Ok(Effect::unwritten(asked.alloc, Some(answer)));
    }
    let holds = change_queue(asked.alloc, request, &item.get().holds)?;
    with_queue(asked, item, holds)
}

fn title_of(article: Option<Article>) -> Result<Option<Text>, AllocError>
    ensures { IfOk result (λ t. t ≡ option_map (λ a. a.item.title) article) }
{
    match article {
        Some(article) => Ok(Some(article.item.get().title.clone()?)),
        None => Ok(None),
    }
}

#[tactic(auto, unfolding(read_set::specs::Holds::held))]
fn hold_both(
    asked: &HoldAsked<'_>,
    member: Option<Member>,
    article: Option<Article>,
) -> Result<Effect, AllocError>
    ensures { IfOk result (λ e. e ≡ held asked.now.policy.now asked.now.forced asked.now.request.now asked.now.date member article) }
{
    let Some(member) = member else {
        let title = title_of(article)?;
        let answer = tell(asked, title, Reason::UnknownPatron, false, None)?;
        return Ok(Effect::unwritten(asked.alloc, Some(answer)));
    };
    let Some(article) = article else {
        let answer = tell(asked, None, Reason::UnknownItem, false, None)?;
        return Ok(Effect::unwritten(asked.alloc, Some(answer)));
    };
    let item = article.into_item();
    hold_item(asked, !asked.forced && member.patron.get().blocked, item)
}

/// A hold (message 15); one that is forced isn't refused because the patron is blocked.
#[tactic(auto, unfolding(read_set::specs::Holds::hold_rule), using(read_set::proofs::Gaining::gains_none, read_set::proofs::Gaining::gains_first, read_set::proofs::Following::follow_wants))]
pub fn hold<S: Source>(
    line: &LineContext<'_>,
    forced: bool,
    request: &HoldRequest,
    source: &mut S,
) -> Result<Effect, Stop>
    ensures gives { Follows result (follow (S.has source.new) (hold_rule line.now.policy.now forced request.now line.now.date)) }
    ensures means { IfOk result (λ e. (M : Map) → Agrees (S.has source.new) M → e ≡ hold line.now.policy.now forced request.now line.now.date M) }
    ensures keeps { Gains S.one_by_one (S.has source.old) (S.has source.new) (hold_rule line.now.policy.now forced request.now line.now.date) }
{
    let member = patron_of(line.alloc, line.policy, source, &request.patron)?;
    let article = item_of(line.alloc, line.policy, source, &request.item)?;
    let asked = HoldAsked {
        alloc: line.alloc,
        policy: line.policy,
        request,
        forced,
        date: line.date,
    };
    Ok(hold_both(&asked, member, article)?)
}
