ghost use Rattle.std.specs.Prelude.{◌≡◌, IfOk};
ghost use Rattle.read_set.specs.ItemStatuses.{item_status_rule, updated, status_answer, titled};
ghost use Rattle.read_set.specs.Asks.{follow, Gains};
ghost use Rattle.read_set.specs.Maps.{Map, Agrees};
ghost use Rattle.read_set.specs.Stops.{Follows};
ghost use Rattle.read_set.specs.WholeMap.{item_status};

use circ_policy::Policy;
use circ_records::{Item, Key, Record};
use loan_meaning::item_of;
use read_set::{Article, Effect, Source, Stop, Writes};
use sip_answer::{Answer, ItemStatusAnswer, Reason, TitledItem};
use sip_reader::{ItemStatus, Stamp};
use std::alloc::{AllocError, Global};

/// An item status update (message 19).
#[tactic(auto, unfolding(read_set::specs::ItemStatuses::item_status_rule), using(read_set::proofs::Gaining::gains_none, read_set::proofs::Gaining::gains_first, read_set::proofs::Following::follow_wants))]
pub fn update<S: Source>(
    alloc: Global,
    policy: &Policy,
    request: &ItemStatus,
    date: Stamp,
    source: &mut S,
) -> Result<Effect, Stop>
    ensures gives { Follows result (follow (S.has source.new) (item_status_rule policy.now request.now date)) }
    ensures means { IfOk result (λ e. (M : Map) → Agrees (S.has source.new) M → e ≡ item_status policy.now request.now date M) }
    ensures keeps { Gains S.one_by_one (S.has source.old) (S.has source.new) (item_status_rule policy.now request.now date) }
{
    let found = item_of(alloc, policy, source, &request.item)?;
    Ok(update_found(alloc, request, date, found)?)
}

/// The request's properties, if any, replace those of the item, if known.
#[tactic(auto, unfolding(read_set::specs::ItemStatuses::updated))]
fn update_found(
    alloc: Global,
    request: &ItemStatus,
    date: Stamp,
    found: Option<Article>,
) -> Result<Effect, AllocError>
    ensures { IfOk result (λ e. e ≡ updated request.now date found) }
{
    let Some(article) = found else {
        let answer = answer(request, date, None, Reason::UnknownItem)?;
        return Ok(Effect::unwritten(alloc, Some(answer)));
    };
    let Some(given) = &request.properties else {
        let known = show(article.item.get())?;
        let answer = answer(request, date, known, Reason::Done)?;
        return Ok(Effect::unwritten(alloc, Some(answer)));
    };
    let mut item = Item::of(alloc, article.into_item())?;
    item.properties = given.clone()?;
    let known = show(&item)?;
    let written = Record::item(alloc, item)?;
    let writes = Writes::one(alloc, Key::Item(request.item.clone()?), written)?;
    Ok(Effect {
        writes,
        answer: Some(answer(request, date, known, Reason::Done)?),
    })
}

fn show(item: &Item) -> Result<Option<TitledItem>, AllocError>
    ensures { IfOk result (λ t. t ≡ titled item.now.title item.now.properties) }
{
    Ok(Some(TitledItem {
        title: item.title.clone()?,
        properties: item.properties.clone()?,
    }))
}

fn answer(
    request: &ItemStatus,
    date: Stamp,
    known: Option<TitledItem>,
    reason: Reason,
) -> Result<Answer, AllocError>
    ensures { IfOk result (λ a. a ≡ status_answer request.now date known reason) }
{
    Ok(Answer::ItemStatus(ItemStatusAnswer {
        date,
        item: request.item.clone()?,
        known,
        reason,
    }))
}
