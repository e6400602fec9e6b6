//! Block patron and patron enable.

ghost use Rattle.std.specs.Prelude.{◌≡◌, IfOk, Some};
ghost use Rattle.read_set.specs.Blocks.{block_rule_known, block_rule, member_status, no_status, patron_answer, block_answer, blocked_by};
ghost use Rattle.read_set.specs.Asks.{follow, Gains};
ghost use Rattle.read_set.specs.Maps.{Map, Agrees};
ghost use Rattle.read_set.specs.Stops.{Follows};
ghost use Rattle.read_set.specs.WholeMap.{block};

use circ_policy::Policy;
use circ_records::{Key, Patron, Record};
use loan_meaning::{owed_of, patron_of};
use read_set::{Draft, Effect, Member, Source, Stop, Writes};
use sip_answer::{Answer, KnownPatron, Owed, PatronAnswer, PatronStatus, Reason};
use sip_reader::{Id, Stamp};
use std::alloc::{AllocError, Global};

/// What stays the same while a block or an enable is followed.
#[derive(Clone, Copy)]
struct BlockAsked<'p> {
    alloc: Global,
    policy: &'p Policy,
    /// Whether it blocks.
    blocks: bool,
    id: &'p Id,
    /// The moment of its message.
    date: Stamp,
}

fn status_of_member(blocked: bool, member: &Member, owes: u128) -> PatronStatus
    ensures { result ≡ member_status blocked member.now owes }
{
    let many_loans = member.class.max_loans as usize <= member.patron.get().loans.len();
    let many_fees = u128::from(member.class.max_fees.hundredths()) < owes;
    PatronStatus {
        charge_denied: many_loans || many_fees || blocked,
        renewal_denied: many_fees || blocked,
        hold_denied: blocked,
        too_many_items: many_loans,
        excessive_fees: many_fees,
    }
}

fn unknown_status() -> PatronStatus
    ensures { result ≡ no_status }
{
    PatronStatus {
        charge_denied: true,
        renewal_denied: true,
        hold_denied: true,
        too_many_items: false,
        excessive_fees: false,
    }
}

fn answer(
    asked: &BlockAsked<'_>,
    status: PatronStatus,
    known: Option<KnownPatron>,
    reason: Reason,
) -> Result<Answer, AllocError>
    ensures { IfOk result (λ a. a ≡ block_answer asked.now.blocks (patron_answer asked.now.policy.now asked.now.id.now asked.now.date status known reason)) }
{
    let answer = PatronAnswer {
        date: asked.date,
        institution: asked.policy.institution().clone()?,
        patron: asked.id.clone()?,
        status,
        currency: asked.policy.currency(),
        known,
        reason,
    };
    if asked.blocks {
        Ok(Answer::BlockPatron(answer))
    } else {
        Ok(Answer::PatronEnable(answer))
    }
}

fn blocked(blocks: bool, member: Member) -> Result<Patron, AllocError>
    ensures { IfOk result (λ p. p ≡ record member.patron { blocked = blocks }) }
{
    let mut patron = Patron::of(member.into_patron())?;
    patron.blocked = blocks;
    Ok(patron)
}

#[tactic(auto, unfolding(read_set::specs::Blocks::blocked_by))]
fn block_member(asked: &BlockAsked<'_>, member: Member, owes: u128) -> Result<Effect, AllocError>
    ensures { IfOk result (λ e. e ≡ blocked_by asked.now.policy.now asked.now.blocks asked.now.id.now asked.now.date member owes) }
{
    let status = status_of_member(asked.blocks, &member, owes);
    let known = KnownPatron {
        name: member.patron.get().name.clone()?,
        owed: Owed::new(asked.alloc, owes)?,
    };
    let patron = blocked(asked.blocks, member)?;
    let written = Record::patron(asked.alloc, patron)?;
    let writes = Writes::one(asked.alloc, Key::Patron(asked.id.clone()?), written)?;
    Ok(Effect {
        writes,
        answer: Some(answer(asked, status, Some(known), Reason::Done)?),
    })
}

#[tactic(auto, using(read_set::proofs::Gaining::gains_none, read_set::proofs::Gaining::gains_first, read_set::proofs::Following::follow_wants))]
fn block_known<S: Source>(
    asked: &BlockAsked<'_>,
    member: Member,
    source: &mut S,
) -> Result<Effect, Stop>
    ensures gives { Follows result (follow (S.has source.new) (block_rule_known asked.now.policy.now asked.now.blocks asked.now.id.now asked.now.date (Some member))) }
    ensures keeps { Gains S.one_by_one (S.has source.old) (S.has source.new) (block_rule_known asked.now.policy.now asked.now.blocks asked.now.id.now asked.now.date (Some member)) }
{
    let owes = owed_of(
        asked.alloc,
        source,
        &Draft::new(asked.alloc),
        member.patron.get().fees.as_slice(),
    )?;
    Ok(block_member(asked, member, owes)?)
}

#[tactic(auto, using(read_set::proofs::Gaining::gains_none, read_set::proofs::Gaining::gains_first))]
fn block_any<S: Source>(
    asked: &BlockAsked<'_>,
    member: Option<Member>,
    source: &mut S,
) -> Result<Effect, Stop>
    ensures gives { Follows result (follow (S.has source.new) (block_rule_known asked.now.policy.now asked.now.blocks asked.now.id.now asked.now.date member)) }
    ensures keeps { Gains S.one_by_one (S.has source.old) (S.has source.new) (block_rule_known asked.now.policy.now asked.now.blocks asked.now.id.now asked.now.date member) }
{
    match member {
        Some(member) => block_known(asked, member, source),
        None => {
            let answer = answer(asked, unknown_status(), None, Reason::UnknownPatron)?;
            Ok(Effect::unwritten(asked.alloc, Some(answer)))
        }
    }
}

/// Message 01, block patron, where `blocks` is true; else 25, patron enable.
#[tactic(auto, unfolding(read_set::specs::Blocks::block_rule), using(read_set::proofs::Gaining::gains_none, read_set::proofs::Gaining::gains_first, read_set::proofs::Following::follow_wants))]
pub fn block<S: Source>(
    alloc: Global,
    policy: &Policy,
    blocks: bool,
    id: &Id,
    date: Stamp,
    source: &mut S,
) -> Result<Effect, Stop>
    ensures gives { Follows result (follow (S.has source.new) (block_rule policy.now blocks id.now date)) }
    ensures means { IfOk result (λ e. (M : Map) → Agrees (S.has source.new) M → e ≡ block policy.now blocks id.now date M) }
    ensures keeps { Gains S.one_by_one (S.has source.old) (S.has source.new) (block_rule policy.now blocks id.now date) }
{
    let member = patron_of(alloc, policy, source, id)?;
    let asked = BlockAsked {
        alloc,
        policy,
        blocks,
        id,
        date,
    };
    block_any(&asked, member, source)
}
