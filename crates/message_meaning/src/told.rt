//! What recorded responses say was done.

ghost use Rattle.std.specs.Prelude.{◌≡◌, IfOk, Some};
ghost use Rattle.read_set.specs.AsRecorded.{agrees_with, answering, carried, done_told, followed, loan_told, renewals_told};
ghost use Rattle.read_set.specs.Asks.{follow, Gains};
ghost use Rattle.read_set.specs.Meaning.{rule_with};
ghost use Rattle.read_set.specs.Stops.{Follows};

use crate::holds::hold;
use crate::lines::follow_rules;
use loan_meaning::{LineContext, check_out_told, renew_all, renew_item_told};
use read_set::{Effect, Source, Stop};
use sip_answer::{Answer, Deed, NamedItems, ToldLoan, agrees};
use sip_reader::Act;
use std::alloc::{AllocError, Global};

/// The rule's answer, on the records as they were before the line, and what the deed says was done.
#[tactic(auto, unfolding(read_set::specs::Meaning::rule_with), using(read_set::proofs::Gaining::gains_none))]
pub fn follow_told<S: Source>(
    line: &LineContext<'_>,
    act: &Act,
    deed: &Deed,
    source: &mut S,
) -> Result<Effect, Stop>
    ensures gives { Follows result (follow (S.has source.new) (rule_with line.now.policy.now line.now.number line.now.date act.now (Some deed.now))) }
    ensures keeps { Gains S.one_by_one (S.has source.old) (S.has source.new) (rule_with line.now.policy.now line.now.number line.now.date act.now (Some deed.now)) }
{
    let ruled = follow_rules(line, act, source)?;
    follow_up(line, act, deed, ruled, source)
}

/// If the rule's answer agrees with the deed, what the rule writes; else what was carried out.
#[tactic(auto, unfolding(read_set::specs::AsRecorded::followed), using(read_set::proofs::Gaining::gains_none))]
fn follow_up<S: Source>(
    line: &LineContext<'_>,
    act: &Act,
    deed: &Deed,
    ruled: Effect,
    source: &mut S,
) -> Result<Effect, Stop>
    ensures gives { Follows result (follow (S.has source.new) (followed line.now.policy.now line.now.number line.now.date act.now deed.now ruled)) }
    ensures keeps { Gains S.one_by_one (S.has source.old) (S.has source.new) (followed line.now.policy.now line.now.number line.now.date act.now deed.now ruled) }
{
    if agrees_with(line.alloc, &ruled.answer, deed)? {
        return Ok(ruled);
    }
    let done = carry_out(line, act, deed, source)?;
    Ok(answering(ruled.answer, done))
}

fn agrees_with(alloc: Global, answer: &Option<Answer>, deed: &Deed) -> Result<bool, AllocError>
    ensures { IfOk result (λ b. b ≡ agrees_with answer.now deed.now) }
{
    match answer {
        Some(answer) => agrees(alloc, answer, deed),
        None => Ok(false),
    }
}

/// What was carried out, with the rule's answer.
fn answering(answer: Option<Answer>, done: Effect) -> Effect
    ensures { result ≡ answering answer done }
{
    let mut done = done;
    done.answer = answer;
    done
}

/// What is carried out.
#[tactic(auto, unfolding(read_set::specs::AsRecorded::carried), using(read_set::proofs::Gaining::gains_none))]
fn carry_out<S: Source>(
    line: &LineContext<'_>,
    act: &Act,
    deed: &Deed,
    source: &mut S,
) -> Result<Effect, Stop>
    ensures gives { Follows result (follow (S.has source.new) (carried line.now.policy.now line.now.number line.now.date act.now deed.now)) }
    ensures keeps { Gains S.one_by_one (S.has source.old) (S.has source.new) (carried line.now.policy.now line.now.number line.now.date act.now deed.now) }
{
    match deed {
        Deed::NotTaken | Deed::Said(false) | Deed::Refused => {
            Ok(Effect::unwritten(line.alloc, None))
        }
        Deed::Said(true) => do_told(line, act, source),
        Deed::Lent(told) => lend_told(line, act, told, source),
        Deed::Renewed(named) => renew_told(line, act, named, source),
    }
}

/// A hold is added, deleted or changed; of the other requests nothing is left to do.
#[tactic(auto, unfolding(read_set::specs::AsRecorded::done_told), using(read_set::proofs::Gaining::gains_none))]
fn do_told<S: Source>(line: &LineContext<'_>, act: &Act, source: &mut S) -> Result<Effect, Stop>
    ensures gives { Follows result (follow (S.has source.new) (done_told line.now.policy.now line.now.date act.now)) }
    ensures keeps { Gains S.one_by_one (S.has source.old) (S.has source.new) (done_told line.now.policy.now line.now.date act.now) }
{
    match act {
        Act::Hold(asked) => hold(line, true, asked, source),
        _ => Ok(Effect::unwritten(line.alloc, None)),
    }
}

#[tactic(auto, unfolding(read_set::specs::AsRecorded::loan_told), using(read_set::proofs::Gaining::gains_none))]
fn lend_told<S: Source>(
    line: &LineContext<'_>,
    act: &Act,
    told: &ToldLoan,
    source: &mut S,
) -> Result<Effect, Stop>
    ensures gives { Follows result (follow (S.has source.new) (loan_told line.now.policy.now line.now.number line.now.date act.now told.now)) }
    ensures keeps { Gains S.one_by_one (S.has source.old) (S.has source.new) (loan_told line.now.policy.now line.now.number line.now.date act.now told.now) }
{
    match act {
        Act::Checkout(asked) => check_out_told(line, asked, told, source),
        Act::Renew(asked) => renew_item_told(line, asked, told, source),
        _ => Ok(Effect::unwritten(line.alloc, None)),
    }
}

#[tactic(auto, unfolding(read_set::specs::AsRecorded::renewals_told), using(read_set::proofs::Gaining::gains_none))]
fn renew_told<S: Source>(
    line: &LineContext<'_>,
    act: &Act,
    named: &NamedItems,
    source: &mut S,
) -> Result<Effect, Stop>
    ensures gives { Follows result (follow (S.has source.new) (renewals_told line.now.policy.now line.now.number line.now.date act.now named.now)) }
    ensures keeps { Gains S.one_by_one (S.has source.old) (S.has source.new) (renewals_told line.now.policy.now line.now.number line.now.date act.now named.now) }
{
    match act {
        Act::RenewAll(asked) => renew_all(line, asked, Some(named), source),
        _ => Ok(Effect::unwritten(line.alloc, None)),
    }
}
