ghost use Rattle.std.specs.Prelude.{IfOk, IfErr, option_copied};
ghost use Rattle.read_set.specs.Meaning.{rule_of, rule_with};
ghost use Rattle.message_meaning.specs.Rules.{rule_at};
ghost use Rattle.read_set.specs.Asks.{follow, Gains};
ghost use Rattle.read_set.specs.Maps.{Map, Agrees};
ghost use Rattle.read_set.specs.Replay.{GivesAt};
ghost use Rattle.read_set.specs.Stops.{Follows, LacksAt};
ghost use Rattle.read_set.specs.Wanted.{WantsAt};

use crate::blocks::block;
use crate::holds::hold;
use crate::item_statuses::update;
use crate::payments::take_payment;
use crate::told::follow_told;
use loan_meaning::{LineContext, check_in, check_out, renew_all, renew_item};
use read_set::{Effect, Plan, Source, Stop};
use sip_answer::{Answer, Deed};
use sip_reader::{Act, Reading};
use std::alloc::Global;

/// What a line of a plan does, by the records that the source has. It asks for them in the order of the line's rule
/// (`specs/Rules`), and stops only where the source does, or out of memory. A line that the plan doesn't have does
/// nothing.
pub fn perform<S: Source>(
    alloc: Global,
    plan: &Plan,
    line: u64,
    source: &mut S,
) -> Result<Effect, Stop>
    ensures gives { IfOk result (λ e. (M : Map) → Agrees (S.has source.new) M → GivesAt plan.now line M e) }
    ensures order { Follows result (follow (S.has source.new) (rule_at plan.now line)) }
    ensures lacks { IfErr result (LacksAt (S.has source.new)) }
    ensures wanted { IfErr result (WantsAt plan.now line (S.has source.new)) }
    ensures keeps { Gains S.one_by_one (S.has source.old) (S.has source.new) (rule_at plan.now line) }
{
    follow_line(alloc, plan, line, source)
}

#[tactic(auto, unfolding(crate::specs::Rules::rule_at, read_set::specs::Meaning::rule), using(read_set::proofs::Gaining::gains_none))]
fn follow_line<S: Source>(
    alloc: Global,
    plan: &Plan,
    line: u64,
    source: &mut S,
) -> Result<Effect, Stop>
    ensures gives { Follows result (follow (S.has source.new) (rule_at plan.now line)) }
    ensures keeps { Gains S.one_by_one (S.has source.old) (S.has source.new) (rule_at plan.now line) }
{
    let Some(reading) = plan.reading(line) else {
        return Ok(Effect::unwritten(alloc, None));
    };
    let request = match reading {
        Reading::Asked(request) => request,
        Reading::BadSum => return Ok(Effect::unwritten(alloc, Some(Answer::Resend))),
        Reading::Passed(_) | Reading::Unread(_) => return Ok(Effect::unwritten(alloc, None)),
    };
    let context = LineContext {
        alloc,
        policy: plan.policy(),
        number: line,
        date: request.date,
    };
    follow_with(&context, &request.act, plan.deed(line), source)
}

/// By the rules, or as a deed of the line says.
#[tactic(auto, unfolding(read_set::specs::Meaning::rule_with), using(read_set::proofs::Gaining::gains_none))]
fn follow_with<S: Source>(
    line: &LineContext<'_>,
    act: &Act,
    deed: Option<&Deed>,
    source: &mut S,
) -> Result<Effect, Stop>
    ensures gives { Follows result (follow (S.has source.new) (rule_with line.now.policy.now line.now.number line.now.date act.now (option_copied deed.entry))) }
    ensures keeps { Gains S.one_by_one (S.has source.old) (S.has source.new) (rule_with line.now.policy.now line.now.number line.now.date act.now (option_copied deed.entry)) }
{
    // each arm returns: an effect is large, and as the value of the `match` it would be moved once more
    match deed {
        None => return follow_rules(line, act, source),
        Some(deed) => return follow_told(line, act, deed, source),
    }
}

/// What a request does by the rules.
#[tactic(auto, unfolding(read_set::specs::Meaning::rule_of), using(read_set::proofs::Gaining::gains_none))]
pub fn follow_rules<S: Source>(
    line: &LineContext<'_>,
    act: &Act,
    source: &mut S,
) -> Result<Effect, Stop>
    ensures gives { Follows result (follow (S.has source.new) (rule_of line.now.policy.now line.now.number line.now.date act.now)) }
    ensures keeps { Gains S.one_by_one (S.has source.old) (S.has source.new) (rule_of line.now.policy.now line.now.number line.now.date act.now) }
{
    let (alloc, policy, number, date) = (line.alloc, line.policy, line.number, line.date);
    match act {
        Act::BlockPatron(asked) => return block(alloc, policy, true, &asked.patron, date, source),
        Act::Checkin(asked) => return check_in(alloc, policy, number, asked, date, source),
        Act::Checkout(asked) => return check_out(alloc, policy, number, asked, date, source),
        Act::Hold(asked) => return hold(line, false, asked, source),
        Act::ItemStatus(asked) => return update(alloc, policy, asked, date, source),
        Act::PatronEnable(asked) => return block(alloc, policy, false, &asked.patron, date, source),
        Act::Renew(asked) => return renew_item(alloc, policy, number, asked, date, source),
        Act::FeePaid(asked) => return take_payment(alloc, policy, asked, date, source),
        Act::RenewAll(asked) => return renew_all(line, asked, None, source),
    }
}
