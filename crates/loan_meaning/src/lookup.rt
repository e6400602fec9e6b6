//! Reading the records of ids.

ghost use Rattle.std.specs.Prelude.{◌≡◌};
ghost use Rattle.read_set.specs.Lookups.{patron_at, item_at, fee_at, borrower_at, ask_after};
ghost use Rattle.read_set.specs.Asks.{follow, Gains};
ghost use Rattle.read_set.specs.Stops.{Follows};

use circ_policy::Policy;
use circ_records::{Fee, Key, Loan, Record, Shared};
use read_set::{Article, Draft, Member, Source, Stop, known_fee, known_item, known_patron};
use sip_reader::Id;
use std::alloc::Global;

/// The patron of an id, where it is known.
#[inline(always)]
#[tactic(auto, unfolding(read_set::specs::Lookups::patron_at), using(read_set::proofs::Gaining::gains_ask))]
pub fn patron_of<S: Source>(
    alloc: Global,
    policy: &Policy,
    source: &mut S,
    id: &Id,
) -> Result<Option<Member>, Stop>
    ensures gives { Follows result (follow (S.has source.new) (patron_at policy.now id.now)) }
    ensures keeps { Gains S.one_by_one (S.has source.old) (S.has source.new) (patron_at policy.now id.now) }
{
    let found = source.read(alloc, &Key::Patron(id.clone()?))?;
    Ok(known_patron(policy, found))
}

/// The item that a request names, where it is known.
#[inline(always)]
#[tactic(auto, unfolding(read_set::specs::Lookups::item_at), using(read_set::proofs::Gaining::gains_ask))]
pub fn item_of<S: Source>(
    alloc: Global,
    policy: &Policy,
    source: &mut S,
    id: &Id,
) -> Result<Option<Article>, Stop>
    ensures gives { Follows result (follow (S.has source.new) (item_at policy.now id.now)) }
    ensures keeps { Gains S.one_by_one (S.has source.old) (S.has source.new) (item_at policy.now id.now) }
{
    let found = source.read(alloc, &Key::Item(id.clone()?))?;
    Ok(known_item(policy, found))
}

/// The fee of an id, where it has a record.
#[tactic(auto, unfolding(read_set::specs::Lookups::fee_at), using(read_set::proofs::Gaining::gains_ask))]
pub fn fee_of<S: Source>(
    alloc: Global,
    source: &mut S,
    id: &Id,
) -> Result<Option<Shared<Fee>>, Stop>
    ensures gives { Follows result (follow (S.has source.new) (fee_at id.now)) }
    ensures keeps { Gains S.one_by_one (S.has source.old) (S.has source.new) (fee_at id.now) }
{
    let found = source.read(alloc, &Key::Fee(id.clone()?))?;
    Ok(known_fee(found))
}

/// The patron who has a loan, where it is known.
#[tactic(auto, unfolding(read_set::specs::Lookups::borrower_at), using(read_set::proofs::Gaining::gains_none, read_set::proofs::Gaining::gains_first))]
pub fn borrower_of<S: Source>(
    alloc: Global,
    policy: &Policy,
    source: &mut S,
    loan: &Option<Loan>,
) -> Result<Option<Member>, Stop>
    ensures gives { Follows result (follow (S.has source.new) (borrower_at policy.now loan.now)) }
    ensures keeps { Gains S.one_by_one (S.has source.old) (S.has source.new) (borrower_at policy.now loan.now) }
{
    match loan {
        Some(loan) => patron_of(alloc, policy, source, &loan.patron),
        None => Ok(None),
    }
}

/// The record at a key after the writes so far.
#[tactic(auto, unfolding(read_set::specs::Lookups::ask_after), using(read_set::proofs::Gaining::gains_none, read_set::proofs::Gaining::gains_first))]
pub fn read_after<S: Source>(
    alloc: Global,
    source: &mut S,
    writes: &Draft,
    key: &Key,
) -> Result<Option<Record>, Stop>
    ensures gives { Follows result (follow (S.has source.new) (ask_after writes.now key.now)) }
    ensures keeps { Gains S.one_by_one (S.has source.old) (S.has source.new) (ask_after writes.now key.now) }
{
    match writes.get(key) {
        Some(found) => Ok(Some(found.copy()?)),
        None => source.read(alloc, key),
    }
}
