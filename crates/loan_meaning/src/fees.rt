//! What is owed, and what is charged.

ghost use Rattle.std.specs.Prelude.{◌≡◌, [], nat_lt, true, IfOk, OnOk, OnErr};
ghost use Rattle.read_set.specs.Owing.{owed_at, owed_from, owing_tests, owing_verdict};
ghost use Rattle.loan_meaning.specs.Devices.Sums.{IsKnown};
ghost use Rattle.read_set.specs.Asks.{follow, Gains};
ghost use Rattle.read_set.specs.Effects.{written};
ghost use Rattle.read_set.specs.Fees.{rest_of, fee_made, with_fee};
ghost use Rattle.read_set.specs.Stops.{Follows};

use crate::asked::LoanContext;
use crate::lookup::read_after;
use circ_records::{Fee, FeeType, Ids, Key, Patron, Record, Shared, put_fee};
use read_set::{Article, Draft, Member, Source, Stop, Verdict, known_fee};
use sip_answer::Reason;
use sip_reader::{Amount, Id};
use std::alloc::{AllocError, Global};

/// What is left to be paid of a fee, in hundredths; nothing where there is none.
#[tactic(auto, unfolding(read_set::specs::Fees::rest_of))]
pub fn rest_of(fee: Option<Shared<Fee>>) -> u64
    ensures { result ≡ rest_of fee }
{
    match fee {
        Some(fee) => {
            let fee = fee.get();
            fee.amount
                .hundredths()
                .saturating_sub(fee.paid.hundredths())
        }
        None => 0,
    }
}

/// What is owed over a list of fees, in hundredths, after the writes so far.
#[tactic(auto, unfolding(read_set::specs::Owing::owed_at), using(read_set::proofs::Gaining::gains_none, read_set::proofs::Gaining::gains_first))]
pub fn owed_of<S: Source>(
    alloc: Global,
    source: &mut S,
    writes: &Draft,
    fees: &[Id],
) -> Result<u128, Stop>
    ensures gives { Follows result (follow (S.has source.new) (owed_at writes.now fees.now)) }
    ensures keeps { Gains S.one_by_one (S.has source.old) (S.has source.new) (owed_at writes.now fees.now) }
{
    let mut sum: u128 = 0;
    for id in fees {
        let found = read_after(alloc, source, writes, &Key::Fee(id.clone()?))?;
        sum += u128::from(rest_of(known_fee(found)));
    }
    Ok(sum)
}

/// What a patron is charged, in hundredths, and for what.
#[derive(Clone, Copy)]
pub struct Charge<'c> {
    pub patron: &'c Id,
    pub kind: FeeType,
    pub amount: Amount,
}

/// A fee above 0 is written: the k-th of its line, counted from 0. Out of memory, nothing is written.
pub fn make_fee(
    alloc: Global,
    line: u64,
    k: u64,
    charge: &Charge<'_>,
    writes: &mut Draft,
) -> Result<(), AllocError>
    ensures ok { OnOk result (writes.new ≡ written writes.old (fee_made line k charge.now.patron.now charge.now.kind charge.now.amount)) }
    ensures err { OnErr result (writes.new ≡ writes.old) }
{
    if charge.amount.hundredths() > 0 {
        write_fee(alloc, line, k, charge, writes)
    } else {
        Ok(())
    }
}

/// The same for an amount above 0. Most loans and returns cost nothing, and then nothing is prepared for a fee.
fn write_fee(
    alloc: Global,
    line: u64,
    k: u64,
    charge: &Charge<'_>,
    writes: &mut Draft,
) -> Result<(), AllocError>
    requires { nat_lt 0 charge.now.amount ≡ true }
    ensures ok { OnOk result (writes.new ≡ written writes.old (fee_made line k charge.now.patron.now charge.now.kind charge.now.amount)) }
    ensures err { OnErr result (writes.new ≡ writes.old) }
{
    let fee = Fee {
        patron: charge.patron.clone()?,
        kind: charge.kind,
        amount: charge.amount,
        paid: nothing(),
    };
    writes.put(
        Key::Fee(Id::of_fee(alloc, line, k)?),
        Record::fee(alloc, fee)?,
    )
}

/// An amount of 0.
pub fn nothing() -> Amount
    ensures { result ≡ 0 }
{
    Amount::new(0).unwrap()
}

/// Appends the id of the k-th fee of a line to a patron's list, where the amount is above 0. Out of memory, the list stays as it was.
pub fn list_fee(
    alloc: Global,
    line: u64,
    k: u64,
    amount: Amount,
    fees: &mut Ids,
) -> Result<(), AllocError>
    ensures ok { OnOk result (fees.new ≡ with_fee line k amount fees.old) }
    ensures err { OnErr result (fees.new ≡ fees.old) }
{
    if amount.hundredths() > 0 {
        fees.push(alloc, Id::of_fee(alloc, line, k)?)?;
    }
    Ok(())
}

/// The same in the list of a patron's record. Out of memory, the record stays as it was.
pub fn list_fee_of(
    alloc: Global,
    line: u64,
    k: u64,
    amount: Amount,
    patron: &mut Shared<Patron>,
) -> Result<(), AllocError>
    ensures ok { OnOk result (patron.new ≡ record patron.old { fees = with_fee line k amount patron.old.fees }) }
    ensures err { OnErr result (patron.new ≡ patron.old) }
{
    if amount.hundredths() > 0 {
        put_fee(alloc, patron, Id::of_fee(alloc, line, k)?)?;
    }
    Ok(())
}

/// The last tests of a loan and of a renewal, by what is owed in hundredths.
#[tactic(auto, unfolding(read_set::specs::Owing::owing_verdict))]
fn owing(owes: u128, agreed: bool, member: &Member, article: &Article) -> Verdict
    ensures { result ≡ owing_verdict owes agreed member.now article.now }
{
    if owes > u128::from(member.class.max_fees.hundredths()) {
        Verdict::Refused(Reason::MaxFees)
    } else if article.media.rental.hundredths() > 0 && !agreed {
        Verdict::Refused(Reason::Rental)
    } else {
        Verdict::Made
    }
}

/// The last tests of a loan and of a renewal. What is owed is summed only where `sum` isn't known already, and then it is.
/// After an error the sum isn't needed again: the rule has ended.
#[tactic(auto, unfolding(read_set::specs::Owing::owing_tests), using(read_set::proofs::Gaining::gains_none, read_set::proofs::Gaining::gains_first, read_set::proofs::Following::follow_wants))]
pub fn test_owing<S: Source>(
    asked: &LoanContext<'_>,
    writes: &Draft,
    member: &Member,
    article: &Article,
    sum: &mut Option<u128>,
    source: &mut S,
) -> Result<Verdict, Stop>
    requires { IsKnown (S.has source.old) writes.now member.now.patron.fees sum.old }
    ensures gives { Follows result (follow (S.has source.new) (owing_tests writes.now asked.now.request.agreed member.now article.now)) }
    ensures keeps { Gains S.one_by_one (S.has source.old) (S.has source.new) (owing_tests writes.now asked.now.request.agreed member.now article.now) }
    ensures known { OnOk result (IsKnown (S.has source.new) writes.now member.now.patron.fees sum.new) }
{
    let agreed = asked.request.agreed;
    if let Some(owes) = *sum {
        return Ok(owing(owes, agreed, member, article));
    }
    let fees = member.patron.get().fees.as_slice();
    let owes = owed_of(asked.alloc, source, writes, fees)?;
    *sum = Some(owes);
    Ok(owing(owes, agreed, member, article))
}
