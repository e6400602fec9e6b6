//! What a patron owes while all of its items are renewed.

ghost use Rattle.std.specs.Prelude.{◌≡◌, IfOk, nat_eq, not};
ghost use Rattle.std.specs.List.{list_all, starts_with};
ghost use Rattle.loan_meaning.specs.Devices.Sums.{charged_by, none_begins_as_made, sum_with};

use crate::fees::nothing;
use read_set::Verdict;
use sip_reader::{Amount, Id};
use std::alloc::{AllocError, Global};

/// Whether no id of a list begins as those of the fees that a line makes: then these are new to the list, as they are on records of a
/// real moment.
pub fn are_new(alloc: Global, n: u64, fees: &[Id]) -> Result<bool, AllocError>
    ensures { IfOk result (λ new. new ≡ none_begins_as_made n fees.now) }
{
    let first = Id::of_fee(alloc, n, 0)?;
    let bytes = first.as_bytes();
    Ok(none_begins_with(&bytes[..bytes.len() - 1], fees))
}

fn none_begins_with(front: &[u8], ids: &[Id]) -> bool
    ensures { result ≡ list_all (λ id. not (starts_with nat_eq id front.now)) ids.now }
{
    ids.iter().all(|id| !id.as_bytes().starts_with(front))
}

/// What a turn charges.
pub fn charge_by(verdict: Verdict, rental: Amount) -> Amount
    ensures { result ≡ charged_by verdict rental }
{
    match verdict {
        Verdict::Made => rental,
        Verdict::Refused(_) => nothing(),
    }
}

/// What is owed with an amount more, where that is known without reading the fees.
pub fn owed_with(fresh: bool, amount: Amount, sum: Option<u128>) -> Option<u128>
    ensures { result ≡ sum_with fresh amount sum }
{
    let sum = sum?;
    let amount = amount.hundredths();
    if amount == 0 {
        Some(sum)
    } else if fresh {
        sum.checked_add(u128::from(amount))
    } else {
        None
    }
}
