//! How the values of a record are written in a row.

ghost use Rattle.std.specs.Prelude.{◌≡◌, IfOk};
ghost use Rattle.sip_reader.specs.Amounts as Amounts;
ghost use Rattle.record_tables.specs.RowTexts as RowTexts;

use sip_reader::{Amount, Day, push_amount};
use std::alloc::{AllocError, Global};

/// A flag: `Y` or `N`.
pub fn flag_text(flag: bool) -> [u8; 1]
    ensures { result ≡ RowTexts.flag_text flag }
{
    if flag { *b"Y" } else { *b"N" }
}

/// The eight digits of a day.
#[tactic(auto, using(crate::proofs::Calendar::parts_fit), unfolding(crate::specs::RowTexts::day_text))]
pub fn day_text(day: Day) -> [u8; 8]
    ensures { result ≡ RowTexts.day_text day }
{
    let (year, month, day) = day.parts();
    [
        b'0' + (year / 1000) as u8,
        b'0' + (year / 100 % 10) as u8,
        b'0' + (year / 10 % 10) as u8,
        b'0' + (year % 10) as u8,
        b'0' + month / 10,
        b'0' + month % 10,
        b'0' + day / 10,
        b'0' + day % 10,
    ]
}

/// An amount with its point and two digits after it.
pub(crate) fn amount_text(alloc: Global, amount: Amount) -> Result<Vec<u8>, AllocError>
    ensures { IfOk result (λ text. text.items ≡ Amounts.amount_text amount) }
{
    let mut text = Vec::new(alloc);
    push_amount(&mut text, u128::from(amount.hundredths()))?;
    Ok(text)
}
