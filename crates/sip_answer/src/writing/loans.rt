//! Answers about loans: checkout, renew, renew all.

ghost use Rattle.std.specs.Prelude.{◌≡◌, ◌++◌, OnOk, [], is_some, codes, length};
ghost use Rattle.std.specs.Option.{option_map, option_map_or};
ghost use Rattle.circ_policy.specs.Medias.{media_code};
ghost use Rattle.sip_answer.specs.DueDates.{due_text};
ghost use Rattle.sip_answer.specs.Parts.{count, digit, each, field, filled, flag, given};
ghost use Rattle.sip_answer.specs.Texts.{loan_text, money, renew_all_text};

use super::dates::{put_due, two_digits};
use super::parts::{COUNT_MAX, digit, flag, put_field, put_filled, put_id, put_money};
use crate::answer::{KnownItem, LoanAnswer, RenewAllAnswer};
use sip_reader::Id;
use std::alloc::AllocError;

/// Appends a checkout response or a renew response, by its identifier, its fields in the profile's
/// order.
pub fn put_loan(out: &mut Vec<u8>, id: &[u8], answer: &LoanAnswer) -> Result<(), AllocError>
    ensures { OnOk result (out.new.items ≡ out.old.items ++ loan_text id.now answer.now) }
{
    let is_made = answer.due.is_some();
    out.extend_from_slice(id)?;
    out.extend_from_slice(&[digit(is_made), flag(answer.renewed), b'U', flag(is_made)])?;
    out.extend_from_slice(answer.date.as_bytes())?;
    put_id(out, b"AO", &answer.institution)?;
    put_id(out, b"AA", &answer.patron)?;
    put_id(out, b"AB", &answer.item)?;
    match &answer.known {
        Some(item) => put_field(out, b"AJ", item.title.as_bytes())?,
        None => put_field(out, b"AJ", b"")?,
    }
    put_due(out, answer.due_form, answer.due)?;
    if let Some(rental) = answer.rental {
        put_field(out, b"BT", b"06")?;
        put_money(out, &answer.currency, u128::from(rental.hundredths()))?;
    }
    put_shown(out, &answer.known)?;
    Ok(())
}

#[tactic(auto, unfolding(crate::specs::Parts::given, crate::specs::Parts::filled))]
fn put_shown(out: &mut Vec<u8>, known: &Option<KnownItem>) -> Result<(), AllocError>
    ensures { OnOk result (out.new.items ≡ out.old.items
        ++ given (codes "CK") (option_map (λ i. media_code i.media) known.now)
        ++ filled (codes "CH") (option_map_or (λ i. i.properties) known.now [])) }
{
    match known {
        Some(item) => {
            put_field(out, b"CK", &item.media.code())?;
            put_filled(out, b"CH", &item.properties)
        }
        None => Ok(()),
    }
}

/// Appends a renew all response, its fields in the profile's order.
pub fn put_renew_all(out: &mut Vec<u8>, answer: &RenewAllAnswer) -> Result<(), AllocError>
    ensures { OnOk result (out.new.items ≡ out.old.items ++ renew_all_text answer.now) }
{
    let renewed = answer.renewed.as_slice();
    let unrenewed = answer.unrenewed.as_slice();
    out.extend_from_slice(&[b'6', b'6', digit(answer.ok)])?;
    put_counts(out, renewed.len(), unrenewed.len())?;
    out.extend_from_slice(answer.date.as_bytes())?;
    put_id(out, b"AO", &answer.institution)?;
    put_each(out, b"BM", renewed)?;
    put_each(out, b"BN", unrenewed)
}

fn put_counts(out: &mut Vec<u8>, renewed: usize, unrenewed: usize) -> Result<(), AllocError>
    ensures { OnOk result (out.new.items ≡ out.old.items ++ count renewed ++ count unrenewed) }
{
    out.extend_from_slice(&count(renewed))?;
    out.extend_from_slice(&count(unrenewed))
}

/// A count of four digits.
#[tactic(auto, unfolding(crate::specs::Parts::count, crate::specs::DueDates::four_digits))]
fn count(n: usize) -> [u8; 4]
    ensures { result ≡ count n }
{
    if n > COUNT_MAX {
        *b"9999"
    } else {
        let [a, b] = two_digits((n / 100) as u16);
        let [c, d] = two_digits((n % 100) as u16);
        [a, b, c, d]
    }
}

#[tactic(auto, unfolding(crate::specs::Parts::each))]
fn put_each(out: &mut Vec<u8>, id: &[u8; 2], items: &[Id]) -> Result<(), AllocError>
    ensures { OnOk result (out.new.items ≡ out.old.items ++ each id.now items.now) }
{
    for item in items {
        put_field(out, id, item.as_bytes())?;
    }
    Ok(())
}
