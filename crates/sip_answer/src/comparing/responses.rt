//! The words for each kind of response. None if what is compared can't be read.

ghost use Rattle.std.specs.Prelude.{◌≡◌, Some, IfOk, unwrap_or};
ghost use Rattle.std.specs.Option.{option_map};
ghost use Rattle.sip_answer.specs.declared.field.Field.TheVariants as words;
ghost use Rattle.sip_answer.specs.Responses.{checkin_in, fee_paid_in, hold_in, item_status_in, loan_in, patron_in, renew_all_in};
ghost use Rattle.sip_answer.specs.Differ.{capped, checkin_words, due_words, fee_paid_words, hold_words, is_same_fee, is_same_status, item_status_words, loan_words, patron_words, renew_all_words, word_unless};

use super::items::are_items;
use super::words::words_unless;
use crate::answer::{
    CheckinAnswer, FeePaidAnswer, HoldAnswer, ItemStatusAnswer, LoanAnswer, PatronAnswer,
    PatronStatus, RenewAllAnswer,
};
use crate::field::Field;
use crate::recorded::{
    read_checkin, read_fee_paid, read_hold, read_item_status, read_loan, read_patron,
    read_renew_all,
};
use crate::response::RenewAllResponse;
use crate::writing::COUNT_MAX;
use sip_reader::{Amount, Day};
use std::alloc::{AllocError, Global};

/// Gives the words by which a patron status response or a patron enable response differs; None if
/// it can't be read.
#[tactic(auto, unfolding(crate::specs::Differ::patron_words))]
pub fn compare_patron(
    alloc: Global,
    answer: &PatronAnswer,
    response: &[u8],
) -> Result<Option<Vec<Field>>, AllocError>
    ensures { IfOk result (λ w. option_map (λ v. v.items) w
        ≡ option_map (patron_words answer.now) (patron_in response.now)) }
{
    let Some(read) = read_patron(response) else {
        return Ok(None);
    };
    let compared = [
        (Field::Status, is_same_status(answer.status, read.status)),
        (Field::Valid, answer.known.is_some() == read.valid),
    ];
    words_unless(alloc, &compared)
}

/// Whether the positions 0, 1, 5 and 11 are set alike.
#[tactic(auto, unfolding(crate::specs::Differ::is_same_status))]
fn is_same_status(status: PatronStatus, read: PatronStatus) -> bool
    ensures { result ≡ is_same_status status read }
{
    status.charge_denied == read.charge_denied
        && status.renewal_denied == read.renewal_denied
        && status.too_many_items == read.too_many_items
        && status.excessive_fees == read.excessive_fees
}

/// Gives the words by which a checkin response differs; None if it can't be read.
#[tactic(auto, unfolding(crate::specs::Differ::checkin_words))]
pub fn compare_checkin(
    alloc: Global,
    answer: &CheckinAnswer,
    response: &[u8],
) -> Result<Option<Vec<Field>>, AllocError>
    ensures { IfOk result (λ w. option_map (λ v. v.items) w
        ≡ option_map (checkin_words answer.now) (checkin_in response.now)) }
{
    let Some(read) = read_checkin(response) else {
        return Ok(None);
    };
    let compared = [
        (Field::Ok, answer.known.is_some() == read.ok),
        (Field::Alert, answer.alert == read.alert),
    ];
    words_unless(alloc, &compared)
}

/// Gives the words by which a checkout response or a renew response differs; None if it can't be
/// read.
#[tactic(auto, unfolding(crate::specs::Differ::loan_words))]
pub fn compare_loan(
    alloc: Global,
    answer: &LoanAnswer,
    response: &[u8],
) -> Result<Option<Vec<Field>>, AllocError>
    ensures { IfOk result (λ w. option_map (λ v. v.items) w
        ≡ option_map (loan_words answer.now) (loan_in response.now)) }
{
    let Some(read) = read_loan(response) else {
        return Ok(None);
    };
    let compared = [
        (Field::Ok, answer.due.is_some() == read.ok),
        (Field::Due, is_same_due(answer.due, read.ok, read.due)),
        (Field::Fee, is_same_fee(answer.rental, read.fee)),
    ];
    words_unless(alloc, &compared)
}

/// Whether the due days are the same, which are compared where both oks are 1.
#[tactic(auto, unfolding(crate::specs::Differ::due_words, crate::specs::Differ::word_unless))]
fn is_same_due(due: Option<Day>, ok: bool, recorded: Option<Day>) -> bool
    ensures { due_words due ok recorded ≡ word_unless words.Due result }
{
    match (due, recorded) {
        (Some(day), Some(recorded)) => !ok || day.number() == recorded.number(),
        (Some(_), None) => !ok,
        (None, _) => true,
    }
}

/// True exactly if both are the same amount, of which none is 0.
pub fn is_same_fee(fee: Option<Amount>, recorded: Option<Amount>) -> bool
    ensures { result ≡ is_same_fee fee recorded }
{
    hundredths(fee) == hundredths(recorded)
}

fn hundredths(fee: Option<Amount>) -> u64
    ensures { result ≡ unwrap_or fee 0 }
{
    match fee {
        Some(amount) => amount.hundredths(),
        None => 0,
    }
}

/// Gives the words by which an item status update response differs; None if it can't be read.
#[tactic(auto, unfolding(crate::specs::Differ::item_status_words))]
pub fn compare_item_status(
    alloc: Global,
    answer: &ItemStatusAnswer,
    response: &[u8],
) -> Result<Option<Vec<Field>>, AllocError>
    ensures { IfOk result (λ w. option_map (λ v. v.items) w
        ≡ option_map (item_status_words answer.now) (item_status_in response.now)) }
{
    let Some(is_stored) = read_item_status(response) else {
        return Ok(None);
    };
    let compared = [(Field::Ok, answer.known.is_some() == is_stored)];
    words_unless(alloc, &compared)
}

/// Gives the words by which a fee paid response differs; None if it can't be read.
#[tactic(auto, unfolding(crate::specs::Differ::fee_paid_words))]
pub fn compare_fee_paid(
    alloc: Global,
    answer: &FeePaidAnswer,
    response: &[u8],
) -> Result<Option<Vec<Field>>, AllocError>
    ensures { IfOk result (λ w. option_map (λ v. v.items) w
        ≡ option_map (fee_paid_words answer.now) (fee_paid_in response.now)) }
{
    let Some(accepted) = read_fee_paid(response) else {
        return Ok(None);
    };
    let compared = [(Field::Accepted, answer.accepted == accepted)];
    words_unless(alloc, &compared)
}

/// Gives the words by which a renew all response differs; None if it can't be read.
pub fn compare_renew_all(
    alloc: Global,
    answer: &RenewAllAnswer,
    response: &[u8],
) -> Result<Option<Vec<Field>>, AllocError>
    ensures { IfOk result (λ w. option_map (λ v. v.items) w
        ≡ option_map (renew_all_words answer.now) (renew_all_in response.now)) }
{
    match read_renew_all(alloc, response)? {
        Some(read) => compare_lists(alloc, answer, &read),
        None => Ok(None),
    }
}

#[tactic(auto, unfolding(crate::specs::Differ::renew_all_words))]
fn compare_lists(
    alloc: Global,
    answer: &RenewAllAnswer,
    read: &RenewAllResponse,
) -> Result<Option<Vec<Field>>, AllocError>
    ensures { IfOk result (λ w. option_map (λ v. v.items) w
        ≡ Some (renew_all_words answer.now read.now)) }
{
    let made = answer.renewed.as_slice();
    let not_made = answer.unrenewed.as_slice();
    let as_made = are_items(alloc, made, &read.renewed_items)?;
    let as_not_made = are_items(alloc, not_made, &read.unrenewed_items)?;
    let compared = [
        (Field::Ok, answer.ok == read.ok),
        (Field::Renewed, capped(made.len()) == read.renewed),
        (Field::Unrenewed, capped(not_made.len()) == read.unrenewed),
        (Field::RenewedItems, as_made),
        (Field::UnrenewedItems, as_not_made),
    ];
    words_unless(alloc, &compared)
}

/// The number that a count has in four digits: 9,999 for a greater one.
fn capped(n: usize) -> usize
    ensures { result ≡ capped n }
{
    if n > COUNT_MAX { COUNT_MAX } else { n }
}

/// Gives the words by which a hold response differs; None if it can't be read.
#[tactic(auto, unfolding(crate::specs::Differ::hold_words))]
pub fn compare_hold(
    alloc: Global,
    answer: &HoldAnswer,
    response: &[u8],
) -> Result<Option<Vec<Field>>, AllocError>
    ensures { IfOk result (λ w. option_map (λ v. v.items) w
        ≡ option_map (hold_words answer.now) (hold_in response.now)) }
{
    let Some(read) = read_hold(response) else {
        return Ok(None);
    };
    let compared = [
        (Field::Ok, answer.ok == read.ok),
        (Field::Available, answer.available == read.available),
    ];
    words_unless(alloc, &compared)
}
