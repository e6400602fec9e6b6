//! In what recorded responses differ from answers.

ghost use Rattle.std.specs.Prelude.{◌≡◌, ◌∷◌, [], IfOk};
ghost use Rattle.std.specs.Option.{option_map};
ghost use Rattle.sip_answer.specs.Differ.{differ, identifier_of, kind_answered, words_of};

mod items;
mod own_text;
mod responses;
mod words;

use crate::answer::Answer;
use crate::field::Field;
use crate::recorded::{RESEND, response_to, response_with};
pub(crate) use items::are_items;
pub use own_text::is_own_text;
pub(crate) use responses::is_same_fee;
use responses::{
    compare_checkin, compare_fee_paid, compare_hold, compare_item_status, compare_loan,
    compare_patron, compare_renew_all,
};
use sip_reader::Kind;
use std::alloc::{AllocError, Global};

/// Gives each word by which a recorded response differs from an answer, once, in the order of the
/// report's words; nothing if it agrees. `Missing`, `Unreadable` and `Kind` come alone. The
/// response may have error detection, whose sum isn't looked at, and any number of CR and LF after
/// it. The error is that memory ran out.
#[tactic(auto, unfolding(crate::specs::Differ::differ))]
pub fn differences(
    alloc: Global,
    answer: &Answer,
    recorded: &[u8],
) -> Result<Vec<Field>, AllocError>
    ensures { IfOk result (λ v. v.items ≡ differ answer.now recorded.now) }
{
    let response = match response_with(identifier(answer), recorded) {
        Ok(response) => response,
        Err(word) => return alone(alloc, word),
    };
    match compare(alloc, answer, response)? {
        Some(words) => Ok(words),
        None => alone(alloc, Field::Unreadable),
    }
}

/// The words for a response of the right kind; none where what is compared can't be read.
fn compare(
    alloc: Global,
    answer: &Answer,
    response: &[u8],
) -> Result<Option<Vec<Field>>, AllocError>
    ensures { IfOk result (λ w. option_map (λ v. v.items) w ≡ words_of answer.now response.now) }
{
    match answer {
        Answer::BlockPatron(a) => compare_patron(alloc, a, response),
        Answer::Checkin(a) => compare_checkin(alloc, a, response),
        Answer::Checkout(a) => compare_loan(alloc, a, response),
        Answer::Hold(a) => compare_hold(alloc, a, response),
        Answer::ItemStatus(a) => compare_item_status(alloc, a, response),
        Answer::PatronEnable(a) => compare_patron(alloc, a, response),
        Answer::Renew(a) => compare_loan(alloc, a, response),
        Answer::FeePaid(a) => compare_fee_paid(alloc, a, response),
        Answer::RenewAll(a) => compare_renew_all(alloc, a, response),
        Answer::Resend => Ok(Some(Vec::new(alloc))),
    }
}

fn alone(alloc: Global, field: Field) -> Result<Vec<Field>, AllocError>
    ensures { IfOk result (λ v. v.items ≡ field ∷ []) }
{
    let mut fields = Vec::new(alloc);
    fields.push(field)?;
    Ok(fields)
}

/// The identifier of the response.
pub fn identifier(answer: &Answer) -> &'static [u8; 2]
    ensures { result.now ≡ identifier_of answer.now }
{
    match kind_answered(answer) {
        Some(kind) => response_to(kind),
        None => RESEND,
    }
}

/// The kind of request that it answers.
fn kind_answered(answer: &Answer) -> Option<Kind>
    ensures { result ≡ kind_answered answer.now }
{
    match answer {
        Answer::BlockPatron(_) => Some(Kind::BlockPatron),
        Answer::Checkin(_) => Some(Kind::Checkin),
        Answer::Checkout(_) => Some(Kind::Checkout),
        Answer::Hold(_) => Some(Kind::Hold),
        Answer::ItemStatus(_) => Some(Kind::ItemStatus),
        Answer::PatronEnable(_) => Some(Kind::PatronEnable),
        Answer::Renew(_) => Some(Kind::Renew),
        Answer::FeePaid(_) => Some(Kind::FeePaid),
        Answer::RenewAll(_) => Some(Kind::RenewAll),
        Answer::Resend => None,
    }
}
