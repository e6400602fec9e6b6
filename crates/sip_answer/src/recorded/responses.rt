//! The reading of each kind of response. None if what is compared can't be read.

ghost use Rattle.std.specs.Prelude.{◌≡◌, ◌≤◌, ◌<◌, ◌+◌, IfOk, length};
ghost use Rattle.sip_answer.specs.Responses.{checkin_in, fee_paid_in, hold_in, is_set, item_status_in, loan_in, patron_in, renew_all_in, status_in};

use super::due_dates::{day_of, has_slashes};
use super::fields::{count_at, due_and_fee, fee_of, flag_of, is_placed, ok_of, valid_in};
use super::items::items_in;
use crate::answer::PatronStatus;
use crate::response::{
    CheckinResponse, HoldResponse, LoanResponse, PatronResponse, RenewAllResponse,
};
use std::alloc::{AllocError, Global};

// The fixed parts of responses (SIP 2.00), each with its identifier.

/// Of a patron's status: a status of fourteen bytes, a language of three, a date.
const PATRON_FIXED: usize = 37;

/// Of a checkin, a checkout and a renewal: four flags, a date.
const LOAN_FIXED: usize = 24;

/// Of an item status update and a payment: one flag, a date.
const SHORT_FIXED: usize = 21;

/// Of a renewal of all items: a flag, two counts of four digits, a date.
const RENEW_ALL_FIXED: usize = 29;

/// Of a hold: two flags, a date.
const HOLD_FIXED: usize = 22;

// Where they say it, from the first byte of the identifier on.

/// Ok, or that a payment is accepted; the first byte of a patron status.
const OK_AT: usize = 2;

/// That a loan was renewed.
const RENEWAL_AT: usize = 3;

/// That a hold is available.
const AVAILABLE_AT: usize = 3;

/// The alert of a checkin, its last flag.
const ALERT_AT: usize = 5;

/// How many items a renewal of all items renewed.
const RENEWED_AT: usize = 3;

/// How many it did not.
const UNRENEWED_AT: usize = 7;

/// Reads a patron status response or a patron enable response; None if it has another form.
#[tactic(auto, unfolding(crate::specs::Responses::patron_in))]
pub fn read_patron(response: &[u8]) -> Option<PatronResponse>
    ensures { result ≡ patron_in response.now }
{
    if response.len() < PATRON_FIXED {
        return None;
    }
    let status = status_in(response);
    let (_, rest) = response.split_at(PATRON_FIXED);
    let valid = valid_in(rest);
    Some(PatronResponse { status, valid })
}

/// The positions of a patron status that can be set.
#[tactic(auto, unfolding(crate::specs::Responses::status_in))]
fn status_in(response: &[u8]) -> PatronStatus
    requires { PATRON_FIXED ≤ length response.now }
    ensures { result ≡ status_in response.now }
{
    PatronStatus {
        charge_denied: is_set(0, response),
        renewal_denied: is_set(1, response),
        hold_denied: is_set(3, response),
        too_many_items: is_set(5, response),
        excessive_fees: is_set(11, response),
    }
}

/// Whether a position of a patron status is set.
fn is_set(position: usize, response: &[u8]) -> bool
    requires { OK_AT + position < length response.now }
    ensures { result ≡ is_set position response.now }
{
    response[OK_AT + position] == b'Y'
}

/// Reads a checkin response; None if it has another form.
#[tactic(auto, unfolding(crate::specs::Responses::checkin_in))]
pub fn read_checkin(response: &[u8]) -> Option<CheckinResponse>
    ensures { result ≡ checkin_in response.now }
{
    if response.len() < LOAN_FIXED {
        return None;
    }
    let ok = ok_of(response[OK_AT])?;
    let alert = flag_of(response[ALERT_AT])?;
    let (_, rest) = response.split_at(LOAN_FIXED);
    let placed = !ok && is_placed(rest);
    Some(CheckinResponse { ok, alert, placed })
}

/// Reads a checkout response or a renew response; None if it has another form.
#[tactic(auto, unfolding(crate::specs::Responses::loan_in, crate::specs::Recorded::due_in, crate::specs::Recorded::fee_in, crate::specs::Recorded::slashed_in))]
pub fn read_loan(response: &[u8]) -> Option<LoanResponse>
    ensures { result ≡ loan_in response.now }
{
    if response.len() < LOAN_FIXED {
        return None;
    }
    let ok = ok_of(response[OK_AT])?;
    let renewal = response[RENEWAL_AT] == b'Y';
    let (_, rest) = response.split_at(LOAN_FIXED);
    let (due_date, amount) = due_and_fee(rest);
    let fee = fee_of(amount)?;
    let due = day_of(due_date);
    let slashed = has_slashes(due_date);
    Some(LoanResponse {
        ok,
        renewal,
        due,
        slashed,
        fee,
    })
}

/// Gives whether an item status update response says that the properties were stored; None if it
/// has another form.
#[tactic(auto, unfolding(crate::specs::Responses::item_status_in))]
pub fn read_item_status(response: &[u8]) -> Option<bool>
    ensures { result ≡ item_status_in response.now }
{
    if response.len() < SHORT_FIXED {
        return None;
    }
    Some(response[OK_AT] == b'1')
}

/// Gives whether a fee paid response says that the payment is accepted; None if it has another
/// form.
#[tactic(auto, unfolding(crate::specs::Responses::fee_paid_in))]
pub fn read_fee_paid(response: &[u8]) -> Option<bool>
    ensures { result ≡ fee_paid_in response.now }
{
    if response.len() < SHORT_FIXED {
        return None;
    }
    flag_of(response[OK_AT])
}

/// Reads a renew all response; None if it has another form. The error is that memory ran out.
#[tactic(auto, unfolding(crate::specs::Responses::renew_all_in))]
pub fn read_renew_all(
    alloc: Global,
    response: &[u8],
) -> Result<Option<RenewAllResponse>, AllocError>
    ensures { IfOk result (λ r. r ≡ renew_all_in response.now) }
{
    if response.len() < RENEW_ALL_FIXED {
        return Ok(None);
    }
    let Some(ok) = ok_of(response[OK_AT]) else {
        return Ok(None);
    };
    let Some(renewed) = count_at(RENEWED_AT, response) else {
        return Ok(None);
    };
    let Some(unrenewed) = count_at(UNRENEWED_AT, response) else {
        return Ok(None);
    };
    let (_, rest) = response.split_at(RENEW_ALL_FIXED);
    Ok(Some(RenewAllResponse {
        ok,
        renewed,
        unrenewed,
        renewed_items: items_in(alloc, rest, b'B', b'M')?,
        unrenewed_items: items_in(alloc, rest, b'B', b'N')?,
    }))
}

/// Reads a hold response; None if it has another form.
#[tactic(auto, unfolding(crate::specs::Responses::hold_in))]
pub fn read_hold(response: &[u8]) -> Option<HoldResponse>
    ensures { result ≡ hold_in response.now }
{
    if response.len() < HOLD_FIXED {
        return None;
    }
    let ok = ok_of(response[OK_AT])?;
    let available = flag_of(response[AVAILABLE_AT])?;
    Some(HoldResponse { ok, available })
}
