//! The reading of recorded responses.

ghost use Rattle.std.specs.Prelude.{◌≡◌, Ok, Err, IfOk, IfErr};
ghost use Rattle.sip_answer.specs.Responses.{body_with, response_to, response_with};

mod due_dates;
mod fields;
mod items;
mod responses;

use crate::field::Field;
pub use responses::{
    read_checkin, read_fee_paid, read_hold, read_item_status, read_loan, read_patron,
    read_renew_all,
};
use sip_reader::{Kind, unsummed, without_line_end};

/// The identifier of the wish to have a message again.
pub const RESEND: &[u8; 2] = b"96";

/// Gives the identifier that the standard has for the response to a request of this kind.
pub fn response_to(kind: Kind) -> &'static [u8; 2]
    ensures { result.now ≡ response_to kind }
{
    match kind {
        Kind::BlockPatron => b"24",
        Kind::Checkin => b"10",
        Kind::Checkout => b"12",
        Kind::Hold => b"16",
        Kind::ItemStatus => b"20",
        Kind::PatronEnable => b"26",
        Kind::Renew => b"30",
        Kind::FeePaid => b"38",
        Kind::RenewAll => b"66",
    }
}

/// Gives a recorded response with this identifier without its line end and error detection, whose
/// sum isn't looked at. The error is the word for what is there in its place: `Missing`,
/// `Unreadable` or `Kind`.
#[tactic(auto, unfolding(crate::specs::Responses::response_with))]
pub fn response_with<'a>(id: &[u8; 2], recorded: &'a [u8]) -> Result<&'a [u8], Field>
    ensures read { IfOk result (λ m. response_with id.now recorded.now ≡ Ok m.now) }
    ensures word { IfErr result (λ w. response_with id.now recorded.now ≡ Err w) }
{
    let recorded = without_line_end(recorded);
    if recorded.is_empty() {
        return Err(Field::Missing);
    }
    let (response, _) = unsummed(recorded);
    body_with(id, response)
}

#[tactic(auto, unfolding(crate::specs::Responses::body_with))]
fn body_with<'a>(id: &[u8; 2], response: &'a [u8]) -> Result<&'a [u8], Field>
    ensures read { IfOk result (λ m. body_with id.now response.now ≡ Ok m.now) }
    ensures word { IfErr result (λ w. body_with id.now response.now ≡ Err w) }
{
    if response.len() < 2 {
        return Err(Field::Unreadable);
    }
    if response[0] != id[0] || response[1] != id[1] {
        return Err(Field::Kind);
    }
    Ok(response)
}
