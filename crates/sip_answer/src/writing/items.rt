//! Answers about one item: item status update, checkin, hold.

ghost use Rattle.std.specs.Prelude.{◌≡◌, ◌++◌, OnOk, [], Some, None, is_some, codes, decimal};
ghost use Rattle.std.specs.Option.{option_copied, option_map, option_map_or};
ghost use Rattle.circ_policy.specs.Medias.{media_code};
ghost use Rattle.sip_answer.specs.Parts.{digit, field, filled, flag, given};
ghost use Rattle.sip_answer.specs.Texts.{checkin_text, hold_text, item_status_text, position_text};

use super::parts::{digit, flag, put_field, put_filled, put_id, put_text};
use crate::answer::{
    CheckinAnswer, HoldAnswer, ItemStatusAnswer, QueuePosition, ReturnedItem, TitledItem,
};
use itoa::Buffer;
use sip_reader::{Id, Text};
use std::alloc::AllocError;

/// Appends an item status update response, its fields in the profile's order.
pub fn put_item_status(out: &mut Vec<u8>, answer: &ItemStatusAnswer) -> Result<(), AllocError>
    ensures { OnOk result (out.new.items ≡ out.old.items ++ item_status_text answer.now) }
{
    out.extend_from_slice(&[b'2', b'0', digit(answer.known.is_some())])?;
    out.extend_from_slice(answer.date.as_bytes())?;
    put_id(out, b"AB", &answer.item)?;
    put_titled(out, &answer.known)
}

#[tactic(auto, unfolding(crate::specs::Parts::given, crate::specs::Parts::filled))]
fn put_titled(out: &mut Vec<u8>, known: &Option<TitledItem>) -> Result<(), AllocError>
    ensures { OnOk result (out.new.items ≡ out.old.items
        ++ given (codes "AJ") (option_map (λ i. i.title) known.now)
        ++ filled (codes "CH") (option_map_or (λ i. i.properties) known.now [])) }
{
    match known {
        Some(item) => {
            put_field(out, b"AJ", item.title.as_bytes())?;
            put_filled(out, b"CH", &item.properties)
        }
        None => Ok(()),
    }
}

/// Appends a checkin response, its fields in the profile's order.
pub fn put_checkin(out: &mut Vec<u8>, answer: &CheckinAnswer) -> Result<(), AllocError>
    ensures { OnOk result (out.new.items ≡ out.old.items ++ checkin_text answer.now) }
{
    let is_known = answer.known.is_some();
    let alert = flag(answer.alert);
    out.extend_from_slice(&[b'1', b'0', digit(is_known), flag(is_known), b'U', alert])?;
    out.extend_from_slice(answer.date.as_bytes())?;
    put_id(out, b"AO", &answer.institution)?;
    put_id(out, b"AB", &answer.item)?;
    put_returned(out, &answer.known, &answer.borrower)
}

/// What is shown of the item, with the borrower whose loan ended.
#[tactic(auto, unfolding(crate::specs::Parts::given, crate::specs::Parts::filled))]
fn put_returned(
    out: &mut Vec<u8>,
    known: &Option<ReturnedItem>,
    borrower: &Option<Id>,
) -> Result<(), AllocError>
    ensures { OnOk result (out.new.items ≡ out.old.items
        ++ field (codes "AQ") (option_map_or (λ i. i.location) known.now [])
        ++ given (codes "AJ") (option_map (λ i. i.title) known.now)
        ++ given (codes "AA") borrower.now
        ++ given (codes "CK") (option_map (λ i. media_code i.media) known.now)
        ++ filled (codes "CH") (option_map_or (λ i. i.properties) known.now [])) }
{
    match known {
        Some(item) => {
            put_text(out, b"AQ", &item.location)?;
            put_field(out, b"AJ", item.title.as_bytes())?;
            put_borrower(out, borrower)?;
            put_field(out, b"CK", &item.media.code())?;
            put_filled(out, b"CH", &item.properties)
        }
        None => {
            put_field(out, b"AQ", b"")?;
            put_borrower(out, borrower)
        }
    }
}

#[tactic(auto, unfolding(crate::specs::Parts::given))]
fn put_borrower(out: &mut Vec<u8>, borrower: &Option<Id>) -> Result<(), AllocError>
    ensures { OnOk result (out.new.items ≡ out.old.items ++ given (codes "AA") borrower.now) }
{
    match borrower {
        Some(patron) => put_id(out, b"AA", patron),
        None => Ok(()),
    }
}

/// Appends a hold response, its fields in the profile's order.
pub fn put_hold(out: &mut Vec<u8>, answer: &HoldAnswer) -> Result<(), AllocError>
    ensures { OnOk result (out.new.items ≡ out.old.items ++ hold_text answer.now) }
{
    out.extend_from_slice(&[b'1', b'6', digit(answer.ok), flag(answer.available)])?;
    out.extend_from_slice(answer.date.as_bytes())?;
    put_position(out, &answer.position)?;
    put_id(out, b"AO", &answer.institution)?;
    put_id(out, b"AA", &answer.patron)?;
    put_id(out, b"AB", &answer.item)?;
    put_title(out, &answer.title)
}

fn put_position(out: &mut Vec<u8>, position: &Option<QueuePosition>) -> Result<(), AllocError>
    ensures { OnOk result (out.new.items ≡ out.old.items
        ++ option_map_or position_text position.now []) }
{
    match position {
        Some(position) => {
            put_field(out, b"BR", Buffer::new().format(position.number).as_bytes())?;
            put_filled(out, b"BS", &position.pickup)
        }
        None => Ok(()),
    }
}

#[tactic(auto, unfolding(crate::specs::Parts::given))]
fn put_title(out: &mut Vec<u8>, title: &Option<Text>) -> Result<(), AllocError>
    ensures { OnOk result (out.new.items ≡ out.old.items ++ given (codes "AJ") title.now) }
{
    match title {
        Some(title) => put_field(out, b"AJ", title.as_bytes()),
        None => Ok(()),
    }
}
