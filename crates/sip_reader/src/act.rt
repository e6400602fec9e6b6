//! What a request asks, by its fixed part and its fields.

ghost use Rattle.std.specs.Prelude.{◌≡◌, ◌≤◌, [], IfOk, true, false, length, unwrap_or, slice_range};
ghost use Rattle.std.specs.Option.{is_none, option_and_then, option_copied};
ghost use Rattle.sip_reader.specs.Amounts.{amount_of};
ghost use Rattle.sip_reader.specs.Fits.{Fits};
ghost use Rattle.sip_reader.specs.Kinds.{layout_of};
ghost use Rattle.sip_reader.specs.Reading.{act_of, fixed_len, given_id, mode_of, says_yes};
ghost use Rattle.sip_reader.specs.Texts.{is_id, is_text};
ghost use Rattle.sip_reader.specs.Views.{texts_behind};
ghost use Rattle.sip_reader.specs.declared.request.Kind.TheVariants as kinds;

use crate::checks::amount_in;
use crate::fields::Fields;
use crate::stamp::day_in;
use crate::{
    Act, Amount, BlockPatron, Checkin, Checkout, Day, FeePaid, HoldMode, HoldRequest, Id,
    ItemStatus, Kind, PatronEnable, Renew, RenewAll, Stamp, Text,
};
use std::alloc::{AllocError, Global};

/// The act of a message that has passed the tests: of its kind, with the values of its fixed part
/// and of its first fields.
#[inline(always)]
pub fn asked_act(
    alloc: Global,
    kind: Kind,
    message: &[u8],
    fields: &Fields<'_>,
) -> Result<Act, AllocError>
    requires long { fixed_len (layout_of kind) ≤ length message.now }
    requires fits { Fits (layout_of kind) (texts_behind fields.now) }
    ensures { IfOk result (λ act. act ≡ act_of kind message.now (texts_behind fields.now)) }
{
    match kind {
        Kind::BlockPatron => block_patron(alloc, fields),
        Kind::Checkin => checkin(alloc, message, fields),
        Kind::Checkout => checkout(alloc, message, fields),
        Kind::Hold => hold(alloc, message, fields),
        Kind::ItemStatus => item_status(alloc, fields),
        Kind::PatronEnable => patron_enable(alloc, fields),
        Kind::Renew => renew(alloc, message, fields),
        Kind::FeePaid => fee_paid(alloc, message, fields),
        Kind::RenewAll => renew_all(alloc, fields),
    }
}

fn block_patron(alloc: Global, fields: &Fields<'_>) -> Result<Act, AllocError>
    requires { is_id (unwrap_or (texts_behind fields.now).patron []) ≡ true }
    ensures { IfOk result (λ act. act ≡ act_of kinds.BlockPatron [] (texts_behind fields.now)) }
{
    Ok(Act::BlockPatron(BlockPatron {
        patron: id_of(alloc, fields.patron)?,
    }))
}

fn checkin(alloc: Global, message: &[u8], fields: &Fields<'_>) -> Result<Act, AllocError>
    requires long { 39 ≤ length message.now }
    requires item { is_id (unwrap_or (texts_behind fields.now).item []) ≡ true }
    ensures { IfOk result (λ act. act ≡ act_of kinds.Checkin message.now
        (texts_behind fields.now)) }
{
    Ok(Act::Checkin(Checkin {
        back: day_in(&message[21..39]),
        item: id_of(alloc, fields.item)?,
        cancel: is_yes(fields.cancel),
    }))
}

fn checkout(alloc: Global, message: &[u8], fields: &Fields<'_>) -> Result<Act, AllocError>
    requires long { 40 ≤ length message.now }
    requires patron { is_id (unwrap_or (texts_behind fields.now).patron []) ≡ true }
    requires item { is_id (unwrap_or (texts_behind fields.now).item []) ≡ true }
    ensures { IfOk result (λ act. act ≡ act_of kinds.Checkout message.now
        (texts_behind fields.now)) }
{
    Ok(Act::Checkout(Checkout {
        renewal: message[2] == b'Y',
        no_block: message[3] == b'Y',
        due: day_in(&message[22..40]),
        patron: id_of(alloc, fields.patron)?,
        item: id_of(alloc, fields.item)?,
        cancel: is_yes(fields.cancel),
        agreed: is_yes(fields.agreed),
    }))
}

fn hold(alloc: Global, message: &[u8], fields: &Fields<'_>) -> Result<Act, AllocError>
    requires long { 3 ≤ length message.now }
    requires patron { is_id (unwrap_or (texts_behind fields.now).patron []) ≡ true }
    requires item { is_id (unwrap_or (texts_behind fields.now).item []) ≡ true }
    requires pickup { is_text (unwrap_or (texts_behind fields.now).pickup []) ≡ true }
    ensures { IfOk result (λ act. act ≡ act_of kinds.Hold message.now (texts_behind fields.now)) }
{
    let pickup = Text::new(alloc, fields.pickup.unwrap_or(&[]))?;
    Ok(Act::Hold(HoldRequest {
        mode: hold_mode(message[2]),
        patron: id_of(alloc, fields.patron)?,
        item: id_of(alloc, fields.item)?,
        pickup,
    }))
}

fn item_status(alloc: Global, fields: &Fields<'_>) -> Result<Act, AllocError>
    requires item { is_id (unwrap_or (texts_behind fields.now).item []) ≡ true }
    requires properties { is_text (unwrap_or (texts_behind fields.now).properties []) ≡ true }
    ensures { IfOk result (λ act. act ≡ act_of kinds.ItemStatus [] (texts_behind fields.now)) }
{
    let properties = match fields.properties {
        Some(text) => Some(Text::new(alloc, text)?),
        None => None,
    };
    Ok(Act::ItemStatus(ItemStatus {
        item: id_of(alloc, fields.item)?,
        properties,
    }))
}

fn patron_enable(alloc: Global, fields: &Fields<'_>) -> Result<Act, AllocError>
    requires { is_id (unwrap_or (texts_behind fields.now).patron []) ≡ true }
    ensures { IfOk result (λ act. act ≡ act_of kinds.PatronEnable [] (texts_behind fields.now)) }
{
    Ok(Act::PatronEnable(PatronEnable {
        patron: id_of(alloc, fields.patron)?,
    }))
}

fn renew(alloc: Global, message: &[u8], fields: &Fields<'_>) -> Result<Act, AllocError>
    requires long { 40 ≤ length message.now }
    requires patron { is_id (unwrap_or (texts_behind fields.now).patron []) ≡ true }
    requires item { is_id (unwrap_or (texts_behind fields.now).item []) ≡ true }
    ensures { IfOk result (λ act. act ≡ act_of kinds.Renew message.now (texts_behind fields.now)) }
{
    Ok(Act::Renew(Renew {
        third_party: message[2] == b'Y',
        no_block: message[3] == b'Y',
        due: day_in(&message[22..40]),
        patron: id_of(alloc, fields.patron)?,
        item: id_of(alloc, fields.item)?,
        agreed: is_yes(fields.agreed),
    }))
}

fn fee_paid(alloc: Global, message: &[u8], fields: &Fields<'_>) -> Result<Act, AllocError>
    requires long { 27 ≤ length message.now }
    requires patron { is_id (unwrap_or (texts_behind fields.now).patron []) ≡ true }
    requires amount { is_none (option_and_then amount_of (texts_behind fields.now).amount) ≡ false }
    ensures { IfOk result (λ act. act ≡ act_of kinds.FeePaid message.now
        (texts_behind fields.now)) }
{
    Ok(Act::FeePaid(FeePaid {
        patron: id_of(alloc, fields.patron)?,
        currency: [message[24], message[25], message[26]],
        amount: tested_amount(fields.amount),
        fee: given_fee(alloc, fields.fee)?,
    }))
}

fn renew_all(alloc: Global, fields: &Fields<'_>) -> Result<Act, AllocError>
    requires { is_id (unwrap_or (texts_behind fields.now).patron []) ≡ true }
    ensures { IfOk result (λ act. act ≡ act_of kinds.RenewAll [] (texts_behind fields.now)) }
{
    Ok(Act::RenewAll(RenewAll {
        patron: id_of(alloc, fields.patron)?,
        agreed: is_yes(fields.agreed),
    }))
}

/// The id that a tested field holds.
fn id_of(alloc: Global, text: Option<&[u8]>) -> Result<Id, AllocError>
    requires { is_id (unwrap_or (option_copied text) []) ≡ true }
    ensures { IfOk result (λ id. id ≡ unwrap_or (option_copied text.entry) []) }
{
    Id::of_valid(alloc, text.unwrap_or(&[]))
}

/// The amount that a tested field holds.
fn tested_amount(text: Option<&[u8]>) -> Amount
    requires { is_none (option_and_then amount_of (option_copied text)) ≡ false }
    ensures { result ≡ unwrap_or (option_and_then amount_of (option_copied text.entry)) 0 }
{
    amount_in(text).unwrap()
}

/// The fee that is meant, where its identifier has the length of an id.
fn given_fee(alloc: Global, text: Option<&[u8]>) -> Result<Option<Id>, AllocError>
    ensures { IfOk result (λ id. id ≡ given_id (option_copied text.entry)) }
{
    match text {
        Some(text) => Id::read(alloc, text),
        None => Ok(None),
    }
}

fn is_yes(text: Option<&[u8]>) -> bool
    ensures { result ≡ says_yes (option_copied text.entry) }
{
    match text {
        Some(text) => text.len() == 1 && text[0] == b'Y',
        None => false,
    }
}

fn hold_mode(b: u8) -> HoldMode
    ensures { result ≡ mode_of b }
{
    match b {
        b'+' => HoldMode::Add,
        b'-' => HoldMode::Delete,
        _ => HoldMode::Change,
    }
}
