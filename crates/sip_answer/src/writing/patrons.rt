//! Answers about patrons: block patron, patron enable, fee paid.

ghost use Rattle.std.specs.Prelude.{◌≡◌, ◌++◌, ◌∷◌, OnOk, [], is_some, codes};
ghost use Rattle.std.specs.Option.{option_map_or};
ghost use Rattle.sip_answer.specs.Parts.{field, flag, mark};
ghost use Rattle.sip_answer.specs.Texts.{fee_paid_text, owed_text, patron_text, status_text};

use super::parts::{flag, put_field, put_id, put_money};
use crate::answer::{FeePaidAnswer, KnownPatron, PatronAnswer, PatronStatus};
use std::alloc::AllocError;

/// Appends a patron status response, its fields in the profile's order and then what is owed.
pub fn put_block_patron(out: &mut Vec<u8>, answer: &PatronAnswer) -> Result<(), AllocError>
    ensures { OnOk result (out.new.items ≡ out.old.items
        ++ (patron_text (codes "24") answer.now ++ owed_text answer.now)) }
{
    put_patron(out, b"24", answer)?;
    match &answer.known {
        Some(patron) => put_money(out, &answer.currency, patron.owed.hundredths()),
        None => Ok(()),
    }
}

/// Appends a patron enable response, or the same under another identifier, its fields in the
/// profile's order.
pub fn put_patron(out: &mut Vec<u8>, id: &[u8], answer: &PatronAnswer) -> Result<(), AllocError>
    ensures { OnOk result (out.new.items ≡ out.old.items ++ patron_text id.now answer.now) }
{
    out.extend_from_slice(id)?;
    put_status_and_language(out, answer.status)?;
    out.extend_from_slice(answer.date.as_bytes())?;
    put_id(out, b"AO", &answer.institution)?;
    put_id(out, b"AA", &answer.patron)?;
    put_name(out, &answer.known)?;
    put_field(out, b"BL", &[flag(answer.known.is_some())])
}

fn put_name(out: &mut Vec<u8>, known: &Option<KnownPatron>) -> Result<(), AllocError>
    ensures { OnOk result (out.new.items ≡ out.old.items
        ++ field (codes "AE") (option_map_or (λ p. p.name) known.now [])) }
{
    match known {
        Some(patron) => put_field(out, b"AE", patron.name.as_bytes()),
        None => put_field(out, b"AE", b""),
    }
}

/// The fourteen positions of the status, and a language of three digits.
fn put_status_and_language(out: &mut Vec<u8>, status: PatronStatus) -> Result<(), AllocError>
    ensures { OnOk result (out.new.items ≡ out.old.items ++ status_text status ++ codes "000") }
{
    let mut text = *b"              000";
    text[0] = mark(status.charge_denied);
    text[1] = mark(status.renewal_denied);
    text[3] = mark(status.hold_denied);
    text[5] = mark(status.too_many_items);
    text[11] = mark(status.excessive_fees);
    out.extend_from_slice(&text)
}

/// A position that is set or not.
#[tactic(auto, unfolding(crate::specs::Parts::mark))]
fn mark(yes: bool) -> u8
    ensures { mark yes ≡ result ∷ [] }
{
    if yes { b'Y' } else { b' ' }
}

/// Appends a fee paid response, its fields in the profile's order.
pub fn put_fee_paid(out: &mut Vec<u8>, answer: &FeePaidAnswer) -> Result<(), AllocError>
    ensures { OnOk result (out.new.items ≡ out.old.items ++ fee_paid_text answer.now) }
{
    out.extend_from_slice(&[b'3', b'8', flag(answer.accepted)])?;
    out.extend_from_slice(answer.date.as_bytes())?;
    put_id(out, b"AO", &answer.institution)?;
    put_id(out, b"AA", &answer.patron)
}
