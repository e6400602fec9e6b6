//! The tests that a request of a layout has to pass.

ghost use Rattle.std.specs.Prelude.{◌≡◌, [], length, unwrap_or};
ghost use Rattle.std.specs.List.{list_all};
ghost use Rattle.std.specs.Option.{option_and_then, option_copied};
ghost use Rattle.sip_reader.specs.Amounts.{amount_of};
ghost use Rattle.sip_reader.specs.Reading.{has_bad_amount, has_bad_field, has_bad_flag, is_hold_mode, is_yes_or_no, lacks_field, names_title};
ghost use Rattle.sip_reader.specs.Views.{texts_behind};

use crate::fields::Fields;
use crate::kind::FieldLayout;
use crate::{Amount, ID_MAX, TEXT_MAX};
use memchr::memchr2;

/// True exactly if a flag of this layout is neither Y nor N.
#[tactic(auto, unfolding(crate::specs::Reading::has_bad_flag))]
pub fn is_bad_flag(layout: &FieldLayout, flags: &[u8]) -> bool
    ensures { result ≡ has_bad_flag layout.now flags.now }
{
    if layout.hold_mode {
        !are_hold_modes(flags)
    } else {
        !are_yes_or_no(flags)
    }
}

fn are_yes_or_no(flags: &[u8]) -> bool
    ensures { result ≡ list_all is_yes_or_no flags.now }
{
    flags.iter().all(|b| *b == b'Y' || *b == b'N')
}

fn are_hold_modes(flags: &[u8]) -> bool
    ensures { result ≡ list_all is_hold_mode flags.now }
{
    flags.iter().all(|b| *b == b'+' || *b == b'-' || *b == b'*')
}

/// True exactly if the variable part has a CR or LF, a piece of one byte, or a field that is used
/// and too long.
#[tactic(auto, using(crate::proofs::Pieces::any_found), unfolding(crate::specs::Reading::has_bad_field))]
pub fn is_bad_field(layout: &FieldLayout, rest: &[u8], fields: &Fields<'_>) -> bool
    ensures { result ≡ has_bad_field layout.now rest.now (texts_behind fields.now) }
{
    memchr2(b'\r', b'\n', rest).is_some()
        || fields.short
        || layout.patron && len_of(fields.patron) > ID_MAX
        || layout.item && len_of(fields.item) > ID_MAX
        || layout.properties && len_of(fields.properties) > TEXT_MAX
        || layout.pickup && len_of(fields.pickup) > TEXT_MAX
}

/// The length of a text, 0 where it is missing.
fn len_of(text: Option<&[u8]>) -> usize
    ensures { result ≡ length (unwrap_or (option_copied text.entry) []) }
{
    match text {
        Some(text) => text.len(),
        None => 0,
    }
}

/// True exactly if a title names the item, in place of its id.
#[tactic(auto, unfolding(crate::specs::Reading::names_title))]
pub fn is_by_title(layout: &FieldLayout, fields: &Fields<'_>) -> bool
    ensures { result ≡ names_title layout.now (texts_behind fields.now) }
{
    layout.title && len_of(fields.item) == 0 && len_of(fields.title) > 0
}

/// True exactly if a required id is missing or empty, or a required amount is missing.
#[tactic(auto, unfolding(crate::specs::Reading::lacks_field))]
pub fn is_lacking(layout: &FieldLayout, fields: &Fields<'_>) -> bool
    ensures { result ≡ lacks_field layout.now (texts_behind fields.now) }
{
    layout.patron && len_of(fields.patron) == 0
        || layout.item && len_of(fields.item) == 0
        || layout.amount && fields.amount.is_none()
}

/// True exactly if a required amount doesn't spell one. Inlined, since few requests have an amount.
#[inline(always)]
#[tactic(auto, unfolding(crate::specs::Reading::has_bad_amount))]
pub fn is_bad_amount(layout: &FieldLayout, fields: &Fields<'_>) -> bool
    ensures { result ≡ has_bad_amount layout.now (texts_behind fields.now) }
{
    layout.amount && amount_in(fields.amount).is_none()
}

/// Gives the amount that a text spells; None if there is no text, or it spells none. Never inlined,
/// so that a request without one needs no stack for it.
#[inline(never)]
pub fn amount_in(text: Option<&[u8]>) -> Option<Amount>
    ensures { result ≡ option_and_then amount_of (option_copied text.entry) }
{
    match text {
        Some(text) => Amount::read(text),
        None => None,
    }
}
