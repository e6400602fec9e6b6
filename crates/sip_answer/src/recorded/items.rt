//! The items that a recorded response names.

ghost use Rattle.std.specs.Prelude.{◌≡◌, IfOk};
ghost use Rattle.sip_answer.specs.Recorded.{items_in};

use super::fields::text_of;
use crate::named_items::NamedItems;
use std::alloc::{AllocError, Global};

/// Gives the texts of all fields with this identifier, in their order.
#[tactic(auto, unfolding(crate::specs::Recorded::items_in))]
pub fn items_in(alloc: Global, rest: &[u8], a: u8, b: u8) -> Result<NamedItems, AllocError>
    ensures { IfOk result (λ items. items ≡ items_in a b rest.now) }
{
    let mut items = NamedItems::new(alloc);
    for piece in rest.split(|b| *b == b'|') {
        match text_of(piece, a, b) {
            Some(text) => items.push(Vec::from_slice(alloc, text)?)?,
            None => {}
        }
    }
    Ok(items)
}
