ghost use Rattle.std.specs.Prelude.{◌≡◌, ◌++◌, [], Some, IfOk};
ghost use Rattle.std.specs.List.{flat_map};
ghost use Rattle.std.specs.Option.{option_map};
ghost use Rattle.sip_answer.specs.Differ.{word_unless};

use crate::field::Field;
use std::alloc::{AllocError, Global};

/// Gives exactly the words of those that don't agree, in their order: the result for a response
/// that can be read.
#[tactic(auto, unfolding(crate::specs::Differ::word_unless))]
pub fn words_unless(
    alloc: Global,
    compared: &[(Field, bool)],
) -> Result<Option<Vec<Field>>, AllocError>
    ensures { IfOk result (λ w. option_map (λ v. v.items) w
        ≡ Some (flat_map (λ c. word_unless c.0 c.1) compared.now)) }
{
    let mut words = Vec::new(alloc);
    for (word, agree) in compared {
        if !agree {
            words.push(*word)?;
        }
    }
    Ok(Some(words))
}
