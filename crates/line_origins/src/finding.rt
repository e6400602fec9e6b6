//! Records found in a source: the same in each map that has what the source has.

ghost use Rattle.std.specs.Prelude.{◌≡◌, IfOk};
ghost use Rattle.read_set.specs.Known.{item_in, patron_in};
ghost use Rattle.read_set.specs.Maps.{Map, Agrees, Grows};

use circ_policy::Policy;
use loan_meaning::{item_of, patron_of};
use read_set::{Article, Member, Source, Stop};
use sip_reader::Id;
use std::alloc::Global;

/// The patron of an id, where it is known.
#[tactic(auto, using(crate::proofs::Found::patron_means, crate::proofs::Found::gains_grow))]
pub fn find_patron<S: Source>(
    alloc: Global,
    policy: &Policy,
    source: &mut S,
    id: &Id,
) -> Result<Option<Member>, Stop>
    ensures means { IfOk result (λ m. (M : Map) → Agrees (S.has source.new) M → m ≡ patron_in policy.now M id.now) }
    ensures keeps { Grows (S.has source.old) (S.has source.new) }
{
    patron_of(alloc, policy, source, id)
}

/// The item of an id, where it is known.
#[tactic(auto, using(crate::proofs::Found::item_means, crate::proofs::Found::gains_grow))]
pub fn find_item<S: Source>(
    alloc: Global,
    policy: &Policy,
    source: &mut S,
    id: &Id,
) -> Result<Option<Article>, Stop>
    ensures means { IfOk result (λ a. (M : Map) → Agrees (S.has source.new) M → a ≡ item_in policy.now M id.now) }
    ensures keeps { Grows (S.has source.old) (S.has source.new) }
{
    item_of(alloc, policy, source, id)
}
