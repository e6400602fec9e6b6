//! Lists of ids and queues of holds.

ghost use Rattle.std.specs.Prelude.{◌≡◌, ◌∷◌, [], ℕ, List, false, IfOk};
ghost use Rattle.std.specs.BTreeSet.{contains};
ghost use Rattle.std.specs.Cmp.Lexicographic.{slice_cmp};
ghost use Rattle.std.specs.Ordering.{nat_cmp};
ghost use Rattle.read_set.specs.Ids.{same, has_id, without, without_all};
ghost use Rattle.read_set.specs.Queues.{position_from, waits, has_queue, first_is_another, without_hold, with_pickup};

use circ_records::{Hold, Holds, Ids};
use sip_reader::{Id, Text};
use std::alloc::{AllocError, Global};
use std::collections::BTreeSet;

/// The list without an id, at each of its positions.
pub fn without(alloc: Global, ids: &Ids, id: &Id) -> Result<Ids, AllocError>
    ensures { IfOk result (λ left. left ≡ without id.now ids.now) }
{
    match ids.as_slice() {
        [only] => without_of_one(ids, only, id),
        [first, second] => without_of_two(alloc, ids, first, second, id),
        ids => {
            let kept = kept(alloc, ids, id)?;
            Ids::from_vec(alloc, kept)
        }
    }
}

/// What is left of a list of one id. Most lists have no more than one or two, so they are made without a vector.
fn without_of_one(ids: &Ids, only: &Id, id: &Id) -> Result<Ids, AllocError>
    requires { ids.now ≡ only.now ∷ [] }
    ensures { IfOk result (λ left. left ≡ without id.now ids.now) }
{
    if only == id {
        Ok(Ids::new())
    } else {
        ids.copy()
    }
}

/// What is left of a list of two ids.
fn without_of_two(
    alloc: Global,
    ids: &Ids,
    first: &Id,
    second: &Id,
    id: &Id,
) -> Result<Ids, AllocError>
    requires { ids.now ≡ first.now ∷ second.now ∷ [] }
    ensures { IfOk result (λ left. left ≡ without id.now ids.now) }
{
    match (first == id, second == id) {
        (true, true) => Ok(Ids::new()),
        (true, false) => Ids::one(alloc, second.clone()?),
        (false, true) => Ids::one(alloc, first.clone()?),
        (false, false) => ids.copy(),
    }
}

fn kept(alloc: Global, ids: &[Id], id: &Id) -> Result<Vec<Id>, AllocError>
    ensures { IfOk result (λ v. v.items ≡ without id.now ids.now) }
{
    let mut kept = Vec::new(alloc);
    for other in ids {
        if other != id {
            kept.push(other.clone()?)?;
        }
    }
    Ok(kept)
}

/// Whether an id is in a list.
pub fn has_id(ids: &[Id], id: &Id) -> bool
    ensures { result ≡ has_id id.now ids.now }
{
    ids.iter().any(|other| other == id)
}

/// The list without each id of another.
pub fn without_all(alloc: Global, ids: &Ids, gone: &[Id]) -> Result<Ids, AllocError>
    ensures { IfOk result (λ left. left ≡ without_all gone.now ids.now) }
{
    let all = set_of(alloc, gone)?;
    let mut kept = Vec::new(alloc);
    for other in ids.as_slice() {
        if !all.contains(other) {
            kept.push(other.clone()?)?;
        }
    }
    Ids::from_vec(alloc, kept)
}

fn set_of(alloc: Global, ids: &[Id]) -> Result<BTreeSet<Id>, AllocError>
    ensures { IfOk result (λ s. (q : List ℕ) → contains (slice_cmp nat_cmp) s q ≡ has_id q ids.now) }
{
    let mut set = BTreeSet::new(alloc);
    for id in ids {
        set.insert(id.clone()?)?;
    }
    Ok(set)
}

/// Whether somebody waits.
pub fn has_queue(holds: &[Hold]) -> bool
    ensures { result ≡ has_queue holds.now }
{
    !holds.is_empty()
}

/// Whether the first entry is another's.
pub fn is_first_another(holds: &[Hold], patron: &Id) -> bool
    ensures { result ≡ first_is_another patron.now holds.now }
{
    if holds.is_empty() {
        false
    } else {
        holds[0].patron != *patron
    }
}

/// Whether a patron waits.
pub fn waits(holds: &[Hold], patron: &Id) -> bool
    ensures { result ≡ waits patron.now holds.now }
{
    holds.iter().any(|hold| hold.patron == *patron)
}

/// A patron's position in the queue, counted from 1.
pub fn position(holds: &[Hold], patron: &Id) -> Option<usize>
    ensures { result ≡ position_from 1 patron.now holds.now }
{
    for (i, hold) in holds.iter().enumerate() {
        if hold.patron == *patron {
            return Some(i + 1);
        }
    }
    None
}

/// The queue without a patron's entry.
pub fn without_hold(alloc: Global, holds: &Holds, patron: &Id) -> Result<Holds, AllocError>
    ensures { IfOk result (λ h. h ≡ without_hold patron.now holds.now) }
{
    let mut kept = Vec::new(alloc);
    let mut found = false;
    for hold in holds.as_slice() {
        if !found && hold.patron == *patron {
            found = true;
        } else {
            kept.push(hold.clone()?)?;
        }
    }
    Ok(Holds::from_vec(kept))
}

/// The queue with another pickup in a patron's entry.
pub fn with_pickup(
    alloc: Global,
    holds: &Holds,
    patron: &Id,
    pickup: &Text,
) -> Result<Holds, AllocError>
    ensures { IfOk result (λ h. h ≡ with_pickup patron.now pickup.now holds.now) }
{
    let mut kept = Vec::new(alloc);
    let mut found = false;
    for hold in holds.as_slice() {
        let mut hold = hold.clone()?;
        if !found && hold.patron == *patron {
            found = true;
            hold.pickup = pickup.clone()?;
        }
        kept.push(hold)?;
    }
    Ok(Holds::from_vec(kept))
}
