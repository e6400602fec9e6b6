//! Lists of items, compared whatever their order.

ghost use Rattle.std.specs.Prelude.{◌≡◌, ◌&&◌, ◌==◌, ◌≤◌, ◌++◌, ℕ, List, IfOk, length, map, count_by, unwrap_or};
ghost use Rattle.std.specs.BTreeMap.{get_by};
ghost use Rattle.std.specs.Cmp.Lexicographic.{slice_cmp};
ghost use Rattle.std.specs.List.{list_all};
ghost use Rattle.std.specs.Ordering.{nat_cmp};
ghost use Rattle.std.specs.Str.{bytes_eq};
ghost use Rattle.sip_answer.specs.Differ.{are_same_items, times_in};

use crate::named_items::NamedItems;
use sip_reader::Id;
use std::alloc::{AllocError, Global};
use std::collections::BTreeMap;

/// True exactly if the texts are those of the ids, each as often, in whatever order. The error is
/// that memory ran out.
pub fn are_items(alloc: Global, ids: &[Id], items: &NamedItems) -> Result<bool, AllocError>
    ensures { IfOk result (λ r. r ≡ are_same_items ids.now items.now) }
{
    let ids = texts_of(alloc, ids)?;
    let items = items.to_slices(alloc)?;
    are_same_items(alloc, ids.as_slice(), items.as_slice())
}

fn texts_of<'a>(alloc: Global, ids: &'a [Id]) -> Result<Vec<&'a [u8]>, AllocError>
    ensures { IfOk result (λ v. map (λ x. x.now) v.items ≡ ids.now) }
{
    let mut texts = Vec::new(alloc);
    for id in ids {
        texts.push(id.as_bytes())?;
    }
    Ok(texts)
}

fn are_same_items(alloc: Global, xs: &[&[u8]], ys: &[&[u8]]) -> Result<bool, AllocError>
    ensures { IfOk result (λ r. r ≡ are_same_items (map (λ x. x.now) xs.now)
        (map (λ y. y.now) ys.now)) }
{
    let in_xs = tally(alloc, xs)?;
    let in_ys = tally(alloc, ys)?;
    let first = stand_alike(xs, &in_xs, &in_ys);
    let second = stand_alike(ys, &in_xs, &in_ys);
    Ok(both(first, second))
}

/// How often each item is in a list.
fn tally<'a>(alloc: Global, items: &[&'a [u8]]) -> Result<BTreeMap<&'a [u8], usize>, AllocError>
    ensures { IfOk result (λ m. (q : List ℕ)
        → unwrap_or (get_by (λ k. slice_cmp nat_cmp q k.now) m) 0
        ≡ count_by (λ x. bytes_eq q x.now) items.now) }
{
    let mut times = BTreeMap::new(alloc);
    for item in items {
        let before = times_of(&times, item);
        times.insert(*item, before + 1)?;
    }
    Ok(times)
}

fn times_of(times: &BTreeMap<&[u8], usize>, item: &[u8]) -> usize
    ensures { result ≡ unwrap_or (get_by (λ k. slice_cmp nat_cmp item.now k.now) times.now) 0 }
{
    match times.get(item) {
        Some(n) => *n,
        None => 0,
    }
}

fn both(first: bool, second: bool) -> bool
    ensures { result ≡ (first && second) }
{
    first && second
}

/// Whether both tallies have the same count of each of the items.
fn stand_alike(
    items: &[&[u8]],
    in_xs: &BTreeMap<&[u8], usize>,
    in_ys: &BTreeMap<&[u8], usize>,
) -> bool
    ensures { result ≡ list_all (λ item. unwrap_or (get_by (λ k. slice_cmp nat_cmp item.now k.now) in_xs.now) 0
        == unwrap_or (get_by (λ k. slice_cmp nat_cmp item.now k.now) in_ys.now) 0) items.now }
{
    items
        .iter()
        .all(|item| times_of(in_xs, item) == times_of(in_ys, item))
}
