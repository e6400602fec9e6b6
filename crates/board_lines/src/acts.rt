//! The next act of a publication.

ghost use Rattle.std.specs.Prelude.{◌≡◌, map};
ghost use Rattle.std.specs.Bool.{Decides};
ghost use Rattle.std.specs.List.Sorted.{IsStrictlySortedBy};
ghost use Rattle.circ_records.specs.Keys.{key_cmp};
ghost use Rattle.board_steps.specs.Board.{Row};
ghost use Rattle.version_store.specs.Entries.{line_at};
ghost use Rattle.board_lines.specs.Acts.{IsAct, IsFirstApart, IsPlacedAt};
ghost use Rattle.board_lines.specs.Courses.{ComesTo, FirstPlaced};

use circ_records::{Key, Record};
use read_set::{PlanName, Version};
use version_store::EntryStore;

/// What a publication does next.
#[derive(Clone, Copy)]
pub(crate) enum PublishAct<'t> {
    /// Places the write at this key, which is borrowed from the version. Afterwards the first
    /// `count` writes are placed.
    Write(&'t Key, usize),
    /// Removes the entry at this key, which an earlier attempt left.
    Lift(&'t Key),
    /// Nothing: all is published.
    Finish,
}

/// The next act of the publication of a line's version. The first `placed` writes are placed
/// already, and aren't looked at again.
pub(crate) fn act_of<'t, J: PlanName>(
    entries: &EntryStore<'t, J>,
    line: u64,
    version: &'t Version<J>,
    placed: usize,
) -> PublishAct<'t>
    requires { FirstPlaced (line_at entries.now line) version.now.attempt version.now.writes placed }
    ensures act { (r : Row) → r.entries ≡ line_at entries.now line → IsAct r version.now result }
    ensures comes { ComesTo (line_at entries.now line) version.now result }
{
    let writes = version.writes();
    let attempt = version.attempt();
    if let Some(i) = next_write(entries, line, attempt, writes, placed) {
        return PublishAct::Write(&writes[i].0, i + 1);
    }
    match entries.left(line, attempt) {
        Some(key) => PublishAct::Lift(key),
        None => PublishAct::Finish,
    }
}

/// The index of the first write that has no entry of the attempt. The first `placed` writes have
/// one, and are skipped.
fn next_write<J: PlanName>(
    entries: &EntryStore<'_, J>,
    line: u64,
    attempt: u32,
    writes: &[(Key, Record)],
    placed: usize,
) -> Option<usize>
    requires rising { IsStrictlySortedBy key_cmp (map (λ e. e.0) writes.now) }
    requires placed { FirstPlaced (line_at entries.now line) attempt writes.now placed }
    ensures { IsFirstApart (line_at entries.now line) attempt writes.now result }
{
    // usually each entry is that of a placed write; then no other write has an entry, and no key is
    // looked up
    if placed < writes.len() && entries.count_of(line) <= placed {
        return Some(placed);
    }
    for i in placed..writes.len() {
        if !is_placed(entries, line, attempt, &writes[i].0) {
            return Some(i);
        }
    }
    None
}

/// Whether a line's entry at a key is of an attempt.
fn is_placed<J: PlanName>(entries: &EntryStore<'_, J>, line: u64, attempt: u32, key: &Key) -> bool
    ensures { Decides result (IsPlacedAt (line_at entries.now line) attempt key.now) }
{
    match entries.attempt_at(line, key) {
        Some(own) => own == attempt,
        None => false,
    }
}
