//! Two stores get the same calls and give the same replies: that of the board, and a plain list of
//! entries.

ghost use Rattle.std.specs.Prelude.{◌≡◌};
ghost use Rattle.read_set.specs.Plans.{no_plan};
ghost use Rattle.version_store.specs.Entries.{HasLines};

use crate::books::entries::{EARLY, LIFTED, STALE};
use crate::calls::{number, parts_of};
use crate::odd::key_of;
use crate::plain::PlainStore;
use crate::told::tell_found;
use circ_records::Key;
use read_set::{Name, Notes, PlanName, Version, Writes};
use std::alloc::{AllocError, Global};
use std::marker::Brand;
use std::process::Abort;
use std::sync::Wait;
use std::test::Fail;
use version_store::{EntryStore, Found, Place, VersionTable};

/// The keys that the calls name by their numbers: a patron's, an item's and a fee's, in their
/// order.
fn keys_of(alloc: Global) -> Result<Vec<Key>, AllocError> {
    let mut keys = Vec::new(alloc);
    for id in ["P1", "I1", "F1"] {
        if let Some(key) = key_of(alloc, id)? {
            keys.push(key)?;
        }
    }
    Ok(keys)
}

/// The place of a version of a line that a plan of nothing lacks: it reads, writes and answers
/// nothing.
fn place_for<'t, J: PlanName, R: Wait + AllocGlobal + Abort>(
    rt: &R,
    table: &'t VersionTable<J>,
    line: u64,
    attempt: u32,
) -> Place<'t, J>
    requires { J.plan ≡ no_plan }
{
    let reads = Notes::new(rt.alloc());
    let writes = Writes::none(rt.alloc());
    let version = Version::new(line, attempt, reads, writes, None);
    table.put(rt, version).ok().expect(rt, "a place")
}

/// Whether both stores say the same of each line, also of lines that aren't there.
fn agree<J: PlanName>(store: &EntryStore<'_, J>, plain: &PlainStore, keys: &[Key]) -> bool {
    for line in 0..6 {
        if !agree_of(store, plain, keys, line) {
            return false;
        }
    }
    true
}

/// Whether a line sees the same in both at each key, and has entries at the same keys, in their
/// order, of the same attempts.
fn agree_of<J: PlanName>(
    store: &EntryStore<'_, J>,
    plain: &PlainStore,
    keys: &[Key],
    line: u64,
) -> bool {
    let mut count: usize = 0;
    for (i, key) in keys.iter().enumerate() {
        let name = plain.name(i, line);
        if name != store.name(key, line) || name != seen(store, key, line) {
            return false;
        }
        if let Some(attempt) = plain.attempt_at(line, i) {
            if store.keys_of(line, count) != Some((key, attempt)) {
                return false;
            }
            count = count.saturating_add(1);
        }
    }
    store.keys_of(line, count).is_none()
}

/// The name of the entry that a line sees.
fn seen<J: PlanName>(store: &EntryStore<'_, J>, key: &Key, line: u64) -> Found {
    match store.see(key, line) {
        None => Found::Named(Name::Base),
        Some((line, made)) if made.suspect => Found::Suspect { line },
        Some((line, made)) => Found::Named(Name::Made {
            line,
            attempt: made.attempt,
        }),
    }
}

/// A call of both stores, of lines 1 to 4.
fn call<'t, J: PlanName, R: Wait + AllocGlobal + Abort>(
    rt: &R,
    table: &'t VersionTable<J>,
    keys: &'t [Key],
    store: &mut EntryStore<'t, J>,
    plain: &mut PlainStore,
    words: &str,
) -> Result<(), AllocError>
    requires named { J.plan ≡ no_plan }
    requires lines { HasLines 1 4 store.old }
    ensures { HasLines 1 4 store.new }
{
    let (word, of, i) = parts_of(words);
    let (line, attempt) = of.split_once('.').unwrap_or((of, "0"));
    let attempt = attempt.parse::<u32>().unwrap_or(0);
    let line = 1 + number(line).saturating_sub(1) % 4;
    let i = i.parse::<usize>().unwrap_or(0);
    let key = keys.get(i).expect(rt, "a key");
    match word {
        "place" => {
            let place = place_for(rt, table, line, attempt);
            store.place(rt.alloc(), line, attempt, key, place)?;
            plain.place(line, attempt, i)
        }
        "lift" => {
            store.lift(line, key);
            plain.lift(line, i);
            Ok(())
        }
        _ => {
            store.suspect_all(line);
            plain.suspect_all(line);
            Ok(())
        }
    }
}

/// What a line sees.
fn tell_seen<J: PlanName>(
    store: &EntryStore<'_, J>,
    keys: &[Key],
    words: &str,
    out: &mut String,
) -> Result<(), AllocError> {
    let (_, line, i) = parts_of(words);
    out.push_str(words)?;
    out.push_str(" = ")?;
    if let Some(key) = keys.get(i.parse::<usize>().unwrap_or(0)) {
        tell_found(out, store.name(key, number(line)))?;
    }
    out.push_str("\n")
}

/// Makes the calls of a script, and says what lines see.
fn play<'t, J: PlanName, R: Wait + AllocGlobal + Abort>(
    rt: &R,
    table: &'t VersionTable<J>,
    keys: &'t [Key],
    store: &mut EntryStore<'t, J>,
    script: &str,
    out: &mut String,
) -> Result<(), AllocError>
    requires named { J.plan ≡ no_plan }
    requires lines { HasLines 1 4 store.old }
{
    let mut plain = PlainStore::new(rt.alloc());
    for line in script.split('\n') {
        if let Some((see, _)) = line.split_once(" = ") {
            tell_seen(store, keys, see, out)?;
        } else if !line.is_empty() {
            call(rt, table, keys, store, &mut plain, line)?;
            out.push_str(line)?;
            out.push_str("\n")?;
        }
        assert!(rt; agree(store, &plain, keys));
    }
    Ok(())
}

#[test]
fn both_stores_agree(rt: HostRuntime) -> Result<(), Fail> {
    let keys = keys_of(rt.alloc())?;
    for script in [EARLY, STALE, LIFTED] {
        let mut out = String::new(rt.alloc());
        assert!(rt;
            play_on_both::<Brand, HostRuntime>(&rt, keys.as_slice(), script, &mut out).is_ok()
        );
        assert_eq!(rt; out.as_str(), script);
    }
    Ok(())
}

/// Plays a script on new stores.
fn play_on_both<J: PlanName, R: Wait + AllocGlobal + Abort>(
    rt: &R,
    keys: &[Key],
    script: &str,
    out: &mut String,
) -> Result<(), AllocError>
    requires { J.plan ≡ no_plan }
{
    let table: VersionTable<J> = VersionTable::new(rt.alloc())?;
    let mut store = EntryStore::new(rt.alloc(), 1, 4)?;
    play(rt, &table, keys, &mut store, script, out)
}
