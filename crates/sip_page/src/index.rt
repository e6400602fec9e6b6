//! Tables of how many wrong responses there are of each word, message, connection, day and hour, with links to the groups.

use crate::gathered::Gathered;
use crate::groups::Group;
use crate::sheet::{Sheet, TABLE_END};
use crate::tally::Tally;
use page_words::{REQUESTS, WORDS, Wording, cut, known, put_day, split};
use std::alloc::{AllocError, Global};
use std::collections::BTreeMap;

/// The length of the longest bar.
const LONGEST: u64 = 240;

/// The beginning of a table, up to what it counts by, and the head of the column with its counts.
const COUNTS: &str = "<div class=\"t\"><table class=\"n\"><caption>Wrong responses by ";

const COUNT: &str = "Wrong responses";

/// The end of the first cell of a row, and the beginning of one with a bar, up to the length of the bar.
const BAR: &str =
    "</th><td><svg aria-hidden=\"true\" viewBox=\"0 0 240 20\" preserveAspectRatio=\"none\"><rect height=\"20\" width=\"";

/// How many wrong responses there are of a name, and in which groups.
#[derive(Drop)]
struct NameCount<'g> {
    count: u64,
    groups: Vec<&'g Group>,
}

type Index<'g> = BTreeMap<Vec<u8>, NameCount<'g>>;

/// What groups are counted by.
#[derive(Clone, Copy)]
pub enum By {
    Word,
    Message,
    Connection,
}

impl By {
    /// How the caption of the table ends, and the heads of its first column and of its last.
    fn heads(self) -> (&'static str, &'static str, &'static str) {
        match self {
            By::Word => ("what is wrong", "Wrong is", "Where"),
            By::Message => ("message", "Message", "What and where"),
            By::Connection => ("connection", "Connection", "What"),
        }
    }

    /// What a link to the group says, in two parts.
    fn label(self, group: &Group) -> (&[u8], &[u8]) {
        match self {
            By::Word => (plural_of(&group.kind), group.connection.as_slice()),
            By::Message => (group.words.as_slice(), group.connection.as_slice()),
            By::Connection => (plural_of(&group.kind), group.words.as_slice()),
        }
    }
}

/// What a request of a kind is called, and what several of them are.
fn names_of(kind: &[u8]) -> (&'static [u8], &'static [u8]) {
    match cut(known(REQUESTS, kind), b';') {
        (b"", _) => (b"request".as_slice(), b"requests".as_slice()),
        names => names,
    }
}

/// What several requests of a kind are called.
pub fn plural_of(kind: &[u8]) -> &'static [u8] {
    names_of(kind).1
}

/// What this many requests of a kind are called.
pub fn name_of_several(kind: &[u8], count: u64) -> &'static [u8] {
    let (one, several) = names_of(kind);
    if count == 1 { one } else { several }
}

/// Adds a table of the groups under their words, messages or connections.
pub fn add_index(sheet: &mut Sheet, run: &Gathered, by: By) -> Result<(), AllocError> {
    let (caption, first, last) = by.heads();
    sheet.add_head(COUNTS, caption, &[first, COUNT, last]);
    add_names(sheet, by, &index_of(run, by)?);
    sheet.add_markup(TABLE_END);
    Ok(())
}

/// Adds a row for each name.
fn add_names(sheet: &mut Sheet, by: By, index: &Index<'_>) {
    let most = index.values().map(|entry| entry.count).max().unwrap_or(0);
    for (name, entry) in index {
        add_name(sheet, by, name);
        add_bar(sheet, entry.count, most);
        add_links(sheet, by, &entry.groups);
    }
}

/// The groups under their words, messages or connections.
fn index_of(run: &Gathered, by: By) -> Result<Index<'_>, AllocError> {
    let mut index = BTreeMap::new(run.alloc);
    for group in run.findings.groups.values() {
        put_group(run.alloc, &mut index, by, group)?;
    }
    Ok(index)
}

/// Puts a group under each of its words, its message or its connection.
fn put_group<'g>(
    alloc: Global,
    index: &mut Index<'g>,
    by: By,
    group: &'g Group,
) -> Result<(), AllocError> {
    match by {
        By::Word => put_words(alloc, index, group),
        By::Message => put(alloc, index, &group.kind, group),
        By::Connection => put(alloc, index, &group.connection, group),
    }
}

/// Puts a group under each of its words.
fn put_words<'g>(alloc: Global, index: &mut Index<'g>, group: &'g Group) -> Result<(), AllocError> {
    for word in split(&group.words, b' ') {
        if word.is_empty() {
            break;
        }
        put(alloc, index, word, group)?;
    }
    Ok(())
}

/// Puts a group under a name.
fn put<'g>(
    alloc: Global,
    index: &mut Index<'g>,
    name: &[u8],
    group: &'g Group,
) -> Result<(), AllocError> {
    if !index.contains_key(name) {
        let groups = Vec::new(alloc);
        index.insert(
            Vec::from_slice(alloc, name)?,
            NameCount { count: 0, groups },
        )?;
    }
    if let Some(entry) = index.get_mut(name) {
        entry.count = entry.count.saturating_add(group.count);
        entry.groups.push(group)?;
    }
    Ok(())
}

/// Adds the first cell of a row.
fn add_name(sheet: &mut Sheet, by: By, name: &[u8]) {
    match by {
        By::Word => {
            sheet.add("<tr><th scope=\"row\"><b>", name);
            sheet.add("</b>: ", known(WORDS, name));
        }
        By::Message => sheet.add("<tr><th scope=\"row\">", plural_of(name)),
        By::Connection => sheet.add("<tr><th scope=\"row\">", name),
    }
}

/// Adds a cell with a bar and its count; a count above 0 has a visible bar.
fn add_bar(sheet: &mut Sheet, count: u64, most: u64) {
    let share = count.saturating_mul(LONGEST).checked_div(most).unwrap_or(0);
    let length = share.max(count.min(1));
    sheet.add_number(BAR, length);
    sheet.add_number("\"/></svg> ", count);
    sheet.add_markup("</td>");
}

/// Adds a cell with links to groups, and ends the row.
fn add_links(sheet: &mut Sheet, by: By, groups: &[&Group]) {
    sheet.add_markup("<td>");
    for group in groups {
        let (first, second) = by.label(group);
        sheet.add_number("<a href=\"#g", group.number);
        sheet.add("\">", first);
        sheet.add(", ", second);
        sheet.add_number(" (", group.count);
        sheet.add_markup(")</a> ");
    }
    sheet.add_markup("</td></tr>\n");
}

/// Adds a table of the wrong responses of each day, or of each hour of the clock.
pub fn add_times(sheet: &mut Sheet, alloc: Global, caption: &str, head: &str, times: &Tally) {
    sheet.add_head(COUNTS, caption, &[head, COUNT]);
    let most = times.values().copied().max().unwrap_or(0);
    for (time, count) in times {
        sheet.add_words("<tr><th scope=\"row\">", called(alloc, time));
        add_bar(sheet, *count, most);
        sheet.add_markup("</tr>\n");
    }
    sheet.add_markup(TABLE_END);
}

/// What a day or an hour of the clock is called: an hour has two digits, and a day eight.
fn called(alloc: Global, time: &[u8]) -> Wording {
    let mut words = Wording::new(alloc);
    if time.len() == 2 {
        words.add(time);
        words.add(b":00");
    } else {
        put_day(&mut words, time);
    }
    words
}
