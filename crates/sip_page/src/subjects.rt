//! The patrons and the items that wrong responses are about.

use crate::gathered::Gathered;
use crate::sheet::{Sheet, TABLE_END};
use page_words::{Case, ShownField, TextsById, cut, value_in};
use std::alloc::{AllocError, Global};
use std::collections::BTreeMap;

/// With at most this many wrong responses, their patrons and items are shown open.
const OPEN: u64 = 100;

/// What a run changed of a patron or an item, in two texts of two lines each (no text of a table has a line feed).
pub struct SubjectChange {
    /// Whose it is, and what it is.
    pub about: Vec<u8>,
    /// What it was, and what it is now, if it is anything.
    pub says: Vec<u8>,
}

impl Drop for SubjectChange {
    fn drop(self) {
        let SubjectChange { about: _, says: _ } = self;
    }
}

impl SubjectChange {
    /// Whose it is, what it is, what it was, and what it is now.
    pub fn texts(&self) -> [&[u8]; 4] {
        let (id, what) = cut(&self.about, b'\n');
        let (before, after) = cut(&self.says, b'\n');
        [
            id,
            what,
            before,
            if after.is_empty() { b"none" } else { after },
        ]
    }
}

/// A patron or an item that wrong responses are about.
#[derive(Drop)]
pub struct Subject {
    /// Its number on the page, from 1.
    pub number: u64,
    /// The numbers of the lines of those responses, in their order.
    pub lines: Vec<u64>,
    pub changes: Vec<SubjectChange>,
}

/// Patrons or items by their ids.
pub type Subjects = BTreeMap<Vec<u8>, Subject>;

/// The patrons of a case: who asked, and whom a response names.
pub fn patrons_of<'m>(alloc: Global, case: &Case<'m>) -> Result<Vec<&'m [u8]>, AllocError> {
    let mut ids = Vec::new(alloc);
    add_id(&mut ids, value_in(&case.asked, b"AA"))?;
    add_id(&mut ids, value_in(&case.right, b"AA"))?;
    add_id(&mut ids, value_in(&case.recorded, b"AA"))?;
    Ok(ids)
}

/// The items of a case: what was asked about, and those that a renewal of all loans names.
pub fn items_of<'m>(alloc: Global, case: &Case<'m>) -> Result<Vec<&'m [u8]>, AllocError> {
    let mut ids = Vec::new(alloc);
    add_id(&mut ids, value_in(&case.asked, b"AB"))?;
    add_renewed(&mut ids, &case.right)?;
    add_renewed(&mut ids, &case.recorded)?;
    Ok(ids)
}

/// Adds the items that a response to a renewal of all loans names.
fn add_renewed<'m>(ids: &mut Vec<&'m [u8]>, fields: &[ShownField<'m>]) -> Result<(), AllocError> {
    for field in fields {
        if matches!(field.name, b"BM" | b"BN") {
            add_id(ids, field.value)?;
        }
    }
    Ok(())
}

/// Adds an id to those that don't have it yet.
fn add_id<'m>(ids: &mut Vec<&'m [u8]>, id: &'m [u8]) -> Result<(), AllocError> {
    if !id.is_empty() && !ids.contains(&id) {
        ids.push(id)?;
    }
    Ok(())
}

/// Notes that the wrong response of a line is about these patrons or items.
pub fn note(
    alloc: Global,
    subjects: &mut Subjects,
    ids: &[&[u8]],
    line: u64,
) -> Result<(), AllocError> {
    for id in ids {
        if !subjects.contains_key(*id) {
            let name = Vec::from_slice(alloc, id)?;
            let number = (subjects.len() as u64).saturating_add(1);
            let (lines, changes) = (Vec::new(alloc), Vec::new(alloc));
            subjects.insert(
                name,
                Subject {
                    number,
                    lines,
                    changes,
                },
            )?;
        }
        if let Some(subject) = subjects.get_mut(*id) {
            subject.lines.push(line)?;
        }
    }
    Ok(())
}

/// The patrons or the items of a page, and how they are shown.
#[derive(Clone, Copy)]
pub struct SubjectList<'r> {
    /// The markup before the number of one, where it is shown and where it is linked to.
    pub place: &'static str,
    pub link: &'static str,
    pub subjects: &'r Subjects,
    /// What they are called.
    pub texts: &'r TextsById,
}

/// Adds ids with what they are called, each as a link where it is shown on the page.
pub fn add_links(sheet: &mut Sheet, list: &SubjectList<'_>, ids: &[&[u8]]) {
    let mut before = "";
    for id in ids {
        sheet.add_markup(before);
        match list.subjects.get(*id) {
            Some(subject) => {
                sheet.add_number(list.link, subject.number);
                sheet.add("\">", id);
                sheet.add_markup("</a>");
            }
            None => sheet.add("", id),
        }
        if let Some(text) = list.texts.get(*id) {
            sheet.add(" ", text);
        }
        before = "; ";
    }
}

/// Adds the patrons that wrong responses are about, and what changed for others.
pub fn add_patrons(sheet: &mut Sheet, run: &Gathered) {
    sheet.add_markup("<h2 id=\"patrons\">Patrons, and what changed for whom</h2>\n");
    if run.others.is_none() {
        sheet.add_markup("<p>No base tables were given, so what changed is unknown.</p>\n");
    }
    add_subjects(sheet, run, &run.patrons());
    match &run.others {
        Some(others) if others.is_empty() && run.findings.patrons.is_empty() => {
            sheet.add_markup("<p>Nothing changed for anybody.</p>\n");
        }
        Some(others) if others.is_empty() => {
            sheet.add_markup("<p>Nothing changed for others.</p>\n");
        }
        Some(others) => add_others(sheet, others, run.findings.limit),
        None => {}
    }
}

/// Adds the items that wrong responses are about.
pub fn add_items(sheet: &mut Sheet, run: &Gathered) {
    sheet.add_markup("<h2 id=\"items\">Items</h2>\n");
    if run.findings.items.is_empty() {
        sheet.add_markup("<p>No wrong response is about an item.</p>\n");
    }
    add_subjects(sheet, run, &run.items());
}

/// Adds each patron or item that wrong responses are about: what changed of the record, where that is known, and links.
fn add_subjects(sheet: &mut Sheet, run: &Gathered, list: &SubjectList<'_>) {
    for (id, subject) in list.subjects {
        sheet.add_number(list.place, subject.number);
        if run.findings.wrong <= OPEN {
            sheet.add_markup("\" open><summary><b>");
        } else {
            sheet.add_markup("\"><summary><b>");
        }
        sheet.add("", id);
        sheet.add("</b> ", called(list.texts, id));
        if run.others.is_some() {
            add_size(sheet, " <span>", &subject.changes);
            sheet.add_markup("</span>");
        }
        sheet.add_markup("</summary>\n");
        add_lines(sheet, &subject.lines);
        if !subject.changes.is_empty() {
            add_changes(sheet, &subject.changes);
        }
        sheet.add_markup("</details>\n");
    }
}

/// What an id is called.
fn called<'t>(texts: &'t TextsById, id: &[u8]) -> &'t [u8] {
    match texts.get(id) {
        Some(text) => text,
        None => b"(in no table)",
    }
}

/// Adds markup, and how many changes there are.
fn add_size(sheet: &mut Sheet, markup: &'static str, changes: &[SubjectChange]) {
    match changes.len() as u64 {
        0 => sheet.add(markup, b"nothing changed"),
        1 => sheet.add(markup, b"1 change"),
        count => {
            sheet.add_number(markup, count);
            sheet.add_markup(" changes");
        }
    }
}

/// Adds links to lines.
fn add_lines(sheet: &mut Sheet, lines: &[u64]) {
    sheet.add_markup("<p>Wrong responses: ");
    let mut before = "<a href=\"#l";
    for line in lines {
        sheet.add_number(before, *line);
        sheet.add_number("\">line ", *line);
        before = "</a>, <a href=\"#l";
    }
    sheet.add_markup("</a>.</p>\n");
}

/// Adds a list of changes.
fn add_changes(sheet: &mut Sheet, changes: &[SubjectChange]) {
    sheet.add_markup("<ul>");
    for change in changes {
        let [_, what, before, after] = change.texts();
        sheet.add("<li>", what);
        sheet.add(": <span>", before);
        sheet.add(" &rarr;</span> ", after);
        sheet.add_markup("</li>");
    }
    sheet.add_markup("</ul>");
}

/// Adds what changed for patrons that no wrong response is about, `limit` changes at most.
fn add_others(sheet: &mut Sheet, others: &[SubjectChange], limit: u64) {
    let size = "<details class=\"x\"><summary>What changed for others: ";
    add_size(sheet, size, others);
    sheet.add_markup("</summary>\n");
    sheet.add_head(
        "<div class=\"t\"><table class=\"c\"><caption>",
        "Loans, fees, holds and blocks that changed",
        &["Patron", "What", "Before", "After"],
    );
    for other in others.iter().take(limit as usize) {
        let [id, what, before, after] = other.texts();
        sheet.add("<tr><th scope=\"row\">", id);
        sheet.add("</th><td>", what);
        sheet.add("</td><td>", before);
        sheet.add("</td><td>", after);
        sheet.add_markup("</td></tr>\n");
    }
    sheet.add_markup(TABLE_END);
    sheet.add_left_out((others.len() as u64).saturating_sub(limit));
    sheet.add_markup("</details>\n");
}
