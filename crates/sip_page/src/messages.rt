//! The messages of a line: the fields in which the responses differ, and after one more opening the others.

use crate::reading::LineRows;
use crate::sheet::Sheet;
use csv_table::column;
use page_words::{Case, FIELDS, SECRETS, ShownField, known, name_of, other_of};

/// Adds the messages of a line. Each list of fields is one text, so that a page of many lines stays light.
pub fn add_messages(sheet: &mut Sheet, line: &LineRows, case: &Case<'_>) {
    let recorded = name_of(column(&line.journal, 3));
    let right = name_of(column(&line.answer, 2));
    sheet.add_markup("<ul>");
    if recorded != right {
        sheet.add("<li>message: ", recorded);
        sheet.add("; right is ", right);
        sheet.add_markup("</li>");
    }
    add_differing(sheet, case);
    sheet.add(
        "</ul><details><summary>Other fields</summary><p>Request (",
        name_of(column(&line.journal, 2)),
    );
    sheet.add_markup(")");
    for field in &case.asked {
        add_pair(sheet, field);
    }
    sheet.add_markup("</p><p>Both responses");
    add_agreeing(sheet, case);
    sheet.add_markup("</p></details>");
}

/// Adds each field in which the responses differ: those of the right response, then those that it lacks.
fn add_differing(sheet: &mut Sheet, case: &Case<'_>) {
    for right in &case.right {
        let recorded = other_of(&case.recorded, right);
        if !agree(recorded, Some(right)) {
            add_both(sheet, right, recorded, Some(right));
        }
    }
    for recorded in &case.recorded {
        if other_of(&case.right, recorded).is_none() {
            add_both(sheet, recorded, Some(recorded), None);
        }
    }
}

/// Adds a field as it was recorded and as it is right. Checksums differ with whatever else does, so they are left out.
fn add_both(
    sheet: &mut Sheet,
    named: &ShownField<'_>,
    recorded: Option<&ShownField<'_>>,
    right: Option<&ShownField<'_>>,
) {
    if matches!(named.name, b"AY") {
        return;
    }
    add_name(sheet, "<li>", named);
    sheet.add(": ", shown(recorded));
    sheet.add("; right is ", shown(right));
    sheet.add_markup("</li>");
}

/// Adds each field in which the responses agree, except those that the request has too.
fn add_agreeing(sheet: &mut Sheet, case: &Case<'_>) {
    for right in &case.right {
        if agree(other_of(&case.recorded, right), Some(right))
            && !agree(other_of(&case.asked, right), Some(right))
        {
            add_pair(sheet, right);
        }
    }
}

/// Adds a field with its value.
fn add_pair(sheet: &mut Sheet, field: &ShownField<'_>) {
    add_name(sheet, "; ", field);
    sheet.add(": ", shown(Some(field)));
}

/// Adds markup and what a field is called.
fn add_name(sheet: &mut Sheet, markup: &'static str, field: &ShownField<'_>) {
    sheet.add(markup, field.name);
    let words = known(FIELDS, field.name);
    if !words.is_empty() {
        sheet.add(" ", words);
    }
}

/// What is shown of a field.
fn shown<'m>(field: Option<&ShownField<'m>>) -> &'m [u8] {
    let Some(field) = field else {
        return b"(none)";
    };
    let secret = known(SECRETS, field.name);
    if !secret.is_empty() {
        secret
    } else if field.value.is_empty() {
        b"(empty)"
    } else if field.value.trim_ascii_end().is_empty() {
        b"(blank)"
    } else {
        field.value
    }
}

/// Whether a field is in both messages, with the same bytes.
fn agree(one: Option<&ShownField<'_>>, other: Option<&ShownField<'_>>) -> bool {
    match (one, other) {
        (Some(told), Some(due)) => told.value == due.value,
        _ => false,
    }
}
