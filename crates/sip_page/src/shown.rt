//! The groups of wrong responses.

use crate::gathered::Gathered;
use crate::groups::Group;
use crate::index::{name_of_several, plural_of};
use crate::messages::add_messages;
use crate::reading::LineRows;
use crate::sheet::{Sheet, TABLE_END};
use crate::subjects::{add_links, items_of, patrons_of};
use page_words::{Case, Wording, put_moment, put_recorded, put_right, say, split, value_in};
use std::alloc::{AllocError, Global};

const ROWS: &str =
    "<div class=\"t\"><table class=\"r\"><thead><tr><th scope=\"col\">Line</th><th scope=\"col\">Time</th><th scope=\"col\">Patron</th><th scope=\"col\">Item</th><th scope=\"col\">Told</th><th scope=\"col\">Right</th></tr></thead><tbody>";

/// Adds the wrong responses: each group, those of a weight under its head.
pub fn add_wrong(sheet: &mut Sheet, run: &Gathered) -> Result<(), AllocError> {
    let findings = &run.findings;
    sheet.add_markup("<h2 id=\"wrong\">Wrong responses</h2>\n");
    if findings.wrong == 0 {
        sheet.add_markup("<p>No recorded response was wrong.</p>\n");
    }
    sheet.add_left_out(findings.wrong.saturating_sub(findings.limit));
    let mut before = 0;
    for group in findings.groups.values() {
        if group.weight != before {
            before = group.weight;
            sheet.add_markup(head_of(before));
        }
        add_group(sheet, run, group)?;
    }
    Ok(())
}

/// The head of a weight.
fn head_of(weight: u8) -> &'static str {
    match weight {
        b'1' => "<h3 id=\"w1\">Records that may be wrong</h3>\n",
        b'2' => "<h3 id=\"w2\">Told wrong</h3>\n",
        _ => "<h3 id=\"w3\">Not readable</h3>\n",
    }
}

/// Adds a group: one sentence for all its lines, then its lines.
fn add_group(sheet: &mut Sheet, run: &Gathered, group: &Group) -> Result<(), AllocError> {
    sheet.add("<details class=\"g w", &[group.weight]);
    sheet.add_number("\" id=\"g", group.number);
    sheet.add_markup("\" open><summary><h4>");
    match group.shown.first() {
        Some(line) if group.count == 1 => add_single(sheet, run, line)?,
        None if group.count == 1 => add_group_sentence(sheet, run, group),
        _ => add_several(sheet, run, group)?,
    }
    sheet.add_left_out(group.count.saturating_sub(group.shown.len() as u64));
    sheet.add_markup("</details>\n");
    Ok(())
}

/// Adds the only line of a group: its sentence, whom and what it is about, and its messages.
fn add_single(sheet: &mut Sheet, run: &Gathered, line: &LineRows) -> Result<(), AllocError> {
    let case = line.case(run.alloc)?;
    add_line_sentence(sheet, run, line, &case)?;
    sheet.add_number("<p id=\"l", line.number);
    sheet.add_markup("\">");
    add_about(sheet, run, &case)?;
    sheet.add_markup("</p><details><summary>Messages</summary>");
    add_messages(sheet, line, &case);
    sheet.add_markup("</details>\n");
    Ok(())
}

/// Adds whom and what a line is about.
fn add_about(sheet: &mut Sheet, run: &Gathered, case: &Case<'_>) -> Result<(), AllocError> {
    let patrons = patrons_of(run.alloc, case)?;
    let items = items_of(run.alloc, case)?;
    add_links(sheet, &run.patrons(), &patrons);
    if !patrons.is_empty() && !items.is_empty() {
        sheet.add_markup(" &middot; ");
    }
    add_links(sheet, &run.items(), &items);
    Ok(())
}

/// Adds when and where it was, what each word of the report says, and why it was wrong, where that is known.
fn add_line_sentence(
    sheet: &mut Sheet,
    run: &Gathered,
    line: &LineRows,
    case: &Case<'_>,
) -> Result<(), AllocError> {
    let mut said = Wording::new(run.alloc);
    put_said(&mut said, run, line.words(), case);
    run.whys.put(&mut said, line, &run.names)?;
    let date = value_in(&case.asked, b"date");
    add_moment(sheet, run.alloc, "", date, run.findings.is_dated());
    sheet.add(", ", line.connection());
    sheet.add_number(", line ", line.number);
    sheet.add_words(": ", said);
    sheet.add_markup(".</h4></summary>\n");
    Ok(())
}

/// Adds markup and the time of a transaction date, with its day where that is asked for.
fn add_moment(sheet: &mut Sheet, alloc: Global, markup: &'static str, date: &[u8], dated: bool) {
    let mut moment = Wording::new(alloc);
    put_moment(&mut moment, date, dated);
    sheet.add_words(markup, moment);
}

/// Writes what each word of the report says.
fn put_said(out: &mut Wording, run: &Gathered, words: &[u8], case: &Case<'_>) {
    let mut before = b"".as_slice();
    for word in split(words, b' ') {
        if word.is_empty() {
            break;
        }
        out.add(before);
        say(out, word, case, &run.names);
        before = b"; ";
    }
}

/// Adds the sentence of several lines, what was right around them, and each as a row with its messages.
fn add_several(sheet: &mut Sheet, run: &Gathered, group: &Group) -> Result<(), AllocError> {
    add_group_sentence(sheet, run, group);
    add_right_around(sheet, run, group)?;
    sheet.add_markup(ROWS);
    for line in &group.shown {
        add_line(sheet, run, line, group.is_same)?;
    }
    sheet.add_markup(TABLE_END);
    Ok(())
}

/// Adds one sentence for all lines of a group, as: `9 checkouts at SELF3, 12:18 to 16:25: due 14 March told, 16 March is right`.
fn add_group_sentence(sheet: &mut Sheet, run: &Gathered, group: &Group) {
    sheet.add_number("", group.count);
    sheet.add(" ", name_of_several(&group.kind, group.count));
    sheet.add(" at ", &group.connection);
    let dated = run.findings.is_dated();
    add_moment(sheet, run.alloc, ", ", &group.first, dated);
    if group.count > 1 {
        add_moment(sheet, run.alloc, " to ", &group.last, !group.is_one_day());
    }
    if group.is_same {
        sheet.add(": ", &group.same);
    } else {
        sheet.add(": ", &group.other);
    }
    sheet.add_markup(".</h4></summary>\n");
}

/// Says of a group that began and ended on one day how many such responses were right before, between and after its lines.
fn add_right_around(sheet: &mut Sheet, run: &Gathered, group: &Group) -> Result<(), AllocError> {
    let right = run.findings.right_at(&group.kind, &group.connection)?;
    let after = right.saturating_sub(group.right_at_last);
    if !group.is_one_day() || group.right_at_first == 0 || after == 0 {
        return Ok(());
    }
    let between = group.right_at_last.saturating_sub(group.right_at_first);
    let plural = plural_of(&group.kind);
    sheet.add("<p>It began and ended within hours: of the ", plural);
    sheet.add(" at ", &group.connection);
    sheet.add_number(", ", group.right_at_first);
    add_moment(sheet, run.alloc, " before ", &group.first, false);
    sheet.add_number(" and ", after);
    add_moment(sheet, run.alloc, " after ", &group.last, false);
    sheet.add_number(" were right, and ", between);
    sheet.add_markup(" between.</p>\n");
    Ok(())
}

/// Adds a line of a group: its row, why it was wrong where the group doesn't say it of all its lines, and its messages.
fn add_line(
    sheet: &mut Sheet,
    run: &Gathered,
    line: &LineRows,
    is_same: bool,
) -> Result<(), AllocError> {
    let case = line.case(run.alloc)?;
    add_row(sheet, run, line, &case)?;
    sheet.add_markup("<tr class=\"m\"><td colspan=\"6\"><details><summary>");
    sheet.add_number("Messages of line ", line.number);
    sheet.add_markup("</summary>");
    let mut because = Wording::new(run.alloc);
    if !is_same {
        run.whys.put(&mut because, line, &run.names)?;
    }
    if !because.is_empty() {
        sheet.add_words("<p>Because", because);
        sheet.add_markup(".</p>\n");
    }
    add_messages(sheet, line, &case);
    sheet.add_markup("</details></td></tr>");
    Ok(())
}

/// Adds the row of a line, of six cells: its number, when, who, what, and what was recorded and is right.
fn add_row(
    sheet: &mut Sheet,
    run: &Gathered,
    line: &LineRows,
    case: &Case<'_>,
) -> Result<(), AllocError> {
    sheet.add_number("<tr id=\"l", line.number);
    sheet.add_number("\"><th scope=\"row\">", line.number);
    let date = value_in(&case.asked, b"date");
    let dated = run.findings.is_dated();
    add_moment(sheet, run.alloc, "</th><td>", date, dated);
    sheet.add_markup("</td><td>");
    add_links(sheet, &run.patrons(), &patrons_of(run.alloc, case)?);
    sheet.add_markup("</td><td>");
    add_links(sheet, &run.items(), &items_of(run.alloc, case)?);
    add_sides(sheet, run, line.words(), case);
    Ok(())
}

/// Adds the cells of what was recorded and what is right, word by word, and ends the row.
fn add_sides(sheet: &mut Sheet, run: &Gathered, words: &[u8], case: &Case<'_>) {
    let mut recorded = Wording::new(run.alloc);
    let mut right = Wording::new(run.alloc);
    for word in split(words, b' ') {
        if word.is_empty() {
            break;
        }
        if !recorded.is_empty() {
            recorded.add(b"; ");
            right.add(b"; ");
        }
        put_recorded(&mut recorded, word, case, &run.names);
        put_right(&mut right, word, case, &run.names);
    }
    sheet.add_words("</td><td>", recorded);
    sheet.add_words("</td><td>", right);
    sheet.add_markup("</td></tr>");
}
