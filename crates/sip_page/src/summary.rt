//! The head of the page and its summary.

use crate::gathered::Gathered;
use crate::head::{HEAD, PARTS, STYLE};
use crate::index::{By, add_index, add_times};
use crate::sheet::Sheet;
use command_line::PageOptions;
use page_words::{Wording, put_day};
use std::alloc::AllocError;

/// What is said of the wrong responses of a weight: the markup before their count, what one and what several are, and the rest.
struct WeightLine {
    weight: u8,
    before: &'static str,
    one: &'static str,
    several: &'static str,
    after: &'static str,
}

static WEIGHTS: [WeightLine; 3] = [
    WeightLine {
        weight: b'1',
        before: "<li class=\"w1\"><a href=\"#w1\"><b>",
        one: "</b> record",
        several: "</b> records",
        after: " may be wrong</a>: done where the rules refuse it, or refused</li>\n",
    },
    WeightLine {
        weight: b'2',
        before: "<li class=\"w2\"><a href=\"#w2\"><b>",
        one: "</b>",
        several: "</b>",
        after: " told wrong</a>: the records are right, and what was said isn't</li>\n",
    },
    WeightLine {
        weight: b'3',
        before: "<li class=\"w3\"><a href=\"#w3\"><b>",
        one: "</b>",
        several: "</b>",
        after: " not readable</a>: nobody knows what the server did</li>\n",
    },
];

/// Adds the head of the page: what it is of, and where its parts are.
pub fn add_head(sheet: &mut Sheet, run: &Gathered) {
    let findings = &run.findings;
    sheet.add_markup(HEAD);
    add_library(sheet, run, ": ", "");
    sheet.add_markup(STYLE);
    add_library(sheet, run, "<p>Library ", "</p>\n");
    let passed = findings.lines.saturating_sub(findings.answered);
    sheet.add_number("<p>Requests: ", findings.lines);
    sheet.add_number(". Answered by the rules: ", findings.answered);
    sheet.add_number(". Passed over: ", passed);
    sheet.add_number(". <strong>Wrong responses: ", findings.wrong);
    sheet.add_markup(PARTS);
}

/// Adds the library and the days of the journal, where the library is known.
fn add_library(sheet: &mut Sheet, run: &Gathered, before: &'static str, after: &'static str) {
    let library = &run.findings.library;
    if !library.is_empty() {
        sheet.add(before, library);
        sheet.add_words(", ", days_of(run));
        sheet.add_markup(after);
    }
}

/// The day of the journal, or its first and its last, in words.
fn days_of(run: &Gathered) -> Wording {
    let mut words = Wording::new(run.alloc);
    let days = &run.findings.days;
    match (days.first_key_value(), days.last_key_value()) {
        (Some((first, _)), Some((last, _))) => {
            put_day(&mut words, first);
            if run.findings.is_dated() {
                words.add(b" to ");
                put_day(&mut words, last);
            }
        }
        _ => words.add(b"no day"),
    }
    words
}

/// Adds the summary: the wrong responses by weight, word, message, connection and time, then what the page was made from.
pub fn add_summary(
    sheet: &mut Sheet,
    run: &Gathered,
    options: &PageOptions,
    made_by: &str,
) -> Result<(), AllocError> {
    sheet.add_markup("<h2 id=\"summary\">Summary</h2>\n");
    if run.findings.wrong > 0 {
        add_weights(sheet, run);
        add_index(sheet, run, By::Word)?;
        add_index(sheet, run, By::Message)?;
        add_index(sheet, run, By::Connection)?;
        if run.findings.is_dated() {
            add_times(sheet, run.alloc, "day", "Day", &run.findings.days);
        }
        let hours = &run.findings.hours;
        add_times(sheet, run.alloc, "hour of the clock", "Hour", hours);
    }
    add_facts(sheet, run, options, made_by);
    Ok(())
}

/// Adds how many wrong responses have each weight, with links to the first of them.
fn add_weights(sheet: &mut Sheet, run: &Gathered) {
    sheet.add_markup("<ul class=\"w\">\n");
    for line in &WEIGHTS {
        let count = run.findings.wrong_of(line.weight);
        if count > 0 {
            sheet.add_number(line.before, count);
            sheet.add_markup(if count == 1 { line.one } else { line.several });
            sheet.add_markup(line.after);
        }
    }
    sheet.add_markup("</ul>\n");
}

/// Adds what the page was made from, and by what.
fn add_facts(sheet: &mut Sheet, run: &Gathered, options: &PageOptions, made_by: &str) {
    sheet.add_markup("<dl class=\"facts\">\n<dt>Lines</dt><dd>");
    if run.findings.lines > 0 {
        sheet.add_number("", run.findings.first_line);
        sheet.add_number(" to ", run.findings.last_line);
    } else {
        sheet.add_markup("none");
    }
    sheet.add("</dd>\n<dt>Journal</dt><dd>", options.journal.as_bytes());
    sheet.add("</dd>\n<dt>Tables before</dt><dd>", given(&options.base));
    sheet.add("</dd>\n<dt>Output</dt><dd>", options.out.as_bytes());
    sheet.add("</dd>\n<dt>Reasons</dt><dd>", given(&options.why));
    sheet.add("</dd>\n<dt>Made by</dt><dd>", made_by.as_bytes());
    sheet.add_markup("</dd>\n</dl>\n");
}

/// The value of an option.
fn given(value: &Option<String>) -> &[u8] {
    match value {
        Some(text) => text.as_bytes(),
        None => b"not given",
    }
}
