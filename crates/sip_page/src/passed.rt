//! The requests that were passed over.

use crate::sheet::{Sheet, TABLE_END};
use crate::tally::Tally;
use page_words::{REASONS, known};

/// Adds the lines that were passed over, by reason.
pub fn add_passed(sheet: &mut Sheet, reasons: &Tally) {
    sheet.add_markup("<h2 id=\"passed\">Requests that were passed over</h2>\n");
    if reasons.is_empty() {
        sheet.add_markup("<p>No request was passed over.</p>\n");
        return;
    }
    sheet.add_head(
        "<div class=\"t\"><table><caption>",
        "Requests that changed nothing, by reason",
        &["Reason", "It says that the request", "Requests"],
    );
    for (why, count) in reasons {
        sheet.add("<tr><th scope=\"row\">", why);
        sheet.add("</th><td>", known(REASONS, why));
        sheet.add_number("</td><td>", *count);
        sheet.add_markup("</td></tr>\n");
    }
    sheet.add_markup(TABLE_END);
}
