//! The page as it grows. What is added after a failure is lost, and `bytes` returns the failure.

use page_text::Page;
use page_words::Wording;
use std::alloc::{AllocError, Global};

/// The end of a table.
pub const TABLE_END: &str = "</tbody></table></div>\n";

/// A page, or a part of one.
#[derive(Drop)]
pub struct Sheet {
    page: Page,
    failed: bool,
}

impl Sheet {
    /// A sheet with nothing on it.
    pub fn new(alloc: Global) -> Sheet {
        Sheet {
            page: Page::new(alloc),
            failed: false,
        }
    }

    /// Adds markup, and a text after it.
    pub fn add(&mut self, markup: &'static str, text: &[u8]) {
        self.failed |= self.page.add(markup, text).is_err();
    }

    /// Adds markup, and a number after it.
    pub fn add_number(&mut self, markup: &'static str, number: u64) {
        self.failed |= self.page.add_number(markup, number).is_err();
    }

    /// Adds markup, and words after it.
    pub fn add_words(&mut self, markup: &'static str, words: Wording) {
        match words.finish() {
            Ok(text) => self.add(markup, &text),
            Err(_) => self.failed = true,
        }
    }

    /// Adds markup without a text.
    pub fn add_markup(&mut self, markup: &'static str) {
        self.add(markup, b"");
    }

    /// Adds a table up to its first row: markup up to the caption, the caption, and the heads of the columns.
    pub fn add_head(&mut self, markup: &'static str, caption: &str, columns: &[&str]) {
        self.add(markup, caption.as_bytes());
        self.add_markup("</caption>\n<thead><tr>");
        for column in columns {
            self.add("<th scope=\"col\">", column.as_bytes());
            self.add_markup("</th>");
        }
        self.add_markup("</tr></thead>\n<tbody>\n");
    }

    /// Adds how many were left out, where some were.
    pub fn add_left_out(&mut self, count: u64) {
        if count > 0 {
            self.add_number("<p>Left out here: ", count);
            self.add_markup(" more. The option --limit shows more of them.</p>\n");
        }
    }

    /// What is on it, as it is written.
    pub fn bytes(&self) -> Result<Vec<u8>, AllocError> {
        if self.failed {
            return Err(AllocError);
        }
        self.page.bytes()
    }
}
