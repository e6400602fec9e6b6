//! The page that is made of the texts of a run.

use crate::gathered::Gathered;
use crate::passed::add_passed;
use crate::sheet::Sheet;
use crate::shown::add_wrong;
use crate::stop::PageError;
use crate::subjects::{add_items, add_patrons};
use crate::summary::{add_head, add_summary};
use command_line::PageOptions;
use page_run::{Maker, NoPage, PageTexts};
use std::alloc::Global;

/// What the page says of its build where the caller doesn't say it.
const UNKNOWN_BUILD: &str = "sip_page; its commit, and whether it is proved, are unknown";

/// Makes pages, as this build.
pub struct PageMaker {
    /// Which build it is, where that is known.
    pub build: Option<String>,
}

impl Drop for PageMaker {
    fn drop(self) {
        let PageMaker { build: _ } = self;
    }
}

impl Maker for PageMaker {
    ghost makes = { λ _ _ _ _. Unit {0} };

    fn make(
        &self,
        alloc: Global,
        options: &PageOptions,
        texts: &PageTexts,
    ) -> Result<Vec<u8>, NoPage> {
        let build = match &self.build {
            Some(text) => text.as_str(),
            None => UNKNOWN_BUILD,
        };
        match page_of(alloc, options, texts, build) {
            Ok(page) => Ok(page),
            Err(error) => Err(error.told(alloc)),
        }
    }
}

/// The whole page.
fn page_of(
    alloc: Global,
    options: &PageOptions,
    texts: &PageTexts,
    build: &str,
) -> Result<Vec<u8>, PageError> {
    let mut run = Gathered::none(alloc, u64::from(options.limit));
    run.read(texts)?;
    let mut sheet = Sheet::new(alloc);
    add_page(&mut sheet, &run, options, build)?;
    Ok(sheet.bytes()?)
}

/// Adds the parts of the page, in their order.
fn add_page(
    sheet: &mut Sheet,
    run: &Gathered,
    options: &PageOptions,
    build: &str,
) -> Result<(), PageError> {
    add_head(sheet, run);
    add_summary(sheet, run, options, build)?;
    add_wrong(sheet, run)?;
    add_patrons(sheet, run);
    add_items(sheet, run);
    add_passed(sheet, &run.passed);
    sheet.add_markup("</main>\n</body>\n</html>\n");
    Ok(())
}
