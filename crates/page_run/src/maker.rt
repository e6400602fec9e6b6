//! Who makes a page of what was read.

ghost use Rattle.std.specs.Prelude.{ℕ, List, Result};
ghost use Rattle.command_line.specs.declared.chosen.PageOptions.{PageOptions};
ghost use Rattle.page_run.specs.Made.{made_of};
ghost use Rattle.page_run.specs.declared.stop.NoPage.{NoPage};
ghost use Rattle.page_run.specs.declared.texts.PageTexts.{PageTexts};

use crate::stop::NoPage;
use crate::texts::PageTexts;
use command_line::PageOptions;
use std::alloc::Global;

/// Makes a page. It has no outside, so it can ask nothing of files and streams.
pub trait Maker {
    /// What may be made of which options and texts.
    ghost makes: { Self → PageOptions → PageTexts → Result (List ℕ) NoPage → Type 0 };

    /// The bytes of the page, or why there is none.
    fn make(
        &self,
        alloc: Global,
        options: &PageOptions,
        texts: &PageTexts,
    ) -> Result<Vec<u8>, NoPage>
        ensures { makes self.now options.now texts.now (made_of result) };
}
