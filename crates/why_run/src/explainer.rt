//! Who explains what was read.

ghost use Rattle.std.specs.Prelude.{Result};
ghost use Rattle.command_line.specs.declared.why.WhyOptions.{WhyOptions};
ghost use Rattle.why_run.specs.declared.stop.NotExplained.{NotExplained};
ghost use Rattle.why_run.specs.declared.texts.Explained.{Explained};
ghost use Rattle.why_run.specs.declared.texts.WhyTexts.{WhyTexts};

use crate::stop::NotExplained;
use crate::texts::{Explained, WhyTexts};
use command_line::WhyOptions;
use std::alloc::Global;

/// Explains lines. It has no outside, so it can ask nothing of files and streams.
pub trait Explainer {
    /// What may be made of which options and texts.
    ghost makes: { Self → WhyOptions → WhyTexts → Result Explained NotExplained → Type 0 };

    /// The explanation, or why there is none.
    fn make(
        &self,
        alloc: Global,
        options: &WhyOptions,
        texts: WhyTexts,
    ) -> Result<Explained, NotExplained>
        ensures { makes self.now options.now texts result };
}
