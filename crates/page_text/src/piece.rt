//! A piece of a page.

ghost use Rattle.std.specs.Prelude.{◌≡◌, ◌++◌, IfOk, OnOk};
ghost use Rattle.page_text.specs.Page.{piece_written};

use crate::text::push_text;
use std::alloc::{AllocError, Global};
use std::marker::Model;

/// Markup, and the text after it.
pub struct Piece {
    markup: &'static str,
    text: Vec<u8>,
}

impl Drop for Piece {
    fn drop(self) {
        let Piece { markup: _, text: _ } = self;
    }
}

impl Model for Piece {
    ghost Value = { Rattle.page_text.specs.Page.Piece };

    ghost view = { λ p. record { markup = p.markup.now; text = p.text.items } };
}

impl Piece {
    /// Keeps this markup and a copy of the text.
    pub fn new(alloc: Global, markup: &'static str, text: &[u8]) -> Result<Piece, AllocError>
        ensures { IfOk result (λ p. p ≡ record { markup = markup.now; text = text.now }) }
    {
        Ok(Piece {
            markup,
            text: Vec::from_slice(alloc, text)?,
        })
    }

    /// Writes it at the end: its markup as it is, its text spelled.
    pub fn write(&self, alloc: Global, out: &mut Vec<u8>) -> Result<(), AllocError>
        ensures { OnOk result (out.new.items ≡ out.old.items ++ piece_written self.now) }
    {
        out.extend_from_slice(self.markup.as_bytes())?;
        push_text(alloc, out, &self.text)
    }
}
