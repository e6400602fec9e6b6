//! A page, and how it is written.

ghost use Rattle.std.specs.Prelude.{◌≡◌, ◌++◌, ◌∷◌, [], IfOk, OnOk, OnErr};
ghost use Rattle.std.specs.Fmt.{decimal};
ghost use Rattle.std.specs.List.{filter};
ghost use Rattle.page_text.specs.Page.{is_mark, markup_of, written};

use crate::piece::Piece;
use std::alloc::{AllocError, Global};
use std::marker::Model;

/// A page in HTML: pieces of markup, each with a text after it.
pub struct Page {
    alloc: Global,
    pieces: Vec<Piece>,
}

impl Drop for Page {
    fn drop(self) {
        let Page {
            alloc: _,
            pieces: _,
        } = self;
    }
}

impl Model for Page {
    ghost use Rattle.std.specs.Prelude.{List};
    ghost use Rattle.page_text.specs.Page.{Piece};

    ghost Value = { List Piece };

    ghost view = { λ p. p.pieces.items };
}

impl Page {
    /// Begins a page without a piece.
    pub fn new(alloc: Global) -> Page
        ensures { result ≡ [] }
    {
        Page {
            alloc,
            pieces: Vec::new(alloc),
        }
    }

    /// Adds markup, which is a constant of the program, and the text after it, and changes no piece
    /// that is there. Without memory the page stays as it was.
    pub fn add(&mut self, markup: &'static str, text: &[u8]) -> Result<(), AllocError>
        ensures ok { OnOk result (self.new ≡ self.old
            ++ record { markup = markup.now; text = text.now } ∷ []) }
        ensures err { OnErr result (self.new ≡ self.old) }
    {
        let piece = Piece::new(self.alloc, markup, text)?;
        self.pieces.push(piece)?;
        Ok(())
    }

    /// Adds markup, and the digits of a number after it, and changes no piece that is there.
    /// Without memory the page stays as it was.
    pub fn add_number(&mut self, markup: &'static str, number: u64) -> Result<(), AllocError>
        ensures ok { OnOk result (self.new ≡ self.old
            ++ record { markup = markup.now; text = decimal number } ∷ []) }
        ensures err { OnErr result (self.new ≡ self.old) }
    {
        match format!(in self.alloc; "{number}") {
            Ok(digits) => self.add(markup, digits.as_bytes()),
            Err(error) => Err(error),
        }
    }

    /// Gives the page as it is written: the markup as it is, and each text with those characters
    /// spelled that mean something in HTML. So all tags and quotes of the page are those of its
    /// markup.
    pub fn bytes(&self) -> Result<Vec<u8>, AllocError>
        ensures whole { IfOk result (λ page. page.items ≡ written self.now) }
        ensures marks { IfOk result
            (λ page. filter is_mark page.items ≡ filter is_mark (markup_of self.now)) }
    {
        let mut out = Vec::new(self.alloc);
        let pieces = self.pieces.as_slice();
        for piece in pieces {
            piece.write(self.alloc, &mut out)?;
        }
        Ok(out)
    }
}
