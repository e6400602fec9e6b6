//! Texts of records and messages.

ghost use Rattle.std.specs.Prelude.{◌≡◌, ◌++◌, true, IfOk, OnErr, OnOk, if◌then◌else◌, Some, None};
ghost use Rattle.sip_reader.specs.Texts.{is_text};

use crate::barred::has_barred;
use crate::text_bytes::TextBytes;
use std::alloc::{AllocError, Global};
use std::marker::Model;

/// The longest text, in bytes.
pub const TEXT_MAX: usize = 1024;

/// A text of a record or a message: at most 1,024 bytes without a bar, CR or LF.
pub struct Text {
    held: TextBytes,
}

impl Drop for Text {
    fn drop(self) {
        let Text { held: _ } = self;
    }
}

impl Model for Text {
    ghost use Rattle.std.specs.Prelude.{ℕ, List, ◌≡◌, true};
    ghost use Rattle.sip_reader.specs.Devices.Held.{bytes_held};
    ghost use Rattle.sip_reader.specs.Texts.{is_text};

    ghost Value = { List ℕ };

    ghost view = { λ t. bytes_held t.held };

    ghost invariant = { λ t. is_text (bytes_held t.held) ≡ true };
}

impl Text {
    /// Gives the text of exactly these bytes. More than 14 take memory.
    pub fn new(alloc: Global, bytes: &[u8]) -> Result<Text, AllocError>
        requires { is_text bytes.now ≡ true }
        ensures { IfOk result (λ t. t ≡ bytes.now) }
    {
        let held = TextBytes::of(alloc, bytes)?;
        Ok(Text { held })
    }

    /// Gives the text of exactly these bytes, or None if they are no text.
    #[tactic(auto, unfolding(crate::specs::Texts::is_text))]
    pub fn read(alloc: Global, bytes: &[u8]) -> Result<Option<Text>, AllocError>
        ensures { IfOk result (λ t. t ≡ (if is_text bytes.now then Some bytes.now else None)) }
    {
        if is_text(bytes) {
            Ok(Some(Text::new(alloc, bytes)?))
        } else {
            Ok(None)
        }
    }

    /// Gives the bytes of which it was made.
    pub fn as_bytes(&self) -> &[u8]
        ensures { result.now ≡ self.now }
    {
        self.held.as_slice()
    }

    /// Appends its bytes to others; out of memory, nothing is appended.
    #[inline(always)]
    pub fn append_to(&self, out: &mut Vec<u8>) -> Result<(), AllocError>
        ensures ok { OnOk result (out.new.items ≡ out.old.items ++ self.now) }
        ensures err { OnErr result (out.new.items ≡ out.old.items) }
    {
        match &self.held {
            TextBytes::Inline(inline) => inline.append_to(out),
            held => held.append_to(out),
        }
    }

    /// A lemma: does nothing at run time; gives callers the type's promise that its bytes are a
    /// text.
    pub fn keeps_its_form(&self)
        ensures { is_text self.now ≡ true }
    {
        let Text { held: _held } = self;
    }
}

/// A clone is the same text. It takes no memory.
impl Clone for Text {
    ghost use Rattle.std.specs.Prelude.{◌≡◌};

    ghost is_clone = { λ x y. y ≡ x };

    fn clone(&self) -> Result<Text, AllocError> {
        let held = self.held.copy()?;
        Ok(Text { held })
    }
}

/// True exactly if these bytes are a text: at most 1,024, without a bar, CR or LF.
#[tactic(auto, unfolding(crate::specs::Texts::is_text))]
pub fn is_text(bytes: &[u8]) -> bool
    ensures { result ≡ is_text bytes.now }
{
    bytes.len() <= TEXT_MAX && !has_barred(bytes)
}
