//! The bytes of an id or a text: a few inline, more of them in memory that clones share.

ghost use Rattle.std.specs.Prelude.{◌≡◌, ◌++◌, IfOk, OnErr, OnOk};
ghost use Rattle.sip_reader.specs.Devices.Held.{bytes_held};

use crate::inline::{INLINE_MAX, Inline};
use arrayvec::ArrayVec;
use std::alloc::{AllocError, Global};
use std::ops::Deref;
use std::sync::{Arc, ArcSlice};

/// The greatest number of bytes in one block of memory: a greater block would waste more on most
/// titles.
const BLOCK_MAX: usize = 32;

/// Where the bytes are.
pub enum TextBytes {
    /// Inline, as those of most ids.
    Inline(Inline),
    /// In a block of memory that it shares with its clones, as those of most titles.
    Block(Arc<ArrayVec<u8, BLOCK_MAX>>),
    /// The same, where a block is too small: more bytes, in memory of their size.
    Many(ArcSlice<u8>),
}

impl Drop for TextBytes {
    fn drop(self) {
        match self {
            TextBytes::Inline(_) => {}
            TextBytes::Block(_) => {}
            TextBytes::Many(_) => {}
        }
    }
}

impl TextBytes {
    /// Keeps exactly these bytes. More than 14 take memory.
    pub fn of(alloc: Global, bytes: &[u8]) -> Result<TextBytes, AllocError>
        ensures { IfOk result (λ held. bytes_held held ≡ bytes.now) }
    {
        if bytes.len() <= INLINE_MAX {
            return Ok(TextBytes::Inline(Inline::of(bytes)));
        }
        TextBytes::of_more(alloc, bytes)
    }

    /// Bytes that take memory.
    #[inline(never)]
    fn of_more(alloc: Global, bytes: &[u8]) -> Result<TextBytes, AllocError>
        ensures { IfOk result (λ held. bytes_held held ≡ bytes.now) }
    {
        if let Ok(block) = ArrayVec::try_from(bytes) {
            return TextBytes::block(alloc, block);
        }
        let bytes = ArcSlice::from_slice(alloc, bytes)?;
        Ok(TextBytes::Many(bytes))
    }

    /// Bytes that one block of memory holds.
    fn block(alloc: Global, bytes: ArrayVec<u8, BLOCK_MAX>) -> Result<TextBytes, AllocError>
        ensures { IfOk result (λ held. bytes_held held ≡ bytes.items) }
    {
        match Arc::new(alloc, bytes) {
            Ok(block) => Ok(TextBytes::Block(block)),
            Err(_) => Err(AllocError),
        }
    }

    /// Gives the bytes that it keeps.
    pub fn as_slice(&self) -> &[u8]
        ensures { result.now ≡ bytes_held self.now }
    {
        match self {
            TextBytes::Inline(inline) => inline.as_bytes(),
            TextBytes::Block(block) => Deref::deref(block).as_slice(),
            TextBytes::Many(bytes) => bytes.as_slice(),
        }
    }

    /// Appends them to other bytes; out of memory, nothing is appended. Never inlined, so that the
    /// path of inline bytes stays short.
    #[inline(never)]
    pub fn append_to(&self, out: &mut Vec<u8>) -> Result<(), AllocError>
        ensures ok { OnOk result (out.new.items ≡ out.old.items ++ bytes_held self.now) }
        ensures err { OnErr result (out.new.items ≡ out.old.items) }
    {
        out.extend_from_slice(self.as_slice())
    }

    /// Keeps the same bytes once more. Most are inline, and this path copies those alone, so that
    /// the compiler copies two words.
    pub fn copy(&self) -> Result<TextBytes, AllocError>
        ensures { IfOk result (λ held. bytes_held held ≡ bytes_held self.now) }
    {
        if let TextBytes::Inline(inline) = self {
            return Ok(TextBytes::Inline(*inline));
        }
        self.copy_any()
    }

    /// The same, wherever they are.
    #[inline(never)]
    fn copy_any(&self) -> Result<TextBytes, AllocError>
        ensures { IfOk result (λ held. bytes_held held ≡ bytes_held self.now) }
    {
        match self {
            TextBytes::Inline(inline) => Ok(TextBytes::Inline(*inline)),
            TextBytes::Block(block) => Ok(TextBytes::Block(Arc::try_clone(block)?)),
            TextBytes::Many(bytes) => Ok(TextBytes::Many(bytes.clone()?)),
        }
    }
}
