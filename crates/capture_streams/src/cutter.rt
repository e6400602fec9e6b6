//! The bytes of a stream, cut into pieces.

ghost use Rattle.std.specs.Prelude.{◌≡◌, ◌++◌, ◌∷◌, [], true, false, IfOk, OnErr, IfSome};
ghost use Rattle.capture_streams.specs.Pieces.{Byte, HasNoEnd, IsMarked, bytes_alone, written};

use std::alloc::{AllocError, Global};
use std::marker::Model;
use std::mem;

/// A carriage return: the end of a message (SIP 2.00, message protocol).
const END: u8 = b'\r';

/// What was between two ends of a stream: an end is a carriage return or a gap.
pub struct StreamPiece {
    bytes: Vec<u8>,
    after_gap: bool,
    before_gap: bool,
}

impl Drop for StreamPiece {
    fn drop(self) {
        let StreamPiece {
            bytes: _,
            after_gap: _,
            before_gap: _,
        } = self;
    }
}

impl Model for StreamPiece {
    ghost use Rattle.capture_streams.specs.Pieces.{Piece as Cut};

    ghost Value = { Cut };

    ghost view = { λ p. record { bytes = p.bytes.items; after_gap = p.after_gap; before_gap = p.before_gap } };
}

impl StreamPiece {
    /// Its bytes, without its end.
    pub fn bytes(&self) -> &[u8]
        ensures { result.now ≡ self.now.bytes }
    {
        self.bytes.as_slice()
    }

    /// Whether a gap is before it, so that its beginning may be missing.
    pub fn is_after_gap(&self) -> bool
        ensures { result ≡ self.now.after_gap }
    {
        self.after_gap
    }

    /// Whether a gap is after it, so that its end is missing.
    pub fn is_before_gap(&self) -> bool
        ensures { result ≡ self.now.before_gap }
    {
        self.before_gap
    }
}

/// The bytes of a stream since its last end.
pub struct Cutter {
    alloc: Global,
    bytes: Vec<u8>,
    after_gap: bool,
}

impl Drop for Cutter {
    fn drop(self) {
        let Cutter {
            alloc: _,
            bytes: _,
            after_gap: _,
        } = self;
    }
}

impl Model for Cutter {
    ghost use Rattle.capture_streams.specs.Pieces.{Open};

    ghost Value = { Open };

    ghost use Rattle.capture_streams.specs.Pieces.{HasNoEnd};

    ghost view = { λ c. record { bytes = c.bytes.items; after_gap = c.after_gap } };

    ghost invariant = { λ c. HasNoEnd c.bytes.items };
}

impl Cutter {
    /// Before the first byte of a stream, which is that of a message or, after a gap, may be any.
    pub fn new(alloc: Global, after_gap: bool) -> Cutter
        ensures { result ≡ record { bytes = []; after_gap = after_gap } }
    {
        Cutter {
            alloc,
            bytes: Vec::new(alloc),
            after_gap,
        }
    }

    /// The bytes since the last end.
    pub fn open(&self) -> &[u8]
        ensures { result.now ≡ self.now.bytes }
    {
        self.bytes.as_slice()
    }

    /// Whether bytes are missing before them.
    pub fn is_after_gap(&self) -> bool
        ensures { result ≡ self.now.after_gap }
    {
        self.after_gap
    }

    /// Takes the next byte. Gives the piece that it ends, if it ends one.
    pub fn take(&mut self, byte: u8) -> Result<Option<StreamPiece>, AllocError>
        ensures whole { IfOk result (λ piece. written piece ++ bytes_alone self.new.bytes ≡ bytes_alone self.old.bytes ++ Byte byte ∷ []) }
        ensures cut { IfOk result (λ piece. IfSome piece (λ p. HasNoEnd p.bytes)) }
        ensures marked { IfOk result (λ piece. IsMarked self.old.after_gap piece self.new.after_gap) }
        ensures same { OnErr result (self.new ≡ self.old) }
    {
        if byte != END {
            self.bytes.push(byte)?;
            return Ok(None);
        }
        Ok(Some(self.piece(false)))
    }

    /// Bytes are missing here: gives what came since the last end.
    pub fn gap(&mut self) -> StreamPiece
        ensures piece { result ≡ record { bytes = self.old.bytes; after_gap = self.old.after_gap; before_gap = true } }
        ensures cut { HasNoEnd result.bytes }
        ensures new { self.new ≡ record { bytes = []; after_gap = true } }
    {
        self.piece(true)
    }

    /// What came since the last end, as a piece; nothing is open then.
    fn piece(&mut self, before_gap: bool) -> StreamPiece
        ensures piece { result ≡ record { bytes = self.old.bytes; after_gap = self.old.after_gap; before_gap = before_gap } }
        ensures cut { HasNoEnd result.bytes }
        ensures new { self.new ≡ record { bytes = []; after_gap = before_gap } }
    {
        let bytes = mem::replace(&mut self.bytes, Vec::new(self.alloc));
        let after_gap = self.after_gap;
        self.after_gap = before_gap;
        StreamPiece {
            bytes,
            after_gap,
            before_gap,
        }
    }
}
