//! The variable fields of a request.

ghost use Rattle.std.specs.Prelude.{◌≡◌, []};
ghost use Rattle.sip_reader.specs.Fields.{pieces, texts};
ghost use Rattle.sip_reader.specs.Views.{texts_behind, with_piece};

use memchr::memchr;

/// The texts of the variable fields that the rules use, each of the first piece with its
/// identifier.
#[derive(Clone, Copy, Default)]
pub struct Fields<'a> {
    /// Of AA.
    pub patron: Option<&'a [u8]>,
    /// Of AB.
    pub item: Option<&'a [u8]>,
    /// Of AJ.
    pub title: Option<&'a [u8]>,
    /// Of BI.
    pub cancel: Option<&'a [u8]>,
    /// Of BO.
    pub agreed: Option<&'a [u8]>,
    /// Of BS.
    pub pickup: Option<&'a [u8]>,
    /// Of BV.
    pub amount: Option<&'a [u8]>,
    /// Of CG.
    pub fee: Option<&'a [u8]>,
    /// Of CH.
    pub properties: Option<&'a [u8]>,
    /// Whether a piece has one byte.
    pub short: bool,
}

impl<'a> Fields<'a> {
    /// Keeps the first text of each field that a variable part has. They are noted in place, since
    /// the fields are large to move.
    pub fn note_all(&mut self, part: &'a [u8])
        requires { texts_behind self.old ≡ texts [] }
        ensures { texts_behind self.new ≡ texts (pieces part.now) }
    {
        let mut rest = part;
        while let Some(bar) = memchr(b'|', rest) {
            self.note(&rest[..bar]);
            rest = &rest[bar + 1..];
        }
        self.note(rest);
    }

    /// Notes one more piece. The first with an identifier counts.
    fn note(&mut self, piece: &'a [u8])
        ensures { texts_behind self.new ≡ with_piece (texts_behind self.old) piece.now }
    {
        match piece {
            [b'A', b'A', text @ ..] => self.patron = self.patron.or(Some(text)),
            [b'A', b'B', text @ ..] => self.item = self.item.or(Some(text)),
            [b'A', b'J', text @ ..] => self.title = self.title.or(Some(text)),
            [b'B', b'I', text @ ..] => self.cancel = self.cancel.or(Some(text)),
            [b'B', b'O', text @ ..] => self.agreed = self.agreed.or(Some(text)),
            [b'B', b'S', text @ ..] => self.pickup = self.pickup.or(Some(text)),
            [b'B', b'V', text @ ..] => self.amount = self.amount.or(Some(text)),
            [b'C', b'G', text @ ..] => self.fee = self.fee.or(Some(text)),
            [b'C', b'H', text @ ..] => self.properties = self.properties.or(Some(text)),
            [_] => self.short = true,
            _ => {}
        }
    }
}
