//! Why a response was wrong: the record by which the rules decided.

use crate::case::CaseNames;
use crate::days::put_day;
use crate::lists::fits;
use crate::parts::{cut, split};
use crate::sayings::{put_item, put_patron};
use crate::wording::Wording;

/// A record that a line read, as `sip_why` describes it.
#[derive(Clone, Copy)]
pub struct Origin<'w> {
    /// `patron`, `item` or `fee`; nothing where the line read no record.
    pub kind: &'w [u8],
    pub id: &'w [u8],
    /// What mattered of the record: words with their values, with `; ` between them.
    pub said: &'w [u8],
    /// The line that wrote the record last, whatever of it that was; `base` where none did.
    pub since: &'w [u8],
}

/// Why a response was wrong: a saying, and the record that it is about.
#[derive(Clone, Copy)]
pub struct Because<'w> {
    saying: &'static [u8],
    pub origin: Origin<'w>,
}

/// What is said of why a response was wrong: the word of the report, the reason of the answer, what is said of the record, the kind of the record, and
/// the saying; `*` fits any. The first line that fits counts. A place in braces has a mark, which says how it is written, and `id` or a word of
/// what is said of the record: a patron (`@`), an item (`+`), a day (`#`), days (`&`), a text as it is (`=`), or the `s` of a plural (`s`); `~` says that it
/// was so before the first line, where no line wrote the record. What is owed isn't in the record of a patron: so that isn't said of it.
const BECAUSES: &str = "\
*|unknown_patron|*|patron|no table has {@id}
*|unknown_item|*|item|no table has {+id}
fee|*|rental|item|its rental is {=rental}
due|*|due day given|item|the request gives that day
due|*|closed|item|a loan of {=days} day{sdays} ends on a closed day: {&closed}
due|*|days|item|it is lent for {=days} day{sdays}
alert|*|first|item|{@first} waits for it first, of {=holds}{~since}
alert|*|*|item|nobody waits for it{~since}
available|*|borrower none|item|nobody has it{~since}
available|*|borrower|item|{@borrower} has it until {#due}{~since}
status|*|blocked Y|patron|{@id} is blocked{~since}
valid|*|class|patron|{@id} is in the tables{~since}
accepted|*|owed|patron|{@id} owed {=owed}
*|own_loan|borrower|item|{@borrower} has it until {#due}{~since}
*|lent|borrower|item|{@borrower} has it until {#due}{~since}
*|third_party|borrower|item|{@borrower} has it until {#due}{~since}
*|not_lent|*|item|nobody has it{~since}
*|queue|first|item|{@first} waits for it first, of {=holds}{~since}
*|waited_for|first|item|{@first} waits for it, of {=holds}{~since}
*|blocked|*|patron|{@id} is blocked{~since}
*|max_loans|*|patron|{@id} has {=loans} loans{~since}
*|max_fees|*|patron|{@id} owes {=owed}
*|max_renewals|*|item|it was renewed {=renewals} time{srenewals}{~since}
*|rental|*|item|nobody agreed to its rental of {=rental}
*|has_entry|*|item|{@first} waits for it first, of {=holds}{~since}
*|queue_full|*|item|its queue has {=holds}{~since}
*|no_entry|*|item|its queue has {=holds}, and the patron isn't in it{~since}
*|returned_late|borrower|item|{@borrower} had it until {#due}{~since}, and it came back on {#back}
*|returned|borrower|item|{@borrower} had it until {#due}{~since}
*|made|borrower none|item|nobody had it{~since}
*|made|borrower|item|{@borrower} had it until {#due}{~since}
*|renewed|borrower|item|{@borrower} had it until {#due}{~since}
*|done|class|patron|{@id} is in the tables{~since}
*|done|borrower|item|{+id} is in the tables{~since}";

/// Why a response is wrong in a word of the report, where that is known.
pub fn because_of<'w>(word: &[u8], reason: &[u8], origins: &[Origin<'w>]) -> Option<Because<'w>> {
    for line in split(BECAUSES.as_bytes(), b'\n') {
        let (about, line) = cut(line, b'|');
        let (why, line) = cut(line, b'|');
        if fits(about, word) && fits(why, reason) {
            if let Some(because) = said_by(line, origins) {
                return Some(because);
            }
        }
    }
    None
}

/// What the rest of a line says of the first record that it fits.
fn said_by<'w>(line: &'static [u8], origins: &[Origin<'w>]) -> Option<Because<'w>> {
    let (has, line) = cut(line, b'|');
    let (kind, saying) = cut(line, b'|');
    for origin in origins {
        if origin.kind == kind && (has == b"*".as_slice() || said_of(origin.said, has).is_some()) {
            return Some(Because {
                saying,
                origin: *origin,
            });
        }
    }
    None
}

/// What is said of a word of a record: `due` in `borrower P1; due 20260316`.
fn said_of<'w>(said: &'w [u8], word: &[u8]) -> Option<&'w [u8]> {
    split(said, b';').find_map(|part| value_of(part.trim_ascii_start(), word))
}

/// What a part says of a word that it begins with.
fn value_of<'w>(part: &'w [u8], word: &[u8]) -> Option<&'w [u8]> {
    let value = part.strip_prefix(word)?;
    match value.first() {
        None | Some(b' ') => Some(value.trim_ascii_start()),
        _ => None,
    }
}

impl Because<'_> {
    /// Writes it.
    pub fn put(&self, out: &mut Wording, names: &CaseNames) {
        for piece in split(self.saying, b'}') {
            let (before, place) = cut(piece, b'{');
            out.add(before);
            put_place(out, place, &self.origin, names);
        }
    }
}

/// Writes the value of a place.
fn put_place(out: &mut Wording, place: &[u8], origin: &Origin<'_>, names: &CaseNames) {
    let Some((mark, word)) = place.split_first() else {
        return;
    };
    let value = if word == b"id".as_slice() {
        origin.id
    } else {
        said_of(origin.said, word).unwrap_or(b"")
    };
    match *mark {
        b'~' if origin.since == b"base".as_slice() => out.add(b", since before the first line"),
        b'~' => {}
        b's' if value == b"1".as_slice() => {}
        b's' => out.add(b"s"),
        b'@' => put_patron(out, value, names),
        b'+' => put_item(out, value, names),
        b'#' => put_day(out, value),
        b'&' => put_days(out, value),
        _ => out.add(value),
    }
}

/// Writes days that are separated by blanks.
fn put_days(out: &mut Wording, days: &[u8]) {
    let mut before = b"".as_slice();
    for day in split(days, b' ') {
        out.add(before);
        put_day(out, day);
        before = b", ";
    }
}
