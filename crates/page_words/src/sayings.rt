//! What went wrong, and what changed, in words.

use crate::case::{Case, CaseNames, TextsById};
use crate::days::{put_day, without_zeros};
use crate::fields::{ShownField, value_in, values_in};
use crate::lists::{BLOCKED, FEE_TYPES, WEIGHTS, fits, known};
use crate::parts::{cut, split};
use crate::wording::Wording;

/// What is said of a word of the report: the word, the identifier of the request, a field of the right response with its
/// value, and the saying; `*` fits any. Of each word the first line that fits counts. `asked` and `right` are said at the
/// `{}` that ends the saying of a word of weight 3. A place in braces is a field of the request (`?`), of the recorded response (`-`), or of the
/// right one (`+`).
const SAYINGS: &str = "\
ok|11|ok=1|the server refused {?AA} the checkout of {?AB}; it should have been lent until {+AH}
ok|11|*|the server granted {?AA} the checkout of {?AB}; it should have been refused
ok|29|ok=1|the server refused {?AA} the renewal of {?AB}; it should have been renewed until {+AH}
ok|29|*|the server granted {?AA} the renewal of {?AB}; it should have been refused
ok|15|ok=1|the server refused {?AA} the hold on {?AB}; it should have been granted
ok|15|*|the server granted {?AA} the hold on {?AB}; it should have been refused
ok|65|ok=1|the server refused {?AA} the renewal of all loans; it should have been granted
ok|65|*|the server granted {?AA} the renewal of all loans; it should have been refused
ok|09|ok=1|the server refused the return of {?AB}; it should have been accepted
ok|09|*|the server accepted the return of {?AB}; it should have been refused
ok|19|ok=1|the server refused the new properties of {?AB}; they should have been stored
ok|19|*|the server stored the new properties of {?AB}; they should have been refused
due|*|*|the server told {?AA} that {?AB} is due on {-AH}; right is {+AH}
fee|*|*|the server told {?AA} the rental of {?AB} as {-BV}; right is {+BV}
alert|*|alert=Y|the server took back {?AB} without an alert; somebody waits for it
alert|*|*|the server took back {?AB} with an alert; nobody waits for it
available|*|available=Y|the server told {?AA} that {?AB} is not available; it stands on the shelf
available|*|*|the server told {?AA} that {?AB} is available; it is not
status|*|*|the server told other privileges of {?AA} than the records have: {-status}; right is: {+status}
valid|*|BL=Y|the server told that {?AA} is no patron; by the records there is one
valid|*|*|the server told that {?AA} is a patron; by the records there is none
accepted|*|accepted=Y|the server refused the payment of {?BV} by {?AA}; it should have been taken
accepted|*|*|the server took the payment of {?BV} by {?AA}; it should have been refused
renewed|*|*|the server told {?AA} the count of renewed items as {-renewed}; right is {+renewed}
unrenewed|*|*|it told the count of items that were not renewed as {-unrenewed}; right is {+unrenewed}
renewed_items|*|*|it named other items as renewed than those that are: {-BM}; right is {+BM}
unrenewed_items|*|*|it named other items as not renewed than those that are not: {-BN}; right is {+BN}
missing|*|*|no response was recorded to {}
unreadable|*|*|a response that cannot be read was recorded to {}
kind|*|*|a response to something else was recorded to {}
asked|01|*|the block of {?AA}
asked|09|*|the return of {?AB}
asked|11|*|the checkout of {?AB} by {?AA}
asked|15|*|the hold of {?AA} on {?AB}
asked|19|*|the new properties of {?AB}
asked|25|*|the end of the block of {?AA}
asked|29|*|the renewal of {?AB} by {?AA}
asked|37|*|the payment of {?BV} by {?AA}
asked|65|*|the renewal of all loans of {?AA}
asked|*|*|a request
right|*|AZ=FEF6|; its checksum was wrong, so the server should have asked for it again
right|09|ok=1|; it should have been accepted
right|19|ok=1|; they should have been stored
right|11|ok=1|; it should have been lent until {+AH}
right|29|ok=1|; it should have been renewed until {+AH}
right|*|ok=1|; it should have been granted
right|*|ok=0|; it should have been refused
right|*|accepted=Y|; it should have been taken
right|*|accepted=N|; it should have been refused
";

/// What is said of several lines at once: the word, the identifier of the request, a field of the right response with its value, what is
/// said where it is the same of all of them, and what is said where it isn't.
const GROUP_SAYINGS: &str = "\
ok|09|ok=1|refused; should have been accepted|
ok|09|*|accepted; should have been refused|
ok|19|ok=1|new properties refused; they should have been stored|
ok|19|*|new properties stored; they should have been refused|
ok|11|ok=1|refused; should have been lent until {+AH}|refused; should have been lent
ok|29|ok=1|refused; should have been renewed until {+AH}|refused; should have been renewed
ok|*|ok=1|refused; should have been granted|
ok|*|*|granted; should have been refused|
due|*|*|due {-AH} told, {+AH} is right|a wrong due date told
fee|*|*|rental {-BV} told, {+BV} is right|a wrong rental told
alert|*|alert=Y|no alert told, though somebody waits|
alert|*|*|an alert told, though nobody waits|
available|*|available=Y|told as not available, though on the shelf|
available|*|*|told as available, though not|
status|*|*|privileges told as: {-status}; right is: {+status}|other privileges told than the records have
valid|*|BL=Y|told as no patron, though there is one|
valid|*|*|told as a patron, though there is none|
accepted|*|accepted=Y|payment refused; should have been taken|
accepted|*|*|payment taken; should have been refused|
renewed|*|*|a wrong count of renewed items told|
unrenewed|*|*|a wrong count of items that were not renewed told|
renewed_items|*|*|other items named as renewed|
unrenewed_items|*|*|other items named as not renewed|
missing|*|*|no response was recorded|
unreadable|*|*|the responses cannot be read|
kind|*|*|responses to something else were recorded|
";

/// What can be said of several lines like this one, of which the report has this word: where it comes out the same for all of them, and else.
pub fn group_saying(word: &[u8], case: &Case<'_>) -> (&'static [u8], &'static [u8]) {
    match cut(saying_of(GROUP_SAYINGS, word, case, &case.right), b'|') {
        (same, b"") => (same, same),
        both => both,
    }
}

/// Says what a word of the report means for a case.
pub fn say(out: &mut Wording, word: &[u8], case: &Case<'_>, names: &CaseNames) {
    put_saying(out, word, case, names);
    if known(WEIGHTS, word) == b"3".as_slice() {
        put_saying(out, b"asked", case, names);
        put_saying(out, b"right", case, names);
    }
}

/// Writes what is said of a word.
fn put_saying(out: &mut Wording, word: &[u8], case: &Case<'_>, names: &CaseNames) {
    let saying = saying_of(SAYINGS, word, case, &case.right);
    fill(out, saying, case, &case.right, names);
}

/// What a list says of a word, where a message has these fields; nothing where no line fits.
pub(crate) fn saying_of(
    list: &'static str,
    word: &[u8],
    case: &Case<'_>,
    fields: &[ShownField<'_>],
) -> &'static [u8] {
    for line in split(list.as_bytes(), b'\n') {
        let (about, line) = cut(line, b'|');
        let (kind, line) = cut(line, b'|');
        let (when, saying) = cut(line, b'|');
        if about == word && fits(kind, case.kind) && is_so(when, fields) {
            return saying;
        }
    }
    b""
}

/// Whether a message has a field of this value, as in `ok=1`; `*` is so of any, since no field has that name.
fn is_so(when: &[u8], fields: &[ShownField<'_>]) -> bool {
    let (name, value) = cut(when, b'=');
    value_in(fields, name) == value
}

/// Writes words, and in each place in braces what stands for it: a field of the request (`?`), of the recorded response (`-`), of the
/// right one (`+`), or of the message that is meant (`~`).
pub fn fill<'m>(
    out: &mut Wording,
    words: &[u8],
    case: &Case<'m>,
    meant: &[ShownField<'m>],
    names: &CaseNames,
) {
    for piece in split(words, b'}') {
        let (before, place) = cut(piece, b'{');
        out.add(before);
        put_place(out, place, case, meant, names);
    }
}

/// Writes what stands for a place.
fn put_place<'m>(
    out: &mut Wording,
    place: &[u8],
    case: &Case<'m>,
    meant: &[ShownField<'m>],
    names: &CaseNames,
) {
    let Some((side, name)) = place.split_first() else {
        return;
    };
    let fields = match *side {
        b'?' => case.asked.as_slice(),
        b'-' => case.recorded.as_slice(),
        b'+' => case.right.as_slice(),
        _ => meant,
    };
    match name {
        b"BM" | b"BN" => values_in(out, fields, name),
        _ => put_value(out, name, value_in(fields, name), names),
    }
}

/// How a field is written that isn't written as it is: a day in words (`d`), an item with its title (`i`), a patron with the name (`p`), a
/// type of fees (`t`) and a block (`b`) in words, what a status denies (`s`), and a count without zeros before it (`c`).
const FORMS: &str = "\
AH=d
due=d
AB=i
item=i
AA=p
type=t
blocked=b
status=s
renewed=c
unrenewed=c
";

/// Writes the value of a field.
fn put_value(out: &mut Wording, name: &[u8], value: &[u8], names: &CaseNames) {
    match known(FORMS, name).first().copied().unwrap_or(b' ') {
        b'd' => put_day(out, value),
        b'i' => put_item(out, value, names),
        b'p' => put_patron(out, value, names),
        b't' => out.add(known(FEE_TYPES, value)),
        b'b' => out.add(known(BLOCKED, value)),
        b's' => put_status(out, value),
        b'c' => put_text(out, without_zeros(value)),
        _ => put_text(out, value),
    }
}

/// Writes a text; `none` for an empty one.
fn put_text(out: &mut Wording, text: &[u8]) {
    out.add(if text.is_empty() { b"none" } else { text });
}

/// The positions of a patron status that are compared, and what each denies.
static DENIALS: [(usize, &str); 4] = [
    (0, "no checkouts"),
    (1, "no renewals"),
    (5, "too many loans"),
    (11, "owes too much"),
];

/// Writes what a patron status denies.
fn put_status(out: &mut Wording, status: &[u8]) {
    let mut before = b"".as_slice();
    for (position, words) in &DENIALS {
        if status.get(*position) == Some(&b'Y') {
            out.add(before);
            out.add(words.as_bytes());
            before = b", ";
        }
    }
    if before.is_empty() {
        out.add(b"nothing denied");
    }
}

/// Writes an item, and its title in brackets where it has one.
pub fn put_item(out: &mut Wording, item: &[u8], names: &CaseNames) {
    put_named(out, item, &names.titles)
}

/// Writes a patron, and the name in brackets where there is one.
pub fn put_patron(out: &mut Wording, patron: &[u8], names: &CaseNames) {
    put_named(out, patron, &names.patrons)
}

fn put_named(out: &mut Wording, id: &[u8], texts: &TextsById) {
    out.add(id);
    match texts.get(id) {
        Some(text) if !text.is_empty() => {
            out.add(b" (");
            out.add(text);
            out.add(b")");
        }
        _ => {}
    }
}
