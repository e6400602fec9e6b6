//! What was recorded and what is right, each in few words.

use crate::case::{Case, CaseNames};
use crate::fields::ShownField;
use crate::lists::known;
use crate::sayings::{fill, saying_of};
use crate::wording::Wording;

/// What a response says about a word of the report, in few words: the word, the identifier of the request, a field of the response with
/// its value, and what it says.
const SIDES: &str = "\
due|*|*|{~AH}
fee|*|*|{~BV}
alert|*|alert=Y|alert
alert|*|*|no alert
available|*|available=Y|available
available|*|*|not available
status|*|*|{~status}
valid|*|BL=Y|a patron
valid|*|*|no patron
renewed|*|*|{~renewed} renewed
unrenewed|*|*|{~unrenewed} not renewed
renewed_items|*|*|renewed: {~BM}
unrenewed_items|*|*|not renewed: {~BN}
whole|*|AZ=FEF6|please send it again
whole|09|ok=1|accepted
whole|19|ok=1|stored
whole|11|ok=1|lent until {~AH}
whole|29|ok=1|renewed until {~AH}
whole|*|ok=1|granted
whole|*|ok=0|refused
whole|*|accepted=Y|taken
whole|*|accepted=N|refused
whole|*|BL=Y|{~status}
whole|*|BL=N|no patron
whole|*|*|another response
";

/// The words of the report that are about the whole response.
const OF_ALL: &str = "\
ok=whole
accepted=whole
missing=whole
unreadable=whole
kind=whole
";

/// Writes what was recorded where the report has this word.
pub fn put_recorded(out: &mut Wording, word: &[u8], case: &Case<'_>, names: &CaseNames) {
    match word {
        b"missing" => out.add(b"nothing"),
        b"unreadable" => out.add(b"not readable"),
        b"kind" => out.add(case.recorded_name),
        _ => put_side(out, word, case, &case.recorded, names),
    }
}

/// Writes what is right where the report has this word.
pub fn put_right(out: &mut Wording, word: &[u8], case: &Case<'_>, names: &CaseNames) {
    put_side(out, word, case, &case.right, names)
}

fn put_side<'m>(
    out: &mut Wording,
    word: &[u8],
    case: &Case<'m>,
    fields: &[ShownField<'m>],
    names: &CaseNames,
) {
    let mut saying = saying_of(SIDES, word, case, fields);
    if saying.is_empty() {
        saying = saying_of(SIDES, known(OF_ALL, word), case, fields);
    }
    fill(out, saying, case, fields, names)
}
