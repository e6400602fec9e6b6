//! What a page says of a run, in words: what messages and fields are called, what was wrong with a response, what was recorded and
//! what is right, and why. Here are lists of words and how they are filled in; `sip_page` decides what is shown where.
#![tactic(auto)]

mod because;
mod case;
mod days;
mod fields;
mod lists;
mod parts;
mod sayings;
mod sides;
mod wording;

pub use because::{Because, Origin, because_of};
pub use case::{Case, CaseNames, TextsById};
pub use days::{put_day, put_moment, put_time};
pub use fields::{ShownField, add_fields, name_of, other_of, value_in, values_in};
pub use lists::{
    ANSWERED, BLOCKED, FEE_TYPES, FIELDS, REASONS, REQUESTS, SECRETS, WEIGHTS, WORDS, known,
};
pub use parts::{Parts, cut, split};
pub use sayings::{fill, group_saying, put_item, put_patron, say};
pub use sides::{put_recorded, put_right};
pub use wording::Wording;
