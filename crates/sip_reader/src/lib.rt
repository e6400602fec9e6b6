//! The lowest layer: the bytes of a SIP2 message become values.
//!
//! Here are the types that all layers above share (ids, texts, days, dates, amounts), the checksum
//! of error detection, and the one reading that each message has: a request of one of nine kinds, a
//! message that is passed over, a wrong sum, or the first test that it fails. Nothing here knows of
//! records, rules or answers.
#![tactic(auto)]

mod act;
mod amount;
mod barred;
mod checks;
mod day;
mod fields;
mod id;
mod inline;
mod kind;
mod laws;
mod numerals;
mod read;
mod request;
mod stamp;
mod sum;
mod text;
mod text_bytes;

pub use amount::{AMOUNT_MAX, Amount, push_amount};
pub use day::Day;
pub use id::{ID_MAX, Id, LINE_NUMBER_END, LINE_NUMBER_MAX, is_id};
pub use laws::{amounts_read_back, first_field_counts, pieces_tell_the_rest};
pub use numerals::{all_digits, number_of_digits};
pub use read::{MESSAGE_MAX, read_request, without_line_end};
pub use request::{
    Act, BlockPatron, Checkin, Checkout, FeePaid, HoldMode, HoldRequest, ItemStatus, Kind, Passed,
    PatronEnable, Reading, Renew, RenewAll, Request, Why,
};
pub use stamp::{STAMP_LEN, Stamp};
pub use sum::{sum_of, unsummed};
pub use text::{TEXT_MAX, Text, is_text};
