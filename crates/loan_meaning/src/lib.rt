//! What checkin, checkout, renewal and renewal of all items do, computed over any source of records.
//! `read_set` says what they mean over the whole map of records; `message_meaning` adds the other kinds of messages.
#![tactic(auto)]

mod asked;
mod asking;
mod checkins;
mod checkouts;
mod fees;
mod lists;
mod lookup;
mod renew_alls;
mod renewals;
mod running;
mod telling;

pub use asked::LineContext;
pub use asking::{has_lent_to, has_loan};
pub use checkins::check_in;
pub use checkouts::{check_out, check_out_told, renew_item_told};
pub use fees::owed_of;
pub use lists::{
    has_id, has_queue, is_first_another, position, waits, with_pickup, without_all, without_hold,
};
pub use lookup::{fee_of, item_of, patron_of, read_after};
pub use renew_alls::renew_all;
pub use renewals::renew_item;
