//! The layer of answers: what is answered to a request, its bytes, in which words a recorded
//! response differs from it, and what that response says was done.
#![tactic(auto)]

mod answer;
mod comparing;
mod deed;
mod deeds;
mod field;
mod item_ids;
mod laws;
mod named_items;
mod owed;
mod reason;
mod recorded;
mod response;
mod writing;

pub use answer::{
    Answer, CheckinAnswer, FeePaidAnswer, HoldAnswer, ItemStatusAnswer, KnownItem, KnownPatron,
    LoanAnswer, PatronAnswer, PatronStatus, QueuePosition, RenewAllAnswer, ReturnedItem,
    TitledItem,
};
pub use comparing::{differences, identifier, is_own_text};
pub use deed::{Deed, ToldLoan};
pub use deeds::{agrees, deed_of};
pub use field::Field;
pub use item_ids::ItemIds;
pub use laws::{agrees_as_recorded, own_text_agrees};
pub use named_items::NamedItems;
pub use owed::Owed;
pub use reason::{Reason, Reasons};
pub use recorded::{
    read_checkin, read_fee_paid, read_hold, read_item_status, read_loan, read_patron,
    read_renew_all, response_with,
};
pub use response::{CheckinResponse, HoldResponse, LoanResponse, PatronResponse, RenewAllResponse};
pub use writing::{put_answer, write_answer};
