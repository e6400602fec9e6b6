//! A library's policy: the policy file, the days on which the library is open, and late fees.
//!
//! `Policy::read` makes a policy from the bytes of a TOML file, or names the first rule that the
//! file breaks. `class` and `media` return what a policy says of a class of patrons or of a type of
//! media. `Policy::due` and `late_fee` compute days and money. Money is in hundredths; a day is a
//! `Day` of `sip_reader`.
#![tactic(auto)]

mod calendar;
mod class;
mod closed;
mod document;
mod due_form;
mod entry;
mod error;
mod fee;
mod loan_days;
mod media;
mod media_type;
mod policy;
mod read;
mod sections;
mod unknown;
mod values;

pub use class::Class;
pub use due_form::DueForm;
pub use error::PolicyError;
pub use fee::late_fee;
pub use loan_days::LoanDays;
pub use media::Media;
pub use media_type::MediaType;
pub use policy::Policy;

/// The keys of a policy file.
pub const POLICY_KEYS: [&str; 7] = [
    "institution",
    "currency",
    "due_form",
    "closed_weekdays",
    "closed_dates",
    "class",
    "media",
];

/// The keys of a class in it.
pub const CLASS_KEYS: [&str; 3] = ["max_loans", "max_fees", "max_renewals"];

/// The keys of a media type in it.
pub const MEDIA_KEYS: [&str; 4] = ["days", "rental", "late", "cap"];
