//! How a due date is written.

/// The form of the due dates in answers.
#[derive(Clone, Copy, PartialEq, Eq)]
pub enum DueForm {
    /// `YYYYMMDD`, four blanks, `235900`: as the standard writes dates.
    Sip,
    /// `YYYY-MM-DD`.
    Iso,
    /// `MM/DD/YYYY`.
    Us,
}
