//! A line with its messages, field by field.

use crate::fields::ShownField;
use std::alloc::Global;
use std::collections::BTreeMap;

/// Texts by the ids that they belong to.
pub type TextsById = BTreeMap<Vec<u8>, Vec<u8>>;

/// What items and patrons are called, by their ids.
pub struct CaseNames {
    pub titles: TextsById,
    pub patrons: TextsById,
}

impl Drop for CaseNames {
    fn drop(self) {
        let CaseNames {
            titles: _,
            patrons: _,
        } = self;
    }
}

/// A request with the response that was recorded and the right one, field by field.
pub struct Case<'m> {
    /// The identifier of the request.
    pub kind: &'m [u8],
    /// What the recorded response is called.
    pub recorded_name: &'static [u8],
    pub asked: Vec<ShownField<'m>>,
    pub recorded: Vec<ShownField<'m>>,
    pub right: Vec<ShownField<'m>>,
}

impl Drop for Case<'_> {
    fn drop(self) {
        let Case {
            kind: _,
            recorded_name: _,
            asked: _,
            recorded: _,
            right: _,
        } = self;
    }
}

impl<'m> Case<'m> {
    /// Without a field.
    pub fn new(alloc: Global, kind: &'m [u8], recorded_name: &'static [u8]) -> Case<'m> {
        Case {
            kind,
            recorded_name,
            asked: Vec::new(alloc),
            recorded: Vec::new(alloc),
            right: Vec::new(alloc),
        }
    }
}
