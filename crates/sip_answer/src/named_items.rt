ghost use Rattle.std.specs.Prelude.{◌≡◌, ◌++◌, ◌∷◌, [], IfOk, OnOk, OnErr, length, map};
ghost use Rattle.std.specs.List.{list_any};
ghost use Rattle.std.specs.Str.{bytes_eq};
ghost use Rattle.sip_answer.specs.Deeds.{names_item};

use sip_reader::Id;
use std::alloc::{AllocError, Global};
use std::marker::Model;

/// The texts by which a response names items, in order, whatever bytes they have.
pub struct NamedItems {
    texts: Vec<Vec<u8>>,
}

impl Drop for NamedItems {
    fn drop(self) {
        let NamedItems { texts: _ } = self;
    }
}

impl Model for NamedItems {
    ghost use Rattle.std.specs.Prelude.{ℕ, List, map};

    ghost Value = { List (List ℕ) };

    ghost view = { λ i. map (λ t. t.items) i.texts.items };
}

impl NamedItems {
    /// Makes the list of no texts.
    pub fn new(alloc: Global) -> NamedItems
        ensures { result ≡ [] }
    {
        NamedItems {
            texts: Vec::new(alloc),
        }
    }

    /// Puts one more text at the end. Out of memory, nothing changes.
    pub fn push(&mut self, text: Vec<u8>) -> Result<(), AllocError>
        ensures ok { OnOk result (self.new ≡ self.old ++ text.items ∷ []) }
        ensures err { OnErr result (self.new ≡ self.old) }
    {
        self.texts.push(text)?;
        Ok(())
    }

    /// Gives how many texts there are, a text that is there twice counted twice.
    pub fn len(&self) -> usize
        ensures { result ≡ length self.now }
    {
        self.texts.len()
    }

    /// True exactly if one of the texts is the id's.
    pub fn has(&self, id: &Id) -> bool
        ensures { result ≡ names_item self.now id.now }
    {
        is_among(id.as_bytes(), &self.texts)
    }

    /// Gives all texts in the order in which they were put in.
    pub fn as_slice(&self) -> &[Vec<u8>]
        ensures { map (λ t. t.items) result.now ≡ self.now }
    {
        self.texts.as_slice()
    }

    /// The texts, borrowed.
    pub(crate) fn to_slices(&self, alloc: Global) -> Result<Vec<&[u8]>, AllocError>
        ensures { IfOk result (λ v. map (λ x. x.now) v.items ≡ self.now) }
    {
        slices_of(alloc, &self.texts)
    }
}

fn is_among(id: &[u8], texts: &[Vec<u8>]) -> bool
    ensures { result ≡ list_any (λ t. bytes_eq id.now t.items) texts.now }
{
    texts.iter().any(|text| id == text.as_slice())
}

fn slices_of(alloc: Global, texts: &[Vec<u8>]) -> Result<Vec<&[u8]>, AllocError>
    ensures { IfOk result (λ v. map (λ x. x.now) v.items ≡ map (λ t. t.items) texts.now) }
{
    let mut slices = Vec::new(alloc);
    for text in texts {
        slices.push(text.as_slice())?;
    }
    Ok(slices)
}
