//! Whether two records are the same.

ghost use Rattle.std.specs.Prelude.{◌≡◌};
ghost use Rattle.std.specs.Bool.{Decides};

use crate::holds::Hold;
use crate::record::{Fee, Item, Loan, Patron};
use sip_reader::{Id, Text};

impl Patron {
    /// True exactly if the two patrons are alike in each field.
    pub fn is_same(&self, other: &Patron) -> bool
        ensures { Decides result (self.now ≡ other.now) }
    {
        same_text(&self.name, &other.name)
            && same_id(&self.class, &other.class)
            && self.blocked == other.blocked
            && same_ids(self.loans.as_slice(), other.loans.as_slice())
            && same_ids(self.fees.as_slice(), other.fees.as_slice())
    }
}

impl Item {
    /// True exactly if the two items are alike in each field.
    pub fn is_same(&self, other: &Item) -> bool
        ensures { Decides result (self.now ≡ other.now) }
    {
        same_text(&self.title, &other.title)
            && self.media == other.media
            && same_text(&self.location, &other.location)
            && same_text(&self.properties, &other.properties)
            && same_lending(&self.loan, &other.loan)
            && same_holds(self.holds.as_slice(), other.holds.as_slice())
    }
}

impl Fee {
    /// True exactly if the two fees are alike in each field.
    pub fn is_same(&self, other: &Fee) -> bool
        ensures { Decides result (self.now ≡ other.now) }
    {
        same_id(&self.patron, &other.patron)
            && self.kind == other.kind
            && self.amount.hundredths() == other.amount.hundredths()
            && self.paid.hundredths() == other.paid.hundredths()
    }
}

fn same_lending(a: &Option<Loan>, b: &Option<Loan>) -> bool
    ensures { Decides result (a.now ≡ b.now) }
{
    match (a, b) {
        (Some(ours), Some(theirs)) => {
            same_id(&ours.patron, &theirs.patron)
                && ours.due.number() == theirs.due.number()
                && ours.renewals == theirs.renewals
        }
        (None, None) => true,
        _ => false,
    }
}

fn same_holds(a: &[Hold], b: &[Hold]) -> bool
    ensures { Decides result (a.now ≡ b.now) }
{
    if a.len() != b.len() {
        return false;
    }
    for i in 0..a.len() {
        if !same_id(&a[i].patron, &b[i].patron) || !same_text(&a[i].pickup, &b[i].pickup) {
            return false;
        }
    }
    true
}

fn same_ids(a: &[Id], b: &[Id]) -> bool
    ensures { Decides result (a.now ≡ b.now) }
{
    if a.len() != b.len() {
        return false;
    }
    for i in 0..a.len() {
        if !same_id(&a[i], &b[i]) {
            return false;
        }
    }
    true
}

fn same_id(a: &Id, b: &Id) -> bool
    ensures { Decides result (a.now ≡ b.now) }
{
    a == b
}

fn same_text(a: &Text, b: &Text) -> bool
    ensures { Decides result (a.now ≡ b.now) }
{
    a.as_bytes() == b.as_bytes()
}
