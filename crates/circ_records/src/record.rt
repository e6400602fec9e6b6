ghost use Rattle.std.specs.Prelude.{◌≡◌, IfOk};
ghost use Rattle.circ_records.specs.FeeTypes.{fee_type_code, fee_type_of};
ghost use Rattle.circ_records.specs.declared.record.Record.TheVariants as record_of;

use crate::holds::Holds;
use crate::ids::Ids;
use crate::shared::Shared;
use circ_policy::MediaType;
use sip_reader::{Amount, Day, Id, Text};
use std::alloc::{AllocError, Global};

/// A patron, an item or a fee, reference-counted: copies share its memory.
#[derive(Drop)]
pub enum Record {
    Patron(Shared<Patron>),
    Item(Shared<Item>),
    Fee(Shared<Fee>),
}

/// A member of the library.
pub struct Patron {
    pub name: Text,
    pub class: Id,
    pub blocked: bool,
    /// The items that the patron has on loan, the oldest loan first.
    pub loans: Ids,
    /// The fees that aren't paid in full, the oldest first.
    pub fees: Ids,
}

impl Drop for Patron {
    fn drop(self) {
        let Patron {
            name: _,
            class: _,
            blocked: _,
            loans: _,
            fees: _,
        } = self;
    }
}

/// A thing that the library lends.
pub struct Item {
    pub title: Text,
    pub media: MediaType,
    /// Its location when it isn't on loan.
    pub location: Text,
    pub properties: Text,
    pub loan: Option<Loan>,
    /// Who waits for it, in order.
    pub holds: Holds,
}

impl Drop for Item {
    fn drop(self) {
        let Item {
            title: _,
            media: _,
            location: _,
            properties: _,
            loan: _,
            holds: _,
        } = self;
    }
}

/// Who has an item, and until when.
pub struct Loan {
    pub patron: Id,
    pub due: Day,
    /// How often it was renewed.
    pub renewals: u32,
}

impl Drop for Loan {
    fn drop(self) {
        let Loan {
            patron: _,
            due: _,
            renewals: _,
        } = self;
    }
}

impl Loan {
    /// Gives the same patron's loan with this due day and this number of renewals.
    pub fn with_due(self, due: Day, renewals: u32) -> Loan
        ensures { result ≡ record self { due = due; renewals = renewals } }
    {
        let Loan {
            patron,
            due: _,
            renewals: _,
        } = self;
        Loan {
            patron,
            due,
            renewals,
        }
    }
}

/// A clone is the same loan.
impl Clone for Loan {
    ghost use Rattle.std.specs.Prelude.{◌≡◌};

    ghost is_clone = { λ x y. y ≡ x };

    fn clone(&self) -> Result<Loan, AllocError> {
        let patron = self.patron.clone()?;
        Ok(Loan {
            patron,
            due: self.due,
            renewals: self.renewals,
        })
    }
}

/// What a patron was charged, in hundredths.
pub struct Fee {
    pub patron: Id,
    pub kind: FeeType,
    pub amount: Amount,
    pub paid: Amount,
}

impl Drop for Fee {
    fn drop(self) {
        let Fee {
            patron: _,
            kind: _,
            amount: _,
            paid: _,
        } = self;
    }
}

/// A clone is the same fee.
impl Clone for Fee {
    ghost use Rattle.std.specs.Prelude.{◌≡◌};

    ghost is_clone = { λ x y. y ≡ x };

    fn clone(&self) -> Result<Fee, AllocError> {
        let patron = self.patron.clone()?;
        Ok(Fee {
            patron,
            kind: self.kind,
            amount: self.amount,
            paid: self.paid,
        })
    }
}

/// What a fee is for: the fee types of SIP2, 01 to 09.
#[derive(Clone, Copy, PartialEq, Eq)]
pub enum FeeType {
    Other,
    Administrative,
    Damage,
    Overdue,
    Processing,
    Rental,
    Replacement,
    ComputerAccess,
    HoldFee,
}

impl FeeType {
    /// Gives the two digits that SIP2 has for this fee type, each type others.
    pub fn code(self) -> [u8; 2]
        ensures { result ≡ fee_type_code self }
    {
        match self {
            FeeType::Other => *b"01",
            FeeType::Administrative => *b"02",
            FeeType::Damage => *b"03",
            FeeType::Overdue => *b"04",
            FeeType::Processing => *b"05",
            FeeType::Rental => *b"06",
            FeeType::Replacement => *b"07",
            FeeType::ComputerAccess => *b"08",
            FeeType::HoldFee => *b"09",
        }
    }

    /// Gives the fee type of two digits; None for digits that SIP2 doesn't have.
    #[tactic(auto, unfolding(crate::specs::FeeTypes::fee_type_of))]
    pub fn of_code(code: &[u8]) -> Option<FeeType>
        ensures { result ≡ fee_type_of code.now }
    {
        FEE_TYPES
            .iter()
            .copied()
            .find(|kind| kind.code().as_slice() == code)
    }
}

/// All fee types, in the order of their codes.
const FEE_TYPES: [FeeType; 9] = [
    FeeType::Other,
    FeeType::Administrative,
    FeeType::Damage,
    FeeType::Overdue,
    FeeType::Processing,
    FeeType::Rental,
    FeeType::Replacement,
    FeeType::ComputerAccess,
    FeeType::HoldFee,
];

impl Record {
    /// Makes the record of exactly this patron.
    pub fn patron(alloc: Global, patron: Patron) -> Result<Record, AllocError>
        ensures { IfOk result (λ r. r ≡ record_of.Patron patron) }
    {
        Ok(Record::Patron(Shared::new(alloc, patron)?))
    }

    /// Makes the record of exactly this item.
    #[inline(always)]
    pub fn item(alloc: Global, item: Item) -> Result<Record, AllocError>
        ensures { IfOk result (λ r. r ≡ record_of.Item item) }
    {
        Ok(Record::Item(Shared::new(alloc, item)?))
    }

    /// Makes the record of exactly this fee.
    pub fn fee(alloc: Global, fee: Fee) -> Result<Record, AllocError>
        ensures { IfOk result (λ r. r ≡ record_of.Fee fee) }
    {
        Ok(Record::Fee(Shared::new(alloc, fee)?))
    }

    /// How many bytes and ids the record has. To count them reads the memory that most rules read
    /// of it.
    pub(crate) fn extent(&self) -> usize {
        match self {
            Record::Patron(patron) => {
                let patron = patron.get();
                let ids = patron.loans.as_slice().len();
                patron.name.as_bytes().len().saturating_add(ids)
            }
            Record::Item(item) => item.get().title.as_bytes().len(),
            Record::Fee(_) => 0,
        }
    }

    /// Gives the same record, in the same memory.
    pub fn copy(&self) -> Result<Record, AllocError>
        ensures { IfOk result (λ r. r ≡ self.now) }
    {
        match self {
            Record::Patron(patron) => Ok(Record::Patron(patron.copy()?)),
            Record::Item(item) => Ok(Record::Item(item.copy()?)),
            Record::Fee(fee) => Ok(Record::Fee(fee.copy()?)),
        }
    }
}

/// A clone is the same record. So a whole map of records is copied as it is built, with no look-up.
impl Clone for Record {
    ghost use Rattle.std.specs.Prelude.{◌≡◌};

    ghost is_clone = { λ x y. y ≡ x };

    fn clone(&self) -> Result<Record, AllocError> {
        self.copy()
    }
}

impl Patron {
    /// Gives a patron that is alike in each field, to be changed.
    pub fn of(shared: Shared<Patron>) -> Result<Patron, AllocError>
        ensures { IfOk result (λ p. p ≡ shared) }
    {
        shared.get().clone()
    }
}

/// A clone is the same patron. Allocates nothing.
impl Clone for Patron {
    ghost use Rattle.std.specs.Prelude.{◌≡◌};

    ghost is_clone = { λ x y. y ≡ x };

    #[inline(always)]
    fn clone(&self) -> Result<Patron, AllocError> {
        Ok(Patron {
            name: self.name.clone()?,
            class: self.class.clone()?,
            blocked: self.blocked,
            loans: self.loans.copy()?,
            fees: self.fees.copy()?,
        })
    }
}

/// A clone is the same item.
impl Clone for Item {
    ghost use Rattle.std.specs.Prelude.{◌≡◌};

    ghost is_clone = { λ x y. y ≡ x };

    fn clone(&self) -> Result<Item, AllocError> {
        self.with(self.loan.clone()?, self.holds.copy(self.holds.allocator())?)
    }
}

impl Item {
    /// Gives the same item with this loan, or none, and this queue.
    #[inline(always)]
    pub fn with(&self, loan: Option<Loan>, holds: Holds) -> Result<Item, AllocError>
        ensures { IfOk result (λ i. i ≡ record self.now { loan = loan; holds = holds }) }
    {
        Ok(Item {
            title: self.title.clone()?,
            media: self.media,
            location: self.location.clone()?,
            properties: self.properties.clone()?,
            loan,
            holds,
        })
    }

    /// Gives an item that is alike in each field, to be changed.
    pub fn of(alloc: Global, shared: Shared<Item>) -> Result<Item, AllocError>
        ensures { IfOk result (λ i. i ≡ shared) }
    {
        let item = shared.get();
        item.with(item.loan.clone()?, item.holds.copy(alloc)?)
    }
}
