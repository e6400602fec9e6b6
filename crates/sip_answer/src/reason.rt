//! Why a request is answered as it is: the tests by which the rules decide, by name.

ghost use Rattle.std.specs.Prelude.{◌≡◌, ◌++◌, ◌∷◌, [], OnOk, OnErr};
ghost use Rattle.sip_answer.specs.Reasons.{grants, reason_word};

use std::alloc::{AllocError, Global};
use std::marker::Model;

/// Why a line is answered as it is: the first test of its rule that holds (docs/RULES.md).
#[derive(Clone, Copy)]
pub enum Reason {
    /// The patron counts as unknown.
    UnknownPatron,
    /// The item counts as unknown.
    UnknownItem,
    /// The item is on loan to the same patron.
    OwnLoan,
    /// The item is on loan to another.
    Lent,
    /// The first entry of the queue is another's.
    Queue,
    /// The patron is blocked.
    Blocked,
    /// The patron has as many loans as the class allows.
    MaxLoans,
    /// The patron owes more than the class allows.
    MaxFees,
    /// There is a rental, and the user didn't agree to it.
    Rental,
    /// A loan was made.
    Made,
    /// What is to be renewed isn't on loan.
    NotLent,
    /// What is to be renewed is on loan to another, and third parties aren't allowed.
    ThirdParty,
    /// Somebody waits for what is to be renewed.
    WaitedFor,
    /// The loan was renewed as often as the class allows.
    MaxRenewals,
    /// A loan was renewed.
    Renewed,
    /// What came back wasn't on loan: nothing changes.
    WasIn,
    /// A loan ended.
    Returned,
    /// A loan ended, and a late fee was charged.
    ReturnedLate,
    /// The patron waits already.
    HasEntry,
    /// 9,999 wait.
    QueueFull,
    /// The patron waits from now on.
    Added,
    /// The patron doesn't wait.
    NoEntry,
    /// The patron waits no more.
    Deleted,
    /// The patron waits for another pickup place.
    Changed,
    /// The currency isn't the policy's.
    Currency,
    /// Nothing was paid in.
    NoAmount,
    /// Nothing is left to pay of what is meant.
    NothingOwed,
    /// Something was paid.
    Paid,
    /// It was done: of what has no other test.
    Done,
    /// The sum of the message is wrong.
    Checksum,
}

impl Reason {
    /// True exactly if the reason goes with a yes.
    pub fn grants(self) -> bool
        ensures { result ≡ grants self }
    {
        matches!(
            self,
            Reason::Made
                | Reason::Renewed
                | Reason::WasIn
                | Reason::Returned
                | Reason::ReturnedLate
                | Reason::Added
                | Reason::Deleted
                | Reason::Changed
                | Reason::NothingOwed
                | Reason::Paid
                | Reason::Done
        )
    }

    /// Gives the word for it in tables, by which a reader finds the test.
    pub fn word(self) -> &'static str
        ensures { result.now ≡ reason_word self }
    {
        match self {
            Reason::UnknownPatron => "unknown_patron",
            Reason::UnknownItem => "unknown_item",
            Reason::OwnLoan => "own_loan",
            Reason::Lent => "lent",
            Reason::Queue => "queue",
            Reason::Blocked => "blocked",
            Reason::MaxLoans => "max_loans",
            Reason::MaxFees => "max_fees",
            Reason::Rental => "rental",
            Reason::Made => "made",
            Reason::NotLent | Reason::WasIn => "not_lent",
            Reason::ThirdParty => "third_party",
            Reason::WaitedFor => "waited_for",
            Reason::MaxRenewals => "max_renewals",
            Reason::Renewed => "renewed",
            Reason::Returned => "returned",
            Reason::ReturnedLate => "returned_late",
            Reason::HasEntry => "has_entry",
            Reason::QueueFull => "queue_full",
            Reason::Added => "added",
            Reason::NoEntry => "no_entry",
            Reason::Deleted => "deleted",
            Reason::Changed => "changed",
            Reason::Currency => "currency",
            Reason::NoAmount => "no_amount",
            Reason::NothingOwed => "nothing_owed",
            Reason::Paid => "paid",
            Reason::Done => "done",
            Reason::Checksum => "checksum",
        }
    }
}

/// Reasons, in order.
pub struct Reasons {
    reasons: Vec<Reason>,
}

impl Drop for Reasons {
    fn drop(self) {
        let Reasons { reasons: _ } = self;
    }
}

impl Model for Reasons {
    ghost use Rattle.std.specs.Prelude.{List};
    ghost use Rattle.sip_answer.specs.declared.reason.Reason.{Reason};

    ghost Value = { List Reason };

    ghost view = { λ r. r.reasons.items };
}

impl Reasons {
    /// Makes the list of no reasons.
    pub fn new(alloc: Global) -> Reasons
        ensures { result ≡ [] }
    {
        Reasons {
            reasons: Vec::new(alloc),
        }
    }

    /// Puts one more reason at the end. Out of memory, nothing changes.
    pub fn push(&mut self, reason: Reason) -> Result<(), AllocError>
        ensures ok { OnOk result (self.new ≡ self.old ++ reason ∷ []) }
        ensures err { OnErr result (self.new ≡ self.old) }
    {
        self.reasons.push(reason)?;
        Ok(())
    }

    /// Gives all reasons in the order in which they were put in.
    pub fn as_slice(&self) -> &[Reason]
        ensures { result.now ≡ self.now }
    {
        self.reasons.as_slice()
    }
}
