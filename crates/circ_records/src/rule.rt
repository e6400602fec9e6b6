ghost use Rattle.std.specs.Prelude.{Some};
ghost use Rattle.circ_records.specs.Words.{rule_word};

use std::fmt;

/// The rules for the rows of tables, in the order in which a row is tested by them.
#[derive(Clone, Copy, Debug, PartialEq, Eq)]
pub enum BaseRule {
    /// An id has 1 to 64 bytes, another text at most 1,024, with no bar, CR or LF.
    Text,
    /// Flags, days, numbers, fee types and amounts have their forms.
    Value,
    /// An id occurs twice.
    Double,
    /// The policy has no such class.
    Class,
    /// The policy has no such media type.
    Media,
    /// There is no such patron.
    Patron,
    /// There is no such item.
    Item,
    /// An earlier row lends the item.
    Lent,
    /// What is paid isn't below the amount of an open fee.
    Paid,
    /// The fee's id is one that a line of the journal may make.
    Number,
    /// The patron who waits has the item on loan.
    Borrower,
    /// 9,999 others wait for the item.
    Queue,
}

impl fmt::Display for BaseRule {
    ghost output = { λ r. Some (rule_word r) };

    fn fmt<W: fmt::Write>(&self, f: &mut fmt::Formatter<W>) -> fmt::Result {
        f.write_str(match self {
            BaseRule::Text => "text",
            BaseRule::Value => "value",
            BaseRule::Double => "double",
            BaseRule::Class => "class",
            BaseRule::Media => "media",
            BaseRule::Patron => "patron",
            BaseRule::Item => "item",
            BaseRule::Lent => "lent",
            BaseRule::Paid => "paid",
            BaseRule::Number => "number",
            BaseRule::Borrower => "borrower",
            BaseRule::Queue => "queue",
        })
    }
}
