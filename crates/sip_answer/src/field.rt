ghost use Rattle.std.specs.Prelude.{◌≡◌};
ghost use Rattle.sip_answer.specs.Words.{word_of};

/// In what a recorded response differs from an answer.
#[derive(Clone, Copy, PartialEq, Eq)]
pub enum Field {
    /// Nothing is recorded.
    Missing,
    /// What is compared can't be read.
    Unreadable,
    /// The response is of another kind.
    Kind,
    Ok,
    Alert,
    Available,
    Due,
    Fee,
    Status,
    Valid,
    Accepted,
    Renewed,
    Unrenewed,
    RenewedItems,
    UnrenewedItems,
}

impl Field {
    /// Gives the word for it in the report, each field another.
    pub fn word(self) -> &'static str
        ensures { result.now ≡ word_of self }
    {
        match self {
            Field::Missing => "missing",
            Field::Unreadable => "unreadable",
            Field::Kind => "kind",
            Field::Ok => "ok",
            Field::Alert => "alert",
            Field::Available => "available",
            Field::Due => "due",
            Field::Fee => "fee",
            Field::Status => "status",
            Field::Valid => "valid",
            Field::Accepted => "accepted",
            Field::Renewed => "renewed",
            Field::Unrenewed => "unrenewed",
            Field::RenewedItems => "renewed_items",
            Field::UnrenewedItems => "unrenewed_items",
        }
    }
}
