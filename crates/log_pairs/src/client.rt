//! What is counted of a client, and what that says of its responses.

ghost use Rattle.std.specs.Prelude.{◌≡◌, ◌&&◌, not};
ghost use Rattle.log_pairs.specs.Pairs as Spec;

/// At most one in this number of a client's digits doesn't fit, if they count.
const DIGITS: u64 = 10;

/// At most one in this number of a client's responses fits no request, if such a response is given
/// to another one.
const MISFITS: u64 = 50;

/// What became of a response.
#[derive(Clone, Copy)]
pub enum Answered {
    /// It was given to a request that it fits.
    Fitting,
    /// It was given to a request that it doesn't fit, the last one of its connection.
    Misfit,
    /// It fits no open request, and was given to none.
    Withheld,
    /// No request of its connection is open.
    Unasked,
}

impl Answered {
    /// Whether it was given to no request.
    pub fn is_unasked(&self) -> bool
        ensures { result ≡ Spec.is_unasked self.now }
    {
        matches!(self, Answered::Withheld | Answered::Unasked)
    }

    /// Whether it was given to a request that it doesn't fit.
    pub fn is_misfit(&self) -> bool
        ensures { result ≡ Spec.is_misfit self.now }
    {
        matches!(self, Answered::Misfit)
    }
}

/// What is counted of a client: its responses while a request was open, those of them that fitted
/// none, those of the kind of an open request, and those of these with another sequence digit.
#[derive(Clone, Copy)]
pub struct FitCounts {
    pub responses: u64,
    pub misfits: u64,
    pub kinds: u64,
    pub off: u64,
}

/// What is found of the open requests of a connection, for a response.
#[derive(Clone, Copy)]
pub(crate) struct Fitness {
    pub is_open: bool,
    pub is_fit: bool,
    pub is_of_kind: bool,
    pub is_exact: bool,
}

impl FitCounts {
    /// A client of which nothing was counted.
    pub(crate) fn new() -> FitCounts
        ensures { result ≡ Spec.no_client }
    {
        FitCounts {
            responses: 0,
            misfits: 0,
            kinds: 0,
            off: 0,
        }
    }

    /// Whether its sequence digits count.
    pub(crate) fn uses_digits(&self) -> bool
        ensures { result ≡ Spec.uses_digits self.now }
    {
        self.off <= self.kinds / DIGITS
    }

    /// Whether a response that fits none is given to another request.
    pub(crate) fn takes_misfits(&self) -> bool
        ensures { result ≡ Spec.takes_misfits self.now }
    {
        self.misfits <= self.responses / MISFITS
    }

    /// What is counted with a response.
    pub(crate) fn then(&self, found: Fitness) -> FitCounts
        ensures { result ≡ record {
          responses = Spec.more self.now.responses found.is_open;
          misfits = Spec.more self.now.misfits (found.is_open && not found.is_fit);
          kinds = Spec.more self.now.kinds found.is_of_kind;
          off = Spec.more self.now.off (found.is_of_kind && not found.is_exact);
        } }
    {
        FitCounts {
            responses: more(self.responses, found.is_open),
            misfits: more(self.misfits, found.is_open && !found.is_fit),
            kinds: more(self.kinds, found.is_of_kind),
            off: more(self.off, found.is_of_kind && !found.is_exact),
        }
    }
}

/// One more, if that is so.
pub(crate) fn more(count: u64, so: bool) -> u64
    ensures { result ≡ Spec.more count so }
{
    if so { count.saturating_add(1) } else { count }
}
