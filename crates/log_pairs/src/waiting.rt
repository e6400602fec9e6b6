//! A request that waits to be taken.

ghost use Rattle.std.specs.Prelude.{◌≡◌, IfOk};
ghost use Rattle.log_pairs.specs.Pairs as Spec;
ghost use Rattle.log_pairs.specs.Devices.Places.{passes};

use crate::exchange::Exchange;
use crate::fitting::fits_by;
use crate::pairing::Wanted;
use std::alloc::{AllocError, Global};
use std::marker::Model;

/// A request that waits to be taken, open while a response may yet come.
#[derive(Drop)]
pub(crate) struct Waiting {
    exchange: Exchange,
    is_open: bool,
}

impl Model for Waiting {
    ghost use Rattle.log_pairs.specs.Pairs.{Pending};

    ghost Value = { Pending };

    ghost view = { λ w. record { pair = w.exchange; is_open = w.is_open } };
}

impl Waiting {
    /// A request that is open.
    pub(crate) fn asks(
        alloc: Global,
        connection: &[u8],
        request: &[u8],
    ) -> Result<Waiting, AllocError>
        ensures { IfOk result (λ w. w ≡ Spec.asks connection.now request.now) }
    {
        Ok(Waiting {
            exchange: Exchange::asked(alloc, connection, request)?,
            is_open: true,
        })
    }

    pub(crate) fn is_open(&self) -> bool
        ensures { result ≡ self.now.is_open }
    {
        self.is_open
    }

    /// Whether it is an open request of this connection.
    fn is_open_of(&self, connection: &[u8]) -> bool
        ensures { result ≡ Spec.is_open_of connection.now self.now }
    {
        self.is_open && connection == self.exchange.connection()
    }

    /// Whether it is one that a response fits; digits count only if that is said.
    fn may_have(&self, digits: bool, connection: &[u8], response: &[u8]) -> bool
        ensures { result ≡ Spec.may_have digits connection.now response.now self.now }
    {
        self.is_open_of(connection) && fits_by(digits, self.exchange.request(), response)
    }

    /// Whether it is one that is wanted for a response.
    pub(crate) fn is(&self, wanted: Wanted, connection: &[u8], response: &[u8]) -> bool
        ensures { result ≡ passes wanted connection.now response.now self.now }
    {
        match wanted {
            Wanted::Own => connection == self.exchange.connection(),
            Wanted::Open => self.is_open_of(connection),
            Wanted::OfKind => self.may_have(false, connection, response),
            Wanted::Exact => self.may_have(true, connection, response),
        }
    }

    /// Gives it the response.
    pub(crate) fn gets(&mut self, response: Vec<u8>)
        ensures { self.new ≡ Spec.gets response.items self.old }
    {
        self.exchange.answer(response);
        self.is_open = false;
    }

    /// No response comes for it any more.
    pub(crate) fn close(&mut self)
        ensures { self.new ≡ Spec.closed self.old }
    {
        self.is_open = false;
    }

    /// None comes if its connection is this one, or if that is said of all.
    pub(crate) fn close_of(&mut self, all: bool, connection: &[u8])
        ensures { self.new ≡ Spec.closed_of all connection.now self.old }
    {
        if all || connection == self.exchange.connection() {
            self.is_open = false;
        }
    }

    /// The request with its response.
    pub(crate) fn into_exchange(self) -> Exchange
        ensures { result ≡ self.pair }
    {
        let Waiting {
            exchange,
            is_open: _,
        } = self;
        exchange
    }
}
