//! A request with its response.

ghost use Rattle.std.specs.Prelude.{◌≡◌, [], None, Some, IfOk, option_map, unwrap_or};

use std::alloc::{AllocError, Global};
use std::marker::Model;

/// A request, the connection that it came over, and the response to it, if there was one.
#[derive(Drop)]
pub struct Exchange {
    connection: Vec<u8>,
    request: Vec<u8>,
    response: Option<Vec<u8>>,
}

impl Model for Exchange {
    ghost use Rattle.log_pairs.specs.Pairs.{Pair};

    ghost Value = { Pair };

    ghost use Rattle.std.specs.Prelude.{option_map};

    ghost view = { λ e. record { connection = e.connection.items; request = e.request.items; response = option_map (λ r. r.items) e.response } };
}

impl Exchange {
    /// A request without a response.
    pub(crate) fn asked(
        alloc: Global,
        connection: &[u8],
        request: &[u8],
    ) -> Result<Exchange, AllocError>
        ensures { IfOk result (λ e. e ≡ record { connection = connection.now; request = request.now; response = None }) }
    {
        Ok(Exchange {
            connection: Vec::from_slice(alloc, connection)?,
            request: Vec::from_slice(alloc, request)?,
            response: None,
        })
    }

    /// Stores the response.
    pub(crate) fn answer(&mut self, response: Vec<u8>)
        ensures { self.new ≡ record self.old { response = Some response.items } }
    {
        self.response = Some(response);
    }

    /// The name of the connection.
    pub fn connection(&self) -> &[u8]
        ensures { result.now ≡ self.now.connection }
    {
        self.connection.as_slice()
    }

    /// The request, as the log has it.
    pub fn request(&self) -> &[u8]
        ensures { result.now ≡ self.now.request }
    {
        self.request.as_slice()
    }

    /// The response, as the log has it.
    pub fn response(&self) -> Option<&[u8]>
        ensures { option_map (λ r. r.now) result ≡ self.now.response }
    {
        self.response.as_ref().map(|response| response.as_slice())
    }

    /// The bytes of the response, none where there is no response.
    pub(crate) fn recorded(&self) -> &[u8]
        ensures { result.now ≡ unwrap_or self.now.response [] }
    {
        match &self.response {
            Some(response) => response.as_slice(),
            None => &[],
        }
    }
}
