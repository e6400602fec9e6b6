//! Requests that were sent again: clients do that when no response comes in time.

use crate::judging::has_sum;
use journal_run::LogPlace;
use log_pairs::fits;
use std::alloc::{AllocError, Global};
use std::collections::BTreeMap;
use std::mem;

/// A request with the bytes and the sequence digit of the one before it on its connection.
#[derive(Drop)]
pub struct Again<'l> {
    pub request: Vec<u8>,
    pub place: LogPlace<'l>,
    /// Its position among what is found.
    pub at: usize,
    /// The response to the one before.
    pub before: Option<Vec<u8>>,
}

/// The last request of a connection, and the response to it.
#[derive(Drop)]
struct LastAsked {
    request: Vec<u8>,
    response: Option<Vec<u8>>,
}

/// What each connection asked last.
#[derive(Drop)]
pub struct Repeats<'l> {
    alloc: Global,
    last: BTreeMap<Vec<u8>, LastAsked>,
    /// Those that may have been sent again: that depends on the response.
    undecided: BTreeMap<Vec<u8>, Again<'l>>,
}

impl<'l> Repeats<'l> {
    pub fn new(alloc: Global) -> Repeats<'l> {
        Repeats {
            alloc,
            last: BTreeMap::new(alloc),
            undecided: BTreeMap::new(alloc),
        }
    }

    /// Whether it isn't known yet of some request.
    pub fn is_undecided(&self) -> bool {
        !self.undecided.is_empty()
    }

    /// Takes a request, and its position among what is found. Gives the one before, if that was
    /// sent again.
    pub fn ask(
        &mut self,
        connection: &[u8],
        request: &[u8],
        place: LogPlace<'l>,
        at: usize,
    ) -> Result<Option<Again<'l>>, AllocError> {
        let again = self.undecided.remove(connection);
        let asked = LastAsked {
            request: Vec::from_slice(self.alloc, request)?,
            response: None,
        };
        let Some(last) = self.last.get_mut(connection) else {
            let key = Vec::from_slice(self.alloc, connection)?;
            self.last.insert(key, asked)?;
            return Ok(again);
        };
        let before = mem::replace(last, asked);
        if before.request.as_slice() == request && has_sum(request) {
            let key = Vec::from_slice(self.alloc, connection)?;
            let next = Again {
                request: Vec::from_slice(self.alloc, request)?,
                place,
                at,
                before: before.response,
            };
            self.undecided.insert(key, next)?;
        }
        Ok(again)
    }

    /// Takes a response. Gives the request that it answers, if that was sent again: the one before
    /// has the same response, or none.
    pub fn answer(
        &mut self,
        connection: &[u8],
        response: &[u8],
    ) -> Result<Option<Again<'l>>, AllocError> {
        match self.last.get_mut(connection) {
            Some(last) if last.response.is_none() && fits(&last.request, response) => {
                last.response = Some(Vec::from_slice(self.alloc, response)?);
            }
            _ => return Ok(None),
        }
        let Some(again) = self.undecided.remove(connection) else {
            return Ok(None);
        };
        let is_same = match &again.before {
            Some(before) => before.as_slice() == response,
            None => true,
        };
        Ok(is_same.then_some(again))
    }

    /// Nothing more comes of a connection. Gives its last request, if that was sent again.
    pub fn over(&mut self, connection: &[u8]) -> Option<Again<'l>> {
        self.last.remove(connection);
        self.undecided.remove(connection)
    }

    /// What isn't decided gets no response: gives one of these requests.
    pub fn settle(&mut self) -> Option<Again<'l>> {
        Some(self.undecided.pop_first()?.1)
    }
}
