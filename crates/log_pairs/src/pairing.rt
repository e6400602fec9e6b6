//! The requests of a log, each with its response.

ghost use Rattle.std.specs.Prelude.{◌≡◌, ◌&&◌, if◌then◌else◌, ◌+◌, ◌<◌, ◌≤◌, ◌∷◌, [], true, false, IfOk, OnOk, OnErr, IfSome, IfNone, List, ℕ, length, map};
ghost use Rattle.sip_reader.specs.Texts.{line_number_end};
ghost use Rattle.log_pairs.specs.Pairs as Spec;
ghost use Rattle.log_pairs.specs.Pairs.{Becomes, Over, Request, Response, begins_open, client_of, step};
ghost use Rattle.log_pairs.specs.Pairs.{Pending};
ghost use Rattle.log_pairs.specs.declared.client.FitCounts.{FitCounts};
ghost use Rattle.log_pairs.specs.Devices.Places.{IsLast, IsPlaced, is_place, passes, settled};

use crate::client::{Answered, FitCounts, Fitness, more};
use crate::exchange::Exchange;
use crate::waiting::Waiting;
use std::alloc::{AllocError, Global};
use std::collections::{BTreeMap, VecDeque};
use std::marker::Model;

/// A request that has no response after this number of further requests, of all connections, gets
/// none any more.
pub const PATIENCE: usize = 16_384;

/// The requests of a log that weren't taken yet, in their order, and what is counted of clients.
#[derive(Drop)]
pub struct Pairing {
    taken: usize,
    waiting: VecDeque<Waiting>,
    clients: BTreeMap<Vec<u8>, FitCounts>,
    unasked: u64,
    mismatched: u64,
}

impl Model for Pairing {
    ghost use Rattle.log_pairs.specs.Pairs.{Open};

    ghost Value = { Open };

    ghost use Rattle.log_pairs.specs.Devices.Places.{IsKept, open_of};

    ghost view = { open_of };

    ghost invariant = { IsKept };
}

/// Which of the requests that wait are looked for.
#[derive(Clone, Copy)]
pub(crate) enum Wanted {
    /// One of a connection.
    Own,
    /// An open one of it.
    Open,
    /// One of them that is of the kind of a response.
    OfKind,
    /// One of these with its sequence digit.
    Exact,
}

/// What is found for a response: what is counted of its client then, what becomes of it, and the
/// place of the request that gets it.
#[derive(Clone, Copy)]
struct Placement {
    client: FitCounts,
    answer: Answered,
    place: Option<usize>,
}

impl Pairing {
    /// No requests: the state before the first line of a log.
    pub fn new(alloc: Global) -> Pairing
        ensures { result ≡ Spec.start }
    {
        Pairing {
            taken: 0,
            waiting: VecDeque::new(alloc),
            clients: BTreeMap::new(alloc),
            unasked: 0,
            mismatched: 0,
        }
    }

    /// How many requests came.
    pub fn asked(&self) -> usize
        ensures { result ≡ self.now.asked }
    {
        self.taken + self.waiting.len()
    }

    /// How many requests wait: those that came and weren't taken.
    pub fn waiting(&self) -> usize
        ensures { result ≡ length self.now.pending }
    {
        self.waiting.len()
    }

    /// How many responses were given to no request.
    pub fn unasked(&self) -> u64
        ensures { result ≡ self.now.unasked }
    {
        self.unasked
    }

    /// How many were given to a request that they don't fit.
    pub fn mismatched(&self) -> u64
        ensures { result ≡ self.now.mismatched }
    {
        self.mismatched
    }

    /// Whether the sequence digits of a client count.
    pub fn uses_digits(&self, connection: &[u8]) -> bool
        ensures { result ≡ Spec.uses_digits (client_of self.now.clients connection.now) }
    {
        self.client(connection).uses_digits()
    }

    /// Adds the next line of the log, a request. One after which PATIENCE others came is closed.
    /// Out of memory, nothing changes.
    pub fn ask(
        &mut self,
        alloc: Global,
        connection: &[u8],
        request: &[u8],
    ) -> Result<(), AllocError>
        requires { self.old.asked < line_number_end }
        ensures steps { OnOk result (self.new ≡ step self.old (Request connection.now request.now)) }
        ensures same { OnErr result (self.new ≡ self.old) }
    {
        let waiting = Waiting::asks(alloc, connection, request)?;
        self.waiting.push_back(waiting)?;
        self.age();
        Ok(())
    }

    /// Closes the request after which PATIENCE others came.
    fn age(&mut self)
        ensures { self.new ≡ record self.old { pending = Spec.aged self.old.pending } }
    {
        if self.waiting.len() > PATIENCE {
            let at = self.waiting.len() - PATIENCE - 1;
            self.waiting[at].close();
        }
    }

    /// Adds the next line of the log, a response, and gives what becomes of it. Out of memory,
    /// nothing changes.
    pub fn answer(
        &mut self,
        alloc: Global,
        connection: &[u8],
        response: &[u8],
    ) -> Result<Answered, AllocError>
        ensures answer { IfOk result (λ answer. answer ≡ Spec.answer_for (client_of self.old.clients connection.now) connection.now response.now self.old.pending) }
        ensures steps { OnOk result (Becomes self.new (step self.old (Response connection.now response.now))) }
        ensures same { OnErr result (self.new ≡ self.old) }
    {
        let found = self.find(self.client(connection), connection, response);
        let name = Vec::from_slice(alloc, connection)?;
        let bytes = Vec::from_slice(alloc, response)?;
        self.clients.insert(name, found.client)?;
        give(&mut self.waiting, found.place, bytes);
        self.unasked = more(self.unasked, found.answer.is_unasked());
        self.mismatched = more(self.mismatched, found.answer.is_misfit());
        Ok(found.answer)
    }

    /// What is counted of a client.
    fn client(&self, connection: &[u8]) -> FitCounts
        ensures { result ≡ client_of self.now.clients connection.now }
    {
        match self.clients.get(connection) {
            Some(&client) => client,
            None => FitCounts::new(),
        }
    }

    /// What is found for a response of a client.
    fn find(&self, client: FitCounts, connection: &[u8], response: &[u8]) -> Placement
        ensures client { result.client ≡ Spec.client_then client connection.now response.now self.now.pending }
        ensures answer { result.answer ≡ Spec.answer_for client connection.now response.now self.now.pending }
        ensures place { IsPlaced result.place response.now self.now.pending (Spec.given result.answer (Spec.uses_digits client) connection.now response.now self.now.pending) }
    {
        let all = self.waiting.len();
        let opened = last(&self.waiting, Wanted::Open, connection, response, all);
        let kind = last(&self.waiting, Wanted::OfKind, connection, response, all);
        let exact = last(&self.waiting, Wanted::Exact, connection, response, all);
        let fit = chosen(client.uses_digits(), exact, kind);
        let gives = self.gives(client, connection, fit, opened);
        let (answer, place) = settled(fit, opened, gives);
        let found = Fitness {
            is_open: opened.is_some(),
            is_fit: fit.is_some(),
            is_of_kind: kind.is_some(),
            is_exact: exact.is_some(),
        };
        Placement {
            client: client.then(found),
            answer,
            place,
        }
    }

    /// Whether a response that fits none is given to the last open request of its connection, which
    /// is at this place: that is the last one of all.
    fn gives(
        &self,
        client: FitCounts,
        connection: &[u8],
        fit: Option<usize>,
        opened: Option<usize>,
    ) -> bool
        requires { IsLast (Spec.is_open_of connection.now) self.now.pending (length self.now.pending) opened }
        ensures { IfNone fit (IfSome opened (λ _. result ≡ (Spec.takes_misfits client && Spec.last_is_open connection.now self.now.pending))) }
    {
        match (fit, opened) {
            (None, Some(at)) if client.takes_misfits() => {
                let all = self.waiting.len();
                is_place(last(&self.waiting, Wanted::Own, connection, &[], all), at)
            }
            _ => false,
        }
    }

    /// No more responses come for a connection: its open requests stay without a response.
    pub fn over(&mut self, connection: &[u8])
        ensures { Becomes self.new (step self.old (Over connection.now)) }
    {
        self.clients.remove(connection);
        close_of(&mut self.waiting, false, connection);
    }

    /// Takes the first request that waits, with its response. None, and no change, where it is open or none waits.
    pub fn next(&mut self) -> Option<Exchange>
        ensures some { IfSome result (λ e. self.old ≡ record self.new { pending = record { pair = e; is_open = false } ∷ self.new.pending }) }
        ensures none { IfNone result ((begins_open self.old.pending ≡ true) × (self.new ≡ self.old)) }
    {
        if self.begins_open() {
            return None;
        }
        let first = self.waiting.pop_front()?;
        self.taken += 1;
        Some(first.into_exchange())
    }

    /// Whether no request waits, or the first that waits is open.
    fn begins_open(&self) -> bool
        ensures { result ≡ begins_open self.now.pending }
    {
        match self.waiting.front() {
            Some(first) => first.is_open(),
            None => true,
        }
    }

    /// The log is at its end: what is open stays without a response.
    pub fn close(&mut self)
        ensures { self.new ≡ record self.old { pending = map (Spec.closed_of true []) self.old.pending } }
    {
        close_of(&mut self.waiting, true, &[]);
    }
}

/// Whether there is this place.
fn is_place(place: Option<usize>, at: usize) -> bool
    ensures { result ≡ is_place place at }
{
    match place {
        Some(place) => place == at,
        None => false,
    }
}

/// The place of a request that a response fits, with its digit where digits count.
fn chosen(digits: bool, exact: Option<usize>, kind: Option<usize>) -> Option<usize>
    ensures { result ≡ (if digits then exact else kind) }
{
    if digits { exact } else { kind }
}

/// What becomes of a response, and the place of the request that gets it, by the places of the last
/// one that it fits and of the last open one, and whether it is given to that.
fn settled(fit: Option<usize>, opened: Option<usize>, gives: bool) -> (Answered, Option<usize>)
    ensures { result ≡ settled fit opened gives }
{
    match (fit, opened) {
        (Some(at), _) => (Answered::Fitting, Some(at)),
        (None, Some(at)) if gives => (Answered::Misfit, Some(at)),
        (None, Some(_)) => (Answered::Withheld, None),
        (None, None) => (Answered::Unasked, None),
    }
}

/// Gives the response to the request at a place, if there is one.
fn give(waiting: &mut VecDeque<Waiting>, place: Option<usize>, response: Vec<u8>)
    requires { IfSome place (λ i. i < length waiting.old.items) }
    ensures { IsPlaced place response.items waiting.old.items waiting.new.items }
{
    if let Some(at) = place {
        waiting[at].gets(response);
    }
}

/// Closes the requests of a connection, or all.
fn close_of(waiting: &mut VecDeque<Waiting>, all: bool, connection: &[u8])
    ensures { waiting.new.items ≡ map (Spec.closed_of all connection.now) waiting.old.items }
{
    for at in 0..waiting.len() {
        waiting[at].close_of(all, connection);
    }
}

/// The place of the last of the first requests that is wanted for a response.
fn last(
    waiting: &VecDeque<Waiting>,
    wanted: Wanted,
    connection: &[u8],
    response: &[u8],
    before: usize,
) -> Option<usize>
    requires { before ≤ length waiting.now.items }
    ensures { IsLast (passes wanted connection.now response.now) waiting.now.items before result }
{
    for turn in 0..before {
        let at = before - 1 - turn;
        if waiting[at].is(wanted, connection, response) {
            return Some(at);
        }
    }
    None
}

/// A law: a response is given to one request at most, an open one of its connection; where it fits an
/// open one, only to one that it fits.
pub fn gives_rightly()
    ensures { (client : FitCounts) (c m : List ℕ) (ps : List Pending) → Spec.IsGivenRightly (Spec.answer_for client c m ps) (Spec.uses_digits client) c m ps
        (Spec.given (Spec.answer_for client c m ps) (Spec.uses_digits client) c m ps) }
{}
