//! A journal while it is made: exchanges leave it as soon as they are whole.

ghost use Rattle.std.specs.Prelude.{◌≡◌, ◌+◌, ◌<◌, ◌∷◌, [], ℕ, List, OnOk, IfOk, false, true, length, is_some, if◌then◌else◌};
ghost use Rattle.journal_table.specs.declared.TheConstants.{CONNECTION_LIMIT};
ghost use Rattle.log_pairs.specs.Pairs.{Over, Pair, Request, Response, Said, begins_open};
ghost use Rattle.journal_run.specs.Stops as Stops;
ghost use Rattle.journal_run.specs.declared.making.JournalRows.{JournalRows};
ghost use Rattle.journal_run.specs.declared.making.Making.{Making};
ghost use Rattle.journal_run.specs.Found.{said_as};
ghost use Rattle.journal_run.specs.Making.{AreClosed, Closes, Collects, Refuses, Stays, Takes, TakesMessage};

use journal_table::{CONNECTION_LIMIT, LINE_LIMIT};
use log_pairs::{Answered, Direction, Exchange, Pairing};
use std::alloc::{AllocError, Global};

/// How many exchanges are printed at once.
const ROWS: usize = 4096;

const SEVERAL: &str =
    "some responses fit no open request of their client: the name of a connection seems to stand for several clients\n";

/// The journal that is made. What isn't printed yet is kept.
#[derive(Drop)]
pub struct Making {
    pub(crate) alloc: Global,
    pub(crate) pairing: Pairing,
    /// How many requests there may be.
    pub(crate) most: u32,
    /// Exchanges that are whole and weren't printed.
    pub(crate) ready: Vec<Exchange>,
    /// The number of the first of them.
    pub(crate) number: u64,
    /// Whether the header was printed.
    pub(crate) begun: bool,
    /// How many exchanges are whole, printed or not.
    pub exchanges: u64,
    /// How many of them lack a response.
    pub unanswered: u64,
    /// How many responses fitted no open request and were given to none, and how many were taken of
    /// clients whose sequence digits don't count.
    pub(crate) withheld: u64,
    pub(crate) undigited: u64,
}

/// How the rows are numbered.
#[derive(Clone, Copy)]
pub struct JournalRows {
    /// The number of the first.
    pub number: u64,
    /// Whether they are divided among several journals.
    pub is_split: bool,
}

/// What became of a message.
#[derive(Clone, Copy)]
pub enum Taken {
    Paired,
    /// A response to another request.
    Misfit,
    /// A response without a request.
    Unasked,
    /// Why the line is refused.
    Refused(&'static str),
}

impl Making {
    /// A journal before its first row.
    pub fn new(alloc: Global, rows: JournalRows) -> Making
        ensures stays { Stays rows [] [] result }
        ensures begun { result.begun ≡ false }
    {
        Making {
            alloc,
            pairing: Pairing::new(alloc),
            ready: Vec::new(alloc),
            most: most_of(rows),
            number: rows.number,
            begun: false,
            exchanges: 0,
            unanswered: 0,
            withheld: 0,
            undigited: 0,
        }
    }

    /// Whether there are enough whole exchanges to print them.
    pub fn is_full(&self) -> bool {
        self.ready.len() >= ROWS
    }

    /// Takes the next message.
    pub fn take(
        &mut self,
        side: Direction,
        connection: &[u8],
        message: &[u8],
    ) -> Result<Taken, AllocError>
        ensures takes { IfOk result (λ taken. TakesMessage taken (said_as side connection.now message.now) self.old self.new) }
        ensures long { CONNECTION_LIMIT < length connection.now → IfOk result Refuses }
    {
        if connection.len() > CONNECTION_LIMIT {
            return Ok(Taken::Refused("the name of the connection has more than 64 bytes"));
        }
        match side {
            Direction::Request => self.ask(connection, message),
            Direction::Response => self.answer(connection, message),
        }
    }

    /// Takes a request.
    fn ask(&mut self, connection: &[u8], request: &[u8]) -> Result<Taken, AllocError>
        ensures { IfOk result (λ taken. TakesMessage taken (Request connection.now request.now) self.old self.new) }
    {
        if self.pairing.asked() >= self.most as usize {
            return Ok(Taken::Refused(too_many(self.most)));
        }
        self.pairing.ask(self.alloc, connection, request)?;
        self.collect()?;
        Ok(Taken::Paired)
    }

    /// Takes a response.
    fn answer(&mut self, connection: &[u8], response: &[u8]) -> Result<Taken, AllocError>
        ensures { IfOk result (λ taken. TakesMessage taken (Response connection.now response.now) self.old self.new) }
    {
        let answered = self.pairing.answer(self.alloc, connection, response)?;
        let undigited = u64::from(!self.pairing.uses_digits(connection));
        let withheld = u64::from(matches!(answered, Answered::Withheld));
        self.undigited = self.undigited.saturating_add(undigited);
        self.withheld = self.withheld.saturating_add(withheld);
        self.collect()?;
        Ok(taken_of(answered))
    }

    /// Nothing more comes of a connection: its open requests stay without a response.
    pub fn over(&mut self, connection: &[u8]) -> Result<(), AllocError>
        ensures { OnOk result (Takes (Over connection.now) self.old self.new) }
    {
        self.pairing.over(connection);
        self.collect()?;
        Ok(())
    }

    /// No message comes any more: requests that are open stay without a response.
    pub fn close(&mut self) -> Result<(), AllocError>
        ensures begun { OnOk result (self.new.begun ≡ self.old.begun) }
        ensures closes { OnOk result ((first : JournalRows) (said : List Said) (taken : List Pair) → Stays first said taken self.old → Closes first said taken self.new) }
    {
        self.pairing.close();
        self.collect()?;
        Ok(())
    }

    /// Takes what can't change any more from what waits.
    fn collect(&mut self) -> Result<(), AllocError>
        ensures keeps { OnOk result (Collects self.old self.new) }
        ensures begins { OnOk result (begins_open self.new.pairing.pending ≡ true) }
        ensures closed { OnOk result (AreClosed self.old.pairing.pending → AreClosed self.new.pairing.pending) }
    {
        for _turn in 0..self.pairing.waiting() {
            if !self.collect_first()? {
                break;
            }
        }
        Ok(())
    }

    /// Takes the first request from what waits, if it can't change any more.
    fn collect_first(&mut self) -> Result<bool, AllocError>
        ensures keeps { OnOk result (Collects self.old self.new) }
        ensures closed { OnOk result (AreClosed self.old.pairing.pending → AreClosed self.new.pairing.pending) }
        ensures taken { IfOk result (λ took. took ≡ true → length self.new.pairing.pending + 1 ≡ length self.old.pairing.pending) }
        ensures none { IfOk result (λ took. took ≡ false → (begins_open self.old.pairing.pending ≡ true) × (self.new ≡ self.old)) }
    {
        let Some(exchange) = self.pairing.next() else {
            return Ok(false);
        };
        self.exchanges = self.exchanges.saturating_add(1);
        self.unanswered = self.unanswered.saturating_add(lacking(&exchange));
        self.ready.push(exchange)?;
        Ok(true)
    }

    /// Adds hints about clients whose responses didn't fit.
    pub(crate) fn hint(&self, notes: &mut String) -> Result<(), AllocError> {
        if self.withheld > 0 {
            notes.push_str(SEVERAL)?;
        }
        if self.undigited > 0 {
            let count = self.undigited;
            write!(
                notes,
                "{count} responses are of clients whose sequence digits don't fit: they were paired without these\n"
            )?;
        }
        Ok(())
    }
}

/// What became of a response that was answered so.
fn taken_of(answered: Answered) -> Taken
    ensures { (x : Said) (old new : Making) → Takes x old new → TakesMessage result x old new }
{
    match answered {
        Answered::Fitting => Taken::Paired,
        Answered::Misfit => Taken::Misfit,
        Answered::Withheld | Answered::Unasked => Taken::Unasked,
    }
}

/// How many rows there may be: as many as a journal has lines, unless there are several journals.
fn most_of(rows: JournalRows) -> u32
    ensures { result ≡ Stops.most_of rows }
{
    if rows.is_split {
        u32::MAX
    } else {
        LINE_LIMIT as u32
    }
}

/// Why no more requests may come than these.
fn too_many(most: u32) -> &'static str
    ensures { result.now ≡ Stops.too_many most }
{
    if most == LINE_LIMIT as u32 {
        "more than 1,000,000 requests: --split 1000000 --out DIR writes several journals"
    } else {
        "more than 4,294,967,295 requests"
    }
}

/// How many responses an exchange lacks: one or none.
fn lacking(exchange: &Exchange) -> u64
    ensures { result ≡ (if is_some exchange.now.response then 0 else 1) }
{
    match exchange.response() {
        Some(_) => 0,
        None => 1,
    }
}
