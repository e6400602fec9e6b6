//! What is read of logs and captures: what is found there, and what is to be reported of it.

use crate::chosen::is_by_login;
use crate::connections::Ends;
use crate::finder::Finder;
use crate::judging::JournalJudge;
use crate::names::ClientNames;
use crate::ordering::Order;
use crate::repeats::{Again, Repeats};
use crate::source::{LogRecord, LogSource};
use command_line::JournalOptions;
use journal_run::{Finding, LineHead, LogPlace, LogTally, MakingError};
use log_pairs::Direction;
use std::alloc::{AllocError, Global};
use std::io::BufRead;
use std::mem;
use std::net::SocketAddr;

const OUT_OF_ORDER: &str =
    "the messages aren't in the order of their times: name the logs in the order in which they were written, or give --merge\n";

/// How many of each kind are reported: gaps, parts of messages, and so on.
const TOLD: u64 = 3;

/// How many findings wait until it is known whether a request is to be left out.
const HELD: usize = 16_384;

/// More than one packet in this number is cut if the capture is of no use.
const TOLERATED: u64 = 10;

/// What a journal is made of.
#[derive(Clone, Copy)]
pub enum InputKind {
    Lines,
    Packets,
}

/// What is read, up to the line or packet that was read last.
#[derive(Drop)]
pub struct JournalReader<'l> {
    alloc: Global,
    pub judge: JournalJudge,
    order: Order<'l>,
    kind: InputKind,
    /// The place of the line or packet that was read last.
    pub place: LogPlace<'l>,
    /// What was found, and wasn't handed on yet.
    pub found: Vec<Finding>,
    /// Gaps in captured streams, and pieces that they leave of messages.
    gaps: u64,
    broken: u64,
    /// Packets that lack the end of their segment, and how many bytes the longest of them has.
    cuts: u64,
    snap: usize,
    /// Packets that are fragments with bytes of TCP.
    fragments: u64,
    /// Segments that lay far from their stream and were left out.
    strays: u64,
    /// Connections of which neither end speaks SIP2, and the bytes that were sent on them.
    foreign: u64,
    foreign_bytes: u64,
    repeats: Repeats<'l>,
    names: ClientNames,
    /// Whether requests that were sent again are left out, and how many there are.
    drops: bool,
    repeated: u64,
}

impl<'l> JournalReader<'l> {
    /// Before the first line or packet.
    pub fn new(alloc: Global, options: &JournalOptions, kind: InputKind) -> JournalReader<'l> {
        JournalReader {
            alloc,
            judge: JournalJudge::new(alloc),
            order: Order::new(alloc),
            kind,
            place: LogPlace { log: "", line: 0 },
            found: Vec::new(alloc),
            gaps: 0,
            broken: 0,
            cuts: 0,
            snap: 0,
            fragments: 0,
            strays: 0,
            foreign: 0,
            foreign_bytes: 0,
            repeats: Repeats::new(alloc),
            drops: options.drop_repeated,
            names: ClientNames::new(alloc, is_by_login(options)),
            repeated: 0,
        }
    }

    /// Has a text reported, if there is one.
    pub fn tell(&mut self, text: String) -> Result<(), AllocError> {
        if !text.is_empty() {
            self.found.push(Finding::Note(text))?;
        }
        Ok(())
    }

    /// Takes the next record of a log; false where there is none.
    pub fn take_next<B: BufRead>(
        &mut self,
        finder: &mut Finder<'_>,
        source: &mut LogSource<'l, B>,
    ) -> Result<bool, MakingError> {
        let Some(record) = source.next(finder)? else {
            return Ok(false);
        };
        self.take(finder, &record)?;
        Ok(true)
    }

    /// Takes a record.
    pub fn take(
        &mut self,
        finder: &mut Finder<'_>,
        record: &LogRecord<'l>,
    ) -> Result<(), AllocError> {
        self.place = record.place;
        self.judge.lines = self.judge.lines.saturating_add(record.lines);
        let Some(said) = finder.find(self.alloc, &record.text)? else {
            return self.judge.skip(record.lines, self.place, &record.text);
        };
        if let Some(time) = record.time {
            let mut note = String::new(self.alloc);
            self.order
                .take(record.place, time, &record.text, &mut note)?;
            self.tell(note)?;
        }
        if let Some(request) = &said.request {
            self.message(said.connection, Direction::Request, request)?;
        }
        match &said.response {
            Some(response) => self.message(said.connection, Direction::Response, response),
            None => Ok(()),
        }
    }

    /// Takes a message.
    pub fn message(
        &mut self,
        connection: &[u8],
        side: Direction,
        message: &[u8],
    ) -> Result<(), AllocError> {
        let name = self.names.name(connection, side, message)?;
        let connection = name.as_slice();
        self.judge.judge(self.place, connection, side, message)?;
        let at = self.found.len();
        self.found.push(Finding::Message {
            side,
            connection: Vec::from_slice(self.alloc, connection)?,
            message: Vec::from_slice(self.alloc, message)?,
        })?;
        let (again, response) = match side {
            Direction::Request => {
                let again = self.repeats.ask(connection, message, self.place, at)?;
                (again, None)
            }
            Direction::Response => (self.repeats.answer(connection, message)?, Some(at)),
        };
        match &again {
            Some(again) => self.tell_again(again, response),
            None => Ok(()),
        }
    }

    /// Counts a request that was sent again, and leaves it out if that is said, with the response
    /// at a position unless the request before it has none.
    fn tell_again(&mut self, again: &Again<'l>, response: Option<usize>) -> Result<(), AllocError> {
        self.repeated = self.repeated.saturating_add(1);
        let mut text = String::new(self.alloc);
        if self.repeated <= TOLD {
            let (place, head) = (again.place, LineHead(again.request.as_slice()));
            write!(text, "{place}: sent again: {head}\n")?;
        }
        let note = Finding::Note(text);
        if !self.drops {
            self.found.push(note)?;
            return Ok(());
        }
        if let Some(request) = self.found.get_mut(again.at) {
            *request = note;
        }
        let at = response.unwrap_or(usize::MAX);
        if let (Some(found), Some(_)) = (self.found.get_mut(at), &again.before) {
            *found = Finding::Note(String::new(self.alloc));
        }
        Ok(())
    }

    /// Hands on what was found; nothing while it isn't known whether some request in it is to be
    /// left out. None waits for longer than this many findings, or for the end.
    pub fn hand_on(&mut self, is_end: bool, batch: &mut Vec<Finding>) -> Result<(), AllocError> {
        if is_end || self.found.len() >= HELD {
            for _ in 0..u64::MAX {
                let Some(again) = self.repeats.settle() else {
                    break;
                };
                self.tell_again(&again, None)?;
            }
        }
        if !self.drops || !self.repeats.is_undecided() {
            mem::swap(&mut self.found, batch);
        }
        Ok(())
    }

    /// Nothing more comes of the connection of a client, which its address and port name.
    pub fn over(&mut self, client: SocketAddr) -> Result<(), AllocError> {
        let connection = format!(in self.alloc; "{client}")?.into_bytes();
        if self.names.is_by_login() {
            self.names.over(&connection);
            return Ok(());
        }
        self.judge.over(&connection)?;
        if let Some(again) = &self.repeats.over(&connection) {
            self.tell_again(again, None)?;
        }
        self.found.push(Finding::Over(connection))?;
        Ok(())
    }

    /// The next packet was read; it is skipped where it has no segment that is read.
    pub fn count_packet(&mut self, is_skipped: bool) {
        self.place.line = self.place.line.saturating_add(1);
        self.judge.lines = self.judge.lines.saturating_add(1);
        if is_skipped {
            self.judge.skipped = self.judge.skipped.saturating_add(1);
        }
    }

    /// The packet that was read last lacks the end of its segment; this number of its bytes was
    /// captured.
    pub fn count_cut(&mut self, captured: usize) {
        self.cuts = self.cuts.saturating_add(1);
        self.snap = self.snap.max(captured);
    }

    /// How many bytes of a packet were captured at most, if more than one packet in ten is cut.
    pub fn snap_length(&self) -> Option<usize> {
        (self.cuts > self.judge.lines / TOLERATED).then_some(self.snap)
    }

    /// How many lines or packets were read.
    pub fn lines(&self) -> u64 {
        self.judge.lines
    }

    /// Bytes of a captured stream are missing.
    pub fn missing(
        &mut self,
        count: Option<u64>,
        side: Direction,
        client: SocketAddr,
    ) -> Result<(), AllocError> {
        self.gaps = self.gaps.saturating_add(1);
        let (place, from) = (self.place, speaker(side));
        self.note(
            self.gaps,
            match count {
                Some(count) => format!(in self.alloc;
                    "{place}: {count} bytes from the {from} are missing, of {client}\n"
                ),
                None => format!(in self.alloc;
                    "{place}: an unknown number of bytes from the {from} is missing, of {client}\n"
                ),
            },
        )
    }

    /// A segment between two ends was left out, since it lay far from its stream and nothing
    /// followed on it.
    pub fn stray(&mut self, ends: Ends) -> Result<(), AllocError> {
        self.strays = self.strays.saturating_add(1);
        let (place, (one, other)) = (self.place, ends);
        self.note(
            self.strays,
            format!(in self.alloc;
                "{place}: a segment before this packet fits nowhere and is left out, of {one} and {other}\n"
            ),
        )
    }

    /// Neither of two ends speaks SIP2: their connection is left out.
    pub fn foreign(&mut self, ends: Ends) -> Result<(), AllocError> {
        self.foreign = self.foreign.saturating_add(1);
        let (place, (one, other)) = (self.place, ends);
        self.note(
            self.foreign,
            format!(in self.alloc;
                "{place}: a connection without SIP2 is left out, of {one} and {other}\n"
            ),
        )
    }

    /// The packet that was read last is a part of one that was cut up on its way.
    pub fn fragment(&mut self) -> Result<(), AllocError> {
        self.fragments = self.fragments.saturating_add(1);
        let place = self.place;
        self.note(
            self.fragments,
            format!(in self.alloc; "{place}: a fragment of a packet isn't read\n"),
        )
    }

    /// Counts bytes of a connection that is left out.
    pub fn count_foreign(&mut self, bytes: u64) {
        self.foreign_bytes = self.foreign_bytes.saturating_add(bytes);
    }

    /// A piece of a captured message is no message: a gap took its beginning or its end.
    pub fn broken(
        &mut self,
        side: Direction,
        client: SocketAddr,
        piece: &[u8],
    ) -> Result<(), AllocError> {
        self.broken = self.broken.saturating_add(1);
        let (place, from, head) = (self.place, speaker(side), LineHead(piece));
        self.note(
            self.broken,
            format!(in self.alloc;
                "{place}: a part of a message from the {from}, of {client}: {head}\n"
            ),
        )
    }

    /// A capture ends within a packet, or goes on with what is none.
    pub fn cut(&mut self) -> Result<(), AllocError> {
        self.broken = self.broken.saturating_add(1);
        let place = self.place;
        self.note(
            1,
            format!(in self.alloc; "{place}: what follows this packet is none, and isn't read\n"),
        )
    }

    /// Has a text reported, if it is one of the first of its kind; this is its count.
    fn note(&mut self, count: u64, text: Result<String, AllocError>) -> Result<(), AllocError> {
        let note = Finding::Note(text?);
        if count <= TOLD {
            self.found.push(note)?;
        }
        Ok(())
    }

    /// Reports what was odd.
    pub fn report(&self, notes: &mut String) -> Result<(), AllocError> {
        self.judge.report(notes)?;
        if self.order.falls > 0 {
            notes.push_str(OUT_OF_ORDER)?;
        }
        Ok(())
    }

    /// What was counted.
    pub fn tally(&self) -> LogTally {
        let judge = &self.judge;
        LogTally {
            is_of_packets: matches!(self.kind, InputKind::Packets),
            lines: judge.lines,
            skipped: judge.skipped,
            messages: judge.messages,
            unknown: judge.unknown,
            wrong: judge.wrong,
            lacking: judge.lacking(),
            falls: self.order.falls,
            gaps: self.gaps,
            parts: self.broken,
            cuts: self.cuts,
            fragments: self.fragments,
            strays: self.strays,
            foreign: self.foreign,
            foreign_bytes: self.foreign_bytes,
            unterminated: judge.unterminated(),
            repeated: self.repeated,
        }
    }
}

/// Who sends messages of a side.
fn speaker(side: Direction) -> &'static str {
    match side {
        Direction::Request => "client",
        Direction::Response => "server",
    }
}
