//! What is counted of logs and captures.

ghost use Rattle.std.specs.Prelude.{◌≡◌, ◌+◌, ◌++◌, Some, min};
ghost use Rattle.log_pairs.specs.Pairs.{top};
ghost use Rattle.journal_run.specs.Counts.{counts_line, ended_status, head_counts, is_clean, is_complete, is_too_odd, left_counts, odd_counts, pair_counts, spare_counts, stretch_counts};

use std::fmt;

/// The status of a run that has nothing to report of its journal.
pub const WHOLE: u8 = 0;

/// The status of a run whose journal lacks something, or has something odd.
const ODD: u8 = 1;

/// More than one odd message in this number is too much.
const TOLERATED: u64 = 10;

/// What was counted of the logs or captures that were read, but for the exchanges.
#[derive(Clone, Copy)]
pub struct LogTally {
    /// Whether packets of captures were read, and not lines of logs.
    pub is_of_packets: bool,
    /// Lines or packets that were read, and those of them that say nothing.
    pub lines: u64,
    pub skipped: u64,
    /// Messages that were judged.
    pub messages: u64,
    /// Messages whose first two bytes are no identifier of their side.
    pub unknown: u64,
    /// Messages whose checksum is wrong, or isn't their end.
    pub wrong: u64,
    /// Requests that lack a checksum.
    pub lacking: u64,
    /// Messages that lack their end.
    pub unterminated: u64,
    /// Requests that were sent again.
    pub repeated: u64,
    /// How often times fell back.
    pub falls: u64,
    /// Gaps in captured streams, and parts that they leave of messages.
    pub gaps: u64,
    pub parts: u64,
    /// Packets of which a capture cut the end.
    pub cuts: u64,
    /// Packets of TCP that were cut up on their way, and aren't read.
    pub fragments: u64,
    /// Segments that fit nowhere in their stream, and were left out.
    pub strays: u64,
    /// Connections that were left out, as neither end speaks SIP2, and the bytes that were sent on
    /// them.
    pub foreign: u64,
    pub foreign_bytes: u64,
}

impl LogTally {
    /// All messages that are odd.
    pub fn odd(&self) -> u64
        ensures { result ≡ min top (self.now.unknown + self.now.wrong + self.now.lacking + self.now.unterminated) }
    {
        self.unknown
            .saturating_add(self.wrong)
            .saturating_add(self.lacking)
            .saturating_add(self.unterminated)
    }

    /// All messages that aren't.
    pub fn good(&self) -> u64 {
        self.messages.saturating_sub(self.odd())
    }

    /// Whether more than one message in ten is odd.
    pub(crate) fn is_too_odd(&self) -> bool
        ensures { result ≡ is_too_odd self.now }
    {
        self.odd() > self.messages / TOLERATED
    }

    /// Whether nothing is odd.
    pub(crate) fn is_clean(&self) -> bool
        ensures { result ≡ is_clean self.now }
    {
        self.unknown == 0
            && self.wrong == 0
            && self.lacking == 0
            && self.unterminated == 0
            && self.repeated == 0
            && self.falls == 0
            && self.gaps == 0
            && self.parts == 0
            && self.cuts == 0
            && self.fragments == 0
            && self.strays == 0
    }
}

/// The line of counts that is reported at the end.
#[derive(Clone, Copy)]
pub struct CountsLine {
    pub tally: LogTally,
    pub exchanges: u64,
    pub unanswered: u64,
    pub unasked: u64,
    pub mismatched: u64,
}

impl CountsLine {
    /// The status of a journal that is printed.
    pub fn status(&self) -> u8
        ensures { result ≡ ended_status self.now.tally (record { exchanges = self.now.exchanges; unanswered = self.now.unanswered; unasked = self.now.unasked; mismatched = self.now.mismatched }) }
    {
        if self.tally.is_clean() && self.is_complete() {
            WHOLE
        } else {
            ODD
        }
    }

    /// Whether there are exchanges, each request has its response, and each response its request.
    fn is_complete(&self) -> bool
        ensures { result ≡ is_complete (record { exchanges = self.now.exchanges; unanswered = self.now.unanswered; unasked = self.now.unasked; mismatched = self.now.mismatched }) }
    {
        self.exchanges > 0 && self.unanswered == 0 && self.unasked == 0 && self.mismatched == 0
    }
}

impl fmt::Display for CountsLine {
    ghost output = { λ l. Some (counts_line l.tally (record { exchanges = l.exchanges; unanswered = l.unanswered; unasked = l.unasked; mismatched = l.mismatched })) };

    fn fmt<W: fmt::Write>(&self, f: &mut fmt::Formatter<W>) -> fmt::Result {
        let head = HeadCounts { line: *self };
        let spare = SpareCounts { line: *self };
        let odd = OddCounts { tally: self.tally };
        let pairs = PairCounts {
            repeated: self.tally.repeated,
            mismatched: self.mismatched,
        };
        let stretches = StretchCounts { tally: self.tally };
        let left = LeftCounts { tally: self.tally };
        write!(f, "{head}{spare}{odd}{pairs}{stretches}{left}\n")
    }
}

/// What was read, and how many exchanges that has.
#[derive(Clone, Copy)]
struct HeadCounts {
    line: CountsLine,
}

impl fmt::Display for HeadCounts {
    ghost output = { λ h. Some (head_counts h.line.tally h.line.exchanges) };

    fn fmt<W: fmt::Write>(&self, f: &mut fmt::Formatter<W>) -> fmt::Result {
        let CountsLine {
            tally,
            exchanges,
            ..
        } = self.line;
        let lines = tally.lines;
        if tally.is_of_packets {
            write!(f, "packets {lines} exchanges {exchanges}")
        } else {
            write!(f, "lines {lines} exchanges {exchanges}")
        }
    }
}

/// Requests and responses that are alone, and lines that say nothing.
#[derive(Clone, Copy)]
struct SpareCounts {
    line: CountsLine,
}

impl fmt::Display for SpareCounts {
    ghost output = { λ s. Some (spare_counts s.line.unanswered s.line.unasked s.line.tally.skipped) };

    fn fmt<W: fmt::Write>(&self, f: &mut fmt::Formatter<W>) -> fmt::Result {
        let CountsLine {
            unanswered,
            unasked,
            ..
        } = self.line;
        let skipped = self.line.tally.skipped;
        write!(
            f,
            " without-response {unanswered} without-request {unasked} skipped {skipped}"
        )
    }
}

/// Messages that are odd.
#[derive(Clone, Copy)]
struct OddCounts {
    tally: LogTally,
}

impl fmt::Display for OddCounts {
    ghost output = { λ o. Some (odd_counts o.tally) };

    fn fmt<W: fmt::Write>(&self, f: &mut fmt::Formatter<W>) -> fmt::Result {
        let LogTally {
            unknown,
            wrong,
            lacking,
            unterminated,
            ..
        } = self.tally;
        write!(
            f,
            " unknown {unknown} wrong-checksum {wrong} without-checksum {lacking} unterminated {unterminated}"
        )
    }
}

/// Requests that were sent again, and responses that don't fit theirs.
#[derive(Clone, Copy)]
struct PairCounts {
    repeated: u64,
    mismatched: u64,
}

impl fmt::Display for PairCounts {
    ghost output = { λ c. Some (pair_counts c.repeated c.mismatched) };

    fn fmt<W: fmt::Write>(&self, f: &mut fmt::Formatter<W>) -> fmt::Result {
        let PairCounts {
            repeated,
            mismatched,
        } = *self;
        write!(f, " repeated {repeated} mismatched {mismatched}")
    }
}

/// The counts of captured streams, where there are some.
#[derive(Clone, Copy)]
struct StretchCounts {
    tally: LogTally,
}

impl fmt::Display for StretchCounts {
    ghost output = { λ c. Some (stretch_counts c.tally) };

    fn fmt<W: fmt::Write>(&self, f: &mut fmt::Formatter<W>) -> fmt::Result {
        let LogTally { gaps, parts, .. } = self.tally;
        if self.tally.is_of_packets {
            write!(f, " gaps {gaps} parts {parts}")
        } else {
            Ok(())
        }
    }
}

/// The counts of what was left out of captures, if they are what was read.
#[derive(Clone, Copy)]
struct LeftCounts {
    tally: LogTally,
}

impl fmt::Display for LeftCounts {
    ghost output = { λ c. Some (left_counts c.tally) };

    fn fmt<W: fmt::Write>(&self, f: &mut fmt::Formatter<W>) -> fmt::Result {
        let LogTally {
            cuts,
            fragments,
            strays,
            foreign,
            foreign_bytes,
            ..
        } = self.tally;
        if self.tally.is_of_packets {
            write!(
                f,
                " cut {cuts} fragments {fragments} stray {strays} foreign {foreign} foreign-bytes {foreign_bytes}"
            )
        } else {
            Ok(())
        }
    }
}

/// What is reported at the end: texts of what finds messages, and the counts.
#[derive(Clone, Copy)]
pub struct LastReport<'a> {
    pub text: &'a str,
    pub counts: CountsLine,
}

impl fmt::Display for LastReport<'_> {
    ghost output = { λ r. Some (r.text.now ++ counts_line r.counts.tally (record { exchanges = r.counts.exchanges; unanswered = r.counts.unanswered; unasked = r.counts.unasked; mismatched = r.counts.mismatched })) };

    fn fmt<W: fmt::Write>(&self, f: &mut fmt::Formatter<W>) -> fmt::Result {
        let LastReport { text, counts } = *self;
        write!(f, "{text}{counts}")
    }
}
