//! Where a line of a log or a packet of a capture is, and how it is shown.

ghost use Rattle.std.specs.Prelude.{Some};
ghost use Rattle.journal_run.specs.Stops.{place_text};

use std::fmt;

/// How many bytes of a line are shown.
const WIDTH: usize = 80;

/// The place of a line or packet: its file, and its number there, from 1 on.
#[derive(Clone, Copy)]
pub struct LogPlace<'a> {
    pub log: &'a str,
    pub line: u64,
}

impl fmt::Display for LogPlace<'_> {
    ghost output = { λ place. Some (place_text place) };

    fn fmt<W: fmt::Write>(&self, f: &mut fmt::Formatter<W>) -> fmt::Result {
        let LogPlace { log, line } = *self;
        write!(f, "{log}:{line}")
    }
}

/// The first bytes of a line; those that don't print are spelled.
#[derive(Clone, Copy)]
pub struct LineHead<'a>(pub &'a [u8]);

impl fmt::Display for LineHead<'_> {
    fn fmt<W: fmt::Write>(&self, f: &mut fmt::Formatter<W>) -> fmt::Result {
        let line = self.0;
        for byte in &line[..line.len().min(WIDTH)] {
            let written = match *byte {
                b' '..=b'~' => f.write_char(char::from(*byte)),
                _ => write!(f, "\\x{byte:02x}"),
            };
            written?;
        }
        f.write_str(if line.len() > WIDTH { ".." } else { "" })
    }
}
