//! What a file is that is no log of lines, by its first bytes.

use crate::packets::is_capture;
use std::alloc::{AllocError, Global};

/// How many bytes are looked at.
const HEAD: usize = 4096;

/// What a file is that is no log of lines.
#[derive(Clone, Copy)]
pub enum Look {
    /// It is packed so, and this command unpacks it.
    Packed(&'static str, &'static str),
    /// It is a capture of packets.
    Capture,
    /// It has bytes that no text has.
    Binary,
}

const WIDE: Look = Look::Packed("in UTF-16", "iconv -f UTF-16 -t UTF-8");

/// What files are that begin with these bytes.
static MARKS: [(&[u8], Look); 6] = [
    (b"\x1f\x8b", Look::Packed("compressed by gzip", "gzip -dc")),
    (
        b"\x28\xb5\x2f\xfd",
        Look::Packed("compressed by zstd", "zstd -dc"),
    ),
    (b"\xfd7zXZ\x00", Look::Packed("compressed by xz", "xz -dc")),
    (b"BZh", Look::Packed("compressed by bzip2", "bzip2 -dc")),
    (b"\xff\xfe", WIDE),
    (b"\xfe\xff", WIDE),
];

impl Look {
    /// Says what a log is, and what to do with it.
    pub fn told(self, alloc: Global, log: &str) -> Result<String, AllocError> {
        match self {
            Look::Packed(how, command) => format!(in alloc;
                "{log} is {how}: unpack it first, as {command} {log} | sip_journal .. -"
            ),
            Look::Capture => format!(in alloc;
                "{log} is a capture of packets: read it by sip_journal --capture {log}"
            ),
            Look::Binary => format!(in alloc;
                "{log} has bytes that no text has: it is no log of lines"
            ),
        }
    }
}

/// What a file is that begins with these bytes; nothing where it may be a log.
pub fn look_of(bytes: &[u8]) -> Option<Look> {
    for (mark, look) in &MARKS {
        if bytes.starts_with(mark) {
            return Some(*look);
        }
    }
    if is_capture(bytes) {
        Some(Look::Capture)
    } else if is_wide(bytes) {
        Some(WIDE)
    } else if is_binary(bytes) {
        Some(Look::Binary)
    } else {
        None
    }
}

/// Zeros at every other place of the first sixteen.
fn is_wide(bytes: &[u8]) -> bool {
    let Some(head) = bytes.get(..16) else {
        return false;
    };
    let mut zeros = [true; 2];
    for (at, byte) in head.iter().enumerate() {
        zeros[at % 2] &= *byte == 0;
    }
    zeros[0] || zeros[1]
}

/// More than one in twenty of the first bytes is a control character that no line has.
fn is_binary(bytes: &[u8]) -> bool {
    let head = &bytes[..bytes.len().min(HEAD)];
    let mut odd: usize = 0;
    for byte in head {
        odd = odd.saturating_add(usize::from(is_control(*byte)));
    }
    odd > head.len() / 20
}

fn is_control(byte: u8) -> bool {
    byte < b' ' && !matches!(byte, b'\t' | b'\n' | b'\r' | 0x1b)
}
