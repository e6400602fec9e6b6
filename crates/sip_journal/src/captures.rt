//! Captures that are read one after the other; a connection may go on from one to the next.

use crate::capturing::Capturing;
use crate::exchanges::ReadsOn;
use crate::headers::{is_fragment, segment_of};
use crate::packets::{Next, Packets};
use crate::reading::JournalReader;
use crate::source::open_file;
use command_line::JournalOptions;
use journal_run::{LogPlace, MakingError};
use std::alloc::Global;
use std::io::{BufReader, Read};
use std::rt::Files;

/// After how many packets it is certain that a capture cuts too many.
const ENOUGH: u64 = 1000;

/// Captures that are read.
pub struct CaptureFiles<'a, 'l, R: Files> {
    pub rt: &'a R,
    pub options: &'l JournalOptions,
    pub capturing: Capturing,
    /// How many captures were opened, and the one that is read.
    pub opened: usize,
    pub packets: Option<Packets<'l, BufReader<R::File>>>,
}

impl<R: Files> Drop for CaptureFiles<'_, '_, R> {
    fn drop(self) {
        let CaptureFiles {
            rt: _,
            options: _,
            capturing: _,
            opened: _,
            packets: _,
        } = self;
    }
}

impl<'l, R: Files + AllocGlobal> ReadsOn<'l> for CaptureFiles<'_, 'l, R> {
    fn read_on(&mut self, reading: &mut JournalReader<'l>) -> Result<bool, MakingError> {
        if let Some(packets) = &mut self.packets {
            if !read_packet(packets, &mut self.capturing, reading)? {
                self.packets = None;
            }
            if !self.options.force && (self.packets.is_none() || reading.lines() >= ENOUGH) {
                refuse_cut(self.rt.alloc(), reading)?;
            }
            return Ok(true);
        }
        let Some(path) = self.options.captures.get(self.opened) else {
            self.capturing.end(reading)?;
            return Ok(false);
        };
        let (log, alloc) = (path.as_str(), self.rt.alloc());
        self.packets = Some(Packets::new(alloc, log, open_file(self.rt, log)?)?);
        reading.place = LogPlace { log, line: 0 };
        self.opened = self.opened.saturating_add(1);
        Ok(true)
    }
}

/// Refuses captures that cut more than one packet in ten.
fn refuse_cut(alloc: Global, reading: &JournalReader<'_>) -> Result<(), MakingError> {
    let Some(snap) = reading.snap_length() else {
        return Ok(());
    };
    let log = reading.place.log;
    Err(MakingError::refused_text(format!(in alloc;
        "{log}: captured with a snap length of {snap} bytes: capture again with -s 0"
    )))
}

/// Reads the next packet; false where there is none.
fn read_packet<B: Read + Drop>(
    packets: &mut Packets<'_, B>,
    capturing: &mut Capturing,
    reading: &mut JournalReader<'_>,
) -> Result<bool, MakingError> {
    match packets.next()? {
        Next::Packet {
            link,
            from,
            to,
            cut,
        } => {
            let packet = packets.bytes().get(from..to).unwrap_or(&[]);
            let segment = segment_of(link, packet, cut);
            reading.count_packet(segment.is_none());
            if segment.is_none() && is_fragment(link, packet) {
                reading.fragment()?;
            }
            if let Some(segment) = &segment {
                if segment.cut > 0 {
                    reading.count_cut(packet.len());
                }
                capturing.take(segment, reading)?;
            }
            Ok(true)
        }
        Next::End => Ok(false),
        Next::Broken => {
            reading.cut()?;
            Ok(false)
        }
    }
}
