//! `Outside` by calls to the operating system.

ghost use Rattle.std.specs.Prelude.{None};

use crate::failure::Failure;
use crate::file_id::FileId;
use crate::outside::Outside;
use csv_table::read_bytes;
use std::alloc::Global;
use std::fmt::Display;
use std::io::{IsTerminal, Read, Write};
use std::os::unix::fs::MetadataExt;
use std::rt::Files;
use std::{fs, io};

/// The path that means standard input.
const INPUT: &str = "-";

/// The file of the operating system that is standard input.
const INPUT_FILE: &str = "/dev/stdin";

/// The operating system: files through the handle `rt`, and three streams. It keeps no log, so no
/// contract says which calls were made: that each method does just what the trait says of it, and
/// returns that result, has to be checked by reading this file.
pub struct System<'a, R, I, W, E> {
    pub rt: &'a R,
    pub input: I,
    pub out: W,
    pub err: E,
}

impl<R, I: Drop, W: Drop, E: Drop> Drop for System<'_, R, I, W, E> {
    fn drop(self) {
        let System {
            rt: _,
            input: _,
            out: _,
            err: _,
        } = self;
    }
}

#[tactic(auto, unfolding(crate::specs::Events::noted))]
impl<R: Files, I: Read, W: Write, E: Write + IsTerminal> Outside for System<'_, R, I, W, E> {
    ghost log = { λ _. None };

    fn find(&mut self, path: &str) -> Option<FileId> {
        let path = if path == INPUT { INPUT_FILE } else { path };
        let found = fs::metadata(self.rt, path).ok()?;
        Some(FileId {
            device: found.dev(),
            number: found.ino(),
        })
    }

    fn read(&mut self, alloc: Global, path: &str) -> Result<Vec<u8>, Failure> {
        let bytes = if path == INPUT {
            read_bytes(alloc, &mut self.input)
        } else {
            bytes_at(self.rt, alloc, path)
        };
        bytes.map_err(|error| Failure::from(&error))
    }

    fn create(&mut self, path: &str, text: &[u8]) -> Result<(), Failure> {
        fs::write(self.rt, path, text).map_err(|error| Failure::from(&error))
    }

    fn rename(&mut self, from: &str, to: &str) -> Result<(), Failure> {
        fs::rename(self.rt, from, to).map_err(|error| Failure::from(&error))
    }

    fn remove(&mut self, path: &str) {
        let _ = fs::remove_file(self.rt, path);
    }

    fn print<D: Display>(&mut self, text: &D) -> bool {
        write!(self.out, "{text}").is_ok()
    }

    fn write(&mut self, bytes: &[u8]) -> bool {
        self.out.write_all(bytes).is_ok()
    }

    fn tell<D: Display>(&mut self, text: &D) -> bool {
        write!(self.err, "{text}").is_ok()
    }

    fn is_terminal(&self) -> bool {
        self.err.is_terminal()
    }
}

/// All bytes of the file at this path.
fn bytes_at<R: Files>(rt: &R, alloc: Global, path: &str) -> io::Result<Vec<u8>> {
    read_bytes(alloc, &mut fs::open(rt, path)?)
}
