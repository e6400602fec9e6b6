//! An outside in memory: files by their paths, two streams, and a call that fails. It keeps all
//! that it was asked, so its log is known.

ghost use Rattle.std.specs.Prelude.{◌≡◌, ◌++◌, ◌<◌, ◌∷◌, [], IfSome, Some, length, map};
ghost use Rattle.tests_of_runs.specs.Asked.{event, event_of};

use crate::asked::{Asked, Call};
use outside::{Failure, FileId, Outside};
use std::alloc::Global;
use std::fmt::Display;
use std::process::Abort;

/// A file by its path.
struct Kept {
    path: String,
    text: Vec<u8>,
}

impl Drop for Kept {
    fn drop(self) {
        let Kept { path: _, text: _ } = self;
    }
}

/// Files by their paths, what was asked, and which call fails.
pub(crate) struct Memory<'a, R> {
    rt: &'a R,
    alloc: Global,
    files: Vec<Kept>,
    /// The number of the call that fails, from 0, or none.
    fails: Option<usize>,
    calls: Vec<Call>,
}

impl<R> Drop for Memory<'_, R> {
    fn drop(self) {
        let Memory {
            rt: _,
            alloc: _,
            files: _,
            fails: _,
            calls: _,
        } = self;
    }
}

impl<'a, R: Abort> Memory<'a, R> {
    /// No files; this call fails.
    pub(crate) fn new(rt: &'a R, alloc: Global, fails: Option<usize>) -> Memory<'a, R> {
        Memory {
            rt,
            alloc,
            files: Vec::new(alloc),
            fails,
            calls: Vec::new(alloc),
        }
    }

    /// The bytes of the file of this path.
    pub(crate) fn text(&self, path: &str) -> Option<&[u8]> {
        let place = self.place(path)?;
        Some(self.files.get(place)?.text.as_slice())
    }

    /// How many files there are.
    pub(crate) fn count(&self) -> usize {
        self.files.len()
    }

    /// How often it was asked.
    pub(crate) fn asked(&self) -> usize {
        self.calls.len()
    }

    /// What was written to standard error last.
    pub(crate) fn told(&self) -> &[u8] {
        match self.calls.last() {
            Some(call) => match call.asked {
                Asked::Tell(_) => call.text.as_slice(),
                _ => b"",
            },
            None => b"",
        }
    }

    fn place(&self, path: &str) -> Option<usize>
        ensures { IfSome result (λ place. place < length self.now.files.items) }
    {
        for place in 0..self.files.len() {
            if self.files[place].path.as_str() == path {
                return Some(place);
            }
        }
        None
    }

    /// Whether the next call is answered well.
    fn goes_well(&self) -> bool {
        self.fails != Some(self.calls.len())
    }

    /// The answer to the next call.
    fn answer(&self) -> Result<(), Failure> {
        if self.goes_well() {
            Ok(())
        } else {
            Err(Failure::Full)
        }
    }

    /// Takes a file away.
    fn take(&mut self, path: &str)
        ensures { self.new.calls ≡ self.old.calls }
    {
        if let Some(place) = self.place(path) {
            let _ = self.files.swap_remove(place);
        }
    }

    /// Puts a file in place of what was there.
    pub(crate) fn put(&mut self, path: &str, text: &[u8])
        ensures { self.new.calls ≡ self.old.calls }
    {
        self.take(path);
        let path = String::from_str(self.alloc, path).expect(self.rt, "memory");
        let text = text.to_vec(self.alloc).expect(self.rt, "memory");
        self.files
            .push(Kept { path, text })
            .expect(self.rt, "memory");
    }

    /// Notes a call.
    fn note(&mut self, asked: Asked, path: &[u8], text: &[u8], answer: Result<(), Failure>)
        ensures { map event_of self.new.calls.items ≡ map event_of self.old.calls.items ++ event asked path.now text.now answer ∷ [] }
    {
        let path = path.to_vec(self.alloc).expect(self.rt, "memory");
        let text = text.to_vec(self.alloc).expect(self.rt, "memory");
        let call = Call {
            asked,
            path,
            text,
            answer,
        };
        self.calls.push(call).expect(self.rt, "memory");
    }
}

impl<R: Abort> Memory<'_, R> {
    /// The bytes of a file, copied, where the next call is answered well.
    fn copied(&self, alloc: Global, path: &str) -> Result<Vec<u8>, Failure> {
        self.answer()?;
        match self.text(path) {
            Some(text) => Ok(text.to_vec(alloc).expect(self.rt, "memory")),
            None => Err(Failure::Missing),
        }
    }
}

#[tactic(auto, unfolding(outside::specs::Events::noted))]
impl<R: Abort> Outside for Memory<'_, R> {
    ghost log = { λ memory. Some (map event_of memory.calls.items) };

    fn find(&mut self, path: &str) -> Option<FileId> {
        let file = match self.place(path) {
            Some(place) if self.goes_well() => Some(FileId {
                device: 1,
                number: place as u64,
            }),
            _ => None,
        };
        self.note(Asked::Find(file), path.as_bytes(), b"", Ok(()));
        file
    }

    fn read(&mut self, alloc: Global, path: &str) -> Result<Vec<u8>, Failure> {
        match self.copied(alloc, path) {
            Ok(text) => {
                self.note(Asked::Read, path.as_bytes(), text.as_slice(), Ok(()));
                Ok(text)
            }
            Err(failure) => {
                self.note(Asked::Read, path.as_bytes(), b"", Err(failure));
                Err(failure)
            }
        }
    }

    fn create(&mut self, path: &str, text: &[u8]) -> Result<(), Failure> {
        let answer = self.answer();
        // a file that can't be written whole is there nevertheless
        self.put(path, if answer.is_ok() { text } else { b"" });
        self.note(Asked::Create, path.as_bytes(), text, answer);
        answer
    }

    fn rename(&mut self, from: &str, to: &str) -> Result<(), Failure> {
        let answer = self.answer();
        if let Ok(text) = self.copied(self.alloc, from) {
            self.take(from);
            self.put(to, text.as_slice());
        }
        self.note(Asked::Rename, from.as_bytes(), to.as_bytes(), answer);
        answer
    }

    fn remove(&mut self, path: &str) {
        self.take(path);
        self.note(Asked::Remove, path.as_bytes(), b"", Ok(()));
    }

    fn print<D: Display>(&mut self, text: &D) -> bool {
        let text = format!(in self.alloc; "{text}").expect(self.rt, "memory");
        let taken = self.goes_well();
        self.note(Asked::Print(taken), b"", text.as_bytes(), Ok(()));
        taken
    }

    fn write(&mut self, bytes: &[u8]) -> bool {
        let taken = self.goes_well();
        self.note(Asked::Print(taken), b"", bytes, Ok(()));
        taken
    }

    fn tell<D: Display>(&mut self, text: &D) -> bool {
        let text = format!(in self.alloc; "{text}").expect(self.rt, "memory");
        let taken = self.goes_well();
        self.note(Asked::Tell(taken), b"", text.as_bytes(), Ok(()));
        taken
    }

    fn is_terminal(&self) -> bool {
        false
    }
}
