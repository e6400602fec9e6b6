//! Files that are read.

ghost use Rattle.std.specs.Prelude.{◌≡◌, ◌∷◌, [], IfErr, IfOk};
ghost use Rattle.outside.specs.Events.{Did};
ghost use Rattle.outside.specs.Files.{in_folder};
ghost use Rattle.outside.specs.Reading.{AreRead, MayTell, StopsReading, lacks};
ghost use Rattle.outside.specs.declared.reading.FileStop.TheVariants as stops;

use crate::failure::Failure;
use crate::outside::Outside;
use crate::writing::file_in_folder;
use std::alloc::{AllocError, Global};

/// What to do if a file is missing.
#[derive(Clone, Copy)]
pub enum IfMissing {
    /// It is an error.
    Fails,
    /// It counts as empty.
    Empty,
}

/// Why an operation on files or folders failed.
#[derive(Drop)]
pub enum FileStop {
    /// Memory ran out.
    Memory,
    /// The operation on this path failed.
    File { path: String, failure: Failure },
}

impl From<AllocError> for FileStop {
    ghost from_gives = { λ _ stop. stop ≡ stops.Memory };

    fn from(_error: AllocError) -> FileStop {
        FileStop::Memory
    }
}

impl FileStop {
    /// Names the path and the failure of an operation that failed, or that memory ran out (as the
    /// failure, or when the path is copied).
    pub fn of_file(alloc: Global, failure: Failure, path: &str) -> FileStop
        ensures { MayTell path.now failure result }
    {
        if let Failure::Memory = failure {
            return FileStop::Memory;
        }
        match String::from_str(alloc, path) {
            Ok(path) => FileStop::File { path, failure },
            Err(error) => FileStop::from(error),
        }
    }
}

/// Reads this one file of a folder whole, and nothing else, or says why it can't.
pub fn read_in<O: Outside>(
    outside: &mut O,
    alloc: Global,
    folder: &str,
    name: &str,
    missing: IfMissing,
) -> Result<Vec<u8>, FileStop>
    ensures read { IfOk result
        (λ text. Did (AreRead ((in_folder folder.now name.now, missing) ∷ []) (text.items ∷ []))
        (O.log outside.old) (O.log outside.new)) }
    ensures stops { IfErr result
        (λ stop. Did (StopsReading ((in_folder folder.now name.now, missing) ∷ []) stop)
        (O.log outside.old) (O.log outside.new)) }
{
    let path = file_in_folder(alloc, folder, name)?;
    read_file(outside, alloc, path.as_str(), missing)
}

/// Reads this one file whole, and nothing else, or says why it can't.
pub fn read_file<O: Outside>(
    outside: &mut O,
    alloc: Global,
    path: &str,
    missing: IfMissing,
) -> Result<Vec<u8>, FileStop>
    ensures read { IfOk result
        (λ text. Did (AreRead ((path.now, missing) ∷ []) (text.items ∷ [])) (O.log outside.old)
        (O.log outside.new)) }
    ensures stops { IfErr result
        (λ stop. Did (StopsReading ((path.now, missing) ∷ []) stop) (O.log outside.old)
        (O.log outside.new)) }
{
    match outside.read(alloc, path) {
        Ok(text) => Ok(text),
        Err(failure) => {
            if may_lack(missing, failure) {
                Ok(Vec::new(alloc))
            } else {
                Err(FileStop::of_file(alloc, failure, path))
            }
        }
    }
}

/// Whether this failure counts as an empty file.
fn may_lack(missing: IfMissing, failure: Failure) -> bool
    ensures { result ≡ lacks missing failure }
{
    matches!((missing, failure), (IfMissing::Empty, Failure::Missing))
}
