//! Writing files, each of which gets its name only when it is complete.

ghost use Rattle.std.specs.Prelude.{◌≡◌, IfErr, IfOk, OnOk, map, string_bytes};
ghost use Rattle.outside.specs.Events.{Did, after};
ghost use Rattle.outside.specs.Files.{FailsToPlace, StopsMaking, StopsWriting, all_written, in_folder, place, written};
ghost use Rattle.outside.specs.Places.{place_of};

use crate::failure::Failure;
use crate::outside::Outside;
use std::alloc::{AllocError, Global};

/// Gives the path of a file in a folder: the folder's path, `/` and the name.
pub fn file_in_folder(alloc: Global, folder: &str, name: &str) -> Result<String, AllocError>
    ensures { IfOk result (λ path. string_bytes path ≡ in_folder folder.now name.now) }
{
    format!(in alloc; "{folder}/{name}")
}

/// A file that is still to be written.
pub struct Unwritten<'a> {
    /// Its path once it is complete.
    path: String,
    /// Its temporary path, in the same folder: `path` with `.part` at its end.
    part: String,
    text: &'a [u8],
}

impl Drop for Unwritten<'_> {
    fn drop(self) {
        let Unwritten {
            path: _,
            part: _,
            text: _,
        } = self;
    }
}

impl<'a> Unwritten<'a> {
    /// Keeps the path of the file of this name in a folder, and the text that is to be written
    /// there.
    pub fn new(
        alloc: Global,
        folder: &str,
        name: &str,
        text: &'a [u8],
    ) -> Result<Unwritten<'a>, AllocError>
        ensures { IfOk result (λ file. place_of file
            ≡ place folder.entry.now (name.entry.now, text.entry.now)) }
    {
        Ok(Unwritten {
            path: file_in_folder(alloc, folder, name)?,
            part: format!(in alloc; "{folder}/{name}.part")?,
            text,
        })
    }
}

/// The path of a file that couldn't be written, and why.
#[derive(Clone, Copy)]
pub struct Unplaced<'a> {
    pub path: &'a str,
    pub failure: Failure,
}

/// Writes these files, one after the other, up to the first that fails; each gets its name only
/// when it is whole. Its temporary file is removed, if possible; the files before it stay.
pub fn write_files<'a, O: Outside>(
    outside: &mut O,
    files: &'a [Unwritten<'_>],
) -> Result<(), Unplaced<'a>>
    ensures written { OnOk result
        (O.log outside.new ≡ after (all_written (map place_of files.now)) (O.log outside.old)) }
    ensures stops { IfErr result
        (λ e. Did (StopsWriting (map place_of files.now) e.path.now e.failure) (O.log outside.old)
        (O.log outside.new)) }
{
    for file in files {
        if let Err(failure) = write_whole(outside, file) {
            return Err(Unplaced {
                path: file.path.as_str(),
                failure,
            });
        }
    }
    Ok(())
}

/// Writes a file under its temporary path, and renames it when it is complete. If that fails, the
/// temporary file is removed; a failure of that is ignored.
fn write_whole<O: Outside>(outside: &mut O, file: &Unwritten<'_>) -> Result<(), Failure>
    ensures written { OnOk result
        (O.log outside.new ≡ after (written (place_of file.now)) (O.log outside.old)) }
    ensures stops { IfErr result
        (λ e. Did (FailsToPlace (place_of file.now) e) (O.log outside.old) (O.log outside.new)) }
{
    match make_whole(outside, file) {
        Ok(()) => Ok(()),
        Err(failure) => {
            outside.remove(file.part.as_str());
            Err(failure)
        }
    }
}

/// The same, but if it fails, the temporary file isn't removed.
fn make_whole<O: Outside>(outside: &mut O, file: &Unwritten<'_>) -> Result<(), Failure>
    ensures written { OnOk result
        (O.log outside.new ≡ after (written (place_of file.now)) (O.log outside.old)) }
    ensures stops { IfErr result
        (λ e. StopsMaking (place_of file.now) e (O.log outside.old) (O.log outside.new)) }
{
    match outside.create(file.part.as_str(), file.text) {
        Ok(()) => outside.rename(file.part.as_str(), file.path.as_str()),
        Err(failure) => Err(failure),
    }
}
