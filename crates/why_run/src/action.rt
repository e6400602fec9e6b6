//! The steps by which an explanation is written.

ghost use Rattle.std.specs.Prelude.{◌≡◌, Err, IfErr, Ok, OnOk, false, map, true};
ghost use Rattle.outside.specs.Events.{Did, Event, Exists, Print, after, noted};
ghost use Rattle.outside.specs.declared.failure.Failure.{Failure};
ghost use Rattle.why_run.specs.Actions.{planned};
ghost use Rattle.why_run.specs.Writing.{AreTaken, Fails, GoesOn, IsOfPath, IsTaken, StopsTaking, removal};
ghost use Rattle.why_run.specs.declared.stop.WhyStop.TheVariants as stops;

use crate::remark::Remark;
use crate::stop::WhyStop;
use outside::{Failure, FileStop, Folders};
use std::alloc::Global;

/// One thing that is asked of the outside.
#[derive(Drop)]
pub enum Action<'a> {
    /// Prints a remark to standard error.
    Say {
        remark: &'a Remark,
    },
    /// There must be nothing of this path.
    Claim {
        path: String,
    },
    /// Makes a folder, in the temporary folder of a case or as this.
    MakeFolder {
        path: String,
        part: String,
    },
    /// Makes a file in the temporary folder of a case.
    MakeFile {
        path: String,
        text: &'a [u8],
        part: String,
    },
    /// Gives the folder of a case its name.
    Place {
        part: String,
        place: String,
    },
    /// Makes a file, or replaces its contents.
    Replace {
        path: &'a str,
        text: &'a [u8],
    },
    /// Prints to standard output.
    Print {
        text: &'a [u8],
    },
}

/// Does these, one after the other. Of a case in which one fails nothing is left; what was done before it stays.
pub fn do_all<O: Folders>(
    outside: &mut O,
    alloc: Global,
    actions: &[Action<'_>],
) -> Result<(), WhyStop>
    ensures done { OnOk result (Did (AreTaken (map planned actions.now)) (O.log outside.old) (O.log outside.new)) }
    ensures stops { IfErr result (λ stop. Did (StopsTaking (map planned actions.now) stop) (O.log outside.old) (O.log outside.new)) }
{
    for action in actions {
        do_whole(outside, alloc, action)?;
    }
    Ok(())
}

/// Does one. Where it fails, the folder in which it was to be is removed.
fn do_whole<O: Folders>(outside: &mut O, alloc: Global, action: &Action<'_>) -> Result<(), WhyStop>
    ensures done { OnOk result ((event : Event) × (O.log outside.new ≡ noted event (O.log outside.old)) × GoesOn (planned action.now).0 event) }
    ensures stops { IfErr result (λ stop. (event : Event) × (O.log outside.new ≡ after (removal (planned action.now).1) (noted event (O.log outside.old))) × Fails (planned action.now).0 event stop) }
{
    match do_one(outside, alloc, action) {
        Ok(()) => Ok(()),
        Err(stop) => {
            remove_part(outside, action);
            Err(stop)
        }
    }
}

/// Removes the temporary folder of the case that an action belongs to.
fn remove_part<O: Folders>(outside: &mut O, action: &Action<'_>)
    ensures { O.log outside.new ≡ after (removal (planned action.now).1) (O.log outside.old) }
{
    match action {
        Action::MakeFolder { path: _, part }
        | Action::MakeFile {
            path: _,
            text: _,
            part,
        }
        | Action::Place { part, place: _ } => outside.remove_folder(part.as_str()),
        _ => {}
    }
}

/// Does one; where it fails, nothing is removed.
fn do_one<O: Folders>(outside: &mut O, alloc: Global, action: &Action<'_>) -> Result<(), WhyStop>
    ensures done { OnOk result ((event : Event) × (O.log outside.new ≡ noted event (O.log outside.old)) × GoesOn (planned action.now).0 event) }
    ensures stops { IfErr result (λ stop. (event : Event) × (O.log outside.new ≡ noted event (O.log outside.old)) × Fails (planned action.now).0 event stop) }
{
    match action {
        Action::Say { remark } => {
            let _taken = outside.tell(*remark);
            Ok(())
        }
        Action::Claim { path } => claim(outside, alloc, path.as_str()),
        Action::MakeFolder { path, part: _ } => done(
            alloc,
            outside.make_folder(path.as_str()),
            path.as_str(),
        ),
        Action::MakeFile {
            path,
            text,
            part: _,
        } => done(alloc, outside.create(path.as_str(), text), path.as_str()),
        Action::Place { part, place } => done(
            alloc,
            outside.rename(part.as_str(), place.as_str()),
            place.as_str(),
        ),
        Action::Replace { path, text } => done(alloc, outside.create(path, text), path),
        Action::Print { text } => print(outside, text),
    }
}

/// Prints to standard output.
fn print<O: Folders>(outside: &mut O, text: &[u8]) -> Result<(), WhyStop>
    ensures done { OnOk result (O.log outside.new ≡ noted (Print text.now true) (O.log outside.old)) }
    ensures stops { IfErr result (λ stop. (O.log outside.new ≡ noted (Print text.now false) (O.log outside.old)) × (stop ≡ stops.Output)) }
{
    if outside.write(text) {
        Ok(())
    } else {
        Err(WhyStop::Output)
    }
}

/// Stops where there is something of this path.
fn claim<O: Folders>(outside: &mut O, alloc: Global, path: &str) -> Result<(), WhyStop>
    ensures done { OnOk result (O.log outside.new ≡ noted (Exists path.now (Ok false)) (O.log outside.old)) }
    ensures stops { IfErr result (λ stop. (event : Event) × (O.log outside.new ≡ noted event (O.log outside.old)) × Fails (Exists path.now (Ok false)) event stop) }
{
    match outside.exists(path) {
        Ok(false) => Ok(()),
        Ok(true) => Err(taken(alloc, path)),
        Err(failure) => Err(WhyStop::File(FileStop::of_file(alloc, failure, path))),
    }
}

/// The stop of a path at which there is something.
fn taken(alloc: Global, path: &str) -> WhyStop
    ensures { IsTaken path.now result }
{
    match String::from_str(alloc, path) {
        Ok(path) => WhyStop::Taken(path),
        Err(error) => WhyStop::from(error),
    }
}

/// What was done, or the stop of the path that it is about.
fn done(alloc: Global, answer: Result<(), Failure>, path: &str) -> Result<(), WhyStop>
    ensures done { OnOk result (answer ≡ Ok tt) }
    ensures stops { IfErr result (λ stop. (failure : Failure) × (answer ≡ Err failure) × IsOfPath path.now failure stop) }
{
    match answer {
        Ok(()) => Ok(()),
        Err(failure) => Err(WhyStop::File(FileStop::of_file(alloc, failure, path))),
    }
}
