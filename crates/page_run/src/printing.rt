//! The whole run: words, files, the page and the status.

ghost use Rattle.std.specs.Prelude.{◌≡◌, IfErr, IfOk, Ok, map};
ghost use Rattle.outside.specs.Events.{Did};
ghost use Rattle.page_run.specs.Run.{HasMade, HasStopped, IsPage, IsPageRun, IsPrinted, TellsRefusal};

use crate::files::read_all;
use crate::maker::Maker;
use crate::stop::{NoPage, PageStop, REFUSED};
use command_line::{PageOptions, Refusal, page_options};
use outside::Outside;
use std::alloc::Global;
use std::convert::AsStr;
use std::io;

/// The status of a page that is printed.
const PRINTED: u8 = 0;

/// Reads the words, of which the first is the program's name, then the files, and prints the page
/// that the maker makes of them, or says on standard error what stopped it. Gives the status of the
/// program:
///
/// - 0 where the page is printed, and for help, which is printed too;
/// - 2 where the command line is refused, or what was read;
/// - 3 where a file can't be read, standard output takes no text, or memory ran out.
///
/// What stopped the run is printed on standard error.
pub fn run<S: AsStr, O: Outside, M: Maker>(
    outside: &mut O,
    alloc: Global,
    words: &[S],
    maker: &M,
) -> u8
    ensures { Did (IsPageRun (M.makes maker.now) (map S.text words.now) result) (O.log outside.old)
        (O.log outside.new) }
{
    match page_options(alloc, words) {
        Ok(options) => print_page(outside, alloc, &options, maker),
        Err(refusal) => refuse(outside, &refusal),
    }
}

/// Reports that the system passed no words, or some that are no text, and returns the status.
pub fn refuse_words<O: Outside>(outside: &mut O, error: &io::Error) -> u8 {
    if error.kind() == io::ErrorKind::OutOfMemory {
        return PageStop::NoPage(NoPage::Memory).say_why(outside);
    }
    let _taken = outside.tell(&"error: a word of the command line isn't text\n");
    REFUSED
}

/// Prints what clap says of the words: help, or a refusal.
fn refuse<O: Outside>(outside: &mut O, refusal: &Refusal) -> u8
    ensures { Did (TellsRefusal refusal.now result) (O.log outside.old) (O.log outside.new) }
{
    match refusal {
        Refusal::Help(text) => print(outside, text.as_bytes()),
        Refusal::Words(text) => {
            let _taken = outside.tell(text);
            REFUSED
        }
        Refusal::Memory => PageStop::NoPage(NoPage::Memory).say_why(outside),
    }
}

/// Prints the page, or what stopped the run.
fn print_page<O: Outside, M: Maker>(
    outside: &mut O,
    alloc: Global,
    options: &PageOptions,
    maker: &M,
) -> u8
    ensures { Did (IsPage (M.makes maker.now) options.now result) (O.log outside.old)
        (O.log outside.new) }
{
    match make_page(outside, alloc, options, maker) {
        Ok(page) => print(outside, page.as_slice()),
        Err(stop) => stop.say_why(outside),
    }
}

/// Reads all files before the page is made of them.
fn make_page<O: Outside, M: Maker>(
    outside: &mut O,
    alloc: Global,
    options: &PageOptions,
    maker: &M,
) -> Result<Vec<u8>, PageStop>
    ensures made { IfOk result
        (λ page. Did (HasMade (M.makes maker.now) options.now (Ok page.items)) (O.log outside.old)
        (O.log outside.new)) }
    ensures stops { IfErr result
        (λ stop. Did (HasStopped (M.makes maker.now) options.now stop) (O.log outside.old)
        (O.log outside.new)) }
{
    let texts = read_all(outside, alloc, options)?;
    match maker.make(alloc, options, &texts) {
        Ok(page) => Ok(page),
        Err(no_page) => Err(PageStop::NoPage(no_page)),
    }
}

/// Prints a text to standard output.
fn print<O: Outside>(outside: &mut O, text: &[u8]) -> u8
    ensures { Did (IsPrinted text.now result) (O.log outside.old) (O.log outside.new) }
{
    if outside.write(text) {
        PRINTED
    } else {
        PageStop::Output.say_why(outside)
    }
}
