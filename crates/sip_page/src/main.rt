//! The program `sip_page`: one page that shows a librarian what a run of `sip_replay` found. `page_run` reads the files and prints the page,
//! `page_text` writes texts into it, `page_words` has what is said, `one_run` decides which tables are of one run; here is what is gathered
//! from the texts of the files, and what the page shows.
#![tactic(auto)]

mod changes;
mod facts;
mod files;
mod findings;
mod gathered;
mod groups;
mod head;
mod index;
mod messages;
mod page;
mod passed;
mod reading;
mod sheet;
mod shown;
mod stop;
mod subjects;
mod summary;
mod tally;
mod whys;

use crate::page::PageMaker;
use outside::System;
use page_run::{refuse_words, run};
use std::env::Env;
use std::process::ExitCode;
use std::{env, io};

fn main(rt: HostRuntime) -> ExitCode {
    let mut system = System {
        rt: &rt,
        input: rt.stdin(),
        out: rt.stdout(),
        err: rt.stderr(),
    };
    let maker = PageMaker {
        build: env::var(&rt, "SIP_PAGE_BUILD").ok(),
    };
    let status = match words(&rt) {
        Ok(words) => run(&mut system, rt.alloc(), words.as_slice(), &maker),
        Err(error) => refuse_words(&mut system, &error),
    };
    ExitCode::from(status)
}

/// The words of the command line; a word that isn't text is an error.
fn words<R: Env + AllocGlobal>(rt: &R) -> io::Result<Vec<String>> {
    Ok(env::args(rt)?.collect(rt.alloc())?)
}
