//! The program `sip_diff`: what differs between two folders of tables. `command_line` reads its
//! words, and `table_diff` finds which rows are the same and what differs in them; here are the
//! files and the forms of the six tables.
#![tactic(auto)]

mod reading;
mod run;
mod stop;
mod tables;

use crate::stop::DiffError;
use std::env::Env;
use std::process::ExitCode;
use std::{env, io};

fn main(rt: HostRuntime) -> ExitCode {
    let mut out = rt.stdout();
    let mut err = rt.stderr();
    match words(&rt) {
        Ok(words) => ExitCode::from(run::run(&rt, words.as_slice(), &mut out, &mut err)),
        Err(error) => ExitCode::from(DiffError::of_words(&error).say_why(&mut err)),
    }
}

/// The words of the command line; a word that isn't text is an error.
fn words<R: Env + AllocGlobal>(rt: &R) -> io::Result<Vec<String>> {
    Ok(env::args(rt)?.collect(rt.alloc())?)
}
