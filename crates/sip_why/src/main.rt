//! The program `sip_why`: why the answers of a journal are what they are, since when each record has been so, and what to do about it.
//! `why_run` reads the files and writes what is made of them, `line_origins` and the crates that it uses compute; here is what is made.
#![tactic(auto)]

mod cases;
mod change_text;
mod changes;
mod explained;
mod lines;
mod refused;
mod wanted;

use crate::explained::ByRules;
use outside::System;
use std::env::Env;
use std::process::ExitCode;
use std::{env, io};
use why_run::{refuse_words, run};

fn main(rt: HostRuntime) -> ExitCode {
    let mut system = System {
        rt: &rt,
        input: rt.stdin(),
        out: rt.stdout(),
        err: rt.stderr(),
    };
    let status = match words(&rt) {
        Ok(words) => run(&mut system, rt.alloc(), words.as_slice(), &ByRules),
        Err(error) => refuse_words(&mut system, &error),
    };
    ExitCode::from(status)
}

/// The words of the command line; a word that isn't text is an error.
fn words<R: Env + AllocGlobal>(rt: &R) -> io::Result<Vec<String>> {
    Ok(env::args(rt)?.collect(rt.alloc())?)
}
