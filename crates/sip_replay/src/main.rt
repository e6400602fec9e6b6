//! The program `sip_replay`: the words of its command line and the system, given to `run` of
//! `whole_run`, and its status.
#![tactic(auto)]

use outside::System;
use std::env::Env;
use std::process::ExitCode;
use std::{env, io};
use whole_run::{refuse_words, run};

fn main(rt: HostRuntime) -> ExitCode {
    let mut system = System {
        rt: &rt,
        input: rt.stdin(),
        out: rt.stdout(),
        err: rt.stderr(),
    };
    let status = match words(&rt) {
        Ok(words) => run(&rt, &mut system, words.as_slice()),
        Err(error) => refuse_words(&mut system, &error),
    };
    ExitCode::from(status)
}

/// The words of the command line; a word that isn't text is an error.
fn words<R: Env + AllocGlobal>(rt: &R) -> io::Result<Vec<String>> {
    Ok(env::args(rt)?.collect(rt.alloc())?)
}
