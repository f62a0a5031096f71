//! The program `steward`: it runs its words over standard input and standard output.
#![tactic(auto)]

use st_io::{StdSink, StdSource};
use st_run::{Status, run};
use std::alloc::Global;
use std::process::ExitCode;
use std::{env, io};

fn main(rt: HostRuntime) -> ExitCode {
    let mut source = StdSource::new(rt.stdin());
    let mut sink = StdSink::new(rt.stdout());
    let status = match words(&rt, rt.alloc()) {
        Ok(words) => run(rt.alloc(), &words, &mut source, &mut sink),
        Err(_) => Status::OutOfMemory,
    };
    ExitCode::from(status.exit_code())
}

// The words after the program's name.
fn words(rt: &HostRuntime, alloc: Global) -> io::Result<Vec<String>> {
    let mut words = Vec::new(alloc);
    for word in env::args(rt)?.skip(1) {
        words.push(word)?;
    }
    Ok(words)
}
