//! The program: it checks, compiles, certifies, plays and reports choreographies of drones, verifies their
//! certificates, and rehearses and carries their uploads.
//!
//! `run` of `show_run` is the program over any source and any sink, and has its contract. `main` is the trusted edge:
//! it hands in the words and standard input and output, and ends with the status. `.ci/program` runs it over cases, and
//! `run_tests` has the tests of ends that fail.
#![tactic(auto)]

use byte_streams::status::{NO_MEMORY, NO_WORDS};
use byte_streams::{StdSink, StdSource};
use show_run::run;
use std::process::ExitCode;
use std::{env, io};

fn main(rt: HostRuntime) -> ExitCode {
    let mut args = match env::args(&rt) {
        Ok(args) => args,
        Err(error) if error.kind() == io::ErrorKind::OutOfMemory => {
            return ExitCode::from(NO_MEMORY);
        }
        Err(_) => return ExitCode::from(NO_WORDS),
    };
    let _ = args.next();
    let Ok(words) = args.collect(rt.alloc()) else {
        return ExitCode::from(NO_MEMORY);
    };
    let mut source = StdSource::make(rt.reader());
    let mut sink = StdSink::make(io::writer(&rt));
    ExitCode::from(run(rt.alloc(), &words, &mut source, &mut sink))
}
