//! The program `overlord`: its words, its two files, its streams and its status.
#![tactic(auto)]

mod fault;
mod progress;
mod real_host;
mod real_source;
mod store_file;

use crate::fault::Fault;
use crate::real_host::RealHost;
use crate::real_source::RealSource;
use overlord_run::{Status, overlord};
use std::fmt::InlineText;
use std::process::ExitCode;
use std::{env, io};

fn main(rt: HostRuntime) -> ExitCode {
    let status = match words(&rt) {
        Ok(words) => run(rt, &words),
        Err(error) => unread(&error),
    };
    if let Some(fault) = Fault::of(&status) {
        complain(&rt, &fault);
    }
    ExitCode::from(fault::number(&status))
}

/// The run of these words. However it ends, the files that it leaves settled lose their marks.
fn run(rt: HostRuntime, words: &[String]) -> Status {
    let mut host = RealHost::new(rt);
    let status = overlord(
        rt.alloc(),
        words,
        &mut RealSource::new(rt.stdin()),
        &mut host,
    );
    host.settle();
    status
}

/// The words of the command line after the program's name.
fn words(rt: &HostRuntime) -> io::Result<Vec<String>> {
    let mut words = env::args(rt)?;
    let _name = words.next();
    Ok(words.collect(rt.alloc())?)
}

/// Words that are no text are of no form that the program knows.
fn unread(error: &io::Error) -> Status {
    if error.kind() == io::ErrorKind::OutOfMemory {
        Status::NoMemory
    } else {
        Status::Usage
    }
}

/// Puts out the line of a fault in one write, and takes no memory for it. Nobody is left to tell where that fails.
fn complain(rt: &HostRuntime, fault: &Fault) {
    let line = InlineText::<128>::of(format_args!("{fault}\n"));
    let _ = rt.eprint(line.as_str());
}
