//! The program: words, files and standard output, and the job over them.
//!
//! It holds no decision but one: words that are no texts mean no settings, as `scr` of `instance_cli` says of all other
//! words that mean none. The texts on standard error are `Status::text`.
#![tactic(auto)]

use instance_cli::{Status, scr};
use outside_io::{FileShelf, OutSink};
use std::io::ErrorKind;
use std::process::ExitCode;
use std::{env, io};

/// Why the words can't be read: one isn't UTF-8, or memory is short.
fn why_no_words(fault: &io::Error) -> Status {
    if fault.kind() == ErrorKind::InvalidData {
        Status::Usage
    } else {
        Status::Memory
    }
}

/// The words of the command line, without the program's name.
fn words(rt: &HostRuntime) -> Result<Vec<String>, Status> {
    match env::args(rt) {
        Err(fault) => Err(why_no_words(&fault)),
        Ok(args) => match args.skip(1).collect(rt.alloc()) {
            Err(_) => Err(Status::Memory),
            Ok(words) => Ok(words),
        },
    }
}

/// The job over the words of the command line, the system's files and standard output.
fn job(rt: &HostRuntime) -> Result<Status, Status> {
    let words = words(rt)?;
    let Ok(files) = rt.clone() else {
        return Err(Status::Memory);
    };
    let mut shelf = FileShelf::new(files);
    let mut sink = OutSink::new(io::writer(rt));
    Ok(scr(rt.alloc(), words.as_slice(), &mut shelf, &mut sink))
}

fn main(rt: HostRuntime) -> ExitCode {
    let status = match job(&rt) {
        Ok(status) => status,
        Err(status) => status,
    };
    if let Some(text) = status.text() {
        let _ = rt.eprintln(text);
    }
    ExitCode::from(status.number())
}
