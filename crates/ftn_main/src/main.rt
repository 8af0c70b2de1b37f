//! `ftn_tool`: refactorings of projects of Fortran 90 files, each with a proof that every result stays.
//!
//! The program hands its words and the devices of the system to `ftn_tool::tool`, prints what `--help` and `--version` want and, on
//! standard error, hints and the store's own messages; its exit code is the status. Nothing is said of it beyond `tool`'s clauses.
#![tactic(auto)]

mod arguments;
mod help;

use crate::arguments::words_of;
use crate::help::{HELP, HINT, VERSION, asks_for_help, asks_for_version};
use ftn_base::Status;
use ftn_tool::tool;
use std::io;
use std::process::ExitCode;
use store_io::{DirStore, Failure, StdSink, StdSource};

/// Prints a text of the program's own.
fn show(rt: &HostRuntime, text: &str) -> Status {
    match rt.print(text) {
        Ok(()) => Status::Done,
        Err(_) => Status::OutputFault,
    }
}

/// Tells on standard error why the store failed.
fn tell_failure(rt: &HostRuntime, failure: &Failure) {
    let _ = match failure.file() {
        Some(file) => eprintln!(rt; "ftn_tool: {file}: {}: {}", failure.step, failure.reason),
        None => eprintln!(rt; "ftn_tool: {}: {}", failure.step, failure.reason),
    };
}

/// Carries out the command over the current folder, standard input and standard output. Which names were left out of
/// the listing, and why the store failed, is told on standard error.
fn carry_out(rt: &HostRuntime, words: &[String]) -> Status {
    let mut store = DirStore::new(rt, rt.alloc());
    let mut input = StdSource::new(rt.reader());
    let mut out = StdSink::new(io::writer(rt));
    let status = tool(rt.alloc(), words, &mut store, &mut input, &mut out);
    for file in store.left_out() {
        let _ = eprintln!(rt; "ftn_tool: {}: left out: {}", file.name, file.reason);
    }
    if status == Status::StoreFault
        && let Some(failure) = store.failure()
    {
        tell_failure(rt, failure);
    }
    status
}

/// The hint goes to standard error, so that the output is the answer alone.
fn answer(rt: &HostRuntime, words: &[String]) -> Status {
    if asks_for_help(words) {
        return show(rt, HELP);
    }
    if asks_for_version(words) {
        return show(rt, VERSION);
    }
    let status = carry_out(rt, words);
    if status == Status::BadWords {
        let _ = rt.eprintln(HINT);
    }
    status
}

fn main(rt: HostRuntime) -> ExitCode {
    let status = match words_of(&rt) {
        Ok(words) => answer(&rt, &words),
        Err(_) => Status::NoMemory,
    };
    ExitCode::from(status.code())
}
