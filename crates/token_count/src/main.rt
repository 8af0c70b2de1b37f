//! `token_count`: the tokens, statements and lines of a Fortran text on standard input, or the first rule that it breaks.
//! It is there to measure the scanner. It promises nothing beyond what `free_scan::scan` does.
#![tactic(auto)]

use free_scan::{ScanFault, scan};
use ftn_base::{Edition, FaultKind, MOST_FILE_BYTES, NoMemory, Steps};
use std::io::Read;
use std::process::ExitCode;

/// What came of a text.
enum Answer {
    Counts(usize, usize, usize),
    Broken(FaultKind, u32),
    TooLong,
    NoMemory,
    NoInput,
}

/// Counts what a text has.
fn count(rt: &HostRuntime) -> Answer {
    let mut text = Vec::new(rt.alloc());
    if rt.reader().read_to_end(&mut text).is_err() {
        return Answer::NoInput;
    }
    if text.len() > MOST_FILE_BYTES as usize {
        return Answer::TooLong;
    }
    let mut steps = Steps::new(());
    match scan(rt.alloc(), &text, Edition::F90, &mut steps) {
        Ok(tokens) => Answer::Counts(
            tokens.items.len(),
            tokens.statements.len(),
            tokens.line_starts.len(),
        ),
        Err(ScanFault::At { kind, at }) => Answer::Broken(kind, at),
        Err(ScanFault::NoMemory) => Answer::NoMemory,
    }
}

fn main(rt: HostRuntime) -> ExitCode {
    let told = match count(&rt) {
        Answer::Counts(tokens, statements, lines) => {
            println!(&rt; "{tokens} tokens, {statements} statements, {lines} lines")
        }
        Answer::Broken(kind, at) => println!(&rt; "{} at {at}", kind.name()),
        Answer::TooLong => println!(&rt; "too long"),
        Answer::NoMemory => println!(&rt; "no memory"),
        Answer::NoInput => println!(&rt; "no input"),
    };
    if told.is_ok() {
        ExitCode::SUCCESS
    } else {
        ExitCode::FAILURE
    }
}
