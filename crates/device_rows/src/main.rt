//! `device_rows`: takes each row of the folder's files `*.rows` through `tool`, over a store, a source and a sink in
//! memory that fail at chosen calls, runs each program of its files `*.runs` with every number of steps, and prints
//! where what came isn't what the row wants.
#![tactic(auto)]

mod comparing;
mod fault;
mod narrow_sink;
mod parts;
mod row;
mod running;
mod runs;

use crate::fault::RowFault;
use crate::parts::{Part, parts_of};
use crate::row::Row;
use crate::running::differences;
use crate::runs::Runs;
use ftn_base::FileName;
use std::alloc::Global;
use std::io;
use std::process::ExitCode;
use store_io::{DirStore, StdSink, Store, write_all};

/// How many bytes a file of rows may have.
const MOST: u32 = 4_194_304;

/// How many rows came out as they want, and how many didn't.
#[derive(Clone, Copy)]
struct Counts {
    passed: u64,
    failed: u64,
}

/// Counts a row, and prints how it differs.
fn finish(
    rt: &HostRuntime,
    counts: &mut Counts,
    file: &FileName,
    title: &str,
    told: &[u8],
) -> Result<(), RowFault> {
    if told.is_empty() {
        counts.passed = counts.passed.saturating_add(1);
        return Ok(());
    }
    counts.failed = counts.failed.saturating_add(1);
    let mut out = StdSink::new(io::writer(rt));
    let line = format!(in rt.alloc(); ": {title}\n")?;
    let _ = write_all(&mut out, file.bytes());
    let _ = write_all(&mut out, line.as_bytes());
    let _ = write_all(&mut out, told);
    Ok(())
}

/// Takes the row that begins with the part of that number.
fn take_row(
    rt: &HostRuntime,
    counts: &mut Counts,
    file: &FileName,
    parts: &[Part],
    at: usize,
) -> Result<(), RowFault> {
    let mut row = Row::of(rt.alloc(), parts, at)?;
    let told = differences(rt.alloc(), &mut row)?;
    finish(rt, counts, file, row.title.as_str(), &told)
}

/// Takes the program that begins with the part of that number.
fn take_program(
    rt: &HostRuntime,
    counts: &mut Counts,
    file: &FileName,
    parts: &[Part],
    at: usize,
) -> Result<(), RowFault> {
    let runs = Runs::of(rt.alloc(), parts, at)?;
    let told = runs.differences(rt.alloc())?;
    finish(rt, counts, file, runs.title.as_str(), &told)
}

/// Takes what begins with each part `row`, by the end of the file's name.
fn take_parts(
    rt: &HostRuntime,
    counts: &mut Counts,
    file: &FileName,
    parts: &[Part],
) -> Result<(), RowFault> {
    let are_programs = file.bytes().ends_with(b".runs");
    for (at, part) in parts.iter().enumerate() {
        if part.key != "row" {
            continue;
        }
        if are_programs {
            take_program(rt, counts, file, parts, at)?;
        } else {
            take_row(rt, counts, file, parts, at)?;
        }
    }
    Ok(())
}

/// Takes the rows of a file.
fn take_file(
    rt: &HostRuntime,
    counts: &mut Counts,
    name: &FileName,
    text: &[u8],
) -> Result<(), RowFault> {
    let parts = parts_of(rt.alloc(), text)?;
    take_parts(rt, counts, name, &parts)
}

/// Takes the rows of all files `*.rows` and `*.runs` of the folder.
fn take_folder(rt: &HostRuntime, counts: &mut Counts) -> Result<(), RowFault> {
    let alloc: Global = rt.alloc();
    let mut folder = DirStore::new(rt, alloc);
    for name in folder.list().map_err(|_| RowFault::NoFile)? {
        if name.bytes().ends_with(b".rows") || name.bytes().ends_with(b".runs") {
            let text = folder.read(&name, MOST).map_err(|_| RowFault::NoFile)?;
            take_file(rt, counts, &name, &text)?;
        }
    }
    Ok(())
}

fn main(rt: HostRuntime) -> ExitCode {
    let mut counts = Counts {
        passed: 0,
        failed: 0,
    };
    if let Err(fault) = take_folder(&rt, &mut counts) {
        counts.failed = counts.failed.saturating_add(1);
        let _ = println!(&rt; "rows were not taken to their end: {}", fault.text());
    }
    let told = println!(&rt; "{} passed, {} failed", counts.passed, counts.failed);
    if told.is_ok() && counts.failed == 0 {
        ExitCode::SUCCESS
    } else {
        ExitCode::FAILURE
    }
}
