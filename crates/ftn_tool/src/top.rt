//! The top call: words in, a status out.

ghost use Rattle.std.specs.Prelude.{◌≡◌, ℕ, List, Option, map};
ghost use Rattle.ftn_base.specs.Files.{File};
ghost use Rattle.std.specs.String.{string_bytes};
ghost use Rattle.ftn_tool.specs.Answers.{Misreads, Promises};
ghost use Rattle.ftn_tool.specs.Seen.{see};
ghost use Rattle.ftn_tool.specs.Words.{command_of};

use crate::carry::say;
use crate::command::{Command, WordsFault, read_words};
use crate::lines::bad_word;
use crate::over_project::carry_out_over_project;
use crate::recovering::recover;
use ftn_base::Status;
use std::alloc::Global;
use store_io::{Sink, Source, Store};

/// Carries out the command that the words mean, over the files of the store, and writes its answer to the sink.
/// The words are those after the program's name. Only `apply` and `recover` change files. The status is the exit code.
pub fn tool<S: Store, I: Source, O: Sink>(
    alloc: Global,
    words: &[String],
    store: &mut S,
    input: &mut I,
    out: &mut O,
) -> Status
    // The command's own promises: `Answers`, for `recover` `Recovers`, or for words that are no command `Misreads`.
    ensures promises { Promises (command_of (map string_bytes words.now)) (see (S.files store.old) (S.files store.new) (O.taken out.old) (O.taken out.new) (S.faults store.old) (S.faults store.new) (O.faults out.old) (O.faults out.new) (O.wants out.old) (O.wants out.new)) result }
    // The source isn't read.
    ensures source { input.new ≡ input.old }
{
    let _input = input;
    let command = match read_words(alloc, words) {
        Ok(command) => command,
        Err(WordsFault::Bad(position)) => return misread(alloc, out, position),
        Err(WordsFault::NoMemory) => return Status::NoMemory,
    };
    match command {
        Command::Project(command) => carry_out_over_project(alloc, &command, store, out),
        Command::Recover => recover(alloc, store, out),
    }
}

/// Writes that the word at this position is bad or missing.
fn misread<O: Sink>(alloc: Global, out: &mut O, position: u32) -> Status
    ensures { (files : Option (List File)) (faults : ℕ) → Misreads position (see files files (O.taken out.old) (O.taken out.new) faults faults (O.faults out.old) (O.faults out.new) (O.wants out.old) (O.wants out.new)) result }
{
    match bad_word(alloc, position) {
        Ok(line) => say(out, &line, Status::BadWords),
        Err(_) => Status::NoMemory,
    }
}
