//! Commands, and how words are read as one.

ghost use Rattle.std.specs.List.{list_all};
ghost use Rattle.std.specs.Option.{option_copied};
ghost use Rattle.std.specs.Prelude.{◌≡◌, ◌+◌, ◌<◌, ◌^◌, [], drop, map, slice_get, Some};
ghost use Rattle.std.specs.String.{string_bytes};
ghost use Rattle.ftn_tool.specs.Commands.{edition_of};
ghost use Rattle.ftn_tool.specs.Words as spec;
ghost use Rattle.ftn_tool.specs.steps.Reading as reading;
ghost use Rattle.ftn_tool.specs.steps.Reading.{Finds};
ghost use Rattle.ftn_base.specs.Letters as letters;
ghost use Rattle.free_scan.specs.Spelling.{number_of};
ghost use Rattle.ftn_tool.specs.declared.command.WordsFault.TheVariants.{NoMemory as no_memory};

use ftn_base::{Bytes, Edition, FileName, NameFault, is_digit};
use rename_ref::Rename;
use std::alloc::{AllocError, Global};

/// An order to refactor, with its arguments.
#[derive(Drop)]
pub enum Order {
    /// `rename FILE LINE COLUMN NEW`
    Rename(Rename),
}

/// What is asked of a project, which stays as it is.
#[derive(Clone, Copy)]
pub enum Request {
    /// `check`: its first fault, or how many files and program units it has.
    Check,
}

/// A command over the files of a project, and the edition that they are read by.
#[derive(Drop)]
pub enum ProjectCommand {
    /// `check`
    Ask(Request, Edition),
    /// `apply ORDER ..`
    Apply(Order, Edition),
}

/// What a command line asks for.
#[derive(Drop)]
pub enum Command {
    /// A command over the files of a project.
    Project(ProjectCommand),
    /// `recover`: completes a change that was stopped.
    Recover,
}

impl ProjectCommand {
    /// The edition that the files of the project are read by.
    pub fn edition(&self) -> Edition
        ensures { result ≡ edition_of self.now }
    {
        match self {
            ProjectCommand::Ask(_, edition) | ProjectCommand::Apply(_, edition) => *edition,
        }
    }
}

/// Why words are no command.
#[derive(Clone, Copy)]
pub enum WordsFault {
    /// The position of the first word that is bad or missing, from 1: the least number such that no command
    /// begins with so many of the words, or the number of words plus 1.
    Bad(u32),
    /// An allocation was refused.
    NoMemory,
}

impl From<AllocError> for WordsFault {
    ghost from_gives = { λ _ fault. fault ≡ no_memory };

    fn from(_error: AllocError) -> WordsFault {
        WordsFault::NoMemory
    }
}

impl From<ftn_base::NoMemory> for WordsFault {
    ghost from_gives = { λ _ fault. fault ≡ no_memory };

    fn from(_error: ftn_base::NoMemory) -> WordsFault {
        WordsFault::NoMemory
    }
}

/// The command that the words mean, the program's name left out. `--edition=2003` may stand anywhere after the first word, once,
/// but not after `recover`.
pub fn read_words(alloc: Global, words: &[String]) -> Result<Command, WordsFault>
    ensures { Finds (λ command. command) result (spec.command_of (map string_bytes words.now)) }
{
    let option = option_at(words);
    match read(alloc, words, option) {
        Ok(command) => Ok(command),
        Err(WordsFault::Bad(position)) => Err(WordsFault::Bad(position_of(option, position))),
        Err(WordsFault::NoMemory) => Err(WordsFault::NoMemory),
    }
}

/// The place of the first word after the first one that names an edition, counted from 0.
fn option_at(words: &[String]) -> Option<usize>
    ensures { result ≡ reading.option_at (map string_bytes words.now) }
{
    match bytes_at(words, 0) {
        Some(first) => option_after(first, words),
        None => None,
    }
}

/// The same where the first word is this one.
fn option_after(first: &[u8], words: &[String]) -> Option<usize>
    ensures { result ≡ reading.edition_from (spec.names_edition first.now) 1 (drop 1 (map string_bytes words.now)) }
{
    let mut at = 1;
    'words: while at < words.len() {
        if names_edition(first, words[at].as_bytes()) {
            return Some(at);
        }
        at += 1;
    }
    None
}

/// Whether a word after that first one names an edition.
fn names_edition(first: &[u8], word: &[u8]) -> bool
    ensures { result ≡ spec.names_edition first.now word.now }
{
    !is_text(b"recover", first) && is_edition(word)
}

fn is_edition(word: &[u8]) -> bool
    ensures { result ≡ spec.is_edition word.now }
{
    is_text(b"--edition=2003", word)
}

fn edition_by(option: Option<usize>) -> Edition
    ensures { result ≡ reading.edition_by option }
{
    match option {
        None => Edition::F90,
        Some(_) => Edition::F2003,
    }
}

/// The position of a word, from 1, that has this position where the option is left out.
fn position_of(option: Option<usize>, position: u32) -> u32
    requires { position + 1 < 2 ^ 32 }
    ensures { result ≡ reading.position_of option position }
{
    match option {
        None => position,
        Some(at) => {
            if position as usize <= at {
                position
            } else {
                position + 1
            }
        }
    }
}

/// The command that these words mean without the option.
fn read(alloc: Global, words: &[String], option: Option<usize>) -> Result<Command, WordsFault>
    ensures { Finds (λ command. command) result (reading.read (reading.edition_by option) (reading.plain option (map string_bytes words.now))) }
{
    if is_word(words, option, b"check") {
        end_at(words, option, 1)?;
        let edition = edition_by(option);
        return Ok(Command::Project(ProjectCommand::Ask(Request::Check, edition)));
    }
    if is_word(words, option, b"recover") {
        end_at(words, option, 1)?;
        return Ok(Command::Recover);
    }
    read_apply(alloc, words, option)
}

/// The order that these words mean without the option.
fn read_apply(alloc: Global, words: &[String], option: Option<usize>) -> Result<Command, WordsFault>
    ensures { Finds (λ command. command) result (reading.read_apply (reading.edition_by option) (reading.plain option (map string_bytes words.now))) }
{
    text_at(words, option, 0, b"apply")?;
    text_at(words, option, 1, b"rename")?;
    let file = file_at(alloc, words, option, 2)?;
    let line = count_at(words, option, 3)?;
    let column = count_at(words, option, 4)?;
    let new = plain_at(alloc, words, option, 5)?;
    end_at(words, option, 6)?;
    let order = Rename {
        file,
        line,
        column,
        new,
    };
    let edition = edition_by(option);
    Ok(Command::Project(ProjectCommand::Apply(Order::Rename(order), edition)))
}

/// Whether the first word is this one.
fn is_word(words: &[String], option: Option<usize>, text: &[u8]) -> bool
    ensures { result ≡ reading.is_word text.now (slice_get (reading.plain option (map string_bytes words.now)) 0) }
{
    match word_at(words, option, 0) {
        Some(word) => is_text(text, word),
        None => false,
    }
}

/// The place of a word, counted from 0, that has this place where the option is left out.
fn place_of(option: Option<usize>, at: u32) -> usize
    requires { at + 1 < 2 ^ 32 }
    ensures { result ≡ reading.place_of option at }
{
    match option {
        None => at as usize,
        Some(place) => {
            if (at as usize) < place {
                at as usize
            } else {
                at as usize + 1
            }
        }
    }
}

/// The word at that place, counted from 0, where the option is left out.
fn word_at(words: &[String], option: Option<usize>, at: u32) -> Option<&[u8]>
    requires { at + 1 < 2 ^ 32 }
    ensures { option_copied result ≡ slice_get (reading.plain option (map string_bytes words.now)) at }
{
    bytes_at(words, place_of(option, at))
}

/// The word at that place among all words.
fn bytes_at(words: &[String], at: usize) -> Option<&[u8]>
    ensures { option_copied result ≡ slice_get (map string_bytes words.now) at }
{
    match words.get(at) {
        Some(word) => Some(word.as_bytes()),
        None => None,
    }
}

fn is_text(text: &[u8], word: &[u8]) -> bool
    ensures { result ≡ spec.is_text text.now word.now }
{
    word == text
}

fn is_option(word: &[u8]) -> bool
    ensures { result ≡ spec.is_option word.now }
{
    match word {
        [] => false,
        [first, ..] => *first == b'-',
    }
}

fn text_at<'a>(
    words: &'a [String],
    option: Option<usize>,
    at: u32,
    text: &[u8],
) -> Result<&'a [u8], WordsFault>
    requires { at + 1 < 2 ^ 32 }
    ensures { Finds (λ word. word.now) result (reading.word_at (spec.is_text text.now) (reading.plain option (map string_bytes words.now)) at) }
{
    match word_at(words, option, at) {
        Some(word) => {
            if is_text(text, word) {
                Ok(word)
            } else {
                Err(WordsFault::Bad(at + 1))
            }
        }
        None => Err(WordsFault::Bad(at + 1)),
    }
}

fn file_of(alloc: Global, word: &[u8], at: u32) -> Result<FileName, WordsFault>
    requires { at + 1 < 2 ^ 32 }
    ensures { Finds (λ name. name) result (reading.tested spec.is_file_word at (Some word.now)) }
{
    if is_option(word) {
        return Err(WordsFault::Bad(at + 1));
    }
    match FileName::new(alloc, word) {
        Ok(name) => Ok(name),
        Err(NameFault::NotAName) => Err(WordsFault::Bad(at + 1)),
        Err(NameFault::NoMemory) => Err(WordsFault::NoMemory),
    }
}

fn file_at(
    alloc: Global,
    words: &[String],
    option: Option<usize>,
    at: u32,
) -> Result<FileName, WordsFault>
    requires { at + 1 < 2 ^ 32 }
    ensures { Finds (λ name. name) result (reading.word_at spec.is_file_word (reading.plain option (map string_bytes words.now)) at) }
{
    match word_at(words, option, at) {
        Some(word) => file_of(alloc, word, at),
        None => Err(WordsFault::Bad(at + 1)),
    }
}

fn are_digits(word: &[u8]) -> bool
    ensures { result ≡ list_all letters.is_digit word.now }
{
    word.iter().all(|byte| is_digit(*byte))
}

fn is_numeral(word: &[u8]) -> bool
    ensures { result ≡ spec.is_numeral word.now }
{
    match word {
        [] => false,
        [first, ..] => *first != b'0' && are_digits(word),
    }
}

/// The value of a row of digits, where it is below 2^32.
fn number_below(digits: &[u8]) -> Option<u32>
    ensures { result ≡ reading.below (number_of digits.now) }
{
    let mut number: u64 = 0;
    for digit in digits {
        number = 10 * number + u64::from(digit.saturating_sub(b'0'));
        if number >= 1 << 32 {
            return None;
        }
    }
    Some(number as u32)
}

fn count_of(word: &[u8], at: u32) -> Result<u32, WordsFault>
    requires { at + 1 < 2 ^ 32 }
    ensures { Finds (λ count. count) result (reading.counted at (Some word.now)) }
{
    if !is_numeral(word) {
        return Err(WordsFault::Bad(at + 1));
    }
    match number_below(word) {
        Some(number) => Ok(number),
        None => Err(WordsFault::Bad(at + 1)),
    }
}

fn count_at(words: &[String], option: Option<usize>, at: u32) -> Result<u32, WordsFault>
    requires { at + 1 < 2 ^ 32 }
    ensures { Finds (λ count. count) result (reading.count_at (reading.plain option (map string_bytes words.now)) at) }
{
    match word_at(words, option, at) {
        Some(word) => count_of(word, at),
        None => Err(WordsFault::Bad(at + 1)),
    }
}

fn plain_of(alloc: Global, word: &[u8], at: u32) -> Result<Bytes, WordsFault>
    requires { at + 1 < 2 ^ 32 }
    ensures { Finds (λ text. text) result (reading.tested spec.is_plain_word at (Some word.now)) }
{
    if is_option(word) {
        return Err(WordsFault::Bad(at + 1));
    }
    Ok(Bytes::from_slice(alloc, word)?)
}

fn plain_at(
    alloc: Global,
    words: &[String],
    option: Option<usize>,
    at: u32,
) -> Result<Bytes, WordsFault>
    requires { at + 1 < 2 ^ 32 }
    ensures { Finds (λ text. text) result (reading.word_at spec.is_plain_word (reading.plain option (map string_bytes words.now)) at) }
{
    match word_at(words, option, at) {
        Some(word) => plain_of(alloc, word, at),
        None => Err(WordsFault::Bad(at + 1)),
    }
}

fn end_at(words: &[String], option: Option<usize>, at: u32) -> Result<(), WordsFault>
    requires { at + 1 < 2 ^ 32 }
    ensures { Finds (λ _. []) result (reading.ended at (slice_get (reading.plain option (map string_bytes words.now)) at)) }
{
    match word_at(words, option, at) {
        Some(_) => Err(WordsFault::Bad(at + 1)),
        None => Ok(()),
    }
}
