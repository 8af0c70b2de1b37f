//! What marks say: which are of a kind, and which words and names are the same.

ghost use Rattle.std.specs.Prelude.{◌≡◌, ◌||◌};
ghost use Rattle.std.specs.Str.{bytes_eq};
ghost use Rattle.ftn_tree.specs.Marks as spec;
ghost use Rattle.ftn_tree.specs.Regions as regions;
ghost use Rattle.ftn_tree.specs.NestFaults as faults;

use ftn_tree::{Content, EndWord, Mark, Region, Title, Token, Tokens};

fn number(word: EndWord) -> u32
    ensures { result ≡ spec.word_number word }
{
    match word {
        EndWord::Program => 0,
        EndWord::Module => 1,
        EndWord::Subroutine => 2,
        EndWord::Function => 3,
        EndWord::Interface => 4,
        EndWord::If => 5,
        EndWord::Do => 6,
        EndWord::Select => 7,
        EndWord::BlockData { .. } => 8,
    }
}

pub fn same_word(one: EndWord, other: EndWord) -> bool
    ensures { result ≡ spec.same_word one other }
{
    number(one) == number(other)
}

/// Whether it is the word of IF, DO or SELECT CASE (8.1).
pub fn is_construct(word: EndWord) -> bool
    ensures { result ≡ spec.is_construct word }
{
    matches!(word, EndWord::If | EndWord::Do | EndWord::Select)
}

fn is_procedure(word: EndWord) -> bool
    ensures { result ≡ spec.is_procedure word }
{
    matches!(word, EndWord::Subroutine | EndWord::Function)
}

fn is_unit(word: EndWord) -> bool
    ensures { result ≡ spec.is_unit word }
{
    matches!(
        word,
        EndWord::Program | EndWord::Module | EndWord::BlockData { .. }
    ) || is_procedure(word)
}

/// Whether it opens a construct.
pub fn opens_construct(mark: Mark) -> bool
    ensures { result ≡ spec.opens_construct mark }
{
    match mark {
        Mark::Open(what) => is_construct(what.word),
        _ => false,
    }
}

fn opens_procedure(mark: Mark) -> bool
    ensures { result ≡ spec.opens_procedure mark }
{
    match mark {
        Mark::Open(what) => is_procedure(what.word),
        _ => false,
    }
}

fn opens_unit(mark: Mark) -> bool
    ensures { result ≡ spec.opens_unit mark }
{
    match mark {
        Mark::Open(what) => is_unit(what.word),
        _ => false,
    }
}

fn is_executable(mark: Mark) -> bool
    ensures { result ≡ spec.is_executable mark }
{
    matches!(mark, Mark::Action | Mark::Leave(_) | Mark::Return) || opens_construct(mark)
}

fn is_characteristic(mark: Mark) -> bool
    ensures { result ≡ spec.is_characteristic mark }
{
    matches!(mark, Mark::Declaration | Mark::Intent)
}

fn is_specification(mark: Mark) -> bool
    ensures { result ≡ spec.is_specification mark }
{
    match mark {
        Mark::Declaration | Mark::Intent | Mark::Data | Mark::Specification => true,
        Mark::Open(what) => same_word(what.word, EndWord::Interface),
        _ => false,
    }
}

/// Whether it begins an arm of a construct: ELSE IF, ELSE or CASE (8.1).
pub fn begins_arm(mark: Mark) -> bool
    ensures { result ≡ spec.begins_arm mark }
{
    matches!(mark, Mark::ElseIf | Mark::Else | Mark::Case | Mark::Default)
}

/// Whether it is IMPLICIT, a type declaration, DIMENSION or INTENT, which an interface body may hold.
pub fn describes_procedure(mark: Mark) -> bool
    ensures { result ≡ (spec.is_implicit mark || spec.is_characteristic mark) }
{
    matches!(mark, Mark::Implicit) || is_characteristic(mark)
}

/// Whether a statement is of that part of a region.
pub fn belongs(content: Content, mark: Mark) -> bool
    ensures { result ≡ spec.belongs content mark }
{
    match content {
        Content::Unit => opens_unit(mark),
        Content::Procedure => opens_procedure(mark),
        Content::Specific => matches!(mark, Mark::ModuleProcedure) || opens_procedure(mark),
        Content::Use => matches!(mark, Mark::Use),
        Content::Implicit => matches!(mark, Mark::Implicit),
        Content::Characteristic => is_characteristic(mark),
        Content::Data => matches!(mark, Mark::Declaration | Mark::Data),
        Content::Specification => is_specification(mark),
        Content::Executable => is_executable(mark),
        Content::Contains => matches!(mark, Mark::Contains),
        Content::ElseIf => is_executable(mark) || matches!(mark, Mark::ElseIf),
        Content::Else => matches!(mark, Mark::Else),
        Content::AnyCase => matches!(mark, Mark::Case | Mark::Default),
        Content::Case => is_executable(mark) || matches!(mark, Mark::Case),
        Content::Default => matches!(mark, Mark::Default),
    }
}

fn has_value(one: &Token, other: &Token) -> bool
    ensures { result ≡ bytes_eq one.now.value other.now.value }
{
    one.value.bytes() == other.value.bytes()
}

/// Whether two tokens are the same name.
pub fn same_name(tokens: &Tokens, one: u32, other: u32) -> bool
    ensures { result ≡ faults.same_name tokens.now one other }
{
    let Some(one) = tokens.items.get(one as usize) else {
        return false;
    };
    let Some(other) = tokens.items.get(other as usize) else {
        return false;
    };
    has_value(one, other)
}

/// Whether a name that may be left out is the name of an opening.
pub fn fits_name(tokens: &Tokens, name: Option<u32>, of: Option<u32>) -> bool
    ensures { result ≡ regions.fits_name (faults.same_name tokens.now) name of }
{
    match (name, of) {
        (None, _) => true,
        (Some(_), None) => false,
        (Some(name), Some(of)) => same_name(tokens, name, of),
    }
}

/// Whether a statement ends what was opened, which is that region.
pub fn ends(tokens: &Tokens, region: Region, what: Title, mark: Mark) -> bool
    ensures { result ≡ regions.ends (faults.same_name tokens.now) region what mark }
{
    match mark {
        Mark::PlainEnd => matches!(
            region,
            Region::MainProgram
                | Region::Module
                | Region::BlockData
                | Region::ExternalProcedure
                | Region::Body
        ),
        Mark::End(by) => { same_word(by.word, what.word) && fits_name(tokens, by.name, what.name) }
        _ => false,
    }
}
