//! The order in which a region holds statements (Fortran 90, 2.3.1).

ghost use Rattle.std.specs.Prelude.{◌≡◌, ◌≤◌, length, drop};
ghost use Rattle.ftn_tree.specs.Regions as regions;
ghost use Rattle.unit_parse.specs.steps.Following as spec;

use crate::words::belongs;
use ftn_tree::{Content, EndWord, Mark, Region, Section, Title};

const SCOPE: &[Section] = &[
    Section::Any(Content::Use),
    Section::Any(Content::Implicit),
    Section::Any(Content::Specification),
    Section::Any(Content::Executable),
    Section::Once(Content::Contains),
    Section::Any(Content::Procedure),
];

const MODULE: &[Section] = &[
    Section::Any(Content::Use),
    Section::Any(Content::Implicit),
    Section::Any(Content::Specification),
    Section::Once(Content::Contains),
    Section::Any(Content::Procedure),
];

const BLOCK_DATA: &[Section] = &[
    Section::Any(Content::Use),
    Section::Any(Content::Implicit),
    Section::Any(Content::Data),
];

const INTERNAL: &[Section] = &[
    Section::Any(Content::Use),
    Section::Any(Content::Implicit),
    Section::Any(Content::Specification),
    Section::Any(Content::Executable),
];

const BODY: &[Section] = &[
    Section::Any(Content::Implicit),
    Section::Any(Content::Characteristic),
];

const IF: &[Section] = &[
    Section::Any(Content::ElseIf),
    Section::Once(Content::Else),
    Section::Any(Content::Executable),
];

const SELECT: &[Section] = &[
    Section::First(Content::AnyCase),
    Section::Any(Content::Case),
    Section::Once(Content::Default),
    Section::Any(Content::Case),
];

/// The sections of a region in their order.
pub fn sections_in(region: Region) -> &'static [Section]
    ensures { result.now ≡ regions.sections_in region }
{
    match region {
        Region::File => &[Section::Any(Content::Unit)],
        Region::MainProgram | Region::ExternalProcedure | Region::ModuleProcedure => SCOPE,
        Region::Module => MODULE,
        Region::BlockData => BLOCK_DATA,
        Region::InternalProcedure => INTERNAL,
        Region::Interface => &[Section::Any(Content::Procedure)],
        Region::GenericInterface => &[Section::Any(Content::Specific)],
        Region::Body => BODY,
        Region::If => IF,
        Region::Do => &[Section::Any(Content::Executable)],
        Region::Select => SELECT,
    }
}

/// The region that a statement opens in another one.
pub fn opened(around: Region, what: Title) -> Region
    ensures { result ≡ regions.opened around what }
{
    match what.word {
        EndWord::Program => Region::MainProgram,
        EndWord::Module => Region::Module,
        EndWord::BlockData { .. } => Region::BlockData,
        EndWord::Subroutine | EndWord::Function => procedure_in(around),
        EndWord::Interface if what.name.is_some() => Region::GenericInterface,
        EndWord::Interface => Region::Interface,
        EndWord::If => Region::If,
        EndWord::Do => Region::Do,
        EndWord::Select => Region::Select,
    }
}

fn procedure_in(around: Region) -> Region
    ensures { result ≡ regions.procedure_in around }
{
    match around {
        Region::File => Region::ExternalProcedure,
        Region::Module => Region::ModuleProcedure,
        Region::Interface | Region::GenericInterface => Region::Body,
        _ => Region::InternalProcedure,
    }
}

/// Which section a statement stands in, the first `stage` sections being past; nothing where it can't stand. A section that holds one
/// statement is past with it.
pub fn follow(sections: &[Section], stage: usize, mark: Mark) -> Option<usize>
    ensures { result ≡ spec.follow (drop stage sections.now) stage mark }
{
    let mut at = stage;
    while at < sections.len() {
        match sections[at] {
            Section::Any(content) => {
                if belongs(content, mark) {
                    return Some(at);
                }
            }
            Section::Once(content) => {
                return belongs(content, mark).then_some(at + 1);
            }
            Section::First(content) => {
                if !belongs(content, mark) {
                    return None;
                }
            }
        }
        at += 1;
    }
    None
}
