//! The implicit types that IMPLICIT statements give to letters (Fortran 90, 5.3).

ghost use Rattle.std.specs.Prelude.{◌≡◌, fold, map as map_of};
ghost use Rattle.std.specs.List.{flat_map};
ghost use Rattle.ftn_tree.specs.ScopeLetters as spec;
ghost use Rattle.decl_table.specs.steps.Following as steps;

use crate::forms::{form_at, name_at};
use ftn_base::{Length, Letter, Ty};
use ftn_tree::{
    CharLength, Expr, Extent, FileTree, Form, ImplicitType, LengthSelector, LengthValue,
    LetterGroup, LetterRange, TypeSpec,
};
use implicit_type::LetterMap;
use sqlite_items::Items;
use std::marker::Model;

/// A whole number that isn't negative, and 0 for all else.
fn count_of(number: i32) -> u32
    ensures { result ≡ spec.count_of number }
{
    if number < 0 { 0 } else { number as u32 }
}

fn whole_at(expr: &Expr) -> u32
    ensures { result ≡ steps.whole_of expr.now }
{
    match expr {
        Expr::Whole { value, .. } => count_of(*value),
        _ => 0,
    }
}

fn length_in(length: &LengthValue) -> u32
    ensures { result ≡ spec.length_in length.now }
{
    match length {
        LengthValue::Assumed => 0,
        LengthValue::Given(expr) => whole_at(expr),
    }
}

fn star_length(length: &CharLength) -> u32
    ensures { result ≡ spec.star_length length.now }
{
    match length {
        CharLength::Whole { value, .. } => count_of(*value),
        CharLength::Paren(length) => length_in(length),
    }
}

fn selector_length(selector: &Option<LengthSelector>) -> u32
    ensures { result ≡ spec.selector_length selector.now }
{
    match selector {
        None => 1,
        Some(LengthSelector::Star(length)) => star_length(length),
        Some(LengthSelector::Paren { length, .. }) => length_in(length),
    }
}

fn known_type(written: &TypeSpec) -> Ty
    ensures { result ≡ spec.known_type written.now }
{
    match written {
        TypeSpec::Integer => Ty::Integer,
        TypeSpec::Logical => Ty::Logical,
        TypeSpec::Character(length) => Ty::Character(Length::Fixed(selector_length(length))),
    }
}

fn letter_type(written: &ImplicitType) -> Letter
    ensures { result ≡ spec.letter_type written.now }
{
    match written {
        ImplicitType::Real => Letter::Real,
        ImplicitType::Known(written) => Letter::Known(known_type(written)),
    }
}

/// A letter by its code in lower case.
fn code_at(files: &[FileTree], file: u32, token: u32) -> u8
    ensures { result ≡ spec.code_at files.now file token }
{
    match name_at(files, file, token).first() {
        Some(code) => *code,
        None => 0,
    }
}

/// The last letter of a range, or the only one.
fn last_of(range: &LetterRange) -> u32
    ensures { result ≡ steps.last_of range.now }
{
    match range.last {
        Some(last) => last,
        None => range.first,
    }
}

/// Letters from one to another by their codes, with their type and the first token of their range.
#[derive(Drop)]
pub(crate) struct Given {
    pub(crate) token: u32,
    pub(crate) from: u8,
    pub(crate) to: u8,
    pub(crate) letter: Letter,
}

impl Model for Given {
    ghost use Rattle.ftn_tree.specs.ScopeLetters.{Given};

    ghost Value = { Given };

    ghost view = { λ g. record { token = g.token; from = g.from; to = g.to; letter = g.letter } };
}

/// The letters that a range gives.
pub(crate) fn given_range(
    files: &[FileTree],
    file: u32,
    written: &ImplicitType,
    range: &LetterRange,
) -> Given
    ensures { result ≡ spec.given_range files.now file written.now range.now }
{
    Given {
        token: range.first,
        from: code_at(files, file, range.first),
        to: code_at(files, file, last_of(range)),
        letter: letter_type(written),
    }
}

/// The letters after a range.
fn after_range(
    files: &[FileTree],
    file: u32,
    written: &ImplicitType,
    range: &LetterRange,
    map: &LetterMap,
) -> LetterMap
    ensures { result ≡ spec.put_given map.now (spec.given_range files.now file written.now range.now) }
{
    put_given(map, &given_range(files, file, written, range))
}

/// The letters after those that are given.
pub(crate) fn put_given(map: &LetterMap, given: &Given) -> LetterMap
    ensures { result ≡ spec.put_given map.now given.now }
{
    map.given(given.from, given.to, given.letter)
}

/// The letters after all ranges of a group.
fn after_ranges(
    files: &[FileTree],
    file: u32,
    written: &ImplicitType,
    ranges: &[LetterRange],
    map: LetterMap,
) -> LetterMap
    ensures { result ≡ fold spec.put_given map (map_of (spec.given_range files.now file written.now) ranges.now) }
{
    let mut map = map;
    for range in ranges {
        map = after_range(files, file, written, range, &map);
    }
    map
}

/// The letters after a group.
fn after_group(files: &[FileTree], file: u32, group: &LetterGroup, map: LetterMap) -> LetterMap
    ensures { result ≡ fold spec.put_given map (spec.given_group files.now file group.now) }
{
    after_ranges(files, file, &group.ty, group.ranges.as_slice(), map)
}

/// The letters after all groups.
fn after_all(files: &[FileTree], file: u32, groups: &[LetterGroup], map: LetterMap) -> LetterMap
    ensures { result ≡ fold spec.put_given map (flat_map (spec.given_group files.now file) groups.now) }
{
    let mut map = map;
    for group in groups {
        map = after_group(files, file, group, map);
    }
    map
}

fn after_groups(
    files: &[FileTree],
    file: u32,
    groups: &Option<Items<LetterGroup>>,
    map: LetterMap,
) -> LetterMap
    ensures { result ≡ spec.after_groups files.now file groups.now map }
{
    match groups {
        Some(groups) => after_all(files, file, groups.as_slice(), map),
        None => LetterMap::none(),
    }
}

/// The letters after a statement.
fn after_statement(files: &[FileTree], file: u32, statement: u32, map: LetterMap) -> LetterMap
    ensures { result ≡ steps.letters_after files.now file map statement }
{
    match form_at(files, file, statement) {
        Some(Form::Implicit { groups }) => after_groups(files, file, groups, map),
        _ => map,
    }
}

/// Those that a scoping unit begins with.
fn before_own(body: bool, host: &LetterMap) -> LetterMap
    ensures { result ≡ spec.before_own body host.now }
{
    if body {
        LetterMap::standard()
    } else {
        host.inner()
    }
}

/// The letters of a scoping unit, from those of its host and by its own statements.
pub(crate) fn after_own(
    files: &[FileTree],
    unit: Extent,
    own: &[u32],
    body: bool,
    host: &LetterMap,
) -> LetterMap
    ensures { result ≡ fold (steps.letters_after files.now unit.file) (spec.before_own body host.now) own.now }
{
    let mut map = before_own(body, host);
    for statement in own {
        map = after_statement(files, unit.file, *statement, map);
    }
    map
}
