//! Faults of the shapes of names, and constants without a value (Fortran 90, 5.1.1.5, 5.1.2.4, 5.2.10; that a variable other than a dummy
//! argument has a unit is this project's own).

ghost use Rattle.std.specs.Prelude.{◌≡◌, ◌<◌, ◌&&◌, ◌||◌, not, [], length, OnOk, IfOk};
ghost use Rattle.std.specs.List.{cons_option, flat_map, list_any};
ghost use Rattle.ftn_tree.specs.Circles as circles;
ghost use Rattle.ftn_tree.specs.DeclaredEntities as declared;
ghost use Rattle.ftn_tree.specs.Shapes as spec;
ghost use Rattle.ftn_tree.specs.Trees.{tree_of};
ghost use Rattle.const_expr.specs.Seen.{told_in};
ghost use Rattle.const_value.specs.steps.Findings.{gathered};
ghost use Rattle.const_value.specs.steps.Measuring.{given};
ghost use Rattle.const_value.specs.steps.Shaping as steps;
ghost use Rattle.const_value.specs.steps.Told.{first_seen};
ghost use Rattle.const_value.specs.steps.Written.{written_seen};

use crate::faults::Faults;
use crate::lengths::{WrittenLength, written_length};
use crate::measured::Measured;
use crate::name_numbers::Owned;
use crate::project::{Project, Sort};
use crate::telling::{both, either, told_of};
use crate::view::View;
use crate::written::Written;
use const_expr::{Naming, Told};
use ftn_base::{FaultKind, Length, NoMemory, Ty};
use ftn_tree::{BoundPair, Entity, EntityKind, Expr};
use std::alloc::Global;

/// The name of which an expression consists.
fn plain_name(bound: &Expr) -> Option<u32>
    ensures { result ≡ steps.plain_name (tree_of bound.now) }
{
    match bound {
        Expr::Refer { name, args, part } => {
            if args.is_none() && part.is_none() {
                Some(*name)
            } else {
                None
            }
        }
        _ => None,
    }
}

fn is_scalar_whole(project: &Project<'_>, name: usize) -> bool
    requires names { name < length project.now.names.items }
    requires written { name < length project.now.written.items }
    ensures { result ≡ steps.is_scalar_whole project.now name }
{
    project.rank_of(name) == 0 && matches!(project.sort_of(name), Some(Sort::Whole))
}

fn is_dummy_of(project: &Project<'_>, number: usize, entity: &Entity) -> bool
    ensures { result ≡ steps.is_dummy_of project.now number entity.now }
{
    match entity.kind {
        EntityKind::Dummy => match project.name_of(number) {
            Some(name) => {
                if name < project.names.len() && name < project.written.len() {
                    is_scalar_whole(project, name)
                } else {
                    false
                }
            }
            None => false,
        },
        _ => false,
    }
}

/// A scalar integer dummy argument stands at the token.
fn is_dummy_at(view: &View<'_>, token: u32) -> bool
    ensures { result ≡ steps.is_dummy_at view.now.project.now view.now.file token }
{
    match view.project.entity_at(view.file, token) {
        Some(number) => match view.project.entity(number as usize) {
            Some(entity) => is_dummy_of(view.project, number as usize, entity),
            None => false,
        },
        None => false,
    }
}

/// A scalar integer dummy argument, which may be a bound of a dummy array (5.1.2.4).
fn is_dummy_bound(view: &View<'_>, bound: &Expr) -> bool
    ensures { result ≡ steps.is_dummy_bound view.now.project.now view.now.file bound.now }
{
    match plain_name(bound) {
        Some(name) => is_dummy_at(view, name),
        None => false,
    }
}

/// Adds what is told of a bound.
fn note_bound(view: &View<'_>, of_dummy: bool, bound: &Expr, told: &Told, faults: &mut Faults)
    ensures { told.now ≡ told_in (given view.now bound.now) → first_seen faults.new ≡ gathered (first_seen faults.old) (steps.bound_told view.now.project.now view.now.file (given view.now) of_dummy bound.now) }
{
    if of_dummy {
        if !is_dummy_bound(view, bound) {
            faults.note_told(view.file, told);
        }
    } else {
        faults.note_breach(view.file, told);
    }
}

/// The same, and says whether names are in it that have no place in a constant expression.
fn bound_faults(
    alloc: Global,
    view: &View<'_>,
    of_dummy: bool,
    bound: &Expr,
    faults: &mut Faults,
) -> Result<bool, NoMemory>
    ensures told { OnOk result (first_seen faults.new ≡ gathered (first_seen faults.old) (steps.bound_told view.now.project.now view.now.file (given view.now) of_dummy bound.now)) }
    ensures loose { IfOk result (λ loose. loose ≡ steps.is_loose_bound (given view.now) bound.now) }
{
    let told = told_of(alloc, view, bound)?;
    note_bound(view, of_dummy, bound, &told, faults);
    Ok(told.stray.is_some())
}

/// The same of a bound that may be written or not.
fn faults_if_written(
    alloc: Global,
    view: &View<'_>,
    of_dummy: bool,
    bound: &Option<Expr>,
    faults: &mut Faults,
) -> Result<bool, NoMemory>
    ensures told { OnOk result (first_seen faults.new ≡ gathered (first_seen faults.old) (flat_map (steps.bound_told view.now.project.now view.now.file (given view.now) of_dummy) (cons_option bound.now []))) }
    ensures loose { IfOk result (λ loose. loose ≡ list_any (steps.is_loose_bound (given view.now)) (cons_option bound.now [])) }
{
    match bound {
        Some(bound) => bound_faults(alloc, view, of_dummy, bound, faults),
        None => Ok(false),
    }
}

/// The same of the bounds of a dimension.
fn pair_faults(
    alloc: Global,
    view: &View<'_>,
    of_dummy: bool,
    pair: &BoundPair,
    faults: &mut Faults,
) -> Result<bool, NoMemory>
    ensures told { OnOk result (first_seen faults.new ≡ gathered (first_seen faults.old) (steps.pair_told view.now.project.now view.now.file (given view.now) of_dummy pair.now)) }
    ensures loose { IfOk result (λ loose. loose ≡ steps.is_loose (given view.now) pair.now) }
{
    let low = faults_if_written(alloc, view, of_dummy, &pair.low, faults)?;
    let high = faults_if_written(alloc, view, of_dummy, &pair.high, faults)?;
    Ok(either(pair.high.is_none(), either(low, high)))
}

/// Adds what is told of all bounds, and says whether one of them isn't constant.
fn bounds_faults(
    alloc: Global,
    view: &View<'_>,
    of_dummy: bool,
    pairs: &[BoundPair],
    faults: &mut Faults,
) -> Result<bool, NoMemory>
    ensures told { OnOk result (first_seen faults.new ≡ gathered (first_seen faults.old) (flat_map (steps.bound_told view.now.project.now view.now.file (given view.now) of_dummy) (flat_map circles.expressions_of pairs.now))) }
    ensures loose { IfOk result (λ loose. loose ≡ list_any (steps.is_loose (given view.now)) pairs.now) }
{
    let mut loose = false;
    for pair in pairs {
        let one = pair_faults(alloc, view, of_dummy, pair, faults)?;
        loose = either(loose, one);
    }
    Ok(loose)
}

/// Whether it is a variable, a constant, a dummy argument or a result.
fn has_type(kind: EntityKind) -> bool
    ensures { result ≡ declared.has_type kind }
{
    matches!(
        kind,
        EntityKind::Variable | EntityKind::Constant | EntityKind::Dummy | EntityKind::Answer
    )
}

fn has_type_some(kind: Option<EntityKind>) -> bool
    ensures { result ≡ steps.has_type_some kind }
{
    match kind {
        Some(kind) => has_type(kind),
        None => false,
    }
}

fn has_star(written: &Written<'_>) -> bool
    ensures { result ≡ steps.has_star (written_seen written.now) }
{
    match &written.typing {
        Some(typing) => matches!(written_length(typing), WrittenLength::Star),
        None => false,
    }
}

fn is_none_long(ty: Option<Ty>) -> bool
    ensures { result ≡ spec.is_none_long ty }
{
    match ty {
        Some(Ty::Character(Length::Fixed(length))) => length == 0,
        _ => false,
    }
}

fn is_dummy_some(kind: Option<EntityKind>) -> bool
    ensures { result ≡ steps.is_dummy_some kind }
{
    match kind {
        Some(kind) => matches!(kind, EntityKind::Dummy),
        None => false,
    }
}

fn is_constant_some(kind: Option<EntityKind>) -> bool
    ensures { result ≡ steps.is_constant_some kind }
{
    match kind {
        Some(kind) => matches!(kind, EntityKind::Constant),
        None => false,
    }
}

/// Bounds that aren't constant, no element, or no unit.
fn is_bad(loose: bool, measured: &Measured, of_constant: bool) -> bool
    ensures { result ≡ ((loose || measured.now.empty) || (not of_constant && spec.is_none_long measured.now.ty)) }
{
    let none_long = both(!of_constant, is_none_long(measured.ty));
    either(either(loose, measured.empty), none_long)
}

/// Adds the faults of the bounds and the units of a name that has a type.
fn datum_faults(
    alloc: Global,
    view: &View<'_>,
    written: &Written<'_>,
    measured: &Measured,
    kind: Option<EntityKind>,
    token: u32,
    faults: &mut Faults,
) -> Result<(), NoMemory>
    ensures { OnOk result (first_seen faults.new ≡ gathered (first_seen faults.old) (steps.datum_told view.now.project.now view.now.file (given view.now) (written_seen written.now) measured.now (steps.is_dummy_some kind) (steps.is_constant_some kind) token)) }
{
    let of_dummy = is_dummy_some(kind);
    let loose = bounds_faults(alloc, view, of_dummy, written.pairs(), faults)?;
    let bad = both(!of_dummy, is_bad(loose, measured, is_constant_some(kind)));
    faults.note_if(bad, FaultKind::BadShape, view.file, token);
    Ok(())
}

/// The same of a name that may have a type.
fn typed_faults(
    alloc: Global,
    view: &View<'_>,
    owned: &Owned,
    written: &Written<'_>,
    measured: &Measured,
    kind: Option<EntityKind>,
    faults: &mut Faults,
) -> Result<(), NoMemory>
    ensures { OnOk result (first_seen faults.new ≡ gathered (first_seen faults.old) (steps.typed_told view.now.project.now view.now.file (given view.now) owned.now (written_seen written.now) measured.now kind)) }
{
    if either(owned.said.answer, has_type_some(kind)) {
        let begins = owned.said.begins();
        datum_faults(alloc, view, written, measured, kind, begins, faults)?;
        Ok(())
    } else {
        Ok(())
    }
}

/// Adds the faults of the shape of a name, and that of a constant to which nothing gives a value, by what is written for it.
fn owned_faults(
    alloc: Global,
    view: &View<'_>,
    owned: &Owned,
    written: &Written<'_>,
    measured: &Measured,
    kind: Option<EntityKind>,
    faults: &mut Faults,
) -> Result<(), NoMemory>
    ensures { OnOk result (first_seen faults.new ≡ gathered (first_seen faults.old) (steps.owned_told view.now.project.now view.now.file (given view.now) owned.now (written_seen written.now) measured.now kind)) }
{
    typed_faults(alloc, view, owned, written, measured, kind, faults)?;
    let begins = owned.said.begins();
    let of_constant = is_constant_some(kind);
    let star = both(both(has_star(written), !is_dummy_some(kind)), !of_constant);
    faults.note_if(star, FaultKind::BadShape, view.file, begins);
    let valueless = both(of_constant, written.value.is_none());
    faults.note_if(valueless, FaultKind::NotConstant, view.file, begins);
    Ok(())
}

/// Adds the faults of the shape of a name, and that of a constant to which nothing gives a value.
pub(crate) fn name_faults(
    alloc: Global,
    project: &Project<'_>,
    known: &[Measured],
    namings: &[Naming],
    name: usize,
    faults: &mut Faults,
) -> Result<(), NoMemory>
    requires names { name < length project.now.names.items }
    requires written { name < length project.now.written.items }
    requires entities { name < length project.now.links.entity_of.items }
    requires known { name < length known.now }
    ensures { OnOk result (first_seen faults.new ≡ gathered (first_seen faults.old) (steps.name_told project.now known.now namings.now name)) }
{
    let owned = &project.names[name];
    let written = &project.written[name];
    let measured = &known[name];
    let view = View::of(project, known, namings, owned.file);
    let kind = project.kind_of(name);
    owned_faults(alloc, &view, owned, written, measured, kind, faults)?;
    Ok(())
}
