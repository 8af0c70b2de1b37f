//! Subscripts in EQUIVALENCE and DATA, and names after MODULE PROCEDURE (Fortran 90, 5.2.9, 5.5.1, 12.3.2.1).

ghost use Rattle.std.specs.Prelude.{◌≡◌, false};
ghost use Rattle.std.specs.Option.{option_map, option_map_or};
ghost use Rattle.ftn_tree.specs.TypeFaults.{is_procedure_sense};
ghost use Rattle.type_check.specs.steps.Kept.{told_seen};
ghost use Rattle.type_check.specs.steps.Noted.{first_seen};
ghost use Rattle.name_types.specs.steps.Senses.{sense_seen, rank_by};
ghost use Rattle.type_check.specs.steps.Stated as steps;

use crate::faults::Faults;
use crate::typed::{Told, told_where};
use ftn_base::FaultKind;
use ftn_tree::{Designator, Expr};
use name_types::kinds::Sense;
use name_types::names::Setting;
use sqlite_items::Items;

/// Whether there are subscripts, and another number of them than of dimensions.
fn is_other_count(setting: &Setting<'_>, token: u32, subscripts: &Option<Items<Expr>>) -> bool
    ensures { result ≡ option_map_or (steps.is_other_count (rank_by setting.now token)) subscripts.now false }
{
    match subscripts {
        Some(subscripts) => match setting.rank(token) {
            Some(rank) => subscripts.as_slice().len() != rank,
            None => false,
        },
        None => false,
    }
}

/// What is told of an element of an array: it has as many subscripts as the array has dimensions.
fn designator_told(setting: &Setting<'_>, designator: &Designator) -> Option<Told>
    ensures { option_map told_seen result ≡ steps.designator_told setting.now designator.now }
{
    told_where(
        is_other_count(setting, designator.name, &designator.subscripts),
        FaultKind::WrongCount,
        designator.name,
    )
}

/// Adds what is told of designators.
pub(crate) fn designators_faults(
    setting: &Setting<'_>,
    designators: &[Designator],
    faults: &mut Faults,
)
    ensures { first_seen faults.new ≡ steps.noted_each setting.now.file (steps.designator_told setting.now) (first_seen faults.old) designators.now }
{
    for designator in designators {
        let told = designator_told(setting, designator);
        faults.note_told(setting.file, told);
    }
}

/// Adds what is told of the sets of EQUIVALENCE.
pub(crate) fn sets_faults(setting: &Setting<'_>, sets: &[Items<Designator>], faults: &mut Faults)
    ensures { first_seen faults.new ≡ steps.noted_sets setting.now (first_seen faults.old) sets.now }
{
    for set in sets {
        designators_faults(setting, set.as_slice(), faults);
    }
}

fn is_procedure(sense: &Sense<'_>) -> bool
    ensures { result ≡ is_procedure_sense (sense_seen sense.now) }
{
    matches!(sense, Sense::Procedure(_))
}

/// What is told of a name after MODULE PROCEDURE: it is a procedure's.
fn specific_told(setting: &Setting<'_>, token: u32) -> Option<Told>
    ensures { option_map told_seen result ≡ steps.specific_told setting.now token }
{
    let wrong = !is_procedure(&setting.called(token));
    told_where(wrong, FaultKind::WrongType, token)
}

/// Adds what is told of the names after MODULE PROCEDURE.
pub(crate) fn specifics_faults(setting: &Setting<'_>, names: &[u32], faults: &mut Faults)
    ensures { first_seen faults.new ≡ steps.noted_each setting.now.file (steps.specific_told setting.now) (first_seen faults.old) names.now }
{
    for name in names {
        let told = specific_told(setting, *name);
        faults.note_told(setting.file, told);
    }
}
