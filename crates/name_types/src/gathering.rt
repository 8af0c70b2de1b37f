//! The names of a project as references see them.

ghost use Rattle.std.specs.Prelude.{◌≡◌, None, IfOk};
ghost use Rattle.ftn_tree.specs.EntityValues.{values_of};
ghost use Rattle.ftn_tree.specs.NameFaults.{name_fault};
ghost use Rattle.ftn_tree.specs.Projects.{AreTrees};
ghost use Rattle.const_value.specs.steps.Gathered.{IsGathered};
ghost use Rattle.decl_table.specs.steps.Located.{IsScoping};
ghost use Rattle.name_types.specs.steps.Gathered.{AreNames};

use crate::declared::Declared;
use crate::generics::Generics;
use crate::names::Names;
use crate::namings::namings_of;
use crate::signatures::signatures_of;
use const_value::project::Project;
use decl_table::said_lists::said_lists;
use decl_table::scoping::Scoping;
use ftn_base::NoMemory;
use ftn_tree::{FileTree, Mention, Values};
use std::alloc::Global;

/// The names of a project as references see them, for what is gathered and known of it.
pub fn names_of<'a>(
    alloc: Global,
    files: &'a [FileTree],
    project: &'a Project<'a>,
    values: &'a Values,
    scoping: &Scoping,
) -> Result<Names<'a>, NoMemory>
    requires trees { AreTrees files.now }
    requires gathered { IsGathered files.now project.now }
    requires values { values.now ≡ values_of files.now }
    requires scoping { IsScoping files.now scoping.now }
    requires names { name_fault files.now ≡ None }
    ensures { IfOk result (AreNames files.now) }
{
    let said: Vec<Vec<Mention>> = said_lists(alloc, files, scoping)?;
    let declared = Declared::of(alloc, files, project, scoping, &said)?;
    let generics = Generics::of(alloc, files, project, scoping)?;
    let namings = namings_of(alloc, files, scoping, &declared, &generics)?;
    let signatures = signatures_of(alloc, files, &declared, &scoping.units)?;
    Ok(Names {
        project,
        values,
        hosts: Vec::from_slice(alloc, &scoping.hosts)?,
        namings,
        signatures,
    })
}
