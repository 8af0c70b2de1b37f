//! What is known of the names of a project: of constants each after those to which it refers, then of all others.

ghost use Rattle.std.specs.Prelude.{◌≡◌, ◌<◌, All, length, map, slice_set, IfOk, OnOk};
ghost use Rattle.std.specs.Option.{option_copied, option_map_or, option_and_then};
ghost use Rattle.ftn_tree.specs.Intrinsics as intrinsics;
ghost use Rattle.const_value.specs.steps.Knowing as steps;
ghost use Rattle.const_value.specs.steps.Projects.{rank_of};
ghost use Rattle.const_value.specs.steps.References.{IsSized, IsWhole};

use crate::circles::{Circles, is_constant};
use crate::measured::Measured;
use crate::measuring::measure;
use crate::project::Project;
use crate::view::View;
use const_expr::{Naming, function_named};
use ftn_base::{Bounds, Name, NoMemory};
use ftn_tree::{Entity, EntityKind, Value};
use std::alloc::Global;

/// What is known of the names of a project: by the numbers of names, and of entities what they are in constant expressions.
#[derive(Drop)]
pub(crate) struct Knowledge {
    pub known: Vec<Measured>,
    pub namings: Vec<Naming>,
}

// ---- before anything is known

fn function_naming(name: &Option<Name>) -> Naming
    ensures { result ≡ steps.function_naming (option_and_then intrinsics.function_named name.now) }
{
    match name {
        Some(name) => match function_named(name.bytes()) {
            Some(function) => Naming::Function(function),
            None => Naming::Stray,
        },
        None => Naming::Stray,
    }
}

fn rank_by(project: &Project<'_>, name: Option<usize>) -> usize
    ensures { result ≡ option_map_or (rank_of project.now.written.items) name 0 }
{
    match name {
        Some(name) => match project.written.get(name) {
            Some(written) => written.pairs().len(),
            None => 0,
        },
        None => 0,
    }
}

/// What an entity is in a constant expression, before constants are known.
fn naming_before(project: &Project<'_>, number: usize, entity: &Entity) -> Naming
    ensures { result ≡ steps.naming_before project.now number entity.now }
{
    match entity.kind {
        EntityKind::Intrinsic => function_naming(&entity.name),
        EntityKind::Constant => Naming::Constant {
            value: None,
            rank: rank_by(project, project.name_of(number)),
            bounds: None,
        },
        _ => Naming::Stray,
    }
}

/// The same, by the number of the entity.
fn naming_at(project: &Project<'_>, number: usize) -> Naming
    ensures { result ≡ steps.naming_at project.now number }
{
    match project.entity(number) {
        Some(entity) => naming_before(project, number, entity),
        None => Naming::Stray,
    }
}

// ---- a constant that is known

fn copied_value(alloc: Global, value: &Option<Value>) -> Result<Option<Value>, NoMemory>
    ensures { IfOk result (λ made. made ≡ value.now) }
{
    match value {
        Some(value) => Ok(Some(value.copy(alloc)?)),
        None => Ok(None),
    }
}

fn copied_bounds(alloc: Global, bounds: Option<&Bounds>) -> Result<Option<Bounds>, NoMemory>
    ensures { IfOk result (λ made. made ≡ option_copied bounds.entry) }
{
    match bounds {
        Some(bounds) => Ok(Some(bounds.copy(alloc)?)),
        None => Ok(None),
    }
}

fn naming_for(
    alloc: Global,
    project: &Project<'_>,
    name: usize,
    known: &Measured,
) -> Result<Naming, NoMemory>
    requires { name < length project.now.written.items }
    ensures { IfOk result (λ made. made ≡ steps.naming_for project.now name known.now) }
{
    let value = copied_value(alloc, &known.value)?;
    let bounds = copied_bounds(alloc, known.known_bounds())?;
    Ok(Naming::Constant {
        value,
        rank: project.rank_of(name),
        bounds,
    })
}

fn put(namings: &mut Vec<Naming>, at: usize, naming: Naming)
    ensures { namings.new.items ≡ slice_set namings.old.items at naming }
{
    if at < namings.len() {
        namings[at] = naming;
    }
}

impl Knowledge {
    /// Nothing is known.
    fn nothing(alloc: Global, project: &Project<'_>) -> Result<Knowledge, NoMemory>
        ensures { IfOk result (λ all. steps.seen all ≡ steps.nothing project.now) }
    {
        let mut known = Vec::new(alloc);
        for _name in 0..project.names.len() {
            known.push(Measured::unknown())?;
        }
        let mut namings = Vec::new(alloc);
        for number in 0..project.bound.tables.entities.len() {
            namings.push(naming_at(project, number))?;
        }
        Ok(Knowledge { known, namings })
    }

    /// Measures a name, by what is known so far.
    fn measure(
        &mut self,
        alloc: Global,
        project: &Project<'_>,
        name: usize,
        valued: bool,
    ) -> Result<(), NoMemory>
        requires sized { IsSized project.now }
        requires name { name < length project.now.names.items }
        requires known { name < length self.old.known.items }
        ensures { OnOk result (steps.seen self.new ≡ steps.measure project.now (steps.seen self.old) name valued) }
    {
        let made = measured_at(alloc, project, &self.known, &self.namings, name, valued)?;
        self.known[name] = made;
        Ok(())
    }

    /// Lets expressions know of a constant.
    fn publish(&mut self, alloc: Global, project: &Project<'_>, name: usize) -> Result<(), NoMemory>
        requires sized { IsSized project.now }
        requires name { name < length project.now.names.items }
        requires known { name < length self.old.known.items }
        ensures { OnOk result (steps.seen self.new ≡ steps.publish project.now (steps.seen self.old) name) }
    {
        if let Some(entity) = project.links.entity_of[name] {
            let naming = naming_for(alloc, project, name, &self.known[name])?;
            put(&mut self.namings, entity, naming);
        }
        Ok(())
    }

    /// Measures a name where it is a constant that isn't defined by itself.
    fn measure_constant(
        &mut self,
        alloc: Global,
        project: &Project<'_>,
        circles: &Circles,
        name: usize,
    ) -> Result<(), NoMemory>
        requires sized { IsSized project.now }
        requires whole { IsWhole circles.now }
        requires uses { length circles.now.uses.items ≡ length project.now.names.items }
        requires name { name < length project.now.names.items }
        requires known { length self.old.known.items ≡ length project.now.names.items }
        ensures { OnOk result (steps.seen self.new ≡ steps.measure_constant project.now circles.now (steps.seen self.old) name) }
    {
        if is_valued(project, circles, name) {
            self.measure(alloc, project, name, true)?;
            self.publish(alloc, project, name)?;
        }
        Ok(())
    }

    /// Measures a name where it is none.
    fn measure_other(
        &mut self,
        alloc: Global,
        project: &Project<'_>,
        circles: &Circles,
        name: usize,
    ) -> Result<(), NoMemory>
        requires sized { IsSized project.now }
        requires whole { IsWhole circles.now }
        requires uses { length circles.now.uses.items ≡ length project.now.names.items }
        requires name { name < length project.now.names.items }
        requires known { length self.old.known.items ≡ length project.now.names.items }
        ensures { OnOk result (steps.seen self.new ≡ steps.measure_other project.now circles.now (steps.seen self.old) name) }
    {
        if !is_valued(project, circles, name) {
            self.measure(alloc, project, name, false)?;
        }
        Ok(())
    }
}

fn measured_at(
    alloc: Global,
    project: &Project<'_>,
    known: &[Measured],
    namings: &[Naming],
    name: usize,
    valued: bool,
) -> Result<Measured, NoMemory>
    requires sized { IsSized project.now }
    requires name { name < length project.now.names.items }
    ensures { IfOk result (λ made. made ≡ steps.measured_at project.now namings.now name valued) }
{
    let view = View::of(project, known, namings, project.names[name].file);
    let made = measure(alloc, &view, name, valued)?;
    Ok(made)
}

/// Whether the name is that of a constant that isn't defined by itself.
fn is_valued(project: &Project<'_>, circles: &Circles, name: usize) -> bool
    requires sized { IsSized project.now }
    requires whole { IsWhole circles.now }
    requires uses { length circles.now.uses.items ≡ length project.now.names.items }
    requires name { name < length project.now.names.items }
    ensures { result ≡ steps.is_valued project.now circles.now name }
{
    is_constant(project, name) && !circles.is_circular(name)
}

/// What is known of all names: of constants first, each after those to which it refers.
pub(crate) fn measure_all(
    alloc: Global,
    project: &Project<'_>,
    circles: &Circles,
) -> Result<Knowledge, NoMemory>
    requires sized { IsSized project.now }
    requires whole { IsWhole circles.now }
    requires uses { length circles.now.uses.items ≡ length project.now.names.items }
    requires order { All (λ name. name < length project.now.names.items) circles.now.order.items }
    ensures { IfOk result (λ all. steps.seen all ≡ steps.measure_all project.now circles.now) }
{
    let mut all = Knowledge::nothing(alloc, project)?;
    'constants: for name in &circles.order {
        all.measure_constant(alloc, project, circles, *name)?;
    }
    'others: for name in &circles.order {
        all.measure_other(alloc, project, circles, *name)?;
    }
    Ok(all)
}
