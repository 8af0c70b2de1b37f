//! The specific procedures of generic names (Fortran 90, 12.3.2.1).

ghost use Rattle.std.specs.Prelude.{◌≡◌, ◌<◌, ◌++◌, length, map, nat_eq, slice_get, ℕ, List, None, Some, IfOk, OnOk};
ghost use Rattle.std.specs.List.{filter_map, flat_map};
ghost use Rattle.ftn_base.specs.Accessible.{once};
ghost use Rattle.ftn_tree.specs.declared.table.Extent.{Extent};
ghost use Rattle.ftn_tree.specs.Extents as spec;
ghost use Rattle.ftn_tree.specs.NameFaults.{name_fault};
ghost use Rattle.ftn_tree.specs.Procedures as procedures;
ghost use Rattle.ftn_tree.specs.Projects.{AreTrees};
ghost use Rattle.const_value.specs.steps.Gathered.{IsGathered};
ghost use Rattle.decl_table.specs.steps.Located.{IsScoping};
ghost use Rattle.name_types.specs.steps.Gathered.{extent_numbered, unit_in};
ghost use Rattle.name_types.specs.steps.Generics as steps;
ghost use Rattle.name_types.specs.steps.Index as indexes;

use crate::bodies::bodies_of;
use crate::extents::{Extents, extents_of};
use crate::index::{Candidate, Index, found_in, index};
use const_value::project::Project;
use decl_table::forms::{form_at, name_at};
use decl_table::own::own_statements;
use decl_table::rows::number_at;
use decl_table::sayings::push_statement;
use decl_table::scoping::Scoping;
use ftn_base::NoMemory;
use ftn_tree::{Entity, Extent, FileTree, Form, Mention, Role};
use indexmap::IndexSet;
use std::alloc::Global;

/// The interface blocks of a project, and what their bodies name.
#[derive(Drop)]
pub struct Generics<'a> {
    pub project: &'a Project<'a>,
    pub scoping: &'a Scoping,
    /// The program units, procedures, interface bodies and interface blocks.
    pub all: Vec<Extent>,
    /// The numbers of the interface blocks among them, by scoping units and generic names.
    pub blocks: Index<'a>,
    /// Of each of them the external procedures that have the names of what is right in it.
    pub bodies: Vec<Vec<u32>>,
}

/// The generic name that an interface block has.
fn generic_token(files: &[FileTree], extent: Extent) -> Option<u32>
    ensures { result ≡ steps.generic_token files.now extent }
{
    match form_at(files, extent.file, extent.opening) {
        Some(form) => match form {
            Form::Interface { name } => *name,
            _ => None,
        },
        None => None,
    }
}

fn block_candidate<'a>(files: &'a [FileTree], scoping: &Scoping, extent: Extent) -> Candidate<'a>
    requires { IsScoping files.now scoping.now }
    ensures { result ≡ steps.block_candidate files.now extent }
{
    match generic_token(files, extent) {
        Some(token) => Candidate {
            under: number_at(&scoping.rows, extent.file, extent.opening),
            name: name_at(files, extent.file, token),
        },
        None => Candidate {
            under: None,
            name: b"",
        },
    }
}

/// Of each extent whether it is an interface block, in which scoping unit and of which name.
fn block_candidates<'a>(
    alloc: Global,
    files: &'a [FileTree],
    scoping: &Scoping,
    all: &[Extent],
) -> Result<Vec<Candidate<'a>>, NoMemory>
    requires { IsScoping files.now scoping.now }
    ensures { IfOk result (λ made. made.items ≡ map (steps.block_candidate files.now) all.now) }
{
    let mut made = Vec::new(alloc);
    for extent in all {
        made.push(block_candidate(files, scoping, *extent))?;
    }
    Ok(made)
}

/// The interface blocks, by scoping units and names.
fn blocks_of<'a>(
    alloc: Global,
    files: &'a [FileTree],
    scoping: &Scoping,
    all: &[Extent],
) -> Result<Index<'a>, NoMemory>
    requires trees { AreTrees files.now }
    requires known { IsScoping files.now scoping.now }
    requires all { all.now ≡ spec.extents files.now }
    ensures { IfOk result (λ found. (scope : ℕ) (name : List ℕ) → indexes.found_in found scope name ≡ steps.block_number files.now scope name) }
{
    let candidates = block_candidates(alloc, files, scoping, all)?;
    index(alloc, &candidates)
}

/// The scoping unit of an entity that is a program unit or a procedure.
pub fn unit_of(entity: &Entity) -> Option<u32>
    ensures { result ≡ steps.opened_by entity.now }
{
    if entity.kind.is_unit() {
        entity.opens
    } else {
        None
    }
}

/// The numbers, each at its first place.
fn distinct(alloc: Global, numbers: &[u32]) -> Result<Vec<u32>, NoMemory>
    ensures { IfOk result (λ made. made.items ≡ once nat_eq numbers.now) }
{
    let mut seen: IndexSet<u32> = IndexSet::new(alloc);
    for number in numbers {
        seen.insert(*number)?;
    }
    Ok(Vec::from_slice(alloc, seen.as_slice())?)
}

impl<'a> Generics<'a> {
    /// Gathers the interface blocks of a project.
    pub fn of(
        alloc: Global,
        files: &'a [FileTree],
        project: &'a Project<'a>,
        scoping: &'a Scoping,
    ) -> Result<Generics<'a>, NoMemory>
        requires trees { AreTrees files.now }
        requires gathered { IsGathered files.now project.now }
        requires known { IsScoping files.now scoping.now }
        requires names { name_fault files.now ≡ None }
        ensures { IfOk result (steps.AreGenerics files.now) }
    {
        let extents = extents_of(alloc, files)?;
        let bodies = bodies_of(alloc, files, scoping, &extents)?;
        let blocks = blocks_of(alloc, files, scoping, &extents.all)?;
        let Extents { all, .. } = extents;
        Ok(Generics {
            project,
            scoping,
            all,
            blocks,
            bodies,
        })
    }

    /// The scoping unit of what the name at a token denotes, where that is a program unit or a procedure.
    fn unit_at(&self, file: u32, token: u32) -> Option<u32>
        ensures { result ≡ steps.unit_by self.now.project.now file token }
    {
        match self.project.entity_at(file, token) {
            Some(entity) => match self.project.entity(entity as usize) {
                Some(entity) => unit_of(entity),
                None => None,
            },
            None => None,
        }
    }

    /// Adds the scoping unit of a name in MODULE PROCEDURE.
    fn push_specific(
        &self,
        file: u32,
        mention: &Mention,
        found: &mut Vec<u32>,
    ) -> Result<(), NoMemory>
        ensures { OnOk result (found.new.items ≡ found.old.items ++ steps.specific_by self.now.project.now file mention.now) }
    {
        if mention.role.is(Role::Specific) {
            if let Some(number) = self.unit_at(file, mention.token) {
                found.push(number)?;
            }
        }
        Ok(())
    }

    /// Adds the procedures that MODULE PROCEDURE names in a statement.
    fn push_listed(
        &self,
        alloc: Global,
        files: &[FileTree],
        file: u32,
        statement: u32,
        found: &mut Vec<u32>,
    ) -> Result<(), NoMemory>
        ensures { OnOk result (found.new.items ≡ found.old.items ++ steps.listed_at files.now self.now.project.now file statement) }
    {
        let mut mentions = Vec::new(alloc);
        push_statement(alloc, files, file, statement, &mut mentions)?;
        for mention in &mentions {
            self.push_specific(file, mention, found)?;
        }
        Ok(())
    }

    /// The procedures that MODULE PROCEDURE names in these statements.
    fn listed(
        &self,
        alloc: Global,
        files: &[FileTree],
        file: u32,
        statements: &[u32],
    ) -> Result<Vec<u32>, NoMemory>
        ensures { IfOk result (λ found. found.items ≡ flat_map (steps.listed_at files.now self.now.project.now file) statements.now) }
    {
        let mut found = Vec::new(alloc);
        for statement in statements {
            self.push_listed(alloc, files, file, *statement, &mut found)?;
        }
        Ok(found)
    }

    /// The specific procedures of the interface block of that number in a scoping unit.
    fn in_block(
        &self,
        alloc: Global,
        files: &[FileTree],
        scope: u32,
        block: u32,
    ) -> Result<Vec<u32>, NoMemory>
        requires known { block < length self.now.all.items }
        requires bodies { block < length self.now.bodies.items }
        ensures { IfOk result (λ found. found.items ≡ once nat_eq (steps.all_by files.now self.now scope block)) }
    {
        let around = self.all[block as usize];
        let own = own_statements(alloc, &self.scoping.rows, around, scope)?;
        let mut found = self.listed(alloc, files, around.file, &own)?;
        found.extend_from_slice(&self.bodies[block as usize])?;
        distinct(alloc, &found)
    }

    /// The numbers of the scoping units of the specific procedures that a generic name has in a scoping unit.
    pub fn specifics(
        &self,
        alloc: Global,
        files: &[FileTree],
        scope: u32,
        name: &[u8],
    ) -> Result<Vec<u32>, NoMemory>
        requires { steps.AreGenerics files.now self.now }
        ensures { IfOk result (λ found. (e : Extent) → slice_get (spec.scoping files.now) scope ≡ Some e
            → filter_map (extent_numbered files.now) found.items ≡ filter_map unit_in (procedures.specific_keys files.now e name.now)) }
    {
        match found_in(&self.blocks, scope, name) {
            Some(block) => self.in_block(alloc, files, scope, block),
            None => Ok(Vec::new(alloc)),
        }
    }
}
