//! What is known of a project before it is known what USE makes accessible.

ghost use Rattle.std.specs.Prelude.{◌≡◌, ◌≤◌, map, Some, IfOk};
ghost use Rattle.std.specs.List.{filter};
ghost use Rattle.std.specs.Option.{unwrap_or};
ghost use Rattle.ftn_tree.specs.DeclaredEntities as declared;
ghost use Rattle.ftn_tree.specs.Extents.{scoping as scoping_of, is_body, layer_at};
ghost use Rattle.ftn_tree.specs.Meanings as meanings;
ghost use Rattle.ftn_tree.specs.Projects.{AreTrees};
ghost use Rattle.ftn_tree.specs.Sayings.{sayings, same_name};
ghost use Rattle.ftn_tree.specs.Scopes.{host_number};
ghost use Rattle.decl_table.specs.steps.Heard.{heard_of as heard_by};
ghost use Rattle.decl_table.specs.steps.Located.{IsScoping};
ghost use Rattle.decl_table.specs.steps.Noted.{noted_of as noted_by};
ghost use Rattle.scope_bind.specs.steps.Globals.{unit_at as unit_of, unit_number, IsNumber, inner_candidate};
ghost use Rattle.scope_bind.specs.steps.Index.{first_at};
ghost use Rattle.scope_bind.specs.steps.Known.{IsKnown, AreAllNames};
ghost use Rattle.scope_bind.specs.steps.Numbering as numbers;
ghost use Rattle.scope_bind.specs.steps.Told as telling;
ghost use Rattle.scope_bind.specs.declared.candidates.Sort.TheVariants as sorts;

use crate::globals::Globals;
use crate::index::found_in;
use crate::names::{Names, names_of};
use crate::numbering::Numbering;
use crate::told::{Told, told_of};
use decl_table::declared_names::has_result;
use decl_table::heard::{Heard, heard_of};
use decl_table::noted::{Noted, noted_of};
use decl_table::saying::Saying;
use decl_table::scoping::Scoping;
use ftn_base::{EntityId, NoMemory};
use ftn_tree::{Extent, FileTree, Mention, Tables};
use std::alloc::Global;

/// What is known of a project before it is known what USE makes accessible.
#[derive(Drop)]
pub(crate) struct Known<'k, 'a> {
    /// The trees of its files.
    pub files: &'a [FileTree],
    /// Its tables.
    pub tables: &'a Tables,
    /// Its scoping units.
    pub scoping: &'k Scoping,
    /// All that is said in each of them.
    pub said: &'k [Vec<Saying<'a>>],
    /// The names in the own statements of each.
    pub own: &'k [Vec<Mention>],
    /// What is said of the names of each.
    pub names: &'k [Names<'a>],
    /// Program units and blocks by name.
    pub globals: &'k Globals<'a>,
    /// What provisional numbers are found by.
    pub numbering: &'k Numbering<'a>,
}

/// What is said of the names of each scoping unit.
pub(crate) fn all_names<'a>(
    alloc: Global,
    files: &'a [FileTree],
    scoping: &Scoping,
    said: &[Vec<Saying<'a>>],
    own: &[Vec<Mention>],
) -> Result<Vec<Names<'a>>, NoMemory>
    requires trees { AreTrees files.now }
    requires known { IsScoping files.now scoping.now }
    requires said { map (λ one. one.items) said.now ≡ map (sayings files.now) (scoping_of files.now) }
    requires own { map (λ one. one.items) own.now ≡ map (declared.own_mentions files.now) (scoping_of files.now) }
    ensures { IfOk result (λ made. AreAllNames files.now made.items) }
{
    let mut made = Vec::new(alloc);
    let mut at = 0;
    for unit in &scoping.units {
        made.push(names_of(alloc, files, *unit, &said[at], &own[at])?)?;
        at += 1;
    }
    Ok(made)
}

impl Known<'_, '_> {
    /// The scoping unit of a number.
    pub fn unit(&self, scope: u32) -> Extent
        requires known { IsKnown self.now }
        requires within { IsNumber self.now.files.now scope }
        ensures { result ≡ unit_of self.now.files.now scope }
    {
        self.scoping.units[scope as usize]
    }

    /// The number of its host.
    pub fn host(&self, scope: u32) -> Option<u32>
        requires known { IsKnown self.now }
        requires within { IsNumber self.now.files.now scope }
        ensures { result ≡ host_number self.now.files.now (unit_of self.now.files.now scope) }
    {
        self.scoping.hosts[scope as usize]
    }

    /// Whether it is an interface body.
    pub fn is_body(&self, scope: u32) -> bool
        requires known { IsKnown self.now }
        requires within { IsNumber self.now.files.now scope }
        ensures { result ≡ is_body self.now.files.now (unit_of self.now.files.now scope) }
    {
        self.scoping.bodies[scope as usize]
    }

    /// Whether it is a function with RESULT (Fortran 90, 12.5.2.2).
    pub fn has_result(&self, scope: u32) -> bool
        requires known { IsKnown self.now }
        requires within { IsNumber self.now.files.now scope }
        ensures { result ≡ declared.has_result_at (layer_at self.now.files.now (unit_of self.now.files.now scope).file (unit_of self.now.files.now scope).opening) }
    {
        has_result(self.files, self.unit(scope))
    }

    /// What a name declares in a scoping unit.
    pub fn heard(&self, scope: u32, name: &[u8]) -> Heard
        requires known { IsKnown self.now }
        requires within { IsNumber self.now.files.now scope }
        ensures { result ≡ heard_by (filter (same_name name.now) (sayings self.now.files.now (unit_of self.now.files.now scope))) }
    {
        heard_of(&self.names[scope as usize].heard, name)
    }

    /// Where a name occurs in the own statements of a scoping unit.
    pub fn noted(&self, scope: u32, name: &[u8]) -> Noted
        requires known { IsKnown self.now }
        requires within { IsNumber self.now.files.now scope }
        ensures { result ≡ noted_by self.now.files.now (unit_of self.now.files.now scope).file name.now (declared.own_mentions self.now.files.now (unit_of self.now.files.now scope)) }
    {
        noted_of(&self.names[scope as usize].noted, name)
    }

    /// Where a name begins in a scoping unit, and whether it is external.
    pub fn told(&self, scope: u32, name: &[u8]) -> Told
        requires known { IsKnown self.now }
        requires within { IsNumber self.now.files.now scope }
        ensures { result ≡ telling.told_of (filter (same_name name.now) (sayings self.now.files.now (unit_of self.now.files.now scope))) }
    {
        told_of(&self.names[scope as usize].told, name)
    }

    /// Whether a name stands plain in a scoping unit (5.3).
    pub fn is_plain(&self, scope: u32, name: &[u8]) -> bool
        requires known { IsKnown self.now }
        requires within { IsNumber self.now.files.now scope }
        ensures { result ≡ meanings.stands_plain self.now.files.now (unit_of self.now.files.now scope) name.now }
    {
        self.names[scope as usize].plain.contains(name)
    }

    /// The scoping unit of the external procedure of that name.
    pub fn procedure(&self, name: &[u8]) -> Option<u32>
        requires known { IsKnown self.now }
        ensures { result ≡ unit_number self.now.files.now sorts.Procedure name.now }
    {
        found_in(&self.globals.procedures, 0, name)
    }

    /// The scoping unit of the external function of that name.
    pub fn function(&self, name: &[u8]) -> Option<u32>
        requires known { IsKnown self.now }
        ensures { result ≡ unit_number self.now.files.now sorts.Function name.now }
    {
        found_in(&self.globals.functions, 0, name)
    }

    /// The number of the module of that name.
    pub fn module_number(&self, name: &[u8]) -> Option<u32>
        requires known { IsKnown self.now }
        ensures { result ≡ meanings.module_number self.now.files.now name.now }
    {
        found_in(&self.globals.module_names, 0, name)
    }

    /// The procedure of that name right inside a scoping unit.
    pub fn inner(&self, scope: u32, name: &[u8]) -> Option<u32>
        requires known { IsKnown self.now }
        ensures { result ≡ first_at scope name.now (map (inner_candidate self.now.files.now) (scoping_of self.now.files.now)) }
    {
        found_in(&self.numbering.inner, scope, name)
    }

    /// The first occurrence of a name in a scoping unit, 0 where it has none.
    fn own_place(&self, scope: u32, name: &[u8]) -> u32
        requires known { IsKnown self.now }
        ensures value { result ≡ unwrap_or (numbers.own_occurrence self.now.files.now scope name.now) 0 }
        ensures within { result ≤ numbers.names_count self.now.files.now }
    {
        found_in(&self.numbering.own, scope, name).unwrap_or(0)
    }

    /// The first occurrence of a name, 0 where it has none.
    fn name_place(&self, name: &[u8]) -> u32
        requires known { IsKnown self.now }
        ensures value { result ≡ unwrap_or (numbers.name_occurrence self.now.files.now name.now) 0 }
        ensures within { result ≤ numbers.names_count self.now.files.now }
    {
        found_in(&self.numbering.names, 0, name).unwrap_or(0)
    }

    /// The provisional number of what a name is in a scoping unit.
    pub fn own_entity(&self, scope: u32, name: &[u8]) -> EntityId
        requires known { IsKnown self.now }
        requires within { IsNumber self.now.files.now scope }
        ensures { result ≡ numbers.number self.now.files.now (meanings.own (unit_of self.now.files.now scope) name.now) }
    {
        EntityId(self.numbering.units + self.own_place(scope, name))
    }

    /// The provisional number of what a scoping unit is.
    pub fn unit_entity(&self, scope: u32) -> EntityId
        requires known { IsKnown self.now }
        requires within { IsNumber self.now.files.now scope }
        ensures { result ≡ numbers.number self.now.files.now (meanings.unit (unit_of self.now.files.now scope)) }
    {
        EntityId(scope)
    }

    /// The provisional number of a common block.
    pub fn block_entity(&self, name: &[u8]) -> EntityId
        requires known { IsKnown self.now }
        ensures { result ≡ numbers.number self.now.files.now (meanings.block (Some name.now)) }
    {
        EntityId(self.numbering.units + self.numbering.occurrences + self.name_place(name))
    }

    /// The provisional number of an intrinsic function.
    pub fn intrinsic_entity(&self, name: &[u8]) -> EntityId
        requires known { IsKnown self.now }
        ensures { result ≡ numbers.number self.now.files.now (meanings.intrinsic_function name.now) }
    {
        let start = self.numbering.units + self.numbering.occurrences + self.numbering.occurrences;
        EntityId(start + self.name_place(name))
    }
}
