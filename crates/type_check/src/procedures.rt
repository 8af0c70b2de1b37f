//! Procedures that a scoping unit declares, against those that the project defines (Fortran 90, 12.3.2).

ghost use Rattle.std.specs.Prelude.{◌≡◌, [], length, map, slice_get, true, zip, List, Option, None, Some, IfOk, OnOk};
ghost use Rattle.std.specs.List.{flat_map};
ghost use Rattle.ftn_tree.specs.declared.table.Extent.{Extent};
ghost use Rattle.ftn_tree.specs.declared.unit.FileTree.{FileTree};
ghost use Rattle.ftn_tree.specs.ConstantFaults.{constant_fault};
ghost use Rattle.ftn_tree.specs.DeclarationFaults.{declaration_fault};
ghost use Rattle.ftn_tree.specs.DeclaredEntities.{names_after};
ghost use Rattle.ftn_tree.specs.Extents as spec;
ghost use Rattle.ftn_tree.specs.KeyKinds.{Datum};
ghost use Rattle.ftn_tree.specs.Meanings.{unit};
ghost use Rattle.ftn_tree.specs.NameFaults.{begins, name_fault, said_of};
ghost use Rattle.ftn_tree.specs.Procedures as procedures;
ghost use Rattle.ftn_tree.specs.Projects.{AreTrees};
ghost use Rattle.ftn_tree.specs.Sayings.{sayings};
ghost use Rattle.ftn_tree.specs.Scopes as scopes;
ghost use Rattle.ftn_tree.specs.TypeFaults as faults_of;
ghost use Rattle.const_value.specs.steps.Names.{number_at};
ghost use Rattle.decl_table.specs.steps.Located.{IsScoping};
ghost use Rattle.type_check.specs.steps.Declared as steps;
ghost use Rattle.name_types.specs.steps.Gathered.{AreNames};
ghost use Rattle.name_types.specs.steps.Generics as generics;
ghost use Rattle.type_check.specs.steps.Natures as natures;
ghost use Rattle.type_check.specs.steps.Noted.{first_seen, noted};

use crate::constants::namings_of;
use crate::faults::Faults;
use crate::natures::{Nature, nature_of};
use crate::said_names::said_names;
use const_expr::Naming;
use const_value::name_numbers::{Numbers, names_of, number_in};
use decl_table::forms::{form_at, name_at, name_token};
use decl_table::saying::Saying;
use decl_table::scoping::{Scoping, scope_name};
use ftn_base::{FaultKind, NoMemory};
use ftn_tree::{Extent, FileTree, Form};
use name_types::bodies::outside_index;
use name_types::generics::unit_of;
use name_types::index::{Index, found_in};
use name_types::names::Names;
use std::alloc::Global;

/// The names of a project, with what it takes to compare procedures.
#[derive(Drop)]
pub struct Declared<'a> {
    pub names: &'a Names<'a>,
    pub scoping: &'a Scoping,
    /// What is said in each scoping unit.
    pub said: &'a [Vec<Saying<'a>>],
    /// Of each scoping unit the numbers of its names.
    pub numbers: Vec<Numbers<'a>>,
    /// What each entity is in a constant expression.
    pub namings: Vec<Naming>,
    /// The scoping units of external procedures, by name.
    pub outside: Index<'a>,
}

impl<'a> Declared<'a> {
    /// Gathers what is missing.
    pub fn of(
        alloc: Global,
        files: &'a [FileTree],
        names: &'a Names<'a>,
        scoping: &'a Scoping,
        said: &'a [Vec<Saying<'a>>],
    ) -> Result<Declared<'a>, NoMemory>
        requires trees { AreTrees files.now }
        requires declared { declaration_fault files.now ≡ None }
        requires bound { name_fault files.now ≡ None }
        requires constants { constant_fault files.now ≡ None }
        requires names { AreNames files.now names.now }
        requires known { IsScoping files.now scoping.now }
        requires said { map (λ one. one.items) said.now ≡ map (sayings files.now) (spec.scoping files.now) }
        ensures { IfOk result (steps.AreDeclared files.now) }
    {
        let project = names.project;
        let numbered = names_of(alloc, project.bound.tables.scopes.as_slice(), said)?;
        let namings = namings_of(alloc, project, names.values)?;
        let outside = outside_index(alloc, files, scoping)?;
        Ok(Declared {
            names,
            scoping,
            said,
            numbers: numbered.numbers,
            namings,
            outside,
        })
    }

    /// The number of the name at a token, as the scoping unit's own.
    fn number_at(&self, files: &[FileTree], scope: usize, file: u32, token: u32) -> Option<usize>
        ensures { result ≡ number_at self.now.numbers.items scope (scopes.name_at files.now file token) }
    {
        match self.numbers.get(scope) {
            Some(numbers) => number_in(numbers, name_at(files, file, token)),
            None => None,
        }
    }

    /// The type, the length and the rank of the name of that number.
    fn nature(&self, alloc: Global, name: usize) -> Result<Nature, NoMemory>
        ensures { (files : List FileTree) (d : Datum) → steps.AreDeclared files self.now → natures.IsDatum files name d
            → IfOk result (λ made. natures.nature_seen made ≡ faults_of.nature_of files d) }
    {
        let project = self.names.project;
        if name < project.names.len() && name < project.written.len() {
            nature_of(alloc, project, &self.namings, name)
        } else {
            Ok(Nature {
                sort: None,
                length: None,
                rank: 0,
            })
        }
    }

    /// The scoping unit of what the name at a token denotes, where that is a program unit or a procedure.
    fn unit_at(&self, file: u32, token: u32) -> Option<u32>
        ensures { result ≡ generics.unit_by self.now.names.now.project.now file token }
    {
        match self.names.project.entity_at(file, token) {
            Some(entity) => match self.names.project.entity(entity as usize) {
                Some(entity) => unit_of(entity),
                None => None,
            },
            None => None,
        }
    }

    /// The number of the result's name.
    fn result_of(&self, files: &[FileTree], scope: u32) -> Option<usize>
        requires { steps.AreDeclared files.now self.now }
        ensures { (e : Extent) → slice_get (spec.scoping files.now) scope ≡ Some e → steps.IsResult files.now result (procedures.result_of files.now e) }
    {
        match self.scoping.units.get(scope as usize) {
            Some(unit) => match result_token(files, *unit) {
                Some(token) => self.number_at(files, scope as usize, unit.file, token),
                None => None,
            },
            None => None,
        }
    }

    /// The numbers of the names of the dummy arguments.
    fn dummies_of(
        &self,
        alloc: Global,
        files: &[FileTree],
        scope: u32,
        e: Extent,
    ) -> Result<Vec<usize>, NoMemory>
        requires known { steps.AreDeclared files.now self.now }
        requires unit { slice_get (spec.scoping files.now) scope ≡ Some e }
        ensures { IfOk result (λ made. steps.AreData files.now made.items (procedures.dummies_of files.now e)) }
    {
        let mut made = Vec::new(alloc);
        for token in dummy_tokens(files, e) {
            if let Some(number) = self.number_at(files, scope as usize, e.file, *token) {
                made.push(number)?;
            }
        }
        Ok(made)
    }

    /// Whether a name has the type of a function's result.
    fn has_type_of(
        &self,
        alloc: Global,
        files: &[FileTree],
        name: usize,
        function: u32,
    ) -> Result<bool, NoMemory>
        requires { steps.AreDeclared files.now self.now }
        ensures { (d : Datum) (e : Extent) → natures.IsDatum files.now name d → slice_get (spec.scoping files.now) function ≡ Some e
            → IfOk result (λ same. same ≡ faults_of.is_same_type files.now d (procedures.result_of files.now e)) }
    {
        match self.result_of(files, function) {
            Some(result) => {
                let ours = self.nature(alloc, name)?;
                let theirs = self.nature(alloc, result)?;
                Ok(ours.is_same_type(&theirs))
            }
            None => Ok(false),
        }
    }

    /// Where a name gets its type, else where it begins.
    fn typed_where(&self, name: usize) -> u32
        ensures { (files : List FileTree) (d : Datum) → steps.AreDeclared files self.now → natures.IsDatum files name d → result ≡ faults_of.typed_where files d }
    {
        match self.names.project.written.get(name) {
            Some(written) => match &written.typing {
                Some(typing) => typing.name,
                None => self.begins(name),
            },
            None => 0,
        }
    }

    /// Where a name begins.
    fn begins(&self, name: usize) -> u32
        ensures { (files : List FileTree) (d : Datum) → steps.AreDeclared files self.now → natures.IsDatum files name d → result ≡ begins (said_of files d.scope d.name) }
    {
        match self.names.project.names.get(name) {
            Some(owned) => owned.said.begins(),
            None => 0,
        }
    }

    /// Where the type of a name is written, where it is no result.
    fn typing_of(&self, name: usize) -> Option<u32>
        ensures { (files : List FileTree) (d : Datum) → steps.AreDeclared files self.now → natures.IsDatum files name d → result ≡ steps.typing_token files d }
    {
        let project = self.names.project;
        match project.names.get(name) {
            Some(owned) => {
                if owned.said.answer {
                    return None;
                }
            }
            None => return None,
        }
        match project.written.get(name) {
            Some(written) => match &written.typing {
                Some(typing) => Some(typing.name),
                None => None,
            },
            None => None,
        }
    }

    /// Adds what is told of a name: a function that the scoping unit declares has the type of the one that the project defines.
    fn name_fault(
        &self,
        alloc: Global,
        files: &[FileTree],
        file: u32,
        name: usize,
        faults: &mut Faults,
    ) -> Result<(), NoMemory>
        requires { steps.AreDeclared files.now self.now }
        ensures { (d : Datum) → natures.IsDatum files.now name d → file ≡ d.scope.file
            → OnOk result (first_seen faults.new ≡ noted file (first_seen faults.old) (faults_of.type_told files.now d.scope d.name)) }
    {
        let Some(token) = self.typing_of(name) else {
            return Ok(());
        };
        let Some(function) = self.unit_at(file, token) else {
            return Ok(());
        };
        let same = self.has_type_of(alloc, files, name, function)?;
        faults.note_if(!same, FaultKind::WrongType, file, token);
        Ok(())
    }

    /// The number of a name, as the scoping unit's own.
    fn number_named(&self, scope: usize, name: &[u8]) -> Option<usize>
        ensures { result ≡ number_at self.now.numbers.items scope name.now }
    {
        match self.numbers.get(scope) {
            Some(numbers) => number_in(numbers, name),
            None => None,
        }
    }

    /// The same of a name of a scoping unit.
    fn type_fault(
        &self,
        alloc: Global,
        files: &[FileTree],
        scope: usize,
        e: Extent,
        name: &[u8],
        faults: &mut Faults,
    ) -> Result<(), NoMemory>
        requires known { steps.AreDeclared files.now self.now }
        requires unit { slice_get (spec.scoping files.now) scope ≡ Some e }
        ensures { OnOk result (first_seen faults.new ≡ noted e.file (first_seen faults.old) (faults_of.type_told files.now e name.now)) }
    {
        match self.number_named(scope, name) {
            Some(number) => self.name_fault(alloc, files, e.file, number, faults),
            None => Ok(()),
        }
    }

    /// The same of all names of a scoping unit.
    fn type_faults(
        &self,
        alloc: Global,
        files: &[FileTree],
        scope: usize,
        e: Extent,
        faults: &mut Faults,
    ) -> Result<(), NoMemory>
        requires known { steps.AreDeclared files.now self.now }
        requires unit { slice_get (spec.scoping files.now) scope ≡ Some e }
        ensures { OnOk result (first_seen faults.new ≡ noted e.file (first_seen faults.old) (flat_map (faults_of.type_told files.now e) (names_after [] (sayings files.now e)))) }
    {
        let names = said_names(alloc, &self.said[scope])?;
        for name in &names {
            self.type_fault(alloc, files, scope, e, name, faults)?;
        }
        Ok(())
    }

    /// Adds what is told of a dummy argument of an interface body and that of the procedure.
    fn dummy_fault(
        &self,
        alloc: Global,
        file: u32,
        ours: usize,
        theirs: usize,
        faults: &mut Faults,
    ) -> Result<(), NoMemory>
        ensures { (files : List FileTree) (d other : Datum) → steps.AreDeclared files self.now → natures.IsDatum files ours d → natures.IsDatum files theirs other
            → OnOk result (first_seen faults.new ≡ noted file (first_seen faults.old) (faults_of.dummy_told files (d, other))) }
    {
        let one = self.nature(alloc, ours)?;
        let other = self.nature(alloc, theirs)?;
        let same = one.is_same(&other);
        faults.note_if(!same, FaultKind::WrongType, file, self.begins(ours));
        Ok(())
    }

    /// The same of so many of both.
    fn pair_faults(
        &self,
        alloc: Global,
        file: u32,
        ours: &[usize],
        theirs: &[usize],
        faults: &mut Faults,
    ) -> Result<(), NoMemory>
        requires { length ours.now ≡ length theirs.now }
        ensures { (files : List FileTree) (ds others : List Datum) → steps.AreDeclared files self.now → steps.AreData files ours.now ds → steps.AreData files theirs.now others
            → OnOk result (first_seen faults.new ≡ noted file (first_seen faults.old) (flat_map (faults_of.dummy_told files) (zip ds others))) }
    {
        for at in 0..ours.len() {
            self.dummy_fault(alloc, file, ours[at], theirs[at], faults)?;
        }
        Ok(())
    }

    /// The same of all, as many as there are.
    fn dummies_fault(
        &self,
        alloc: Global,
        file: u32,
        name: u32,
        ours: &[usize],
        theirs: &[usize],
        faults: &mut Faults,
    ) -> Result<(), NoMemory>
        ensures { (files : List FileTree) (ds others : List Datum) → steps.AreDeclared files self.now → steps.AreData files ours.now ds → steps.AreData files theirs.now others
            → OnOk result (first_seen faults.new ≡ noted file (first_seen faults.old) (faults_of.dummies_told files name ds others)) }
    {
        if ours.len() == theirs.len() {
            self.pair_faults(alloc, file, ours, theirs, faults)
        } else {
            faults.note(FaultKind::WrongCount, file, name);
            Ok(())
        }
    }

    /// Adds what is told of both results.
    fn results_fault(
        &self,
        alloc: Global,
        file: u32,
        ours: Option<usize>,
        theirs: Option<usize>,
        faults: &mut Faults,
    ) -> Result<(), NoMemory>
        ensures { (files : List FileTree) (d other : Option Datum) → steps.AreDeclared files self.now → steps.IsResult files ours d → steps.IsResult files theirs other
            → OnOk result (first_seen faults.new ≡ noted file (first_seen faults.old) (faults_of.results_told files d other)) }
    {
        let Some(ours) = ours else {
            return Ok(());
        };
        let Some(theirs) = theirs else {
            return Ok(());
        };
        let one = self.nature(alloc, ours)?;
        let other = self.nature(alloc, theirs)?;
        let same = one.is_same(&other);
        faults.note_if(!same, FaultKind::WrongType, file, self.typed_where(ours));
        Ok(())
    }

    /// Adds what is told of the arguments and results of both.
    fn same_faults(
        &self,
        alloc: Global,
        files: &[FileTree],
        name: u32,
        body: (u32, Extent),
        defined: (u32, Extent),
        faults: &mut Faults,
    ) -> Result<(), NoMemory>
        requires known { steps.AreDeclared files.now self.now }
        requires body { slice_get (spec.scoping files.now) body.0 ≡ Some body.1 }
        requires defined { slice_get (spec.scoping files.now) defined.0 ≡ Some defined.1 }
        ensures { OnOk result (first_seen faults.new ≡ noted body.1.file (first_seen faults.old) (steps.same_told files.now name body.1 defined.1)) }
    {
        let ours = self.dummies_of(alloc, files, body.0, body.1)?;
        let theirs = self.dummies_of(alloc, files, defined.0, defined.1)?;
        self.dummies_fault(alloc, body.1.file, name, &ours, &theirs, faults)?;
        let result = self.result_of(files, body.0);
        let other = self.result_of(files, defined.0);
        self.results_fault(alloc, body.1.file, result, other, faults)
    }

    /// Adds what is told of an interface body against the procedure.
    fn against(
        &self,
        alloc: Global,
        files: &[FileTree],
        name: u32,
        body: (u32, Extent),
        defined: (u32, Extent),
        faults: &mut Faults,
    ) -> Result<(), NoMemory>
        requires known { steps.AreDeclared files.now self.now }
        requires body { slice_get (spec.scoping files.now) body.0 ≡ Some body.1 }
        requires defined { slice_get (spec.scoping files.now) defined.0 ≡ Some defined.1 }
        ensures { OnOk result (first_seen faults.new ≡ noted body.1.file (first_seen faults.old) (faults_of.against files.now name body.1 (Some (unit defined.1)))) }
    {
        if is_function(files, body.1) == is_function(files, defined.1) {
            self.same_faults(alloc, files, name, body, defined, faults)
        } else {
            faults.note(FaultKind::WrongType, body.1.file, name);
            Ok(())
        }
    }

    /// Adds what is told of an interface body.
    fn body_faults(
        &self,
        alloc: Global,
        files: &[FileTree],
        scope: u32,
        e: Extent,
        faults: &mut Faults,
    ) -> Result<(), NoMemory>
        requires known { steps.AreDeclared files.now self.now }
        requires unit { slice_get (spec.scoping files.now) scope ≡ Some e }
        requires body { spec.is_body files.now e ≡ true }
        ensures { OnOk result (first_seen faults.new ≡ noted e.file (first_seen faults.old) (faults_of.body_told files.now e)) }
    {
        let Some(number) = found_in(&self.outside, 0, scope_name(files, e)) else {
            return Ok(());
        };
        let Some(defined) = self.scoping.units.get(number as usize) else {
            return Ok(());
        };
        let name = name_token(files, e).unwrap_or(0);
        self.against(alloc, files, name, (scope, e), (number, *defined), faults)
    }
}

/// The tokens of the dummy arguments in the opening of a procedure.
fn dummy_tokens(files: &[FileTree], e: Extent) -> &[u32]
    ensures { result.now ≡ procedures.dummy_tokens (spec.layer_at files.now e.file e.opening) }
{
    match form_at(files, e.file, e.opening) {
        Some(form) => match form {
            Form::Subroutine {
                dummies: Some(dummies),
                ..
            } => dummies.as_slice(),
            Form::Function { dummies, .. } => dummies.as_slice(),
            _ => &[],
        },
        None => &[],
    }
}

/// The token of a function's result in its opening.
fn result_token(files: &[FileTree], e: Extent) -> Option<u32>
    ensures { result ≡ procedures.result_token (spec.layer_at files.now e.file e.opening) }
{
    match form_at(files, e.file, e.opening) {
        Some(form) => match form {
            Form::Function { name, result, .. } => Some(result.unwrap_or(*name)),
            _ => None,
        },
        None => None,
    }
}

fn is_function(files: &[FileTree], e: Extent) -> bool
    ensures { result ≡ faults_of.is_function_here files.now e }
{
    match form_at(files, e.file, e.opening) {
        Some(form) => matches!(form, Form::Function { .. }),
        None => false,
    }
}

/// Adds what is told of the procedures that a scoping unit declares.
pub fn scope_faults(
    alloc: Global,
    files: &[FileTree],
    known: &Declared<'_>,
    number: u32,
    e: Extent,
    is_body: bool,
    faults: &mut Faults,
) -> Result<(), NoMemory>
    requires known { steps.AreDeclared files.now known.now }
    requires unit { slice_get (spec.scoping files.now) number ≡ Some e }
    requires body { is_body ≡ spec.is_body files.now e }
    ensures { OnOk result (first_seen faults.new ≡ noted e.file (first_seen faults.old) (steps.declared_told files.now e)) }
{
    known.type_faults(alloc, files, number as usize, e, faults)?;
    if is_body {
        known.body_faults(alloc, files, number, e, faults)?;
    }
    Ok(())
}
