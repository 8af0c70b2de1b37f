//! The first fault of a project's declarations.

ghost use Rattle.std.specs.Prelude.{◌≡◌, IfOk};
ghost use Rattle.std.specs.Option.{option_map};
ghost use Rattle.ftn_tree.specs.DeclarationFaults as spec;
ghost use Rattle.ftn_tree.specs.Projects.{AreTrees};
ghost use Rattle.ftn_tree.specs.Scopes as scopes;
ghost use Rattle.decl_table.specs.steps.Located.{IsScoping};

use crate::finding::{Finding, Place, earlier};
use crate::forms::span_of;
use crate::global_names::global_fault;
use crate::scope_faults::scopes_fault;
use crate::scoping::Scoping;
use ftn_base::{Fault, NoMemory, Span};
use ftn_tree::FileTree;
use std::alloc::Global;

fn place_span(files: &[FileTree], place: Option<Place>) -> Option<Span>
    ensures { result ≡ option_map (λ p. scopes.span_of files.now p.file p.token) place }
{
    let place = place?;
    Some(span_of(files, place.file, place.token))
}

pub fn fault_of(files: &[FileTree], found: Option<Finding>) -> Option<Fault>
    ensures { result ≡ option_map (spec.fault_of files.now) found }
{
    let Finding { kind, at, other } = found?;
    Some(Fault {
        kind,
        span: Some(span_of(files, at.file, at.token)),
        other: place_span(files, other),
    })
}

/// The first finding of a project whose scoping units are these.
fn first_finding(
    alloc: Global,
    files: &[FileTree],
    scoping: &Scoping,
) -> Result<Option<Finding>, NoMemory>
    requires trees { AreTrees files.now }
    requires known { IsScoping files.now scoping.now }
    ensures { IfOk result (λ found. found ≡ spec.first_finding spec.declaration_rank (spec.findings files.now)) }
{
    let global = global_fault(alloc, files, scoping)?;
    let scopes = scopes_fault(alloc, files, scoping)?;
    Ok(earlier(global, scopes))
}

/// The first fault of the declarations of a project, in the order of files, places and kinds: a name that is declared twice in one
/// scoping unit, or a global name twice in the project (Fortran 90, 14.1.1, 14.1.2), or what conflicts (5.1.2, 5.2, 5.3, 5.5,
/// 12.3.2, 12.5.2).
pub(crate) fn declaration_fault(
    alloc: Global,
    files: &[FileTree],
    scoping: &Scoping,
) -> Result<Option<Fault>, NoMemory>
    requires trees { AreTrees files.now }
    requires known { IsScoping files.now scoping.now }
    ensures { IfOk result (λ fault. fault ≡ spec.declaration_fault files.now) }
{
    let found = first_finding(alloc, files, scoping)?;
    Ok(fault_of(files, found))
}
