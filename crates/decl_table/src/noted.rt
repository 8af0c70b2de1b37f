//! Where the names of a scoping unit occur first, and which of them are referenced with parentheses.

ghost use Rattle.std.specs.Prelude.{◌≡◌, OnOk, IfOk, ℕ, List, if◌then◌else◌};
ghost use Rattle.std.specs.Str.{bytes_eq};
ghost use Rattle.ftn_tree.specs.DeclaredEntities as spec;
ghost use Rattle.decl_table.specs.steps.Noted as steps;

use crate::forms::name_at;
use ftn_base::NoMemory;
use ftn_tree::{FileTree, Mention, Role};
use indexmap::IndexMap;
use std::alloc::Global;

/// Where a name occurs.
#[derive(Clone, Copy)]
pub struct Noted {
    /// The first token, or 0 where it doesn't occur. The names of a unit that opens or ends, of a block, of a module and in an item of
    /// USE don't count.
    pub first: u32,
    /// Whether it is referenced with parentheses (Fortran 90, 12.4.2).
    pub referenced: bool,
}

/// Whether a name in that place may be one of the scoping unit's own.
pub fn may_be_own(role: Role) -> bool
    ensures { result ≡ spec.may_be_own role }
{
    !matches!(
        role,
        Role::Opens | Role::Ends | Role::Slash | Role::Module | Role::Source | Role::Local
    )
}

impl Noted {
    /// Of no mention.
    fn none() -> Noted
        ensures { result ≡ steps.nothing }
    {
        Noted {
            first: 0,
            referenced: false,
        }
    }

    /// With one more mention before these.
    fn after(&self, mention: &Mention) -> Noted
        ensures { result ≡ steps.after mention.now self.now }
    {
        let referenced = mention.role.is(Role::Parenthesised);
        Noted {
            first: if may_be_own(mention.role) {
                mention.token
            } else {
                self.first
            },
            referenced: referenced || self.referenced,
        }
    }
}

/// Where each name occurs.
pub type Occurring<'a> = IndexMap<&'a [u8], Noted>;

/// Where that name occurs.
pub fn noted_of(names: &Occurring<'_>, name: &[u8]) -> Noted
    ensures { result ≡ steps.noted_in names.now name.now }
{
    match names.get(name) {
        Some(noted) => *noted,
        None => Noted::none(),
    }
}

fn put<'a>(names: &mut Occurring<'a>, name: &'a [u8], noted: Noted) -> Result<(), NoMemory>
    ensures { OnOk result ((other : _) → steps.noted_in names.new other ≡ (if bytes_eq name.now other then noted else steps.noted_in names.old other)) }
{
    names.insert(name, noted)?;
    Ok(())
}

/// Where each name occurs among these mentions of a file.
pub fn note<'a>(
    alloc: Global,
    files: &'a [FileTree],
    file: u32,
    own: &[Mention],
) -> Result<Occurring<'a>, NoMemory>
    ensures { IfOk result (λ names. (name : List ℕ) → steps.noted_in names name ≡ steps.noted_of files.now file name own.now) }
{
    let mut names: Occurring<'a> = IndexMap::new(alloc);
    let mut at = own.len();
    while at > 0 {
        at -= 1;
        let mention = &own[at];
        let name = name_at(files, file, mention.token);
        let later = noted_of(&names, name);
        put(&mut names, name, later.after(mention))?;
    }
    Ok(names)
}
