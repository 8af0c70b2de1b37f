//! What the names at the tokens of a project are.

ghost use Rattle.std.specs.Prelude.{◌≡◌, ◌||◌};
ghost use Rattle.std.specs.Option.{option_copied, option_map};
ghost use Rattle.const_value.specs.steps.Projects.{sort_seen};
ghost use Rattle.ftn_tree.specs.Procedures.{intrinsic_sense};
ghost use Rattle.name_types.specs.steps.Senses as steps;

use crate::kinds::{Kind, Sense, Signature};
use const_value::project::{Project, Sort};
use ftn_tree::{Intrinsic, Values};

/// What an entity is as references see it.
#[derive(Drop)]
pub enum What {
    /// A variable, a constant, a dummy argument or a result, and whether it may be defined (14.7.6).
    Data { definable: bool },
    /// A function: the number of its scoping unit, and whether it has RESULT (12.5.2.2).
    Function { scope: u32, answer: bool },
    /// A subroutine, by the number of its scoping unit.
    Subroutine { scope: u32 },
    /// A generic name, by the numbers of the scoping units of its specific procedures (12.3.2.1).
    Generic { specifics: Vec<u32> },
    /// The name of an intrinsic procedure, and which function that is (13.10).
    Intrinsic { function: Option<Intrinsic> },
    /// Anything else.
    Other,
}

/// An entity: the type and the rank of what is declared under its name in its scoping unit, and what it is.
#[derive(Drop)]
pub struct Naming {
    pub sort: Option<Sort>,
    pub rank: usize,
    pub what: What,
}

/// The names of a project.
#[derive(Drop)]
pub struct Names<'a> {
    pub project: &'a Project<'a>,
    pub values: &'a Values,
    /// Of each scoping unit the number of its host.
    pub hosts: Vec<Option<u32>>,
    /// By the numbers of entities.
    pub namings: Vec<Naming>,
    /// By the numbers of scoping units.
    pub signatures: Vec<Signature>,
}

/// The names as seen from a scoping unit in its file.
#[derive(Clone, Copy)]
pub struct Setting<'a> {
    pub names: &'a Names<'a>,
    pub file: u32,
    pub scope: u32,
}

/// A variable or the like, where it has a type.
fn data<'a>(sort: Option<Sort>, rank: usize, definable: bool) -> Sense<'a>
    ensures { steps.sense_seen result ≡ steps.data_by (option_map sort_seen sort) rank definable }
{
    match sort {
        Some(sort) => Sense::Data {
            kind: Kind { sort, rank },
            definable,
        },
        None => Sense::Other,
    }
}

fn intrinsic<'a>(function: Option<Intrinsic>) -> Sense<'a>
    ensures { steps.sense_seen result ≡ intrinsic_sense function }
{
    match function {
        Some(function) => Sense::Intrinsic(function),
        None => Sense::Other,
    }
}

/// The host of a scoping unit, where it has one (2.2.3).
fn host_of(hosts: &[Option<u32>], scope: u32) -> Option<u32>
    ensures { result ≡ steps.host_in hosts.now scope }
{
    match hosts.get(scope as usize) {
        Some(host) => *host,
        None => None,
    }
}

/// Whether a scoping unit is another one or inside it (2.2.3).
fn is_within(hosts: &[Option<u32>], outer: u32, scope: u32) -> bool
    ensures { result ≡ steps.is_inside hosts.now outer scope }
{
    let mut at = scope;
    for _ in 0..hosts.len() {
        if at == outer {
            return true;
        }
        match host_of(hosts, at) {
            Some(host) => at = host,
            None => return false,
        }
    }
    at == outer
}

impl<'a> Names<'a> {
    /// What the name at a token of a file denotes.
    pub fn naming(&self, file: u32, token: u32) -> Option<&Naming>
        ensures { steps.lent result ≡ steps.naming_at self.now file token }
    {
        match self.project.entity_at(file, token) {
            Some(entity) => self.namings.get(entity as usize),
            None => None,
        }
    }

    fn procedure(&self, scope: u32) -> Sense<'_>
        ensures { steps.sense_seen result ≡ steps.procedure_by self.now.signatures.items scope }
    {
        match self.signatures.get(scope as usize) {
            Some(signature) => Sense::Procedure(signature),
            None => Sense::Other,
        }
    }

    fn itself(&self, scope: u32) -> Sense<'_>
        ensures { steps.sense_seen result ≡ steps.itself_by self.now.signatures.items scope }
    {
        match self.signatures.get(scope as usize) {
            Some(signature) => Sense::Itself(signature),
            None => Sense::Other,
        }
    }

    /// What a procedure's name is, an intrinsic function's, or a generic one (12.4).
    fn called<'b>(&'b self, what: &'b What) -> Sense<'b>
        ensures { steps.sense_seen result ≡ steps.called_in self.now.signatures.items what.now }
    {
        match what {
            What::Function { scope, .. } | What::Subroutine { scope } => self.procedure(*scope),
            What::Generic { specifics } => Sense::Generic {
                specifics: specifics.as_slice(),
                signatures: self.signatures.as_slice(),
            },
            What::Intrinsic { function } => intrinsic(*function),
            _ => Sense::Other,
        }
    }

    /// A function's name as that of its result, or as its own with arguments where it is no array (12.5.2.2).
    fn own(&self, scope: u32, naming: &Naming, has_args: bool) -> Sense<'_>
        ensures { steps.sense_seen result ≡ steps.own_by self.now.signatures.items scope (option_map sort_seen naming.now.sort) naming.now.rank has_args }
    {
        if has_args && (naming.sort.is_none() || naming.rank == 0) {
            self.itself(scope)
        } else {
            data(naming.sort, naming.rank, true)
        }
    }

    fn sense<'b>(&'b self, from: u32, naming: &'b Naming, has_args: bool) -> Sense<'b>
        ensures { steps.sense_seen result ≡ steps.sense_in self.now from (option_map sort_seen naming.now.sort) naming.now.rank naming.now.what has_args }
    {
        match &naming.what {
            What::Data { definable } => data(naming.sort, naming.rank, *definable),
            What::Function { scope, answer } => {
                if !*answer && is_within(&self.hosts, *scope, from) {
                    self.own(*scope, naming, has_args)
                } else if has_args {
                    self.procedure(*scope)
                } else {
                    Sense::Other
                }
            }
            What::Subroutine { .. } => Sense::Other,
            what => {
                if has_args {
                    self.called(what)
                } else {
                    Sense::Other
                }
            }
        }
    }
}

impl<'a> Setting<'a> {
    /// What the name at a token is in an expression, with arguments or without (12.4.1).
    pub fn sense(&self, token: u32, has_args: bool) -> Sense<'a>
        ensures { steps.sense_seen result ≡ steps.sense_by self.now token has_args }
    {
        match self.names.naming(self.file, token) {
            Some(naming) => self.names.sense(self.scope, naming, has_args),
            None => Sense::Other,
        }
    }

    /// What the procedure's name at a token is in a CALL statement or after MODULE PROCEDURE (12.3.2.1, 12.4).
    pub fn called(&self, token: u32) -> Sense<'a>
        ensures { steps.sense_seen result ≡ steps.called_by self.now token }
    {
        match self.names.naming(self.file, token) {
            Some(naming) => self.names.called(&naming.what),
            None => Sense::Other,
        }
    }

    /// The type of what the name at a token denotes.
    pub fn sort(&self, token: u32) -> Option<Sort>
        ensures { option_map sort_seen result ≡ steps.sort_by self.now token }
    {
        self.names.naming(self.file, token)?.sort
    }

    /// The rank of the variable, constant, dummy argument or result whose own name stands at a token.
    pub fn rank(&self, token: u32) -> Option<usize>
        ensures { result ≡ steps.rank_by self.now token }
    {
        let naming = self.names.naming(self.file, token)?;
        match naming.what {
            What::Data { .. } => Some(naming.rank),
            _ => None,
        }
    }
}
