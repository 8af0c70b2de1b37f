//! A file of a project, with what is known of the project's names.

ghost use Rattle.std.specs.Prelude.{◌≡◌};
ghost use Rattle.const_value.specs.steps.Projects.{row_in};

use crate::measured::Measured;
use crate::project::Project;
use const_expr::{Naming, Setting};

/// A file of a project, with what is known of the project's names.
#[derive(Clone, Copy)]
pub(crate) struct View<'a> {
    pub project: &'a Project<'a>,
    pub known: &'a [Measured],
    pub names: Setting<'a>,
    pub file: u32,
}

impl<'a> View<'a> {
    /// That of the file with the number.
    pub fn of(
        project: &'a Project<'a>,
        known: &'a [Measured],
        namings: &'a [Naming],
        file: u32,
    ) -> View<'a>
        ensures project { result.project.now ≡ project.now }
        ensures known { result.known.now ≡ known.now }
        ensures row { result.names.row.now ≡ row_in project.now.rows.items file }
        ensures namings { result.names.namings.now ≡ namings.now }
        ensures file { result.file ≡ file }
    {
        View {
            project,
            known,
            names: Setting {
                row: project.row(file),
                namings,
            },
            file,
        }
    }
}
