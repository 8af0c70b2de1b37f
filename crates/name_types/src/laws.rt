//! What holds of names that are kept.

ghost use Rattle.std.specs.Prelude.{◌≡◌, List, Some, slice_get};
ghost use Rattle.ftn_tree.specs.declared.table.Extent.{Extent};
ghost use Rattle.ftn_tree.specs.declared.unit.FileTree.{FileTree};
ghost use Rattle.ftn_tree.specs.Extents.{scoping};
ghost use Rattle.ftn_tree.specs.Projects.{AreTrees};
ghost use Rattle.name_types.specs.declared.names.Setting.{Setting};
ghost use Rattle.name_types.specs.steps.Gathered.{AreNames};
ghost use Rattle.name_types.specs.steps.Senses.{IsRight};

/// Where the names of a project are kept, what [`Setting`](crate::names::Setting) tells of a name is what is defined of it, seen from each
/// scoping unit: what it is in an expression, what it is where it is called, its type, and its rank by its own name.
pub fn names_are_right()
    ensures { (files : List FileTree) → AreTrees files → (e : Extent) (s : Setting) → s.file ≡ e.file → slice_get (scoping files) s.scope ≡ Some e
        → AreNames files s.names.now → IsRight files e s }
{}
