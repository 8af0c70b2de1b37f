//! What an accepted rename keeps.

ghost use Rattle.rename_ref.specs.Keeping.{RenameKeeps};

/// The law that the new text of an accepted rename spells the renamed program, which does the same, and that names and
/// entities correspond.
pub fn rename_keeps()
    ensures { RenameKeeps }
{}
