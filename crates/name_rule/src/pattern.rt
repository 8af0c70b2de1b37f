//! Patterns of names.

ghost use Rattle.name_rule.specs.Admits as spec;
ghost use Rattle.std.specs.Prelude.{◌≡◌};

use ftn_base::Bytes;

/// A pattern of names. It narrows what the language allows (Fortran 90, 3.2.1: a letter, then letters, digits and
/// underscores).
#[derive(Drop)]
pub struct NamePattern {
    /// What a name begins with.
    pub prefix: Bytes,
    /// How many bytes a name may have.
    pub most: u32,
    /// Whether a name may have underscores.
    pub underscores: bool,
}

impl NamePattern {
    /// Whether the pattern admits the name.
    pub fn admits(&self, name: &[u8]) -> bool
        ensures { result ≡ spec.admits self.now name.now }
    {
        name.starts_with(self.prefix.bytes())
            && name.len() <= self.most as usize
            && (self.underscores || !has_underscore(name))
    }
}

fn has_underscore(name: &[u8]) -> bool
    ensures { result ≡ spec.has_underscore name.now }
{
    name.iter().any(|byte| *byte == b'_')
}
