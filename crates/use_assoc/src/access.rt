//! The names that a module makes public (Fortran 90, 5.2.3 and 11.3.2).

ghost use Rattle.std.specs.Prelude.{◌≡◌, ◌++◌, IfOk, OnOk, Bool, ◌&&◌, ◌||◌, not};
ghost use Rattle.ftn_base.specs.Exports.{is_among, is_public, public_part, exported};

use crate::name_set::{NameSet, set_of};
use ftn_base::{Access, EntityId, Name, NoMemory};
use std::alloc::Global;

fn is_public(default_public: bool, public: &NameSet, private: &NameSet, name: &Name) -> bool
    ensures { result ≡ (not (is_among private.now name.now) && (default_public || is_among public.now name.now)) }
{
    !private.has(name) && (default_public || public.has(name))
}

fn public_of(
    alloc: Global,
    own: &[(Name, EntityId)],
    used: &[(Name, EntityId)],
    default_public: bool,
    public: &NameSet,
    private: &NameSet,
) -> Result<Vec<(Name, EntityId)>, NoMemory>
    ensures { IfOk result (λ pairs. pairs.items ≡ public_part default_public (is_among public.now) (is_among private.now) own.now
        ++ public_part default_public (is_among public.now) (is_among private.now) used.now) }
{
    let mut pairs = Vec::new(alloc);
    add_public(&mut pairs, alloc, own, default_public, public, private)?;
    add_public(&mut pairs, alloc, used, default_public, public, private)?;
    Ok(pairs)
}

fn add_public(
    to: &mut Vec<(Name, EntityId)>,
    alloc: Global,
    pairs: &[(Name, EntityId)],
    default_public: bool,
    public: &NameSet,
    private: &NameSet,
) -> Result<(), NoMemory>
    ensures { OnOk result (to.new.items ≡ to.old.items ++ public_part default_public (is_among public.now) (is_among private.now) pairs.now) }
{
    for pair in pairs {
        if is_public(default_public, public, private, &pair.0) {
            to.push((pair.0.copy(alloc)?, pair.1))?;
        }
    }
    Ok(())
}

/// The public part of a module's own entities, in its order, and then of those that it uses. A name is public where it stands under
/// PUBLIC, or stands in neither list and that is the default. A name in both lists is not.
pub fn exports(
    alloc: Global,
    own: &[(Name, EntityId)],
    used: &[(Name, EntityId)],
    access: &Access,
) -> Result<Vec<(Name, EntityId)>, NoMemory>
    ensures { IfOk result (λ pairs. pairs.items ≡ exported own.now used.now access.now) }
{
    let public = set_of(alloc, access.public.as_slice())?;
    let private = set_of(alloc, access.private.as_slice())?;
    public_of(alloc, own, used, access.default_public, &public, &private)
}
