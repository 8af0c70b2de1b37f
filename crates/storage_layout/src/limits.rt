//! How many storage units there may be.

ghost use Rattle.std.specs.Prelude.{◌≤◌, All, IfNone, IfSome};
ghost use Rattle.ftn_base.specs.StorageFaults.{AreSmall, IsFirstTooLarge};
ghost use Rattle.ftn_base.specs.StorageMembers.{sizes_of};

use ftn_base::{MOST_UNITS_OF_ALL, MOST_UNITS_OF_ONE, Object};

/// The first object that takes too many units, or with which all take too many.
pub(crate) fn too_large(objects: &[Object]) -> Option<u32>
    requires { All (λ object. 1 ≤ object.units) objects.now }
    ensures found { IfSome result (IsFirstTooLarge (sizes_of objects.now)) }
    ensures small { IfNone result (AreSmall (sizes_of objects.now)) }
{
    let mut total: u32 = 0;
    for at in 0..objects.len() {
        let units = objects[at].units;
        if units > MOST_UNITS_OF_ONE || units > MOST_UNITS_OF_ALL - total {
            return Some(at as u32);
        }
        total += units;
    }
    None
}
