//! The intrinsic functions by their names (Fortran 90, 13.10).

ghost use Rattle.std.specs.Prelude.{◌≡◌, bytes_eq};
ghost use Rattle.ftn_tree.specs.Intrinsics as spec;

use ftn_tree::Intrinsic;

/// The intrinsic function of that name.
pub fn function_named(name: &[u8]) -> Option<Intrinsic>
    ensures { result ≡ spec.function_named name.now }
{
    if is_text(name, b"abs") {
        Some(Intrinsic::Abs)
    } else if is_text(name, b"mod") {
        Some(Intrinsic::Mod)
    } else if is_text(name, b"sign") {
        Some(Intrinsic::Sign)
    } else if is_text(name, b"min") {
        Some(Intrinsic::Min)
    } else if is_text(name, b"max") {
        Some(Intrinsic::Max)
    } else if is_text(name, b"len") {
        Some(Intrinsic::Len)
    } else if is_text(name, b"len_trim") {
        Some(Intrinsic::LenTrim)
    } else if is_text(name, b"trim") {
        Some(Intrinsic::Trim)
    } else if is_text(name, b"ichar") {
        Some(Intrinsic::Ichar)
    } else if is_text(name, b"char") {
        Some(Intrinsic::Char)
    } else if is_text(name, b"index") {
        Some(Intrinsic::Index)
    } else {
        None
    }
}

fn is_text(name: &[u8], text: &[u8]) -> bool
    ensures { result ≡ bytes_eq text.now name.now }
{
    text == name
}
