//! Items, as READ takes them.

ghost use Rattle.std.specs.Prelude.{◌≡◌, ◌↔◌, None, Some, IfOk, IsErrOf, true};
ghost use Rattle.std.specs.List.{list_all};
ghost use Rattle.ftn_tree.specs.ListItems.{is_character, is_item_byte as is_item_byte_of, is_run as is_run_of, item_of, truth_of, truth_of_letter, whole_of};
ghost use Rattle.list_io.specs.ReadBack.{ItemsAreReadBack};

use crate::fault::ItemFault;
use ftn_base::{Bytes, Ty, is_blank};
use ftn_tree::Value;
use std::alloc::Global;
use std::str;

/// The value of one item of a record, for a variable of this type (Fortran 90, 10.8.1).
///
/// An item is one byte or more, none of them blank, tab, CR or LF. An integer item is an optional sign and
/// digits, and its value has 32 bits. A logical one is an optional `.` and then `t` or `f` in either case,
/// and nothing else. A character item is any, and its value its bytes as they stand, whatever the length
/// of the type. `BadItem` comes exactly where the bytes are no item of the type.
/// A character item alone takes memory.
pub fn item(alloc: Global, bytes: &[u8], ty: &Ty) -> Result<Value, ItemFault>
    ensures value { IfOk result (λ value. item_of bytes.now ty.now ≡ Some value) }
    ensures memory { IsErrOf result ItemFault.NoMemory → is_character ty.now ≡ true }
    ensures bad { IsErrOf result ItemFault.BadItem ↔ (item_of bytes.now ty.now ≡ None) }
{
    if !is_run(bytes) {
        return Err(ItemFault::BadItem);
    }
    match ty {
        Ty::Integer => match whole(bytes) {
            Some(number) => Ok(Value::Whole(number)),
            None => Err(ItemFault::BadItem),
        },
        Ty::Logical => match truth(bytes) {
            Some(truth) => Ok(Value::Truth(truth)),
            None => Err(ItemFault::BadItem),
        },
        Ty::Character(_) => Ok(Value::Chars(Bytes::from_slice(alloc, bytes)?)),
    }
}

/// Whether the bytes are one item: not empty, and without blanks and line ends.
fn is_run(bytes: &[u8]) -> bool
    ensures { result ≡ is_run_of bytes.now }
{
    match bytes {
        [] => false,
        [..] => are_item_bytes(bytes),
    }
}

fn are_item_bytes(bytes: &[u8]) -> bool
    ensures { result ≡ list_all is_item_byte_of bytes.now }
{
    bytes.iter().all(|byte| is_item_byte(*byte))
}

/// Whether the byte can be in an item (Fortran 90, 10.8.1): it is no blank, tab, CR or LF.
pub fn is_item_byte(byte: u8) -> bool
    ensures { result ≡ is_item_byte_of byte }
{
    !is_blank(byte) && byte != b'\r' && byte != b'\n'
}

/// The integer that the bytes say, where they are an optional sign and digits and it has 32 bits.
#[tactic(auto, using(crate::proofs::Numbers::whole_of_no_text))]
fn whole(bytes: &[u8]) -> Option<i32>
    ensures { result ≡ whole_of bytes.now }
{
    match str::from_utf8(bytes) {
        Ok(text) => whole_in(text),
        Err(_) => None,
    }
}

#[tactic(auto, using(crate::proofs::Numbers::whole_of_parsed))]
fn whole_in(text: &str) -> Option<i32>
    ensures { result ≡ whole_of text.now }
{
    text.parse::<i32>().ok()
}

/// The truth value that the bytes say.
fn truth(bytes: &[u8]) -> Option<bool>
    ensures { result ≡ truth_of bytes.now }
{
    match bytes {
        [letter] => said_by(*letter),
        [b'.', letter] => said_by(*letter),
        _ => None,
    }
}

fn said_by(letter: u8) -> Option<bool>
    ensures { result ≡ truth_of_letter letter }
{
    match letter {
        b't' | b'T' => Some(true),
        b'f' | b'F' => Some(false),
        _ => None,
    }
}

/// The law that the item of a record of one value is read back as that value: an integer of 32 bits as an
/// integer, a truth value as a logical, and a character value that is an item as a character value.
pub fn items_are_read_back()
    ensures { ItemsAreReadBack }
{}
