//! Bytes and the items that they are: the letter of a type, the bytes, and the item as it is written or `!`.

use crate::tests::fields::halves;
use ftn_base::{Length, Ty};
use list_io::{ItemFault, item, line};
use std::alloc::Global;

const INTEGERS: &[u8] =
    b"i0~0;i+0~0;i-0~0;i+5~5;i-41~-41;i1000~1000;i0000000000007~7;i-0000000000007~-7;\
i2147483647~2147483647;i-2147483648~-2147483648;i~!;i+~!;i-~!;i+-5~!;i--5~!;i5-~!;i1.~!;i1_4~!;i0x10~!;\
iT~!;i1,2~!;i\xff~!;i4\xff~!;i 5~!;i5\n~!;i2147483648~!;i-2147483649~!;i99999999999999999999999999~!;\
i ~!;ia b~!;ia\tb~!;ia\r~!;i\na~!";

const OTHERS: &[u8] =
    b"lt~T;lT~T;l.t~T;l.T~T;lf~F;lF~F;l.f~F;l.F~F;l~!;l.~!;l..t~!;ltrue~!;l.true.~!;lt.~!;\
ltf~!;l1~!;lx~!;lT ~!;l\tT~!;l ~!;la b~!;la\tb~!;la\r~!;l\na~!;\
ca~a;cabcdef~abcdef;c'a'~'a';c-5~-5;c.~.;c\x00\xff!~\x00\xff!;ca,b~a,b;c~!;c ~!;ca b~!;ca\tb~!;ca\r~!;c\na~!";

/// Whether the row's bytes are read as it says.
fn holds(alloc: Global, row: &[u8]) -> Option<bool> {
    let (asked, wanted) = halves(row)?;
    let (letter, bytes) = asked.split_first()?;
    let ty = match *letter {
        b'i' => Ty::Integer,
        b'l' => Ty::Logical,
        _ => Ty::Character(Length::Fixed(2)),
    };
    match item(alloc, bytes, &ty) {
        Ok(value) => {
            let values = vec![in alloc; value].ok()?;
            Some(line(alloc, &values).ok()?.bytes().trim_ascii() == wanted)
        }
        Err(ItemFault::BadItem) => Some(wanted == b"!".as_slice()),
        Err(ItemFault::NoMemory) => None,
    }
}

#[test]
fn items_are_read_as_rows_say(rt: HostRuntime) {
    for rows in [INTEGERS, OTHERS] {
        for row in rows.split(|byte| *byte == b';') {
            assert!(rt; holds(rt.alloc(), row) == Some(true));
        }
    }
}
