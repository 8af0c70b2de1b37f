//! The texts of a generated project.

ghost use Rattle.std.specs.Prelude.{◌≡◌, ◌++◌, ◌<◌, IfOk, OnOk};
ghost use Rattle.gen_project.specs.Files as spec;

use ftn_base::{Bytes, NoMemory};
use std::alloc::Global;

fn put(out: &mut Vec<u8>, text: &[u8], number: &[u8]) -> Result<(), NoMemory>
    ensures { OnOk result (out.new.items ≡ out.old.items ++ text.now ++ number.now) }
{
    out.extend_from_slice(text)?;
    out.extend_from_slice(number)?;
    Ok(())
}

#[tactic(auto, unfolding(crate::specs::Files::head_of))]
fn put_head(out: &mut Vec<u8>, number: &[u8], value: &[u8]) -> Result<(), NoMemory>
    ensures { OnOk result (out.new.items ≡ out.old.items ++ spec.head_of number.now value.now) }
{
    put(out, b"module m", number)?;
    put(out, b"\n  implicit none\n  integer :: v", number)?;
    put(out, b" = ", value)?;
    out.extend_from_slice(b"\ncontains\n")?;
    Ok(())
}

fn put_body(out: &mut Vec<u8>, number: &[u8]) -> Result<(), NoMemory>
    ensures { OnOk result (out.new.items ≡ out.old.items ++ spec.body_of number.now) }
{
    put(out, b"  subroutine s", number)?;
    put(
        out,
        b"(x)\n    integer, intent(inout) :: x\n    x = x + v",
        number,
    )?;
    out.extend_from_slice(b"\n")?;
    Ok(())
}

fn put_end(out: &mut Vec<u8>, number: &[u8]) -> Result<(), NoMemory>
    ensures { OnOk result (out.new.items ≡ out.old.items ++ spec.end_of number.now) }
{
    put(out, b"  end subroutine s", number)?;
    put(out, b"\nend module m", number)?;
    out.extend_from_slice(b"\n")?;
    Ok(())
}

/// The text of the module of that number.
pub fn text_of_module(alloc: Global, seed: u32, i: u32) -> Result<Bytes, NoMemory>
    requires seed { seed < 1000000 }
    requires number { i < 2000 }
    ensures { IfOk result (λ made. made ≡ spec.text_of_module seed i) }
{
    let number = i.to_string(alloc)?;
    let value = ((seed + 7 * i) % 1000).to_string(alloc)?;
    let mut text = Vec::new(alloc);
    put_head(&mut text, number.as_bytes(), value.as_bytes())?;
    put_body(&mut text, number.as_bytes())?;
    put_end(&mut text, number.as_bytes())?;
    Ok(Bytes::from_vec(text))
}

fn put_use(alloc: Global, out: &mut Vec<u8>, i: u32) -> Result<(), NoMemory>
    ensures { OnOk result (out.new.items ≡ out.old.items ++ spec.use_line i) }
{
    let number = i.to_string(alloc)?;
    put(out, b"  use m", number.as_bytes())?;
    out.extend_from_slice(b"\n")?;
    Ok(())
}

fn put_call(alloc: Global, out: &mut Vec<u8>, i: u32) -> Result<(), NoMemory>
    ensures { OnOk result (out.new.items ≡ out.old.items ++ spec.call_line i) }
{
    let number = i.to_string(alloc)?;
    put(out, b"  call s", number.as_bytes())?;
    out.extend_from_slice(b"(t)\n")?;
    Ok(())
}

#[tactic(auto, using(crate::proofs::Lines::one_more))]
fn put_uses(alloc: Global, out: &mut Vec<u8>, count: u32) -> Result<(), NoMemory>
    ensures { OnOk result (out.new.items ≡ out.old.items ++ spec.line_each spec.use_line count) }
{
    for i in 0..count {
        put_use(alloc, out, i)?;
    }
    Ok(())
}

#[tactic(auto, using(crate::proofs::Lines::one_more))]
fn put_calls(alloc: Global, out: &mut Vec<u8>, count: u32) -> Result<(), NoMemory>
    ensures { OnOk result (out.new.items ≡ out.old.items ++ spec.line_each spec.call_line count) }
{
    for i in 0..count {
        put_call(alloc, out, i)?;
    }
    Ok(())
}

fn put_head_of_main(alloc: Global, out: &mut Vec<u8>, count: u32) -> Result<(), NoMemory>
    ensures { OnOk result (out.new.items ≡ out.old.items ++ spec.uses_of count) }
{
    out.extend_from_slice(b"program main\n")?;
    put_uses(alloc, out, count)?;
    out.extend_from_slice(b"  implicit none\n")?;
    Ok(())
}

fn put_body_of_main(alloc: Global, out: &mut Vec<u8>, count: u32) -> Result<(), NoMemory>
    ensures { OnOk result (out.new.items ≡ out.old.items ++ spec.calls_of count) }
{
    out.extend_from_slice(b"  integer :: t\n  t = 0\n")?;
    put_calls(alloc, out, count)?;
    out.extend_from_slice(b"  print *, t\nend program main\n")?;
    Ok(())
}

/// The text of the program over so many modules.
pub fn text_of_main(alloc: Global, count: u32) -> Result<Bytes, NoMemory>
    ensures { IfOk result (λ made. made ≡ spec.text_of_main count) }
{
    let mut text = Vec::new(alloc);
    put_head_of_main(alloc, &mut text, count)?;
    put_body_of_main(alloc, &mut text, count)?;
    Ok(Bytes::from_vec(text))
}
