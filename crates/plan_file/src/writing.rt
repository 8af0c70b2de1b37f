//! The text of a plan.

ghost use Rattle.std.specs.Prelude.{◌≡◌, ◌++◌, IfOk, OnOk};
ghost use Rattle.plan_file.specs.Plans as spec;

use crate::plan::Plan;
use ftn_base::NoMemory;
use std::alloc::Global;

/// Adds the field that tells how many files there are.
pub(crate) fn put_count(alloc: Global, out: &mut Vec<u8>, count: usize) -> Result<(), NoMemory>
    ensures { OnOk result (out.new.items ≡ out.old.items ++ spec.count_field count) }
{
    let number = count.to_string(alloc)?;
    out.extend_from_slice(b"files ")?;
    out.extend_from_slice(number.as_bytes())?;
    out.extend_from_slice(b"\n")?;
    Ok(())
}

/// Adds the field with the length of a file's text and its name.
pub(crate) fn put_file_field(
    alloc: Global,
    out: &mut Vec<u8>,
    size: usize,
    name: &[u8],
) -> Result<(), NoMemory>
    ensures { OnOk result (out.new.items ≡ out.old.items ++ spec.file_field size name.now) }
{
    let digits = size.to_string(alloc)?;
    out.extend_from_slice(b"file ")?;
    out.extend_from_slice(digits.as_bytes())?;
    out.extend_from_slice(b" ")?;
    out.extend_from_slice(name)?;
    out.extend_from_slice(b"\n")?;
    Ok(())
}

fn put_file(alloc: Global, out: &mut Vec<u8>, name: &[u8], text: &[u8]) -> Result<(), NoMemory>
    ensures { OnOk result (out.new.items ≡ out.old.items ++ spec.entry (name.now, text.now)) }
{
    put_file_field(alloc, out, text.len(), name)?;
    out.extend_from_slice(text)?;
    out.extend_from_slice(b"\n")?;
    Ok(())
}

/// The one text of a valid plan.
pub fn write_plan(alloc: Global, plan: &Plan) -> Result<Vec<u8>, NoMemory>
    requires { spec.IsPlan plan.now.files }
    ensures { IfOk result (λ made. made.items ≡ spec.plan_text plan.now.files) }
{
    let files = plan.files.as_slice();
    let mut out = Vec::from_slice(alloc, b"ftn-plan 1\n")?;
    put_count(alloc, &mut out, files.len())?;
    for file in files {
        put_file(alloc, &mut out, file.0.bytes(), file.1.bytes())?;
    }
    out.extend_from_slice(b"end\n")?;
    Ok(out)
}
