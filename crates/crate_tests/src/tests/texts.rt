//! Plans, records and projects to test with.

use ftn_base::Bytes;
use ftn_tree::Value;
use gen_project::make;
use list_io::line;
use plan_file::{PlanFault, read_plan, write_plan};
use std::alloc::Global;

const PLAN: &[u8] = b"ftn-plan 1\nfiles 2\nfile 0 B.f90\n\nfile 11 a.f90\n123456789\n\xff\nend\n";

const RECORD: &[u8] = b" -2147483648 T ab \xff  F 10\n";

/// A plan is read, and written again; cut short it is none.
fn plans(alloc: Global) -> Option<bool> {
    let plan = read_plan(alloc, PLAN).ok()?;
    let text = write_plan(alloc, &plan).ok()?;
    let cut = read_plan(alloc, &PLAN[..40]);
    Some(text.as_slice() == PLAN && matches!(cut, Err(PlanFault::NotAPlan(33))))
}

fn records(alloc: Global) -> Option<bool> {
    let mut items = Vec::new(alloc);
    items.push(Value::Whole(i32::MIN)).ok()?;
    items.push(Value::Truth(true)).ok()?;
    let text = Bytes::from_slice(alloc, b"ab \xff").ok()?;
    items.push(Value::Chars(text).copy(alloc).ok()?).ok()?;
    let none = Bytes::from_slice(alloc, b"").ok()?;
    items.push(Value::Chars(none)).ok()?;
    items.push(Value::Truth(false)).ok()?;
    items.push(Value::Whole(10)).ok()?;
    Some(line(alloc, &items).ok()?.bytes() == RECORD)
}

/// The project with the fewest modules, and the one with the most.
fn projects(alloc: Global) -> Option<bool> {
    let few = make(alloc, 0).ok()?;
    let many = make(alloc, 1999).ok()?;
    let main = few.last()?;
    let named = main.0.bytes() == b"main.f90".as_slice();
    Some(named && few.len() == 2 && many.len() == 2001)
}

#[test]
fn plans_records_and_projects_have_memory(rt: HostRuntime) {
    let alloc = rt.alloc();
    assert!(rt; plans(alloc) == Some(true));
    assert!(rt; records(alloc) == Some(true));
    assert!(rt; projects(alloc) == Some(true));
}
