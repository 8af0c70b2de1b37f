//! The files of a generated project.

ghost use Rattle.std.specs.Prelude.{◌≡◌, ◌<◌, true, codes, IfOk};
ghost use Rattle.ftn_base.specs.Names.{is_file_name};
ghost use Rattle.gen_project.specs.Files as spec;

use crate::texts::{text_of_main, text_of_module};
use ftn_base::{Bytes, FileName, NameFault, NoMemory};
use std::alloc::Global;

fn file_name(alloc: Global, bytes: &[u8]) -> Result<FileName, NoMemory>
    requires { is_file_name bytes.now ≡ true }
    ensures { IfOk result (λ name. name ≡ bytes.now) }
{
    match FileName::new(alloc, bytes) {
        Ok(name) => Ok(name),
        Err(NameFault::NotAName) => unreachable!(),
        Err(NameFault::NoMemory) => Err(NoMemory),
    }
}

#[tactic(auto, using(crate::proofs::Names::is_module_file))]
fn file_of_module(alloc: Global, i: u32) -> Result<FileName, NoMemory>
    requires { i < 2000 }
    ensures { IfOk result (λ name. name ≡ spec.file_of_module i) }
{
    let number = i.to_string(alloc)?;
    let mut bytes = Vec::from_slice(alloc, b"m")?;
    bytes.extend_from_slice(number.as_bytes())?;
    bytes.extend_from_slice(b".f90")?;
    file_name(alloc, &bytes)
}

fn module_file(alloc: Global, seed: u32, i: u32) -> Result<(FileName, Bytes), NoMemory>
    requires seed { seed < 1000000 }
    requires number { i < 2000 }
    ensures { IfOk result (λ file. file ≡ spec.module_file seed i) }
{
    let name = file_of_module(alloc, i)?;
    let text = text_of_module(alloc, seed, i)?;
    Ok((name, text))
}

fn main_file(alloc: Global, count: u32) -> Result<(FileName, Bytes), NoMemory>
    ensures { IfOk result (λ file. file ≡ spec.main_file count) }
{
    let name = file_name(alloc, b"main.f90")?;
    let text = text_of_main(alloc, count)?;
    Ok((name, text))
}

/// The project of a seed: 1 + seed mod 2000 modules, in the order of their numbers, and then the program that calls them.
/// So the names aren't in byte order: `m10.f90` stands after `m2.f90`, and `main.f90` is the last one.
#[tactic(auto, using(crate::proofs::Lines::one_more_file))]
pub fn make(alloc: Global, seed: u32) -> Result<Vec<(FileName, Bytes)>, NoMemory>
    requires { seed < 1000000 }
    ensures { IfOk result (λ files. files.items ≡ spec.project_files seed) }
{
    let count = 1 + seed % 2000;
    let mut files = Vec::new(alloc);
    for i in 0..count {
        files.push(module_file(alloc, seed, i)?)?;
    }
    files.push(main_file(alloc, count)?)?;
    Ok(files)
}
