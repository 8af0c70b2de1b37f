//! A store in memory.

ghost use Rattle.std.specs.List.{position, remove};
ghost use Rattle.std.specs.Option.{option_map};
ghost use Rattle.std.specs.Ordering.{eq_by_cmp};
ghost use Rattle.std.specs.Prelude.{◌≡◌, ◌≢◌, ◌⊎◌, ◌↔◌, ◌<◌, ◌≤◌, ◌+◌, ◌-◌, ℕ, List, [], ◌++◌, ◌∷◌, length, take, drop, slice_set, vec_len, vec_capacity, IfErr, IfNone, IfOk, IfSome, IsErr, IsErrOf, IsSome, OnOk, None, Some, if◌then◌else◌};
ghost use Rattle.ftn_base.specs.Files.{IsInOrder, by_name, names_of, text_of, with_file};
ghost use Rattle.store_io.specs.Counts.{Rose, next_count};
ghost use Rattle.store_io.specs.Failures.{failure_at, faults_after, makes_change, read_failure};
ghost use Rattle.store_io.specs.Memory.{Held};
ghost use Rattle.store_io.specs.Told.{without_file};

use crate::fault::{Failed, ListFault, ReadFault, RemoveFault};
use crate::store::Store;
use crate::store_calls::{FailAt, StoreCalls};
use ftn_base::{Bytes, FileName, NoMemory};
use std::alloc::Global;
use std::cmp::Ordering;
use std::marker::Model;

/// A store that keeps its files in memory and tells them. It fails at the calls that it was given, and at no
/// other. Contracts see its files, in byte order of names, its spare places, the calls that fail, and the counts
/// of calls and faults, which stand still at the end of a u64.
#[derive(Drop)]
pub struct MemStore {
    files: Vec<(FileName, Bytes)>,
    calls: StoreCalls,
}

impl Model for MemStore {
    ghost use Rattle.std.specs.Prelude.{◌-◌, vec_len, vec_capacity};
    ghost use Rattle.ftn_base.specs.Files.{IsInOrder};
    ghost use Rattle.store_io.specs.Memory.{Held};

    ghost Value = { Held };

    ghost view = { λ a. record { files = a.files.items; spare = vec_capacity a.files - vec_len a.files; fails = a.calls.fails.items; from = a.calls.from; calls = a.calls.calls; faults = a.calls.faults } };

    ghost invariant = { λ a. IsInOrder a.files.items };
}

impl MemStore {
    /// The store of these files, whose names rise in byte order. It never fails. It takes no memory.
    pub fn new(files: Vec<(FileName, Bytes)>) -> MemStore
        requires { IsInOrder files.items }
        ensures { result ≡ record { files = files.items; spare = vec_capacity files - vec_len files; fails = []; from = None; calls = 0; faults = 0 } }
    {
        let fails = Vec::new(*files.allocator());
        MemStore::failing(files, fails, None)
    }

    /// The store of these files, whose names rise in byte order. It fails at the listed calls, where of several
    /// entries for one call the first counts, and at each call from `from` on, where there is such a number; a
    /// call that isn't listed then makes no change. Calls of `list`, `read`, `replace` and `remove` are counted from 1. A
    /// read or a removal of a file that isn't there never fails. It takes no memory.
    pub fn failing(files: Vec<(FileName, Bytes)>, fails: Vec<FailAt>, from: Option<u64>) -> MemStore
        requires { IsInOrder files.items }
        ensures { result ≡ record { files = files.items; spare = vec_capacity files - vec_len files; fails = fails.items; from = from; calls = 0; faults = 0 } }
    {
        MemStore {
            files,
            calls: StoreCalls::new(fails, from),
        }
    }

    /// The files, in byte order of names.
    pub fn files(&self) -> &[(FileName, Bytes)]
        ensures files { result.now ≡ self.now.files }
        ensures told { ⟦<MemStore as Store>⟧.files self.now ≡ Some result.now }
        ensures in_order { IsInOrder result.now }
    {
        &self.files
    }
}

/// A law: in a store without failing calls, no call is one of them. So its count of faults never rises, and none of
/// its calls answers `Failed`.
pub fn mem_store_never_fails()
    ensures { (call : ℕ) → failure_at [] None call ≡ None }
{}

// the text of the file of that name
#[tactic(auto, using(crate::proofs::Placing::found_later, crate::proofs::Placing::found_here))]
fn text_here<'a>(files: &'a [(FileName, Bytes)], name: &FileName) -> Option<&'a Bytes>
    ensures found { IfSome result (λ text. text_of files.now name.now ≡ Some text.now) }
    ensures absent { IfNone result (text_of files.now name.now ≡ None) }
{
    for file in files {
        if name.cmp(&file.0).is_eq() {
            return Some(&file.1);
        }
    }
    None
}

// the place of the file of that name, or else the place where it belongs
fn place_of(files: &[(FileName, Bytes)], name: &FileName) -> Result<usize, usize>
    ensures found { IfOk result (λ at. (at < length files.now) × ((text : List ℕ) → with_file name.now text files.now ≡ slice_set files.now at (name.now, text))) }
    ensures missing { IfErr result (λ at. (at ≤ length files.now) × ((text : List ℕ) → with_file name.now text files.now ≡ take at files.now ++ (name.now, text) ∷ drop at files.now)) }
{
    let mut at = 0;
    'places: while at < files.len() {
        match name.cmp(&files[at].0) {
            Ordering::Less => return Err(at),
            Ordering::Equal => return Ok(at),
            Ordering::Greater => at += 1,
        }
    }
    Err(at)
}

// the names of the files
fn names_in(files: &[(FileName, Bytes)], alloc: Global) -> Result<Vec<FileName>, ListFault>
    ensures names { IfOk result (λ names. names.items ≡ names_of files.now) }
    ensures not_failed { IsErrOf result ListFault.Failed → ⊥ }
{
    let mut names = Vec::new(alloc);
    for file in files {
        names.push(file.0.copy(alloc)?)?;
    }
    Ok(names)
}

// the first `most + 1` bytes of the text, or the whole where it is shorter
fn front_of(text: &[u8], most: u32, alloc: Global) -> Result<Vec<u8>, ReadFault>
    ensures front { IfOk result (λ front. front.items ≡ take (most + 1) text.now) }
    ensures no_memory { IfErr result (λ fault. fault ≡ ReadFault.NoMemory) }
{
    let count = text.len().min(most as usize + 1);
    Ok(Vec::from_slice(alloc, &text[..count])?)
}

// puts the text under the name, in a place that needs no memory
fn put(files: &mut Vec<(FileName, Bytes)>, name: FileName, text: Bytes)
    requires { vec_len files.old < vec_capacity files.old }
    ensures put { files.new.items ≡ with_file name text files.old.items }
    ensures room { (vec_len files.new ≤ vec_len files.old + 1) × (vec_capacity files.old ≤ vec_capacity files.new) }
{
    match place_of(files, &name) {
        Ok(at) => files[at] = (name, text),
        Err(at) => files.insert(at, (name, text)).unwrap(),
    }
}

// the first place of that name
fn first_place(files: &[(FileName, Bytes)], name: &FileName) -> Option<usize>
    ensures place { result ≡ position (λ file. eq_by_cmp by_name name.now file.0) files.now }
    ensures within { IfSome result (λ at. at < length files.now) }
{
    files.iter().position(|file| name.cmp(&file.0).is_eq())
}

// the place of the file of that name
#[tactic(auto, using(crate::proofs::Removing::removed_in, crate::proofs::Removing::present_in, crate::proofs::Removing::absent_at))]
fn place_in(files: &[(FileName, Bytes)], name: &FileName) -> Option<usize>
    requires { IsInOrder files.now }
    ensures within { IfSome result (λ at. at < length files.now) }
    ensures found { IfSome result (λ at. remove files.now at ≡ without_file name.now files.now) }
    ensures present { IsSome result → text_of files.now name.now ≢ None }
    ensures absent { IfNone result (text_of files.now name.now ≡ None) }
{
    first_place(files, name)
}

// takes the file at that place away where a call that fails so, if it does, makes its change
fn remove_at(files: &mut Vec<(FileName, Bytes)>, failure: Option<FailAt>, at: usize)
    requires { at < length files.old.items }
    ensures removed { files.new.items ≡ (if makes_change failure then remove files.old.items at else files.old.items) }
    ensures room { (vec_len files.new ≤ vec_len files.old) × (vec_capacity files.old ≤ vec_capacity files.new) }
{
    if makes_change(failure) {
        let _ = files.remove(at);
    }
}

// whether a call that fails so, if it does, makes its change
fn makes_change(failure: Option<FailAt>) -> bool
    ensures { result ≡ makes_change failure }
{
    match failure {
        Some(failure) => failure.done,
        None => true,
    }
}

// puts the text under the name where a call that fails so, if it does, makes its change
fn put_at(files: &mut Vec<(FileName, Bytes)>, failure: Option<FailAt>, name: FileName, text: Bytes)
    requires { vec_len files.old < vec_capacity files.old }
    ensures put { files.new.items ≡ (if makes_change failure then with_file name text files.old.items else files.old.items) }
    ensures room { (vec_len files.new ≤ vec_len files.old + 1) × (vec_capacity files.old ≤ vec_capacity files.new) }
{
    if makes_change(failure) {
        put(files, name, text);
    }
}

impl Store for MemStore {
    ghost files = { λ store. Some store.files };

    ghost spare = { λ store. store.spare };

    ghost faults = { λ store. store.faults };

    fn prepare(&mut self, more: u32) -> Result<(), NoMemory>
        ensures room { OnOk result (more ≤ self.new.spare) }
        ensures files { self.new.files ≡ self.old.files }
        ensures fails { self.new.fails ≡ self.old.fails }
        ensures from { self.new.from ≡ self.old.from }
        ensures calls { self.new.calls ≡ self.old.calls }
        ensures faults { self.new.faults ≡ self.old.faults }
    {
        self.files.reserve(more as usize)?;
        Ok(())
    }

    fn list(&mut self) -> Result<Vec<FileName>, ListFault>
        ensures names { IfOk result (λ names. (names.items ≡ names_of self.old.files) × IsInOrder self.old.files) }
        ensures listed { IsErrOf result ListFault.Failed ↔ IsSome (failure_at self.old.fails self.old.from self.new.calls) }
        ensures files { self.new.files ≡ self.old.files }
        ensures spare { self.new.spare ≡ self.old.spare }
        ensures fails { self.new.fails ≡ self.old.fails }
        ensures from { self.new.from ≡ self.old.from }
        ensures calls { self.new.calls ≡ next_count self.old.calls }
        ensures faults { self.new.faults ≡ faults_after (failure_at self.old.fails self.old.from self.new.calls) self.old.faults }
        ensures later { self.old.faults ≤ self.new.faults }
        ensures failed { IsErrOf result ListFault.Failed → Rose self.old.faults self.new.faults }
    {
        if self.calls.next().is_some() {
            self.calls.fail();
            return Err(ListFault::Failed);
        }
        names_in(&self.files, *self.files.allocator())
    }

    fn read(&mut self, name: &FileName, most: u32) -> Result<Vec<u8>, ReadFault>
        ensures text { IfOk result (λ text. option_map (take (most + 1)) (text_of self.old.files name.now) ≡ Some text.items) }
        ensures bounded { IfOk result (λ text. length text.items ≤ most + 1) }
        ensures absent { IsErrOf result ReadFault.Absent ↔ (text_of self.old.files name.now ≡ None) }
        ensures listed { IsErrOf result ReadFault.Failed ↔ IsSome (read_failure (text_of self.old.files name.now) (failure_at self.old.fails self.old.from self.new.calls)) }
        ensures files { self.new.files ≡ self.old.files }
        ensures spare { self.new.spare ≡ self.old.spare }
        ensures fails { self.new.fails ≡ self.old.fails }
        ensures from { self.new.from ≡ self.old.from }
        ensures calls { self.new.calls ≡ next_count self.old.calls }
        ensures faults { self.new.faults ≡ faults_after (read_failure (text_of self.old.files name.now) (failure_at self.old.fails self.old.from self.new.calls)) self.old.faults }
        ensures later { self.old.faults ≤ self.new.faults }
        ensures failed { IsErrOf result ReadFault.Failed → Rose self.old.faults self.new.faults }
    {
        let failure = self.calls.next();
        let Some(text) = text_here(&self.files, name) else {
            return Err(ReadFault::Absent);
        };
        if failure.is_some() {
            self.calls.fail();
            return Err(ReadFault::Failed);
        }
        front_of(text.bytes(), most, *self.files.allocator())
    }

    #[tactic(auto, using(crate::proofs::Placing::stays_in_order))]
    fn replace(&mut self, name: FileName, text: Vec<u8>) -> Result<(), Failed>
        requires { 1 ≤ self.old.spare }
        ensures files { self.new.files ≡ (if makes_change (failure_at self.old.fails self.old.from self.new.calls) then with_file name text.items self.old.files else self.old.files) }
        ensures listed { IsErr result ↔ IsSome (failure_at self.old.fails self.old.from self.new.calls) }
        ensures put { OnOk result (self.new.files ≡ with_file name text.items self.old.files) }
        ensures spare { self.old.spare ≤ self.new.spare + 1 }
        ensures fails { self.new.fails ≡ self.old.fails }
        ensures from { self.new.from ≡ self.old.from }
        ensures calls { self.new.calls ≡ next_count self.old.calls }
        ensures faults { self.new.faults ≡ faults_after (failure_at self.old.fails self.old.from self.new.calls) self.old.faults }
        ensures later { self.old.faults ≤ self.new.faults }
        ensures failed { IsErr result → Rose self.old.faults self.new.faults }
    {
        let failure = self.calls.next();
        put_at(&mut self.files, failure, name, Bytes::from_vec(text));
        if failure.is_some() {
            self.calls.fail();
            return Err(Failed);
        }
        Ok(())
    }

    #[tactic(auto, using(crate::proofs::Removing::kept_in_order))]
    fn remove(&mut self, name: &FileName) -> Result<(), RemoveFault>
        ensures files { IsErrOf result RemoveFault.Absent ⊎ (self.new.files ≡ (if makes_change (failure_at self.old.fails self.old.from self.new.calls) then without_file name.now self.old.files else self.old.files)) }
        ensures absent { IsErrOf result RemoveFault.Absent ↔ (text_of self.old.files name.now ≡ None) }
        ensures same { IsErrOf result RemoveFault.Absent → self.new.files ≡ self.old.files }
        ensures listed { IsErrOf result RemoveFault.Failed ↔ IsSome (read_failure (text_of self.old.files name.now) (failure_at self.old.fails self.old.from self.new.calls)) }
        ensures removed { OnOk result (self.new.files ≡ without_file name.now self.old.files) }
        ensures spare { self.old.spare ≤ self.new.spare }
        ensures fails { self.new.fails ≡ self.old.fails }
        ensures from { self.new.from ≡ self.old.from }
        ensures calls { self.new.calls ≡ next_count self.old.calls }
        ensures faults { self.new.faults ≡ faults_after (read_failure (text_of self.old.files name.now) (failure_at self.old.fails self.old.from self.new.calls)) self.old.faults }
        ensures later { self.old.faults ≤ self.new.faults }
        ensures failed { IsErrOf result RemoveFault.Failed → Rose self.old.faults self.new.faults }
    {
        let failure = self.calls.next();
        let Some(at) = place_in(&self.files, name) else {
            return Err(RemoveFault::Absent);
        };
        remove_at(&mut self.files, failure, at);
        if failure.is_some() {
            self.calls.fail();
            return Err(RemoveFault::Failed);
        }
        Ok(())
    }
}
