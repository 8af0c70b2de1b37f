//! Devices of the system and in memory, one call after another.

use ftn_base::FileName;
use std::alloc::Global;
use std::io::{ErrorKind, Read, Write};
use std::{fs, io};
use store_io::{
    DirStore, MemSink, MemSource, ReadFault, Sink, SinkFault, Source, StdSink, StdSource, Store,
    write_all,
};

/// A reader that is interrupted once, then gives a byte, and then fails.
#[derive(Drop)]
struct Halting {
    turn: u8,
}

impl Read for Halting {
    fn read(&mut self, buf: &mut [u8]) -> io::Result<usize> {
        self.turn = self.turn.saturating_add(1);
        if self.turn == 1 {
            return Err(io::Error::from(ErrorKind::Interrupted));
        }
        if self.turn > 2 || buf.is_empty() {
            return Err(io::Error::from(ErrorKind::Other));
        }
        buf[0] = b'x';
        Ok(1)
    }
}

/// A writer that takes nothing.
#[derive(Drop)]
struct Full;

impl Write for Full {
    fn write(&mut self, _buf: &[u8]) -> io::Result<usize> {
        Ok(0)
    }

    fn flush(&mut self) -> io::Result<()> {
        Ok(())
    }
}

/// A source of three bytes whose second call fails.
fn memory_gives(alloc: Global) -> Option<bool> {
    let bytes = Vec::from_slice(alloc, b"abc").ok()?;
    let mut source = MemSource::new(bytes, Vec::from_slice(alloc, &[2]).ok()?);
    let mut into = [0u8; 2];
    let first = source.read(&mut into).ok()?;
    let second = source.read(&mut into).is_err();
    let left = source.left() == b"c".as_slice();
    let third = source.read(&mut into).ok()?;
    let last = source.read(&mut into).ok()?;
    Some(second && left && first == 2 && third == 1 && last == 0 && into == *b"cb")
}

/// A sink whose second call fails.
fn memory_takes(alloc: Global) -> Option<bool> {
    let mut sink = MemSink::new(Vec::from_slice(alloc, &[2]).ok()?);
    write_all(&mut sink, b"end\n").ok()?;
    let failed = matches!(write_all(&mut sink, b"end\n"), Err(SinkFault::Failed));
    write_all(&mut sink, b"x").ok()?;
    Some(failed && sink.bytes() == b"end\nx".as_slice())
}

fn reader_gives() -> Option<bool> {
    let mut source = StdSource::new(Halting { turn: 0 });
    let mut into = [0u8; 3];
    let first = source.read(&mut into).ok()?;
    Some(first == 1 && source.read(&mut into).is_err())
}

fn writer_takes() -> bool {
    let mut full = StdSink::new(Full);
    full.write(b"").is_ok() && matches!(write_all(&mut full, b"x"), Err(SinkFault::Failed))
}

/// A folder in the place of a file can be neither read nor replaced.
fn folder_fails(rt: &HostRuntime) -> Option<bool> {
    let alloc = rt.alloc();
    fs::create_dir(rt, "folder.f90").ok()?;
    let mut store = DirStore::new(rt, alloc);
    let name = FileName::new(alloc, b"folder.f90").ok()?;
    store.prepare(1).ok()?;
    let unread = matches!(store.read(&name, 3), Err(ReadFault::Failed));
    let unlisted = store.list().ok()?.iter().all(|name| !name.is_source());
    let kept = store.replace(name, Vec::new(alloc)).is_err();
    fs::remove_dir(rt, "folder.f90").ok()?;
    Some(unread && unlisted && kept)
}

#[test]
fn devices_give_take_and_fail(rt: HostRuntime) {
    assert!(rt; memory_gives(rt.alloc()) == Some(true));
    assert!(rt; memory_takes(rt.alloc()) == Some(true));
    assert!(rt; reader_gives() == Some(true));
    assert!(rt; writer_takes());
    assert!(rt; folder_fails(&rt) == Some(true));
}
