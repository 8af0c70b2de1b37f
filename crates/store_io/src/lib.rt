//! The outside: stores of files, sources of bytes and sinks for them, in memory and of the system.
//!
//! The traits say what each call changes of what a device tells, and when its counts rise; `MemStore`, `MemSource` and `MemSink` fail at
//! listed calls and at no others. To be trusted are all of its specs: `Told`, `Counts`, `Memory` and `Failures`. The devices of the
//! system (`DirStore`, `StdSource`, `StdSink`) tell no content: that a rename on a real folder is whole isn't proved.
#![tactic(auto)]

mod dir_list;
mod dir_put;
mod dir_store;
mod failing;
mod failure;
mod fault;
mod mem_sink;
mod mem_source;
mod mem_store;
mod sink;
mod source;
mod std_sink;
mod std_source;
mod store;
mod store_calls;

pub use dir_store::DirStore;
pub use failure::{Failure, LeftOut, LeftOutReason, Step};
pub use fault::{Failed, ListFault, ReadFault, RemoveFault, SinkFault};
pub use mem_sink::MemSink;
pub use mem_source::MemSource;
pub use mem_store::{MemStore, mem_store_never_fails};
pub use sink::{Sink, write_all};
pub use source::Source;
pub use std_sink::StdSink;
pub use std_source::StdSource;
pub use store::Store;
pub use store_calls::FailAt;
