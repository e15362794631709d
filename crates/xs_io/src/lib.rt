//! The outside: what a program reads and writes, and how it fails.
//!
//! - `device`: the traits `Source`, `Sink` and `Shelf`. Each call moves some bytes or fails, and a
//!   failure shows in a count that never falls.
//! - `whole`: reading to the end, and writing all, over any device.
//! - `sources`, `sinks`, `shelves`: devices in memory, which fail where they are asked to, or only
//!   where they must. Their contracts say exactly when a call fails.
//! - `adapters`: devices over readers, writers and files of the real world.
#![tactic(auto)]

mod adapters;
mod call_log;
mod device;
mod folder;
mod front;
mod shelves;
mod sinks;
mod sources;
mod whole;

pub use adapters::{DirShelf, FromReader, ToWriter};
pub use device::{Failed, Shelf, Sink, Source};
pub use shelves::{MemShelf, SureShelf};
pub use sinks::{MemSink, SureSink};
pub use sources::{MemSource, SureSource};
pub use whole::{ReadStop, WriteFault, put_all, read_all, read_file};
