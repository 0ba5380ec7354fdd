//! The outside world as traits: sources and sinks of bytes, files, and the gate that each entry passes;
//! and adapters over memory.
//!
//! *Stands on* `stream_base`, for the answer that memory ran out alone. *Promise*: each trait says by its
//! history what its calls did: which names were asked for and what became of each open, which bytes
//! were given and taken, and how many calls failed. An adapter over anything keeps that history in logs
//! that take no memory.
#![tactic(auto)]

mod byte_log;
mod came_log;
mod file_log;
mod files;
mod gate;
mod mem_file;
mod mem_files;
mod mem_sink;
mod mem_source;
mod name_log;
mod read_log;
mod sink;
mod source;

pub use byte_log::ByteLog;
pub use file_log::FileLog;
pub use files::Files;
pub use gate::{Gate, OpenGate};
pub use mem_file::MemFile;
pub use mem_files::MemFiles;
pub use mem_sink::MemSink;
pub use mem_source::MemSource;
pub use read_log::ReadLog;
pub use sink::Sink;
pub use source::{Failed, Source};
