//! The files and the standard output of the system, behind the traits of `outside`.
//!
//! *Stands on* `outside` and on the operating system. *Promise*: what each call asked of the system and
//! what it was answered stands in the history that the traits have contracts see. That the system's
//! calls do what they say is trusted.
#![tactic(auto)]

mod real_files;
mod real_sink;
mod real_source;

pub use real_files::RealFiles;
pub use real_sink::RealSink;
pub use real_source::RealSource;
