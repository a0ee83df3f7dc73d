//! Files, sources and sinks that count their faults.
//!
//! A tool that reads and writes through these traits can say why it failed: a call answers
//! [`Failed`] only if its count of faults rose in this call, or is at the counter's last value. So
//! an error that a caller reports is one that really happened. Contracts know what a file holds,
//! what a source has left and what a sink took if the type says it: the types in memory do, those
//! of the system do not.
#![tactic(auto)]

mod files;
mod kinds;
mod memory;
mod named;
mod read;
mod sources;
mod sure;
mod system;
mod write;

pub use files::MemFiles;
pub use kinds::{Failed, Files, Sink, Source};
pub use memory::{MemSink, NullSink};
pub use read::{ReadError, read_all, read_input};
pub use sources::MemSource;
pub use sure::{SureFiles, SureSource};
pub use system::{StdFiles, StdSink, StdSource};
pub use write::{WriteFault, write_all};
