//! The outside of the agent: where bytes are read and written, and which files it has.
//!
//! The traits `Source`, `Sink` and `Files` have adapters over the runtime and adapters in memory.
//! Each counts its faults, and a call answers `Failed` only where that count rose.
#![tactic(auto)]

mod count;
mod failed;
mod file_source;
mod files;
mod mem_files;
mod mem_sink;
mod mem_source;
mod reading;
mod real_files;
mod sink;
mod source;
mod stdout_sink;
mod writing;

pub use failed::{Failed, FileRefusal};
pub use file_source::FileSource;
pub use files::Files;
pub use mem_files::MemFiles;
pub use mem_sink::MemSink;
pub use mem_source::MemSource;
pub use reading::read_up_to;
pub use real_files::RealFiles;
pub use sink::Sink;
pub use source::Source;
pub use stdout_sink::StdoutSink;
pub use writing::write_all;
