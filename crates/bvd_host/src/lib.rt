//! What the program meets outside itself: files, input and output, as traits with a written meaning. All other crates
//! know the outside by these traits alone, so the same proved code runs over memory in tests and over real devices.
#![tactic(auto)]

mod disk_keeper;
mod failing_calls;
mod keeper;
mod kept_file;
mod map_keeper;
mod sink;
mod slice_source;
mod source;
mod stdout_sink;
#[cfg(test)]
mod tests;
mod vec_sink;

pub use disk_keeper::DiskKeeper;
pub use keeper::{KeepStop, Keeper};
pub use kept_file::KeptFile;
pub use map_keeper::MapKeeper;
pub use sink::{Sink, SinkStop};
pub use slice_source::SliceSource;
pub use source::{Source, SourceStop};
pub use stdout_sink::StdoutSink;
pub use vec_sink::VecSink;
