//! The edge of the engine: a shelf where input files are read, and a sink where bytes are written.
#![tactic(auto)]

mod file_shelf;
mod mem_shelf;
mod mem_sink;
mod null_sink;
mod shelf;
mod sink;
mod std_sink;

pub use file_shelf::FileShelf;
pub use mem_shelf::MemShelf;
pub use mem_sink::MemSink;
pub use null_sink::NullSink;
pub use shelf::{FetchFault, Shelf, Size};
pub use sink::{Failed, Sink};
pub use std_sink::StdSink;
