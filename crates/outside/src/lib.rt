//! What the engine meets outside itself: folders that it loads files from, and sinks that it puts
//! its answers into.
//!
//! Each is a trait that tells what it holds or has taken, where that is known, and counts its
//! faults. An answer `Failed` comes only where the count rose.
#![tactic(auto)]

mod counted;
mod fault;
mod folder;
mod kept;
mod memory_folder;
mod memory_sink;
mod next;
mod putting;
mod reading;
mod real_folder;
mod real_sink;
mod sink;
mod stored;
mod sure_folder;
mod sure_sink;

pub use fault::{LoadFault, PutFault};
pub use folder::Folder;
pub use memory_folder::MemoryFolder;
pub use memory_sink::MemorySink;
pub use reading::{load_prefix, look_prefix};
pub use real_folder::RealFolder;
pub use real_sink::RealSink;
pub use sink::Sink;
pub use sure_folder::SureFolder;
pub use sure_sink::SureSink;
