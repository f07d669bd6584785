//! The outside of a rewriter of source files: a tree of files and a sink for a report. Each is a trait
//! that counts its faults, with an implementation in memory and one over the runtime.
#![tactic(auto)]

mod calls;
mod entry;
mod folders;
mod mem_file;
mod mem_sink;
mod mem_tree;
mod real_sink;
mod real_tree;
mod sink;
mod tree;
mod walk;

pub use folders::skipped_folder;
pub use mem_file::MemFile;
pub use mem_sink::MemSink;
pub use mem_tree::MemTree;
pub use real_sink::RealSink;
pub use real_tree::RealTree;
pub use sink::{Sink, write_all};
pub use tree::{Call, Failed, Tree, TreeFault};
