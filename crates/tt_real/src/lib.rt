//! The trusted edge: the system's streams, files, folders and programs as the sources, sinks, files, tree and crew of
//! `tt_outside`. What the system does is trusted; each error of it is a fault that is counted, and nothing is told of
//! the bytes.
#![tactic(auto)]

mod child;
mod command;
mod crew;
mod disk;
mod files;
mod input;
mod read_buffer;
mod reader;
mod told;
mod tree;
mod writer;

pub use crew::{StdCrew, StdHand};
pub use files::StdFiles;
pub use reader::{ReaderSource, StdSource};
pub use tree::StdTree;
pub use writer::{StdErr, StdOut, WriterSink};
