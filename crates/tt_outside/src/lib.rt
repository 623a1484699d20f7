//! What a tool is handed from outside: where bytes come from, where they go, files, a tree of directories, and a crew
//! whose hands run the commands of tests. Each is a trait; beside it stands an object in memory that keeps it and tells
//! all that it holds.
#![tactic(auto)]

mod crew;
mod equal;
mod files;
mod gate_crew;
mod listing;
mod mem_crew;
mod mem_files;
mod mem_sink;
mod mem_source;
mod mem_tree;
mod plan;
mod planned;
mod request;
mod seats;
mod shared;
mod sharing;
mod sink;
mod source;
mod test_data;
mod transfer;
mod tree;

pub use crew::{Crew, Left, Runner};
pub use equal::{pairs, same_pairs, same_texts, texts};
pub use files::{Files, FilesFault};
pub use gate_crew::{GateCrew, GateHand};
pub use listing::are_nested;
pub use mem_crew::{MemCrew, MemHand};
pub use mem_files::{MemFiles, Named};
pub use mem_sink::MemSink;
pub use mem_source::MemSource;
pub use mem_tree::MemTree;
pub use planned::Planned;
pub use request::{Entry, Finish, Pair, Reply, Request, Stream, fits};
pub use seats::{Seats, Work};
pub use shared::{SharedBytes, SharedItems};
pub use sharing::law_of_sharing;
pub use sink::Sink;
pub use source::{Failed, Source};
pub use test_data::Test;
pub use transfer::{TakeFault, take_all, write_all};
pub use tree::{Counted, Item, ItemKind, Node, Tree, TreeFault};
