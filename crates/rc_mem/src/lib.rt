//! The outside in memory: a site of two trees and a record, and the reader, sink, input, job store and clock beside
//! it. All of them tell everything that they hold, and nothing of them fails but for want of memory: their counts of
//! faults are 0 by definition.
//!
//! A tree is kept as an ordered map from keys to nodes, so that a call costs the logarithm of the entries and the bytes
//! that it touches; contracts see it as a finite map. The bytes of a file are shared by the tree and the readers that
//! were made of it, and are copied where they are written.
//!
//! [`WideSite`] is for limits: it tells nothing, and lists as many files as it is asked for.
#![tactic(auto)]

mod bytes;
mod clock;
mod input;
mod jobs;
mod logged;
mod node;
mod nodes;
mod reader;
mod sink;
mod site;
mod tree;
mod wide;

pub use bytes::SharedBytes;
pub use clock::FixedClock;
pub use input::MemInput;
pub use jobs::{JobBytes, MemJobs};
pub use logged::{EntryCall, Logged, NotesCall};
pub use node::TreeNode;
pub use nodes::Nodes;
pub use reader::{MemReader, MemTally};
pub use sink::MemSink;
pub use site::{MemSite, log_change, log_notes};
pub use tree::Tree;
pub use wide::WideSite;
