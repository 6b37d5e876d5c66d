//! What tests of several crates begin with: small trees in memory.
#![tactic(auto)]

mod trees;

pub use trees::{FixtureErr, Row, flat_tree, plain_props, put_entry};
