//! All that a run knows while it copies the files of a plan.

use crate::{FileRows, Nodes, UnitRows};
use rc_class::{Noted, Rules};

/// The opening, and how far each file and each unit has come.
#[derive(Debug, Drop)]
pub struct State {
    /// The opening: the plan with its marks, what goes along, and both trees.
    pub noted: Noted,
    pub rules: Rules,
    pub source: Nodes,
    pub target: Nodes,
    /// How often a failed attempt may be repeated.
    pub retries: u32,
    pub files: FileRows,
    pub units: UnitRows,
    /// The next ticket. 0 means not held.
    pub next: u64,
    /// Whether a stop ended the run. Then it is to be run again before all else.
    pub stopped: bool,
}
