//! What a record stands for: the plan of a run, and how far the run came with it.

ghost use Rattle.std.specs.Prelude.{◌≡◌, IfOk};

use crate::Plan;
use rc_tree::NoMemory;
use std::alloc::Global;
use std::marker::Model;

/// Marks in their order: whether each stands. Contracts see them as the list.
#[derive(Debug, Drop)]
pub struct Marks {
    marks: Vec<bool>,
}

impl Model for Marks {
    ghost use Rattle.std.specs.Prelude.{List, Bool};

    ghost Value = { List Bool };

    ghost view = { λ m. m.marks.items };
}

impl Marks {
    /// These marks.
    pub fn new(marks: Vec<bool>) -> Marks
        ensures { result ≡ marks.items }
    {
        Marks { marks }
    }

    /// The marks.
    pub fn marks(&self) -> &[bool]
        ensures { result.now ≡ self.now }
    {
        self.marks.as_slice()
    }

    /// The marks, without taking memory.
    pub fn into_marks(self) -> Vec<bool>
        ensures { result.items ≡ self }
    {
        let Marks { marks } = self;
        marks
    }

    /// Equal marks.
    pub fn copy(&self, alloc: Global) -> Result<Marks, NoMemory>
        ensures { IfOk result (λ copy. copy ≡ self.now) }
    {
        Ok(Marks {
            marks: self.marks.as_slice().to_vec(alloc)?,
        })
    }
}

/// A plan, and how far a run came with it.
#[derive(Debug, Drop)]
pub struct Noted {
    pub plan: Plan,
    /// For each unit of the plan, in their order, whether its bytes are in the target.
    pub units: Marks,
    /// For each item that is copied, in their order, whether the target's file is as it is to be.
    pub finished: Marks,
    /// Whether all that the plan asks of the target is done, so that the source's part is next.
    pub last: bool,
}

impl Noted {
    /// An equal value.
    pub fn copy(&self, alloc: Global) -> Result<Noted, NoMemory>
        ensures { IfOk result (λ copy. copy ≡ self.now) }
    {
        Ok(Noted {
            plan: self.plan.copy(alloc)?,
            units: self.units.copy(alloc)?,
            finished: self.finished.copy(alloc)?,
            last: self.last,
        })
    }
}
