//! What was touched of a file since the last sync of the target.

ghost use Rattle.std.specs.Prelude.{◌≡◌, [], Ok, Err};
ghost use Rattle.rc_core.specs.Rows.{Leaves};
ghost use Rattle.rc_core.specs.Touched.{more_touched, untouched};

use crate::Standing;
use rc_tree::NoMemory;
use std::alloc::Global;
use std::marker::Model;

/// What a file has had since the last sync of the target, and the ranges that were put since then: an offset and a
/// length each. Contracts see both lists.
#[derive(Debug, Drop)]
pub struct Touched {
    had: Vec<Option<Standing>>,
    puts: Vec<(u64, u64)>,
}

impl Model for Touched {
    ghost use Rattle.rc_core.specs.Touched.{Touched as Past, coded_touched};

    ghost Value = { Past };

    ghost coded = { coded_touched };

    ghost view = { λ t. record { had = t.had.items; puts = t.puts.items } };
}

impl Touched {
    /// Nothing.
    pub fn nothing(alloc: Global) -> Touched
        ensures { result ≡ untouched }
    {
        Touched {
            had: Vec::new(alloc),
            puts: Vec::new(alloc),
        }
    }

    /// What it had.
    pub(crate) fn had(&self) -> &[Option<Standing>]
        ensures { result.now ≡ self.now.had }
    {
        self.had.as_slice()
    }

    /// The ranges that were put.
    pub(crate) fn puts(&self) -> &[(u64, u64)]
        ensures { result.now ≡ self.now.puts }
    {
        self.puts.as_slice()
    }

    /// It had these too, and these ranges were put. Where memory is wanting all is as it was.
    pub(crate) fn add(
        &mut self,
        had: Vec<Option<Standing>>,
        puts: Vec<(u64, u64)>,
    ) -> Result<(), NoMemory>
        ensures { Leaves result self.old (more_touched had.items puts.items self.old) self.new }
    {
        let mut had = had;
        let mut puts = puts;
        self.puts.reserve(puts.len())?;
        self.had.append(&mut had)?;
        // there is room for these
        self.puts.append(&mut puts)?;
        Ok(())
    }

    /// The target was synced.
    pub(crate) fn clear(&mut self)
        ensures { self.new ≡ untouched }
    {
        self.had.clear();
        self.puts.clear();
    }
}
