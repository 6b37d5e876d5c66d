//! The calls of a site by their kinds, and those of one kind that fail.

ghost use Rattle.std.specs.Prelude.{◌≡◌, ◌↔◌, IsTrue};
ghost use Rattle.rc_failing.specs.Named.{IsOfKind, Passes};

use rc_volume::Side;

/// A call of a site by its kind. `Fill` is the read of a reader.
#[derive(Clone, Copy, Debug, PartialEq, Eq)]
pub enum Call {
    Bind(Side),
    RecordLen,
    NextEntry(Side),
    Stat(Side),
    MakeDir,
    MakeFile,
    Put,
    SetLen,
    SetProps,
    Remove,
    Sync,
    RecordRead,
    RecordWrite,
    RecordCut,
    RecordSync,
    Reader,
    Fill,
}

// The calls of a kind that fail: behind so many others, so many.
#[derive(Clone, Copy, Debug)]
pub(crate) struct FailingKind {
    pub(crate) call: Call,
    pub(crate) before: u64,
    pub(crate) times: u64,
}

impl FailingKind {
    // Whether this call, which comes now, fails.
    pub(crate) fn is_due(&mut self, call: Call) -> bool
        ensures due { IsTrue result ↔ IsOfKind self.old call }
        ensures passes { Passes call self.old self.new }
    {
        if self.call != call {
            return false;
        }
        if self.before > 0 {
            self.before -= 1;
            return false;
        }
        if self.times == 0 {
            return false;
        }
        self.times -= 1;
        true
    }
}
