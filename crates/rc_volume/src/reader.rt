//! The reader of source bytes, beside the site.

ghost use Rattle.std.specs.Prelude.{◌≡◌, ℕ, Bool, true, List, length, OnOk};
ghost use Rattle.rc_tree.specs.Path.{key_of};
ghost use Rattle.rc_volume.specs.Faults.{RisesIf};
ghost use Rattle.rc_volume.specs.Streams.{read_failed};
ghost use Rattle.rc_volume.specs.Reading.{part_of, Opens};
ghost use Rattle.rc_volume.specs.declared.want.Want.{Want};

use rc_tree::Path;
use std::alloc::Global;
use thiserror::Error;

#[derive(Clone, Copy, Debug, PartialEq, Eq, Error)]
pub enum ReadErr {
    /// The bytes could not be read. The tally's count rose.
    #[error("reading failed")]
    Failed,
    #[error("out of memory")]
    NoMemory,
}

/// Reads the bytes of source files, beside the site, through a `&`, so that several can read at once. It does not
/// change.
pub trait Reader {
    /// What one user of the reader counts its failed reads in. It can't be copied, and only a failed `fill` raises it.
    type Tally: Send + Drop;

    /// Whether the reader tells its bytes.
    ghost tells: { Bool };

    /// What it was made for.
    ghost wants: { Self → List Want };

    /// The bytes of the file at a key.
    ghost bytes: { Self → List (List ℕ) → List ℕ };

    /// How many reads failed under a tally.
    ghost count: { Self.Tally → ℕ };

    /// A tally of no failed read.
    fn tally(&self) -> Self::Tally
        ensures { count result ≡ 0 };

    /// Fills all of `buf` with the bytes of the file at `path` from the offset `off` on, a range that the reader was
    /// made for. `attempt` is how many attempts at this part of the file failed before. After an error `buf` holds
    /// any bytes.
    fn fill(
        &self,
        alloc: Global,
        tally: &mut Self::Tally,
        path: &Path,
        attempt: u32,
        off: u64,
        buf: &mut [u8],
    ) -> Result<(), ReadErr>
        requires { Opens (wants self.now) (key_of path.now) off (length buf.old) }
        ensures filled { tells ≡ true → OnOk result
            (buf.new ≡ part_of off (length buf.old) (bytes self.now (key_of path.now))) }
        ensures cause { RisesIf (read_failed result) (count tally.old) (count tally.new) };
}
