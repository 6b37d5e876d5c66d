//! The store of job files.

ghost use Rattle.std.specs.Prelude.{◌≡◌, ◌≢◌, ◌⊎◌, ℕ, Bool, true, List, Some, None, Option, IfOk, OnOk, OnErr, option_map, unwrap_or};
ghost use Rattle.std.specs.FinMap.{FinMap, get};
ghost use Rattle.rc_tree.specs.Name.{folded};
ghost use Rattle.rc_tree.specs.Path.{name_cmp};
ghost use Rattle.rc_volume.specs.Faults.{RisesIf};
ghost use Rattle.rc_volume.specs.Streams.{store_failed};

use rc_tree::Text;
use std::alloc::Global;
use thiserror::Error;

#[derive(Clone, Copy, Debug, PartialEq, Eq, Error)]
pub enum StoreErr {
    #[error("the job store failed")]
    Failed,
    #[error("out of memory")]
    NoMemory,
}

/// Where job files are kept, by their names without regard to case.
pub trait JobStore {
    /// Whether the store tells its files.
    ghost tells: { Bool };

    /// The files: from folded names to bytes.
    ghost files: { Self → FinMap name_cmp (List ℕ) };

    /// How often it failed.
    ghost faults: { Self → ℕ };

    /// The bytes of the file of this name; none exactly where there is no such file.
    fn read(&mut self, alloc: Global, name: &Text) -> Result<Option<Vec<u8>>, StoreErr>
        ensures found { tells ≡ true → IfOk result
            (λ found. option_map (λ bytes. bytes.items) found
            ≡ get (files self.old) (folded name.now)) }
        ensures same { tells ≡ true → files self.new ≡ files self.old }
        ensures cause { RisesIf (store_failed result) (faults self.old) (faults self.new) };

    /// Keeps the bytes under this name, in the place of those that were there. After an error it has the old bytes or
    /// the new ones.
    fn write(&mut self, alloc: Global, name: &Text, bytes: &[u8]) -> Result<(), StoreErr>
        ensures written { tells ≡ true → OnOk result
            (get (files self.new) (folded name.now) ≡ Some bytes.now) }
        ensures old_or_new { tells ≡ true → OnErr result
            (let kept = get (files self.new) (folded name.now) in
            (kept ≡ get (files self.old) (folded name.now)) ⊎ (kept ≡ Some bytes.now)) }
        ensures others { tells ≡ true → (other : List ℕ) → other ≢ folded name.now →
            get (files self.new) other ≡ get (files self.old) other }
        ensures cause { RisesIf (store_failed result) (faults self.old) (faults self.new) };
}
