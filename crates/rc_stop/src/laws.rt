//! Laws of what a stop may leave, where what was synced last and what reads are mixed key by key.

ghost use Rattle.std.specs.Prelude.{◌≡◌, ◌≢◌, ◌++◌, ◌∷◌, [], List, ℕ};
ghost use Rattle.std.specs.FinMap.{get};
ghost use Rattle.rc_tree.specs.Tree.{Tree, IsTree};
ghost use Rattle.rc_volume.specs.declared.site.Part.{Part};
ghost use Rattle.rc_volume.specs.declared.site.Side.{Side};
ghost use Rattle.rc_volume.specs.Faults.{part_for};
ghost use Rattle.rc_volume.specs.Images.{Half, StepsNotes};
ghost use Rattle.rc_volume.specs.Log.{Event, EntryCall, LogsOn, NotesCall, changed, noted, notes_synced, synced};
ghost use Rattle.rc_volume.specs.Site.{Maybe};
ghost use Rattle.rc_stop.specs.Kept.{IsFresh, MayPick, MayPickNotes};

/// A tree that has at each key what reads or what was synced last is one that a stop may leave: so it is behind a sync,
/// and so it stays behind each call of that side, done or failed, and behind all calls of other parts.
pub fn what_is_picked_may_be_left()
    ensures synced { (side : Side) (log : List Event) (tree : Tree) → IsTree tree →
        MayPick side (log ++ synced side tree ∷ []) tree }
    ensures called { (side : Side) (log : List Event) (key : List (List ℕ)) (call : EntryCall)
        (reads now : Tree) → MayPick side log reads →
        Maybe (Half call) (get reads key) (get now key) → IsFresh call (get reads key) →
        ((other : List (List ℕ)) → other ≢ key → get now other ≡ get reads other) → IsTree now →
        MayPick side (log ++ changed side key call ∷ []) now }
    ensures elsewhere { (at : Part) (side : Side) (old new : List Event) (reads : Tree) →
        LogsOn at old new → part_for side ≢ at → MayPick side old reads → MayPick side new reads }
{}

/// The same of the record, where written ranges may have any byte.
pub fn what_is_spoiled_may_be_left()
    ensures synced { (log : List Event) (notes : List ℕ) →
        MayPickNotes (log ++ notes_synced notes ∷ []) notes }
    ensures called { (log : List Event) (call : NotesCall) (reads now : List ℕ) →
        MayPickNotes log reads → StepsNotes call reads now →
        MayPickNotes (log ++ noted call ∷ []) now }
    ensures elsewhere { (at : Part) (old new : List Event) (reads : List ℕ) → LogsOn at old new →
        Part.Record ≢ at → MayPickNotes old reads → MayPickNotes new reads }
{}
