//! What holds of every tree.

ghost use Rattle.std.specs.Prelude.{◌≡◌, ◌≢◌, ℕ, List, ◌∷◌, ◌++◌, Some, None};
ghost use Rattle.std.specs.FinMap.{get};
ghost use Rattle.rc_tree.specs.Path.{key_of, last_name, parent_of};
ghost use Rattle.rc_tree.specs.Spelled.{spelled, spelling_at};
ghost use Rattle.rc_tree.specs.Tree.{Tree, IsDirectory, IsTree};

/// The path of an entry as its tree spells it has the entry's key, and its last name is the entry's.
pub fn spelled_paths()
    ensures key { (tree : Tree) (key : List (List ℕ)) → IsTree tree → get tree key ≢ None →
        key_of (spelled tree key) ≡ key }
    ensures last { (tree : Tree) (key : List (List ℕ)) → IsTree tree →
        last_name (spelled tree key) ≡ spelling_at tree key }
{}

/// An entry stands in a directory or in the root.
pub fn entries_stand_in_directories()
    ensures { (tree : Tree) (key above : List (List ℕ)) → IsTree tree → get tree key ≢ None →
        parent_of key ≡ Some above → IsDirectory tree above }
{}
