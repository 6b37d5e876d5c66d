//! What holds of every match.
ghost use Rattle.std.specs.Prelude.{◌≡◌, ◌↔◌, ℕ, List, IsTrue};
ghost use Rattle.rc_tree.specs.Name.{folded};
ghost use Rattle.rc_tree.specs.Path.{key_of};
ghost use Rattle.rc_wild.specs.Pattern.{matches_name, MatchesName};
ghost use Rattle.rc_wild.specs.PathPattern.{matches_path, MatchesPath};

/// A name and its folded form are matched alike, and so are a path and its key: what is decided by a match can be said
/// of keys.
pub fn matching_by_folding()
    ensures names { (pattern name : List ℕ) →
        matches_name pattern (folded name) ≡ matches_name pattern name }
    ensures paths { (source target value : List ℕ) (path : List (List ℕ)) →
        matches_path source target value (key_of path) ≡ matches_path source target value path }
{}

/// The tests that decide a match and the relations that say it case by case are one.
pub fn matching_by_cases()
    ensures names { (pattern name : List ℕ) →
        IsTrue (matches_name pattern name) ↔ MatchesName pattern name }
    ensures paths { (source target value : List ℕ) (path : List (List ℕ)) →
        IsTrue (matches_path source target value path) ↔ MatchesPath source target value path }
{}
