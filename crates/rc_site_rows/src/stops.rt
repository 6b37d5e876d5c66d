//! Worked rows: what a stop may leave at a key behind a few calls, and what it may not.

ghost use Rattle.std.specs.Prelude.{◌≡◌, ◌⊎◌, ◌≤◌, ℕ, List, [], ◌∷◌, Option, Some, None, Err, slice_get};
ghost use Rattle.std.specs.FinMap.{empty, get, insert};
ghost use Rattle.rc_tree.specs.Tree.{IsTree, Node, Tree};
ghost use Rattle.rc_volume.specs.declared.site.Side.TheVariants.{Source, Target};
ghost use Rattle.rc_volume.specs.declared.site.SiteErr.{SiteErr};
ghost use Rattle.rc_volume.specs.Images.{IsOnlyTree, MayLeave};
ghost use Rattle.rc_volume.specs.Log.{Event, LogsSync, changed, make, put, remove, resize, set_props, synced};
ghost use Rattle.rc_site_rows.specs.Stops.{child_key, child_log, row_directory, row_file, row_key, size_at, times, Leaves};
ghost use Rattle.rc_volume.specs.Site.{with_props};

/// A file is made, gets a length of two, and its first byte is put.
pub fn a_file_half_made()
    ensures absent { Leaves None (make (row_file []) ∷ resize 2 ∷ put 0 1 ∷ []) None }
    ensures empty { Leaves None (make (row_file []) ∷ resize 2 ∷ put 0 1 ∷ [])
        (Some (row_file [])) }
    ensures other_bytes { Leaves None (make (row_file []) ∷ resize 2 ∷ put 0 1 ∷ [])
        (Some (row_file (7 ∷ 8 ∷ []))) }
    ensures no_longer { (left : Option Node) →
        Leaves None (make (row_file []) ∷ resize 2 ∷ put 0 1 ∷ []) left → size_at left ≤ 2 }
{}

/// Two bytes are put over the middle of a file that was synced.
pub fn a_put_over_a_synced_file()
    ensures other_bytes { Leaves (Some (row_file (1 ∷ 2 ∷ 3 ∷ 4 ∷ []))) (put 1 2 ∷ [])
        (Some (row_file (1 ∷ 9 ∷ 8 ∷ 4 ∷ []))) }
    ensures stays { (left : Node) →
        Leaves (Some (row_file (1 ∷ 2 ∷ 3 ∷ 4 ∷ []))) (put 1 2 ∷ []) (Some left) →
        (slice_get left.bytes 0 ≡ Some 1) × (slice_get left.bytes 3 ≡ Some 4)
        × (size_at (Some left) ≡ 4) }
    ensures stands { Leaves (Some (row_file (1 ∷ 2 ∷ 3 ∷ 4 ∷ []))) (put 1 2 ∷ []) None → ⊥ }
{}

/// A file of four bytes is cut to two and filled up to four again.
pub fn a_length_down_and_up()
    ensures other_bytes { Leaves (Some (row_file (1 ∷ 2 ∷ 3 ∷ 4 ∷ []))) (resize 2 ∷ resize 4 ∷ [])
        (Some (row_file (1 ∷ 2 ∷ 9 ∷ 9 ∷ []))) }
    ensures no_shorter { (left : Node) →
        Leaves (Some (row_file (1 ∷ 2 ∷ 3 ∷ 4 ∷ []))) (resize 2 ∷ resize 4 ∷ []) (Some left) →
        2 ≤ size_at (Some left) }
{}

/// Two times are given one after the other.
pub fn properties_given_twice()
    ensures mixed { Leaves (Some (row_file [])) (set_props (times 1 2) ∷ set_props (times 3 4) ∷ [])
        (Some (with_props (times 1 4) (row_file []))) }
    ensures none_else { (left : Node) →
        Leaves (Some (row_file []))
        (set_props (times 1 2) ∷ set_props (times 3 4) ∷ []) (Some left) →
        (left.props.created ≡ 0) ⊎ ((left.props.created ≡ 1) ⊎ (left.props.created ≡ 3)) }
{}

/// A file of two bytes is removed and made again.
pub fn a_file_removed_and_made_again()
    ensures absent { Leaves (Some (row_file (1 ∷ 2 ∷ []))) (remove ∷ make (row_file []) ∷ []) None }
    ensures as_it_was { Leaves (Some (row_file (1 ∷ 2 ∷ []))) (remove ∷ make (row_file []) ∷ [])
        (Some (row_file (1 ∷ 2 ∷ []))) }
    ensures other_bytes { Leaves (Some (row_file (1 ∷ 2 ∷ []))) (remove ∷ make (row_file []) ∷ [])
        (Some (row_file (9 ∷ []))) }
    ensures no_longer { (left : Option Node) →
        Leaves (Some (row_file (1 ∷ 2 ∷ []))) (remove ∷ make (row_file []) ∷ []) left →
        size_at left ≤ 2 }
{}

/// A directory and a file in it are made: the directory may be left alone, and the file never without it.
pub fn a_directory_and_its_child()
    ensures neither { MayLeave Target child_log empty }
    ensures alone { IsTree (insert empty row_key row_directory) →
        MayLeave Target child_log (insert empty row_key row_directory) }
    ensures never_alone { (image : Tree) → MayLeave Target child_log image →
        get image row_key ≡ None → get image child_key ≡ None }
{}

/// A sync that failed leaves what might have been left before it.
pub fn a_failed_sync()
    ensures { (e : SiteErr) (tree image : Tree) (old new : List Event) →
        LogsSync {T = Unit {0}} (Err e) (synced Target tree) old new →
        MayLeave Target old image → MayLeave Target new image }
{}

/// A file is made on the target: of the source the tree that was synced is left, and no other.
pub fn two_sides()
    ensures source { (tree : Tree) → IsTree tree →
        IsOnlyTree Source (synced Source tree ∷ synced Target empty ∷
        changed Target row_key (make (row_file [])) ∷ []) tree }
    ensures target { (tree : Tree) →
        MayLeave Target (synced Source tree ∷ synced Target empty ∷
        changed Target row_key (make (row_file [])) ∷ []) empty }
{}
