//! Laws of what a stop may leave.

ghost use Rattle.std.specs.Prelude.{◌≡◌, ◌≢◌, ◌⊎◌, ◌+◌, ◌≤◌, ℕ, List, [], ◌∷◌, ◌++◌, length, Option, None, Result, IsSomeAnd};
ghost use Rattle.rc_tree.specs.declared.attr.Kind.TheVariants.{File};
ghost use Rattle.rc_tree.specs.declared.props.Props.{Props};
ghost use Rattle.rc_tree.specs.Tree.{Node, Tree, IsTree};
ghost use Rattle.rc_volume.specs.declared.site.Part.{Part};
ghost use Rattle.rc_volume.specs.declared.site.Side.{Side};
ghost use Rattle.rc_volume.specs.declared.site.SiteErr.{SiteErr};
ghost use Rattle.rc_volume.specs.Faults.{part_for};
ghost use Rattle.rc_volume.specs.Images.{AllElsewhere, AllNoSync, AreOnlyNotes, CameBy, GoesBy, Half, IsImage, IsImageSince, IsOnlyTree, MayLeave, MayLeaveNotes, StepsAt, StepsNotes};
ghost use Rattle.rc_volume.specs.Log.{Event, EntryCall, LogsOn, NotesCall, changed, cut, make, noted, notes_synced, put, remove, resize, set_props, synced, write};
ghost use Rattle.rc_volume.specs.Site.{Cuts, Makes, Maybe, Puts, Removes, Resizes, SetsProps, Told, Writes};

/// What a stop may leave after a call on an entry is one step of that call away from what it might have left before.
pub fn a_call_is_one_step()
    ensures { (side : Side) (log : List Event) (key : List (List ℕ))
        (call : EntryCall) (image : Tree) →
        MayLeave side (log ++ changed side key call ∷ []) image → (old : Tree) ×
        MayLeave side log old × StepsAt key call old image }
{}

/// And each such step is left.
pub fn each_step_is_left()
    ensures { (side : Side) (log : List Event) (key : List (List ℕ))
        (call : EntryCall) (old image : Tree) →
        MayLeave side log old → StepsAt key call old image →
        MayLeave side (log ++ changed side key call ∷ []) image }
{}

/// A stop may leave a call as though it had not begun.
pub fn a_call_may_not_be_begun()
    ensures { (side : Side) (log : List Event) (key : List (List ℕ))
        (call : EntryCall) (image : Tree) →
        MayLeave side log image → MayLeave side (log ++ changed side key call ∷ []) image }
{}

/// After a sync that succeeded a stop leaves of its side what read, and nothing else.
pub fn a_sync_leaves_what_reads()
    ensures { (side : Side) (log : List Event) (tree : Tree) → IsTree tree →
        IsOnlyTree side (log ++ synced side tree ∷ []) tree }
{}

/// What a stop may leave of the record after a call on it is one step of that call away from what it might have left
/// before.
pub fn a_call_on_the_record_is_one_step()
    ensures { (log : List Event) (call : NotesCall) (image : List ℕ) →
        MayLeaveNotes (log ++ noted call ∷ []) image → (old : List ℕ) × MayLeaveNotes log old ×
        StepsNotes call old image }
{}

/// And each such step is left.
pub fn each_step_of_the_record_is_left()
    ensures { (log : List Event) (call : NotesCall) (old image : List ℕ) → MayLeaveNotes log old →
        StepsNotes call old image → MayLeaveNotes (log ++ noted call ∷ []) image }
{}

/// After a sync that succeeded a stop leaves of the record what read, and nothing else.
pub fn a_sync_of_the_record_leaves_what_reads()
    ensures { (log : List Event) (notes : List ℕ) →
        AreOnlyNotes (log ++ notes_synced notes ∷ []) notes }
{}

/// A change of one part leaves what a stop may leave of another side.
pub fn another_side_stands()
    ensures { (at : Part) (side : Side) (old new : List Event) (image : Tree) →
        LogsOn at old new → part_for side ≢ at → MayLeave side new image → MayLeave side old image }
{}

/// A change of a side leaves what a stop may leave of the record.
pub fn the_record_stands()
    ensures { (at : Part) (old new : List Event) (image : List ℕ) → LogsOn at old new →
        Part.Record ≢ at → MayLeaveNotes new image → MayLeaveNotes old image }
{}

/// What is left of one part goes with what is left of the others.
pub fn parts_mix()
    ensures { (log : List Event) (one two three : Told) → IsImage log one → IsImage log two →
        IsImage log three →
        IsImage log (record { source = one.source; target = two.target; notes = three.notes }) }
{}

/// What a stop now may leave, it might have left at some moment since any earlier one.
pub fn now_is_since_earlier_moments()
    ensures { (log : List Event) (start : ℕ) (image : Told) → start ≤ length log →
        IsImage log image → IsImageSince log start image }
{}

/// Since this moment there is nothing else.
pub fn since_now_is_now()
    ensures { (log : List Event) (image : Told) → IsImageSince log (length log) image →
        IsImage log image }
{}

/// Time goes on: since an earlier moment a stop might have left what it might have left before an event, or what it may
/// leave now.
pub fn time_goes_on()
    ensures { (log : List Event) (event : Event) (start : ℕ) (image : Told) →
        IsImageSince (log ++ event ∷ []) start image →
        IsImageSince log start image ⊎ IsImage (log ++ event ∷ []) image }
{}

/// What a stop might have left since a moment stays so.
pub fn the_past_stands()
    ensures { (log : List Event) (event : Event) (start : ℕ) (image : Told) →
        IsImageSince log start image → IsImageSince (log ++ event ∷ []) start image }
{}

/// What a stop may leave of a side is a tree.
pub fn images_are_trees()
    ensures { (side : Side) (log : List Event) (image : Tree) →
        MayLeave side log image → IsTree image }
{}

/// What a stop may leave after later calls is what it might have left before them, each key gone on by the calls at that
/// key alone.
pub fn each_key_goes_by_its_calls()
    ensures { (side : Side) (log later : List Event) (image : Tree) → AllNoSync side later →
        MayLeave side (log ++ later) image → (old : Tree) × MayLeave side log old ×
        CameBy side later old image }
{}

/// A key at which no call came stands.
pub fn a_key_without_calls_stands()
    ensures { (side : Side) (key : List (List ℕ)) (later : List Event) (old new : Option Node) →
        AllElsewhere side key later → GoesBy side key later old new → new ≡ old }
{}

/// What a call tells that it made of an entry is a step of that call: what read may still be left, and so may what reads.
pub fn a_told_change_is_a_step()
    ensures made { (result : Result (Unit {0}) SiteErr) (fresh : Node) (old new : Option Node) →
        old ≡ None → Makes result fresh old new → Maybe (Half (make fresh)) old new }
    ensures put { (result : Result (Unit {0}) SiteErr) (off : ℕ) (bytes : List ℕ)
        (old new : Option Node) →
        IsSomeAnd old (λ node. (node.kind ≡ File) × (off + length bytes ≤ length node.bytes)) →
        Puts result off bytes old new → Maybe (Half (put off (length bytes))) old new }
    ensures resized { (result : Result (Unit {0}) SiteErr) (len : ℕ) (old new : Option Node) →
        Resizes result len old new → Maybe (Half (resize len)) old new }
    ensures props { (result : Result (Unit {0}) SiteErr) (props : Props) (old new : Option Node) →
        SetsProps result props old new → Maybe (Half (set_props props)) old new }
    ensures removed { (result : Result (Unit {0}) SiteErr) (old new : Option Node) →
        Removes result old new → Maybe (Half remove) old new }
{}

/// The same of the record.
pub fn a_told_change_of_the_record_is_a_step()
    ensures written { (result : Result (Unit {0}) SiteErr) (off : ℕ) (bytes old new : List ℕ) →
        off ≤ length old → Writes result off bytes old new →
        StepsNotes (write off (length bytes)) old new }
    ensures cut { (result : Result (Unit {0}) SiteErr) (len : ℕ) (old new : List ℕ) →
        Cuts result len old new → StepsNotes (cut len) old new }
{}
