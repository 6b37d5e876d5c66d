//! Laws of what is decided.

ghost use Rattle.std.specs.Prelude.{◌≡◌, ◌≢◌, ◌↔◌, ℕ, Bool, true, ◌&&◌, List, [], ◌∷◌, ◌++◌, None, Some, if◌then◌else◌};
ghost use Rattle.std.specs.FinMap.{get};
ghost use Rattle.rc_tree.specs.Spelled.{spelled};
ghost use Rattle.rc_tree.specs.Tree.{Tree, IsTree, kind_at};
ghost use Rattle.rc_class.specs.declared.decision.Act.TheVariants.{Purge};
ghost use Rattle.rc_class.specs.declared.decision.After.TheVariants.{RemoveSource};
ghost use Rattle.rc_class.specs.declared.item.Item.{Item};
ghost use Rattle.rc_class.specs.declared.plan.Plan.{Plan};
ghost use Rattle.rc_class.specs.Sides.{Acts, HasKind, IsDecidedIn};
ghost use Rattle.rc_class.specs.Start.{IsPlanOf, goal_target};
ghost use Rattle.rc_job.specs.declared.job.Job.{Job};
ghost use Rattle.rc_filter.specs.Decided.{all_moved, all_purged, around, decided_at, is_copied, item_of, planned_items, some_copied, start_of};
ghost use Rattle.rc_filter.specs.Releases.{IsRemoved};
ghost use Rattle.rc_filter.specs.Scope.{decides, enters, is_in_scope};

/// What a job decides of a key of two trees says of both sides all that `IsDecidedIn` has: the layers above need no more
/// of a decision.
pub fn decided_items()
    ensures { (job : Job) (source target : Tree) (moment : ℕ) (key : List (List ℕ)) (item : Item) →
        IsTree source → IsTree target → decided_at job source target moment key ≡ Some item →
        IsDecidedIn (start_of job source target) moment key item }
{}

/// What is removed from the source has its copy on the target in the end: an entry of the same kind.
pub fn removed_sources_stand()
    ensures { (job : Job) (source target : Tree) (moment : ℕ) (key : List (List ℕ)) (item : Item) →
        IsTree source → IsTree target → decided_at job source target moment key ≡ Some item →
        item.after ≡ RemoveSource →
        HasKind item.facts.kind (goal_target (start_of job source target) moment key) }
{}

/// How the decision of a key follows from the answers of the calls there and from what lies around it, whatever walk
/// brings them: from the scope of the directory above, from whether some file at or below the key is copied, and from
/// whether all that the target has below it is removed, and all that the source has.
pub fn decisions_by_neighbours()
    ensures root { (job : Job) (source target : Tree) (moment : ℕ) →
        (is_in_scope job source target [] ≡ true)
        × (decided_at job source target moment [] ≡ None) }
    ensures scope { (job : Job) (source target : Tree) (above : List (List ℕ)) (name : List ℕ) →
        let key = above ++ name ∷ [] in is_in_scope job source target key
        ≡ (is_in_scope job source target above
        && enters job key (kind_at source key) (kind_at target key)) }
    ensures decided { (job : Job) (source target : Tree) (moment : ℕ)
        (above : List (List ℕ)) (name : List ℕ) →
        let key = above ++ name ∷ [] in decided_at job source target moment key
        ≡ (if decides job key (kind_at source key) (kind_at target key)
        && is_in_scope job source target above
        then item_of job moment key (spelled source key) (spelled target key)
        (around job source target moment key) (get source key) (get target key)
        else None) }
    ensures copied { (job : Job) (source target : Tree) (moment : ℕ) (key : List (List ℕ)) →
        (some_copied job source target moment key ≡ true)
        ↔ ((names : List (List ℕ)) × (is_copied job source target moment (key ++ names) ≡ true)) }
    ensures purged { (job : Job) (source target : Tree) (moment : ℕ) (key : List (List ℕ)) →
        (all_purged job source target key ≡ true)
        ↔ ((name : List ℕ) (names : List (List ℕ)) →
        let below = key ++ name ∷ names in get target below ≢ None →
        Acts Purge (decided_at job source target moment below)) }
    ensures moved { (job : Job) (source target : Tree) (moment : ℕ) (key : List (List ℕ)) →
        (all_moved job source target moment key ≡ true)
        ↔ ((name : List ℕ) (names : List (List ℕ)) →
        let below = key ++ name ∷ names in get source below ≢ None →
        IsRemoved (decided_at job source target moment below)) }
{}

/// A plan of a job on two trees has just the items that are decided of the keys of both.
pub fn plans_have_the_planned_items()
    ensures { (job : Job) (source target : Tree) (plan : Plan) →
        IsPlanOf (start_of job source target) plan →
        plan.items ≡ planned_items job source target plan.moment }
{}
