//! Laws of what a pass asks for and of what it leaves.

ghost use Rattle.std.specs.Prelude.{◌≡◌, ℕ, true, List, Some};
ghost use Rattle.std.specs.FinMap.{get};
ghost use Rattle.rc_tree.specs.Tree.{IsTree, Tree};
ghost use Rattle.rc_class.specs.declared.item.Item.{Item};
ghost use Rattle.rc_class.specs.declared.plan.Plan.{Plan};
ghost use Rattle.rc_class.specs.declared.rules.Rules.{Rules};
ghost use Rattle.rc_class.specs.Goal.{source_goal};
ghost use Rattle.rc_class.specs.Items.{are_rising, item_at};
ghost use Rattle.rc_class.specs.Sides.{IsDecidedIn};
ghost use Rattle.rc_class.specs.Start.{IsPlanOf, Start};
ghost use Rattle.rc_volume.specs.declared.site.Side.TheVariants.{Source, Target};
ghost use Rattle.rc_volume.specs.Images.{IsOnlyTree, MayLeave};
ghost use Rattle.rc_volume.specs.Log.{Event};
ghost use Rattle.rc_volume.specs.Site.{Told};
ghost use Rattle.rc_finish.specs.Calls.{Frees, Gives, IsLeftAfter, IsLeftAfterOn, LogsCalls, LogsCallsOn, LogsPass, LogsPassOn, Makes, Purges};
ghost use Rattle.rc_finish.specs.Passes.{freed, given, made, AreBelowRoot, AreFit, AreWhole, HasPassedOn, IsOnItsWay, IsPassing, IsPassingOn, ToPurge, ToRemove};

/// The items of a plan are below the root, and fit the two trees of which it is: so its directories can be made.
pub fn a_plan_fits()
    ensures below { (start : Start) (plan : Plan) → IsPlanOf start plan →
        ((key : List (List ℕ)) (item : Item) → start.decided plan.moment key ≡ Some item →
        IsDecidedIn start plan.moment key item) →
        IsTree start.source → IsTree start.target → AreBelowRoot plan.items }
    ensures fit { (start : Start) (plan : Plan) (told : Told) → IsPlanOf start plan →
        ((key : List (List ℕ)) (item : Item) → start.decided plan.moment key ≡ Some item →
        IsDecidedIn start plan.moment key item) →
        told.source ≡ start.source → told.target ≡ start.target → AreFit plan.items told }
{}

/// What trees that items fit say of each pass; and trees on their way from there to the goals fit too, so that a pass can
/// be begun on what another, or a stop, left.
pub fn trees_on_their_way_fit()
    ensures fit { (items : List Item) (start now : Told) → AreBelowRoot items →
        AreFit items start → now.source ≡ start.source →
        IsOnItsWay items start.target now.target → AreFit items now }
    ensures purging { (items : List Item) (told : Told) → AreFit items told →
        AreWhole ToPurge items told.target }
    ensures freeing { (items : List Item) (told : Told) → AreFit items told →
        AreWhole ToRemove items told.source }
    ensures made { (items : List Item) (start : Told) (now : Tree) → AreFit items start →
        IsPassing made items start now → IsOnItsWay items start.target now }
    ensures freed { (items : List Item) (start : Told) (now : Tree) →
        AreWhole ToRemove items start.source → IsPassingOn Source freed items start now →
        AreWhole ToRemove items now }
{}

/// Where all that comes behind the copies is done, the source has its goal.
pub fn a_freed_source_has_its_goal()
    ensures { (items : List Item) (start : Told) (now : Tree) →
        HasPassedOn Source freed items start now → (key : List (List ℕ)) →
        get now key ≡ source_goal (item_at items key) (get start.source key) }
{}

/// Behind a pass that ended with its sync a stop leaves of its side what reads, and nothing else.
pub fn a_pass_is_durable()
    ensures made { (items : List Item) (tree : Tree) (old new : List Event) →
        LogsPass true Makes items tree old new → IsOnlyTree Target new tree }
    ensures given { (rules : Rules) (moment : ℕ) (start : Told) (items : List Item) (tree : Tree)
        (old new : List Event) →
        LogsPass true (Gives (given rules moment) start) items tree old new →
        IsOnlyTree Target new tree }
    ensures purged { (items : List Item) (tree : Tree) (old new : List Event) →
        LogsPass true Purges items tree old new → IsOnlyTree Target new tree }
    ensures freed { (start : Told) (items : List Item) (tree : Tree) (old new : List Event) →
        LogsPassOn Source true (Frees start) items tree old new → IsOnlyTree Source new tree }
{}

/// A stop in the middle of a pass leaves of its side what it might have left before it, but for the keys of the pass's
/// items: there a directory may be made, or properties given, in whole or in part, also over what was left before; or
/// what stood there is gone.
pub fn passes_leave_images()
    ensures made { (items : List Item) (old new : List Event) (image : Tree) →
        are_rising items ≡ true → LogsCalls Makes items old new → MayLeave Target new image →
        IsLeftAfter Makes items old image }
    ensures given { (rules : Rules) (moment : ℕ) (start : Told) (items : List Item)
        (old new : List Event) (image : Tree) → are_rising items ≡ true →
        LogsCalls (Gives (given rules moment) start) items old new → MayLeave Target new image →
        IsLeftAfter (Gives (given rules moment) start) items old image }
    ensures purged { (items : List Item) (old new : List Event) (image : Tree) →
        are_rising items ≡ true → LogsCalls Purges items old new → MayLeave Target new image →
        IsLeftAfter Purges items old image }
    ensures freed { (start : Told) (items : List Item) (old new : List Event) (image : Tree) →
        are_rising items ≡ true → LogsCallsOn Source (Frees start) items old new →
        MayLeave Source new image → IsLeftAfterOn Source (Frees start) items old image }
{}
