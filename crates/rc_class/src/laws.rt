//! Laws of the definitions.

ghost use Rattle.std.specs.Prelude.{◌≡◌, ℕ, Bool, true, Option, Some};
ghost use Rattle.rc_tree.specs.Tree.{Node};
ghost use Rattle.rc_class.specs.declared.item.Item.{Item};
ghost use Rattle.rc_class.specs.declared.plan.Plan.{Plan};
ghost use Rattle.rc_class.specs.declared.rules.Rules.{Rules};
ghost use Rattle.rc_class.specs.Goal.{is_left, target_goal};
ghost use Rattle.rc_class.specs.Start.{Start, IsPlanOf};
ghost use Rattle.rc_class.specs.Units.{ranges_of, AreInside, AreApart, Cover};

/// The ranges of a file lie inside it, are apart in rising order, and have each of its bytes, whatever the stride.
pub fn ranges_fill_a_file()
    ensures inside { (stride size : ℕ) → AreInside size (ranges_of stride size) }
    ensures apart { (stride size : ℕ) → AreApart (ranges_of stride size) }
    ensures cover { (stride size : ℕ) → Cover size (ranges_of stride size) }
{}

/// Where an item says that its key is left alone, the target has there in the end what it had.
pub fn left_keys_stay()
    ensures { (rules : Rules) (with_bytes : Bool) (moment : ℕ) (item : Item)
        (source target : Option Node) → is_left item.act ≡ true →
        target_goal rules with_bytes moment (Some item) source target ≡ target }
{}

/// A start has one list of items at a moment: two plans of it have the same.
pub fn one_plan()
    ensures { (start : Start) (plan other : Plan) →
        IsPlanOf start plan → IsPlanOf start other → plan.moment ≡ other.moment →
        plan.items ≡ other.items }
{}
