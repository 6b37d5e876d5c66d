//! That a number and a side determine a tree.

ghost use Rattle.std.specs.Prelude.{◌≡◌, ℕ};
ghost use Rattle.rc_tree.specs.Tree.{Tree};
ghost use Rattle.rc_volume.specs.declared.site.Side.{Side};
ghost use Rattle.rc_generate.specs.Generated.{IsGenerated};

/// Two trees that are generated from one number, on one side, are equal.
pub fn one_tree_is_generated()
    ensures { (n : ℕ) (side : Side) (one other : Tree) →
        IsGenerated n side one → IsGenerated n side other → one ≡ other }
{}
