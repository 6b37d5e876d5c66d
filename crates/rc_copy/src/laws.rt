//! A law of what copies ask of the trees.

ghost use Rattle.std.specs.Prelude.{◌≡◌, true, List};
ghost use Rattle.rc_class.specs.declared.item.Item.{Item};
ghost use Rattle.rc_class.specs.Items.{are_rising};
ghost use Rattle.rc_volume.specs.Site.{Told};
ghost use Rattle.rc_finish.specs.Passes.{AreBelowRoot, AreFit, HasPassed};
ghost use Rattle.rc_copy.specs.Copying.{readied, AreCopyable, AreDecided};

/// Once the directories of a plan are made, and what is to be purged is gone, each file that is to be copied has its own
/// directory, and both sides have what its item says, as at the start.
pub fn files_follow_their_directories()
    ensures { (items : List Item) (start now : Told) → are_rising items ≡ true →
        AreBelowRoot items → AreFit items start → AreDecided items start →
        now.source ≡ start.source → HasPassed readied items start now.target →
        AreCopyable now items }
{}
