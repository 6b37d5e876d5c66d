//! What holds of every run of events.

ghost use Rattle.std.specs.Prelude.{◌≡◌, ℕ, Bool, List, false, true};
ghost use Rattle.rc_class.specs.declared.noted.Noted.{Noted};
ghost use Rattle.rc_class.specs.declared.rules.Rules.{Rules};
ghost use Rattle.rc_class.specs.Start.{Start};
ghost use Rattle.rc_core.specs.declared.event.Event.{Event};
ghost use Rattle.rc_core.specs.declared.event.Event.TheVariants.{Stop};
ghost use Rattle.rc_core.specs.declared.node.Node.{Node};
ghost use Rattle.rc_core.specs.declared.state.State.{State};
ghost use Rattle.rc_core.specs.Events.{after, Allows, Run};
ghost use Rattle.rc_core.specs.Follows.{Follows, FollowsItself, Image, IsDecided, IsHeld, IsOpen, Opening};
ghost use Rattle.rc_core.specs.Images.{image_of, MayStop};
ghost use Rattle.rc_core.specs.Nodes.{are_rising};
ghost use Rattle.rc_core.specs.Opened.{opened, opening_by, opening_of};
ghost use Rattle.rc_core.specs.Sound.{IsFirst, Sound};

use rc_class::ranges_fill_a_file;

/// The state of an opening is sound, each event keeps it so, and so does each list of events.
pub fn soundness_is_kept()
    ensures opened { (noted : Noted) (rules : Rules) (source target : List Node) (retries : ℕ) →
        are_rising source ≡ true → are_rising target ≡ true →
        IsOpen (opening_by noted rules source target) →
        Sound (opened noted rules source target retries) }
    ensures step { (state : State) (event : Event) → Sound state → Allows state event →
        Sound (after state event) }
    ensures run { (state new : State) (events : List Event) → Sound state →
        Run state events new → Sound new }
{
    ranges_fill_a_file();
}

/// Each image that a stop may leave of a sound state, with its marks, follows the opening.
pub fn images_follow()
    ensures { (state : State) (image : List Node) (units finished : List Bool) → Sound state →
        MayStop state image units finished →
        Follows (opening_of state) (image_of state image units finished) }
{}

/// An opening that is held for a start follows itself, and each image that follows it is held for that start.
pub fn follows_law()
    ensures itself { (start : Start) (opening : Opening) → IsDecided start →
        opening.rules ≡ start.rules → opening.image.noted.last ≡ false →
        IsHeld start opening.image → FollowsItself opening }
    ensures images { (start : Start) (opening : Opening) (image : Image) →
        opening.rules ≡ start.rules → opening.image.noted.last ≡ false →
        IsHeld start opening.image → Follows opening image → IsHeld start image }
{}

/// Whatever events come behind a beginning: each image that a stop then may leave, with its marks, follows the opening, and
/// is held for each start for which the opening is held.
pub fn stops_follow()
    ensures follows { (first state : State) (events : List Event) (image : List Node)
        (units finished : List Bool) → IsFirst first → Run first events state →
        Allows state (Stop image units finished) →
        Follows (opening_of first) (image_of state image units finished) }
    ensures held { (first state : State) (events : List Event) (image : List Node)
        (units finished : List Bool) → IsFirst first → Run first events state →
        Allows state (Stop image units finished) →
        (start : Start) → first.rules ≡ start.rules → IsHeld start (opening_of first).image →
        IsHeld start (image_of state image units finished) }
{
    ranges_fill_a_file();
}
