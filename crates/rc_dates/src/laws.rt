//! What holds of every printed moment.
ghost use Rattle.std.specs.Prelude.{◌≡◌, ℕ, List};
ghost use Rattle.rc_dates.specs.Stamp.{IsMomentText};

/// A moment is printed in one way alone.
pub fn one_text_a_moment()
    ensures { (moment : ℕ) (one other : List ℕ) →
        IsMomentText moment one → IsMomentText moment other → one ≡ other }
{}
