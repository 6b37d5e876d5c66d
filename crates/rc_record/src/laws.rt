//! Laws of what a record stands for.

ghost use Rattle.std.specs.Prelude.{◌≡◌, ℕ, List, true, Ok, Some, length};
ghost use Rattle.rc_class.specs.declared.noted.Noted.{Noted};
ghost use Rattle.rc_class.specs.declared.plan.Plan.{Plan};
ghost use Rattle.rc_class.specs.Items.{are_rising};
ghost use Rattle.rc_record.specs.Grammar.{finish_marks, stands, unit_marks};
ghost use Rattle.rc_record.specs.Spelling.{mark_count, noted_by, record_of, IsAllowed, IsTyped};

/// A record that stands for something has a mark for each unit of its plan and one for each item that is copied, and the
/// keys of the items rise.
pub fn a_record_stands_for_a_plan()
    ensures units { (bytes : List ℕ) (noted : Noted) → stands bytes ≡ Ok (Some noted) →
        length noted.units ≡ unit_marks noted.plan }
    ensures finished { (bytes : List ℕ) (noted : Noted) → stands bytes ≡ Ok (Some noted) →
        length noted.finished ≡ finish_marks noted.plan }
    ensures rising { (bytes : List ℕ) (noted : Noted) → stands bytes ≡ Ok (Some noted) →
        are_rising noted.plan.items ≡ true }
{}

/// What is written of a plan stands for it, with the marks that stand.
pub fn a_spelled_record_stands_for_its_plan()
    ensures { (plan : Plan) (marks : List ℕ) → IsAllowed plan → IsTyped plan →
        length marks ≡ mark_count plan →
        stands (record_of 0xA5 plan marks) ≡ Ok (Some (noted_by plan marks)) }
{}
