//! What the canonical texts tell of a job.

ghost use Rattle.std.specs.Prelude.{◌≡◌};
ghost use Rattle.rc_job.specs.declared.job.Job.{Job};
ghost use Rattle.rc_job.specs.Allowed.{HasAllowedValues};
ghost use Rattle.rc_job.specs.Deciding.{deciding_part};
ghost use Rattle.rc_job.specs.Job.{default_job};
ghost use Rattle.rc_job.specs.Settings.{canonical, core};

/// The values of the job of no settings are allowed.
pub fn the_defaults_are_allowed()
    ensures { HasAllowedValues default_job }
{}

/// The canonical text determines the job: no two jobs with allowed values have one text.
pub fn a_text_has_one_job()
    ensures { (one two : Job) → HasAllowedValues one → HasAllowedValues two →
        canonical one ≡ canonical two → one ≡ two }
{}

/// The core text determines what decides, and nothing else goes into it.
pub fn a_core_text_has_one_decision()
    ensures fixed { (one two : Job) → HasAllowedValues one → HasAllowedValues two →
        core one ≡ core two → deciding_part one ≡ deciding_part two }
    ensures no_more { (one two : Job) →
        deciding_part one ≡ deciding_part two → core one ≡ core two }
{}
