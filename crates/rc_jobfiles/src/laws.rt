//! What is true of each job that words ask for, and of jobs that are kept.
ghost use Rattle.std.specs.Prelude.{◌≡◌, ◌∷◌, ◌++◌, false, [], List, Some, None, Ok, IfOk, codes, encode_utf8_all, is_some, true, ℕ};
ghost use Rattle.std.specs.FinMap.{get};
ghost use Rattle.std.specs.Str.{IsUtf8};
ghost use Rattle.rc_tree.specs.Name.{folded};
ghost use Rattle.rc_job.specs.Allowed.{is_root};
ghost use Rattle.rc_job.specs.Settings.{canonical};
ghost use Rattle.rc_job.specs.declared.job.Job.{Job};
ghost use Rattle.rc_jobfiles.specs.Refusal.{IsWhole, refusal_of};
ghost use Rattle.rc_jobfiles.specs.Resolving.{Store, full_name, resolved};
ghost use Rattle.rc_jobfiles.specs.Saved.{IsAllowed};

/// It has no refusal as a whole, and a job that is run has a source and a target.
pub fn resolved_jobs_are_whole()
    ensures whole { (texts : List (List ℕ)) (store : Store) →
        IfOk (resolved texts store) (λ r. IsWhole r.quit r.job) }
    ensures rooted { (texts : List (List ℕ)) (store : Store) →
        IfOk (resolved texts store) (λ r. r.quit ≡ false →
        (is_some r.job.source ≡ true) × (is_some r.job.target ≡ true)) }
{}

/// A job whose values words can give, and which is not refused as a whole, is what the one word `/JOB:NAME` asks for over
/// a store in which the file of that name has the bytes that `save_text` gives for the job.
pub fn saved_jobs_are_read()
    ensures { (job : Job) (name : List ℕ) (store : Store) →
        IsAllowed job → refusal_of false job ≡ None → is_root name ≡ true →
        IsUtf8 (encode_utf8_all (canonical job)) →
        get store (folded (full_name name)) ≡ Some (encode_utf8_all (canonical job)) →
        resolved ((codes "/JOB:" ++ name) ∷ []) store
        ≡ Ok (record { job = job; save = None; quit = false; dropping = false }) }
{}
