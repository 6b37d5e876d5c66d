//! The words of a run: what they ask for, with the job files that they name, or why they are refused.

ghost use Rattle.std.specs.Prelude.{◌≡◌, ◌⊎◌, true, Err, IfErr};
ghost use Rattle.rc_jobfiles.specs.Ask.{texts};
ghost use Rattle.rc_jobfiles.specs.Resolving.{names_no_file, resolved};
ghost use Rattle.rc_volume.specs.Faults.{RisesIf};
ghost use Rattle.rc_run.specs.Outcome.{unstored_in, IsAtWords};
ghost use Rattle.rc_run.specs.Words.{answered, asked, outcome_of, AreKnown};

use crate::{Outcome, Unbuilt};
use rc_jobfiles::{JobErr, Resolved, are_built, resolve};
use rc_volume::JobStore;
use std::alloc::Global;

/// What the words ask for, or why they are refused.
pub(crate) fn read_words<J: JobStore>(
    alloc: Global,
    words: &[String],
    jobs: &mut J,
) -> Result<Resolved, Outcome>
    ensures asked { AreKnown J.tells (texts words.now) →
        (result ≡ asked (texts words.now) (J.files jobs.old))
        ⊎ (result ≡ Err Outcome.NoMemory) ⊎ (result ≡ Err Outcome.JobFault) }
    ensures early { IfErr result IsAtWords }
    ensures same { J.tells ≡ true → J.files jobs.new ≡ J.files jobs.old }
    ensures untouched { names_no_file (texts words.now) ≡ true → jobs.new ≡ jobs.old }
    ensures cause { RisesIf (unstored_in result) (J.faults jobs.old) (J.faults jobs.new) }
{
    match are_built(alloc, words) {
        Ok(true) => resolve_words(alloc, words, jobs),
        Ok(false) => Err(Outcome::NotYet {
            what: Unbuilt::Words,
        }),
        Err(_) => Err(Outcome::NoMemory),
    }
}

// What words ask for that have their effect.
fn resolve_words<J: JobStore>(
    alloc: Global,
    words: &[String],
    jobs: &mut J,
) -> Result<Resolved, Outcome>
    ensures asked { AreKnown J.tells (texts words.now) →
        (result ≡ answered (resolved (texts words.now) (J.files jobs.old)))
        ⊎ (result ≡ Err Outcome.NoMemory) ⊎ (result ≡ Err Outcome.JobFault) }
    ensures early { IfErr result IsAtWords }
    ensures same { J.tells ≡ true → J.files jobs.new ≡ J.files jobs.old }
    ensures untouched { names_no_file (texts words.now) ≡ true → jobs.new ≡ jobs.old }
    ensures cause { RisesIf (unstored_in result) (J.faults jobs.old) (J.faults jobs.new) }
{
    match resolve(alloc, words, jobs) {
        Ok(accepted) => Ok(accepted),
        Err(refusal) => Err(outcome_of(refusal)),
    }
}

fn outcome_of(refusal: JobErr) -> Outcome
    ensures answered { result ≡ outcome_of refusal }
    ensures early { IsAtWords result }
{
    match refusal {
        JobErr::Usage { file, place, kind } => Outcome::Usage { file, place, kind },
        JobErr::Missing { name } => Outcome::JobMissing { name },
        JobErr::Deep { name } => Outcome::JobDeep { name },
        JobErr::Round { name } => Outcome::JobRound { name },
        JobErr::StoreFault => Outcome::JobFault,
        JobErr::NoMemory => Outcome::NoMemory,
    }
}
