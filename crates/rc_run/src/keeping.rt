//! Jobs that are kept and shown: `/SAVE` and `/QUIT`.

ghost use Rattle.std.specs.Prelude.{◌≡◌, ◌⊎◌, ◌≤◌, true, false, None, Err, IfErr, MatchResult};
ghost use Rattle.rc_jobfiles.specs.Ask.{texts};
ghost use Rattle.rc_jobfiles.specs.Resolving.{full_name, names_no_file};
ghost use Rattle.rc_volume.specs.Faults.{RisesIf};
ghost use Rattle.rc_run.specs.Keeping.{job_bytes, Keeps, KeepsJob, KeepsText, SavesNothing, ShowsJob};
ghost use Rattle.rc_run.specs.Outcome.{at_report, ending, last_step, may_be_old_in, unstored_in, CausesInSink, IsAtWords};
ghost use Rattle.rc_run.specs.Words.{asked, AreKnown};

use crate::Outcome;
use crate::words::read_words;
use rc_job::Job;
use rc_jobfiles::{Resolved, full_name, save_text};
use rc_tree::Text;
use rc_volume::{JobStore, Sink, SinkErr, StoreErr};
use std::alloc::Global;

/// What the words ask for, once it is kept where they say so.
pub(crate) fn ask<J: JobStore>(
    alloc: Global,
    words: &[String],
    jobs: &mut J,
) -> Result<Resolved, Outcome>
    ensures asked { AreKnown J.tells (texts words.now) →
        (result ≡ asked (texts words.now) (J.files jobs.old))
        ⊎ (result ≡ Err Outcome.NoMemory) ⊎ (result ≡ Err Outcome.JobFault) }
    ensures early { IfErr result IsAtWords }
    ensures kept { J.tells ≡ true → MatchResult result
        (λ accepted.
        KeepsJob accepted.save accepted.job false (J.files jobs.old) (J.files jobs.new))
        (λ e. Keeps (asked (texts words.now) (J.files jobs.old)) e
        (J.files jobs.old) (J.files jobs.new)) }
    ensures idle { names_no_file (texts words.now) ≡ true →
        SavesNothing (asked (texts words.now) (J.files jobs.old)) → jobs.new ≡ jobs.old }
    ensures cause { RisesIf (unstored_in result) (J.faults jobs.old) (J.faults jobs.new) }
{
    match read_words(alloc, words, jobs) {
        Ok(accepted) => match keep(alloc, &accepted, jobs) {
            Ok(()) => Ok(accepted),
            Err(e) => Err(e),
        },
        Err(e) => Err(e),
    }
}

// Keeps the job where a name is given for it.
fn keep<J: JobStore>(alloc: Global, accepted: &Resolved, jobs: &mut J) -> Result<(), Outcome>
    ensures kept { J.tells ≡ true →
        KeepsJob accepted.now.save accepted.now.job (may_be_old_in result)
        (J.files jobs.old) (J.files jobs.new) }
    ensures answer { IfErr result (λ e. (e ≡ Outcome.NoMemory) ⊎ (e ≡ Outcome.JobFault)) }
    ensures idle { accepted.now.save ≡ None → jobs.new ≡ jobs.old }
    ensures cause { RisesIf (unstored_in result) (J.faults jobs.old) (J.faults jobs.new) }
{
    match &accepted.save {
        Some(name) => keep_as(alloc, name, &accepted.job, jobs),
        None => Ok(()),
    }
}

// Keeps a job under a name, as a word spells it.
fn keep_as<J: JobStore>(alloc: Global, name: &Text, job: &Job, jobs: &mut J) -> Result<(), Outcome>
    ensures kept { J.tells ≡ true →
        KeepsText (full_name name.now) (job_bytes job.now) (may_be_old_in result)
        (J.files jobs.old) (J.files jobs.new) }
    ensures answer { IfErr result (λ e. (e ≡ Outcome.NoMemory) ⊎ (e ≡ Outcome.JobFault)) }
    ensures cause { RisesIf (unstored_in result) (J.faults jobs.old) (J.faults jobs.new) }
{
    match full_name(alloc, name) {
        Ok(name) => match save_text(alloc, job) {
            Ok(bytes) => keep_bytes(alloc, &name, &bytes, jobs),
            Err(_) => Err(Outcome::NoMemory),
        },
        Err(_) => Err(Outcome::NoMemory),
    }
}

fn keep_bytes<J: JobStore>(
    alloc: Global,
    name: &Text,
    bytes: &[u8],
    jobs: &mut J,
) -> Result<(), Outcome>
    ensures kept { J.tells ≡ true →
        KeepsText name.now bytes.now (may_be_old_in result)
        (J.files jobs.old) (J.files jobs.new) }
    ensures answer { IfErr result (λ e. (e ≡ Outcome.NoMemory) ⊎ (e ≡ Outcome.JobFault)) }
    ensures cause { RisesIf (unstored_in result) (J.faults jobs.old) (J.faults jobs.new) }
{
    match jobs.write(alloc, name, bytes) {
        Ok(()) => Ok(()),
        Err(StoreErr::Failed) => Err(Outcome::JobFault),
        Err(StoreErr::NoMemory) => Err(Outcome::NoMemory),
    }
}

/// Sends the text of a job.
pub(crate) fn show<K: Sink>(alloc: Global, job: &Job, sink: &mut K) -> Outcome
    ensures shows { ShowsJob K.tells job.now result (K.received sink.old) (K.received sink.new) }
    ensures late { at_report ≤ last_step (ending result) }
    ensures sink_cause { CausesInSink result (K.faults sink.old) (K.faults sink.new) }
{
    match save_text(alloc, job) {
        Ok(bytes) => send(alloc, &bytes, job, sink),
        Err(_) => Outcome::NoMemory,
    }
}

// Sends these bytes, the text of a job.
fn send<K: Sink>(alloc: Global, bytes: &[u8], job: &Job, sink: &mut K) -> Outcome
    requires text { bytes.now ≡ job_bytes job.now }
    ensures shows { ShowsJob K.tells job.now result (K.received sink.old) (K.received sink.new) }
    ensures late { at_report ≤ last_step (ending result) }
    ensures sink_cause { CausesInSink result (K.faults sink.old) (K.faults sink.new) }
{
    let _ = job;
    match sink.write(alloc, bytes) {
        Ok(()) => Outcome::Listed { bits: 0 },
        Err(SinkErr::Failed) => Outcome::SinkFault,
        Err(SinkErr::NoMemory) => Outcome::NoMemory,
    }
}
