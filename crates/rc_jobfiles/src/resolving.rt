//! What the words of a command line ask for, with the job files that they name.
ghost use Rattle.std.specs.Prelude.{◌≡◌, ◌⊎◌, true, false, [], Ok, Err, IfOk, option_map};
ghost use Rattle.rc_volume.specs.Faults.{RisesIf};
ghost use Rattle.rc_jobfiles.specs.Ask.{texts};
ghost use Rattle.rc_jobfiles.specs.Picking.{job_by};
ghost use Rattle.rc_jobfiles.specs.Reading.{job_failed, picks_in};
ghost use Rattle.rc_jobfiles.specs.declared.job_err.JobErr.TheVariants.{NoMemory as OutOfMemory, StoreFault as Faulty};
ghost use Rattle.rc_jobfiles.specs.Resolving.{accepted_by, file_gathered, gathered, job_gathered, names_no_file, names_none, resolved, resolved_by, save_in};
ghost use Rattle.rc_jobfiles.specs.Refusal.{refusal_of};

use crate::JobErr;
use crate::line::as_words;
use crate::lookup::{given, has};
use crate::opening::settings_by;
use crate::picking::pick;
use crate::reading::{Progress, read_list};
use crate::refusal::job_refusal;
use rc_job::Job;
use rc_tree::{NoMemory, Text};
use rc_volume::JobStore;
use rc_words::{Placed, Setting, read_words};
use std::alloc::Global;

// The numbers of `/SAVE:`, `/QUIT` and `/DROP`.
const SAVE: u8 = 69;

const QUIT: u8 = 70;

const DROP: u8 = 71;

// How many job files may be read within one another.
const MOST_WITHIN: u8 = 8;

/// What the words of a command line ask for.
#[derive(Debug, Drop)]
pub struct Resolved {
    pub job: Job,
    /// `/SAVE:`: the name under which the job is kept, as its word spells it.
    pub save: Option<Text>,
    /// `/QUIT`: the job is not run.
    pub quit: bool,
    /// `/DROP`: an old record is dropped.
    pub dropping: bool,
}

/// The job that the words of a command line ask for, with the job files of a store that they name, or the first refusal:
/// that of the first word of the command line that is refused, else that of the first job file in the order of the
/// words, each with those that it names itself, else that of the whole job.
#[tactic(auto, unfolding(crate::specs::Resolving::resolved))]
pub fn resolve<J: JobStore>(
    alloc: Global,
    words: &[String],
    jobs: &mut J,
) -> Result<Resolved, JobErr>
    ensures resolved { J.tells ≡ true →
        (result ≡ resolved (texts words.now) (J.files jobs.old))
        ⊎ (result ≡ Err OutOfMemory) ⊎ (result ≡ Err Faulty) }
    ensures alone { names_no_file (texts words.now) ≡ true →
        (result ≡ resolved (texts words.now) (J.files jobs.old)) ⊎ (result ≡ Err OutOfMemory) }
    ensures untouched { names_no_file (texts words.now) ≡ true → jobs.new ≡ jobs.old }
    ensures same { J.tells ≡ true → J.files jobs.new ≡ J.files jobs.old }
    ensures cause { RisesIf (job_failed result) (J.faults jobs.old) (J.faults jobs.new) }
{
    let line = Text::empty(alloc);
    match as_words(alloc, words) {
        Ok(words) => match settings_by(alloc, &line, read_words(alloc, &words, false)) {
            Ok(settings) => resolve_settings(alloc, &line, settings, jobs),
            Err(e) => Err(e),
        },
        Err(_) => Err(JobErr::NoMemory),
    }
}

// What the settings of a command line ask for.
fn resolve_settings<J: JobStore>(
    alloc: Global,
    line: &Text,
    settings: Vec<Placed>,
    jobs: &mut J,
) -> Result<Resolved, JobErr>
    requires { line.now ≡ [] }
    ensures resolved { (J.tells ≡ true) ⊎ (names_none settings.items ≡ true) →
        (result ≡ resolved_by (J.files jobs.old) (Ok settings.items))
        ⊎ (result ≡ Err OutOfMemory) ⊎ (result ≡ Err Faulty) }
    ensures alone { names_none settings.items ≡ true →
        (jobs.new ≡ jobs.old) × (job_failed result ≡ false) }
    ensures same { J.tells ≡ true → J.files jobs.new ≡ J.files jobs.old }
    ensures cause { RisesIf (job_failed result) (J.faults jobs.old) (J.faults jobs.new) }
{
    let save = match save_in(alloc, given(&settings, SAVE)) {
        Ok(save) => save,
        Err(_) => return Err(JobErr::NoMemory),
    };
    let quit = has(&settings, QUIT);
    let dropping = has(&settings, DROP);
    match read_job(alloc, line, settings, jobs) {
        Ok(job) => accept(alloc, job, save, quit, dropping),
        Err(e) => Err(e),
    }
}

// The job of the settings of a command line, with those of the files that they name.
fn read_job<J: JobStore>(
    alloc: Global,
    line: &Text,
    settings: Vec<Placed>,
    jobs: &mut J,
) -> Result<Job, JobErr>
    requires { line.now ≡ [] }
    ensures read { (J.tells ≡ true) ⊎ (names_none settings.items ≡ true) →
        (result ≡ job_gathered
        (gathered (file_gathered 8 (J.files jobs.old) [] []) settings.items 0))
        ⊎ (result ≡ Err OutOfMemory) ⊎ (result ≡ Err Faulty) }
    ensures alone { names_none settings.items ≡ true →
        (jobs.new ≡ jobs.old) × (job_failed result ≡ false) }
    ensures same { J.tells ≡ true → J.files jobs.new ≡ J.files jobs.old }
    ensures cause { RisesIf (job_failed result) (J.faults jobs.old) (J.faults jobs.new) }
{
    let mut progress = Progress::new(alloc);
    match read_list(alloc, jobs, MOST_WITHIN, line, settings, &mut progress) {
        Ok(()) => picked(alloc, progress),
        Err(e) => Err(e),
    }
}

fn picked(alloc: Global, progress: Progress) -> Result<Job, JobErr>
    ensures { (result ≡ Ok (job_by (picks_in progress.lists.items progress.values)))
        ⊎ (result ≡ Err OutOfMemory) }
{
    let Progress { values, lists, .. } = progress;
    match pick(alloc, &lists, values) {
        Ok(job) => Ok(job),
        Err(_) => Err(JobErr::NoMemory),
    }
}

fn save_in(alloc: Global, setting: Option<&Setting>) -> Result<Option<Text>, NoMemory>
    ensures { IfOk result (λ save. save ≡ save_in (option_map (λ s. s.now) setting.entry)) }
{
    match setting {
        Some(Setting::Save(name)) => Ok(Some(name.copy(alloc)?)),
        _ => Ok(None),
    }
}

// A job, but for the refusal that it has as a whole.
fn accept(
    alloc: Global,
    job: Job,
    save: Option<Text>,
    quit: bool,
    dropping: bool,
) -> Result<Resolved, JobErr>
    ensures accepted { (result ≡ accepted_by (refusal_of quit job) job save quit dropping)
        ⊎ (result ≡ Err OutOfMemory) }
    ensures no_fault { job_failed result ≡ false }
{
    match job_refusal(alloc, &job, quit) {
        Ok(None) => Ok(Resolved {
            job,
            save,
            quit,
            dropping,
        }),
        Ok(Some(kind)) => Err(JobErr::Usage {
            file: Text::empty(alloc),
            place: 0,
            kind,
        }),
        Err(_) => Err(JobErr::NoMemory),
    }
}
