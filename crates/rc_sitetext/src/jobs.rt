//! The line of a job file, and the job files.

ghost use Rattle.std.specs.Prelude.{◌≡◌, Some};
ghost use Rattle.std.specs.FinMap.{empty};
ghost use Rattle.rc_tree.specs.Path.{name_cmp};
ghost use Rattle.rc_sitetext.specs.Drafts.{job_of};
ghost use Rattle.rc_sitetext.specs.Faults.{Answers, filed_at};
ghost use Rattle.rc_sitetext.specs.Reading.{Gives, is_behind, job_at};

use crate::entry::needed;
use crate::err::{FaultKind, LineErr, ValueErr};
use crate::fields::{JobTexts, job_texts};
use crate::values::{hex_of, job_name_of};
use rc_mem::MemJobs;
use rc_tree::Text;
use rc_volume::JobStore;
use std::alloc::Global;
use std::marker::Model;

// A job file.
#[derive(Debug, Drop)]
struct JobFile {
    name: Text,
    bytes: Vec<u8>,
}

#[tactic(auto, unfolding(crate::specs::Reading::job_at))]
fn job_of(alloc: Global, texts: &JobTexts<'_>) -> Result<JobFile, ValueErr>
    ensures { Gives job_of result (job_at (texts.now.name.now, texts.now.bytes.now)) }
{
    let name = job_name_of(alloc, texts.name)?;
    let bytes = hex_of(alloc, texts.bytes)?;
    Ok(JobFile { name, bytes })
}

/// Job files, of which the last one has the greatest folded name. Contracts see the map from folded names to bytes.
#[derive(Debug, Drop)]
pub(crate) struct JobFiles {
    files: MemJobs,
    last: Option<Text>,
}

impl Model for JobFiles {
    ghost use Rattle.std.specs.Prelude.{◌≡◌, List, ℕ};
    ghost use Rattle.std.specs.FinMap.{FinMap, code};
    ghost use Rattle.std.specs.Coded.{coded_list, coded_ℕ};
    ghost use Rattle.rc_tree.specs.Path.{name_cmp};
    ghost use Rattle.rc_sitetext.specs.Reading.{last_key};

    ghost Value = { FinMap name_cmp (List ℕ) };

    ghost coded = { code (coded_list coded_ℕ) (coded_list coded_ℕ) };

    ghost view = { λ j. j.files };

    ghost invariant = { λ j. last_key j.files ≡ j.last };
}

impl JobFiles {
    pub(crate) fn new(alloc: Global) -> JobFiles
        ensures { result ≡ empty }
    {
        JobFiles {
            files: MemJobs::new(alloc),
            last: None,
        }
    }

    /// The store of the files.
    pub(crate) fn into_store(self) -> MemJobs
        ensures { result ≡ self }
    {
        let JobFiles { files, .. } = self;
        files
    }

    /// The files with that of this line behind them.
    #[tactic(auto, unfolding(crate::specs::Faults::filed_at))]
    pub(crate) fn with(self, alloc: Global, line: &str) -> Result<JobFiles, LineErr>
        ensures { Answers (λ j. j) result (filed_at self line.now) }
    {
        let texts = needed(FaultKind::Line, job_texts(line))?;
        let job = needed(FaultKind::Field, job_of(alloc, &texts))?;
        let key = Text::folded(alloc, job.name.text())?;
        if !is_behind(&self.last, &key) {
            return Err(LineErr::Fault(FaultKind::Order));
        }
        let JobFiles { mut files, .. } = self;
        match files.write(alloc, &job.name, &job.bytes) {
            Ok(()) => Ok(JobFiles {
                files,
                last: Some(key),
            }),
            Err(_) => Err(LineErr::NoMemory),
        }
    }
}

// Whether a folded name comes behind the last one.
fn is_behind(last: &Option<Text>, name: &Text) -> bool
    ensures { result ≡ is_behind name_cmp last.now name.now }
{
    match last {
        Some(last) => last.cmp(name).is_lt(),
        None => true,
    }
}
