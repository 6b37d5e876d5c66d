//! Why a whole job is refused.
ghost use Rattle.std.specs.Prelude.{◌≡◌, IfOk};
ghost use Rattle.rc_jobfiles.specs.Refusal.{excludes, lacks, roots_overlap, is_too_long, refusal_of};

use crate::roots::overlap;
use rc_job::{Job, Moving};
use rc_tree::{NoMemory, Text};
use std::alloc::Global;

// The greatest length of a canonical text, in bytes.
const GREATEST_LENGTH: usize = 16777216;

/// The kind of the first refusal of a job as a whole: 9 where what is moved is copied without its bytes, 10 where there
/// is no source and 11 where there is no target, 12 where the roots are the same or one is below the other, and 15
/// where the canonical text has more than 16777216 bytes. A root that `/NOSD` or `/NODD` leaves out is not missed where
/// the job is not run, which `quit` says.
#[tactic(auto, unfolding(crate::specs::Refusal::refusal_of))]
pub fn job_refusal(alloc: Global, job: &Job, quit: bool) -> Result<Option<u8>, NoMemory>
    ensures { IfOk result (λ kind. kind ≡ refusal_of quit job.now) }
{
    if excludes(job) {
        Ok(Some(9))
    } else if lacks(&job.source, job.no_source, quit) {
        Ok(Some(10))
    } else if lacks(&job.target, job.no_target, quit) {
        Ok(Some(11))
    } else if roots_overlap(alloc, &job.source, &job.target)? {
        Ok(Some(12))
    } else if is_too_long(alloc, job)? {
        Ok(Some(15))
    } else {
        Ok(None)
    }
}

// Whether it moves files without their bytes.
fn excludes(job: &Job) -> bool
    ensures { result ≡ excludes job.now }
{
    let is_moving = !matches!(job.moving, Moving::No);
    is_moving && (job.create || !job.copy.data_bytes)
}

fn lacks(root: &Option<Text>, left_out: bool, quit: bool) -> bool
    ensures { result ≡ lacks root.now left_out quit }
{
    root.is_none() && !(left_out && quit)
}

fn roots_overlap(
    alloc: Global,
    source: &Option<Text>,
    target: &Option<Text>,
) -> Result<bool, NoMemory>
    ensures { IfOk result (λ is. is ≡ roots_overlap source.now target.now) }
{
    match (source, target) {
        (Some(source), Some(target)) => overlap(alloc, source.text(), target.text()),
        _ => Ok(false),
    }
}

fn is_too_long(alloc: Global, job: &Job) -> Result<bool, NoMemory>
    ensures { IfOk result (λ is. is ≡ is_too_long job.now) }
{
    match job.text(alloc) {
        Ok(text) => Ok(text.text().len() > GREATEST_LENGTH),
        Err(e) => Err(e),
    }
}
