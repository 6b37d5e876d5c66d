//! What is kept of a job.
ghost use Rattle.std.specs.Prelude.{◌≡◌, IfOk, encode_utf8_all};
ghost use Rattle.std.specs.Str.{IsUtf8};
ghost use Rattle.rc_job.specs.Settings.{canonical};

use rc_job::Job;
use rc_tree::NoMemory;
use std::alloc::Global;

/// The bytes of the job file that `/SAVE:` writes: the job's canonical text in UTF-8, without a mark.
pub fn save_text(alloc: Global, job: &Job) -> Result<Vec<u8>, NoMemory>
    ensures bytes { IfOk result (λ bytes. bytes.items ≡ encode_utf8_all (canonical job.now)) }
    ensures utf8 { IfOk result (λ bytes. IsUtf8 bytes.items) }
{
    let text = job.text(alloc)?;
    bytes_of(alloc, text.text())
}

fn bytes_of(alloc: Global, text: &str) -> Result<Vec<u8>, NoMemory>
    ensures { IfOk result (λ bytes. bytes.items ≡ text.now) }
{
    Ok(text.as_bytes().to_vec(alloc)?)
}
