//! Job files in memory, and what words ask for over them.

use rc_job::Job;
use rc_jobfiles::{JobErr, Resolved, resolve};
use rc_mem::MemJobs;
use rc_tree::Text;
use rc_volume::JobStore;
use std::alloc::Global;
use std::test::Fail;

// A job's canonical text, with `|` for the ends of its lines.
fn shown(alloc: Global, job: &Job) -> Result<String, Fail> {
    let mut out = String::new(alloc);
    for c in job.text(alloc)?.text().chars() {
        out.push(if c == '\n' { '|' } else { c })?;
    }
    Ok(out)
}

// What words ask for: the job, what else they want, or why they are refused.
pub(crate) fn answer(alloc: Global, asked: Result<Resolved, JobErr>) -> Result<String, Fail> {
    Ok(match asked {
        Ok(resolved) => wants(alloc, &resolved)?,
        Err(JobErr::Usage { file, place, kind }) => {
            format!(in alloc; "U{kind} at {place} of {file}", file = file.text())?
        }
        Err(JobErr::Missing { name }) => format!(in alloc; "missing {name}", name = name.text())?,
        Err(JobErr::Deep { name }) => format!(in alloc; "deep {name}", name = name.text())?,
        Err(JobErr::Round { name }) => format!(in alloc; "round {name}", name = name.text())?,
        Err(JobErr::StoreFault) => String::from_str(alloc, "fault")?,
        Err(JobErr::NoMemory) => String::from_str(alloc, "no memory")?,
    })
}

fn wants(alloc: Global, resolved: &Resolved) -> Result<String, Fail> {
    let mut out = shown(alloc, &resolved.job)?;
    if let Some(name) = &resolved.save {
        out.push_str(" save ")?;
        out.push_str(name.text())?;
    }
    if resolved.quit {
        out.push_str(" quit")?;
    }
    if resolved.dropping {
        out.push_str(" drop")?;
    }
    Ok(out)
}

// Keeps a job file of these bytes.
pub(crate) fn keep(
    alloc: Global,
    jobs: &mut MemJobs,
    name: &str,
    bytes: &[u8],
) -> Result<(), Fail> {
    jobs.write(alloc, &Text::of(alloc, name)?, bytes)?;
    Ok(())
}

// The words of a line, with one space between two; no word is `-`.
pub(crate) fn words_in(alloc: Global, line: &str) -> Result<Vec<String>, Fail> {
    let mut words = Vec::new(alloc);
    for text in line.split(' ') {
        if text != "-" {
            words.push(String::from_str(alloc, text)?)?;
        }
    }
    Ok(words)
}

// What the words of a line ask for over a store.
pub(crate) fn ask(alloc: Global, jobs: &mut MemJobs, line: &str) -> Result<String, Fail> {
    let words = words_in(alloc, line)?;
    answer(alloc, resolve(alloc, words.as_slice(), jobs))
}
