//! The lines of a report.

ghost use Rattle.std.specs.Prelude.{◌≡◌, ◌++◌, OnOk, string_bytes};
ghost use Rattle.rc_report.specs.Report.{entry_size, path_front, root_of, shown_line, size_column, tag_column, time_column};

use crate::header::push_root;
use crate::parts::{push_left, push_path, push_right};
use crate::sizes::size_text;
use crate::stamps::push_stamp;
use crate::tags::{path_end, tag_of};
use rc_class::{Class, Facts, Item};
use rc_job::Job;
use rc_tree::{Kind, Moment, NoMemory, Text};
use std::alloc::{AllocError, Global};

/// Fills a line with that of a key which has one.
pub(crate) fn fill_line(
    alloc: Global,
    line: &mut String,
    job: &Job,
    item: &Item,
    given_up: bool,
) -> Result<(), NoMemory>
    ensures { OnOk result (string_bytes line.new
        ≡ shown_line job.now (record { item = item.now; given_up = given_up })) }
{
    line.clear();
    line.push_str("  ")?;
    push_tag(line, job.nc, item, given_up)?;
    push_size(alloc, line, job, &item.facts)?;
    push_time(alloc, line, job.with_time, item.facts.written)?;
    line.push_str("  ")?;
    push_front(line, job, item.class)?;
    push_path(line, &item.path)?;
    line.push_str(path_end(item.facts.kind))?;
    line.push('\n')?;
    Ok(())
}

// Adds what the key is called, unless tags are left out.
fn push_tag(line: &mut String, without: bool, item: &Item, given_up: bool) -> Result<(), AllocError>
    ensures { OnOk result (string_bytes line.new ≡ string_bytes line.old
        ++ tag_column without (record { item = item.now; given_up = given_up })) }
{
    if without {
        return Ok(());
    }
    push_left(line, 12, tag_of(item, given_up))
}

// Adds the size of an entry, unless sizes are left out; a directory has none.
fn push_size(alloc: Global, line: &mut String, job: &Job, facts: &Facts) -> Result<(), AllocError>
    ensures { OnOk result
        (string_bytes line.new ≡ string_bytes line.old ++ size_column job.now facts.now) }
{
    if job.ns {
        return Ok(());
    }
    match facts.kind {
        Kind::File => {
            let size = size_text(alloc, job.plain_bytes, u128::from(facts.size))?;
            push_right(line, 12, &size)
        }
        Kind::Dir => push_right(line, 12, "-"),
    }
}

// Adds when an entry was written, where that is asked for.
fn push_time(alloc: Global, line: &mut String, with: bool, written: Moment) -> Result<(), NoMemory>
    ensures { OnOk result
        (string_bytes line.new ≡ string_bytes line.old ++ time_column with written) }
{
    if !with {
        return Ok(());
    }
    line.push_str("  ")?;
    push_stamp(alloc, line, written)
}

// Adds the root in front of a path, where that is asked for.
fn push_front(line: &mut String, job: &Job, class: Class) -> Result<(), AllocError>
    ensures { OnOk result
        (string_bytes line.new ≡ string_bytes line.old ++ path_front job.now class) }
{
    if !job.full_path {
        return Ok(());
    }
    push_root(line, root_of(job, class))?;
    line.push('\\')?;
    Ok(())
}

// The root that an entry of this class stands below.
fn root_of(job: &Job, class: Class) -> &Option<Text>
    ensures { result.now ≡ root_of job.now class }
{
    if class == Class::Extra {
        &job.target
    } else {
        &job.source
    }
}
