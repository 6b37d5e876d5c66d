//! The header of a report.

ghost use Rattle.std.specs.Prelude.{◌≡◌, ◌++◌, ◌∷◌, OnOk, encode_utf8_all, flat_map, string_bytes};
ghost use Rattle.rc_report.specs.Report.{header_of, joined, root_text};

use crate::parts::push_text;
use crate::stamps::push_stamp;
use rc_job::{Job, Patterns};
use rc_tree::{Moment, NoMemory, Text};
use rc_wild::Pattern;
use std::alloc::{AllocError, Global};

/// Fills a line with the header: the roots, the moment and the file patterns.
pub(crate) fn fill_header(
    alloc: Global,
    line: &mut String,
    job: &Job,
    moment: Moment,
) -> Result<(), NoMemory>
    ensures { OnOk result (string_bytes line.new ≡ header_of job.now moment) }
{
    line.clear();
    line.push_str("ROBOCOPY\n  Source : ")?;
    push_root(line, &job.source)?;
    line.push_str("\n  Dest   : ")?;
    push_root(line, &job.target)?;
    line.push_str("\n  Moment : ")?;
    push_stamp(alloc, line, moment)?;
    line.push_str("\n  Files  : ")?;
    push_files(line, &job.files)?;
    line.push_str("\n\n")?;
    Ok(())
}

/// Adds a root as it was given; nothing where it was not.
pub(crate) fn push_root(line: &mut String, root: &Option<Text>) -> Result<(), AllocError>
    ensures { OnOk result (string_bytes line.new ≡ string_bytes line.old ++ root_text root.now) }
{
    match root {
        Some(root) => push_text(line, root.text()),
        None => Ok(()),
    }
}

// Adds the patterns with a space between them.
fn push_files(line: &mut String, files: &Patterns) -> Result<(), AllocError>
    ensures { OnOk result (string_bytes line.new ≡ string_bytes line.old ++ joined 32 files.now) }
{
    match files.as_slice() {
        [] => Ok(()),
        [first, rest @ ..] => {
            push_text(line, first.text())?;
            push_others(line, rest)
        }
    }
}

// Adds each pattern behind a space.
fn push_others(line: &mut String, files: &[Pattern]) -> Result<(), AllocError>
    ensures { OnOk result (string_bytes line.new
        ≡ string_bytes line.old ++ flat_map (λ next. 32 ∷ encode_utf8_all next) files.now) }
{
    for file in files {
        line.push(' ')?;
        push_text(line, file.text())?;
    }
    Ok(())
}
