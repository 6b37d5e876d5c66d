//! The summary of a report.

ghost use Rattle.std.specs.Prelude.{◌≡◌, ◌++◌, true, OnOk, codes, string_bytes};
ghost use Rattle.rc_report.specs.Report.{row_front, row_line, size_text, summary_of};
ghost use Rattle.rc_report.specs.Totals.{totals_of};

use crate::parts::push_right;
use crate::sizes::size_text;
use crate::{Totals, count_totals};
use rc_class::{GivenUp, Plan};
use std::alloc::{AllocError, Global};

const TITLES: &str = "              Total    Copied   Skipped  Mismatch    FAILED    Extras\n";

/// Fills a line with the summary of a plan, of which these files were given up.
pub(crate) fn fill_totals(
    alloc: Global,
    line: &mut String,
    plain: bool,
    plan: &Plan,
    failed: &[GivenUp],
) -> Result<(), AllocError>
    ensures { OnOk result
        (string_bytes line.new ≡ summary_of plain (totals_of plan.now.items failed.now)) }
{
    let totals = count_totals(plan, failed);
    fill_summary(alloc, line, plain, &totals)
}

// Fills a line with the summary: an empty line, the titles and the three rows.
fn fill_summary(
    alloc: Global,
    line: &mut String,
    plain: bool,
    totals: &Totals,
) -> Result<(), AllocError>
    ensures { OnOk result (string_bytes line.new ≡ summary_of plain totals.now) }
{
    line.clear();
    line.push('\n')?;
    line.push_str(TITLES)?;
    push_counts(alloc, line, "Dirs", &totals.dirs)?;
    push_counts(alloc, line, "Files", &totals.files)?;
    push_bytes(alloc, line, plain, &totals.bytes)
}

// Adds a row of plain numbers.
fn push_counts(
    alloc: Global,
    line: &mut String,
    name: &str,
    counts: &[u64],
) -> Result<(), AllocError>
    ensures { OnOk result
        (string_bytes line.new ≡ string_bytes line.old ++ row_line name.now true counts.now) }
{
    push_name(line, name)?;
    for count in counts {
        push_right(line, 10, &count.to_string(alloc)?)?;
    }
    line.push('\n')?;
    Ok(())
}

// Adds the row of sizes.
fn push_bytes(
    alloc: Global,
    line: &mut String,
    plain: bool,
    sizes: &[u128],
) -> Result<(), AllocError>
    ensures { OnOk result
        (string_bytes line.new
        ≡ string_bytes line.old ++ row_line (codes "Bytes") plain sizes.now) }
{
    push_name(line, "Bytes")?;
    for size in sizes {
        push_right(line, 10, &size_text(alloc, plain, *size)?)?;
    }
    line.push('\n')?;
    Ok(())
}

// Adds what a row begins with.
fn push_name(line: &mut String, name: &str) -> Result<(), AllocError>
    ensures { OnOk result (string_bytes line.new ≡ string_bytes line.old ++ row_front name.now) }
{
    push_right(line, 7, name)?;
    line.push_str(" :")
}
