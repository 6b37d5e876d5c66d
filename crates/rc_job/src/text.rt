//! The canonical text of a job.
ghost use Rattle.std.specs.Prelude.{◌≡◌, ◌++◌, IfOk, OnOk};
ghost use Rattle.rc_job.specs.Settings.{text_of, sub_lines, moving_lines, scan_lines, deciding_settings, written, canonical, core, root_settings, missing_settings, tree_settings, copied_settings, changed_settings, filter_settings, exclude_settings, class_settings, bound_settings, run_settings, shown_settings, layout_settings};

use crate::lines::Lines;
use crate::rows::{
    push_attr, push_changed, push_copy, push_directory, push_excludes, push_files, push_line,
    push_number, push_other_number, push_root, push_switch,
};
use crate::{Job, Moving, Sub};
use rc_tree::{NoMemory, Scan, Text};
use std::alloc::Global;

impl Job {
    /// The canonical text: a line for each setting that is not the default, and for the files, in the order of the
    /// switch table, each ended by LF. A list is its switch and then a line for each value. A value that holds a
    /// space stands in quotes, in a list also one that begins with `/` or `::`.
    #[tactic(auto, unfolding(crate::specs::Settings::canonical))]
    pub fn text(&self, alloc: Global) -> Result<Text, NoMemory>
        ensures { IfOk result (λ text. text ≡ canonical self.now) }
    {
        let mut lines = Lines::new(alloc);
        push_roots(&mut lines, self)?;
        push_missing(&mut lines, self)?;
        push_deciding(alloc, &mut lines, self)?;
        push_run(&mut lines, self)?;
        push_shown(&mut lines, self)?;
        push_layout(&mut lines, self)?;
        lines.into_text(alloc)
    }

    /// The lines of the canonical text that decide what becomes of a key: those of all settings but `/NOSD`, `/NODD`,
    /// how a run goes and what it reports.
    #[tactic(auto, unfolding(crate::specs::Settings::core))]
    pub fn core_text(&self, alloc: Global) -> Result<Text, NoMemory>
        ensures { IfOk result (λ text. text ≡ core self.now) }
    {
        let mut lines = Lines::new(alloc);
        push_roots(&mut lines, self)?;
        push_deciding(alloc, &mut lines, self)?;
        lines.into_text(alloc)
    }
}

fn push_deciding(alloc: Global, lines: &mut Lines, job: &Job) -> Result<(), NoMemory>
    ensures { OnOk result (lines.new ≡ lines.old ++ written (deciding_settings job.now)) }
{
    push_tree(lines, job)?;
    push_copied(alloc, lines, job)?;
    push_changes(alloc, lines, job)?;
    push_filter(alloc, lines, job)?;
    push_excluded(lines, job)?;
    push_class(lines, job)?;
    push_bound(lines, job)
}

fn push_roots(lines: &mut Lines, job: &Job) -> Result<(), NoMemory>
    ensures { OnOk result (lines.new ≡ lines.old ++ written (root_settings job.now)) }
{
    push_root(lines, "/SD:", &job.source)?;
    push_root(lines, "/DD:", &job.target)
}

fn push_missing(lines: &mut Lines, job: &Job) -> Result<(), NoMemory>
    ensures { OnOk result (lines.new ≡ lines.old ++ written (missing_settings job.now)) }
{
    push_switch(lines, "/NOSD", job.no_source)?;
    push_switch(lines, "/NODD", job.no_target)
}

fn push_tree(lines: &mut Lines, job: &Job) -> Result<(), NoMemory>
    ensures { OnOk result (lines.new ≡ lines.old ++ written (tree_settings job.now)) }
{
    push_files(lines, "/IF", &job.files)?;
    push_sub(lines, job.sub)?;
    push_number(lines, "/LEV:", wide(job.lev))?;
    push_switch(lines, "/PURGE", job.purge)?;
    push_moving(lines, job.moving)?;
    push_switch(lines, "/CREATE", job.create)
}

fn push_copied(alloc: Global, lines: &mut Lines, job: &Job) -> Result<(), NoMemory>
    ensures { OnOk result (lines.new ≡ lines.old ++ written (copied_settings job.now)) }
{
    push_copy(alloc, lines, job.copy)?;
    push_directory(alloc, lines, job.dcopy)?;
    push_switch(lines, "/SECFIX", job.secfix)?;
    push_switch(lines, "/TIMFIX", job.timfix)
}

fn push_changes(alloc: Global, lines: &mut Lines, job: &Job) -> Result<(), NoMemory>
    ensures { OnOk result (lines.new ≡ lines.old ++ written (changed_settings job.now)) }
{
    push_changed(alloc, lines, "/A+:", job.plus)?;
    push_changed(alloc, lines, "/A-:", job.minus)
}

fn push_filter(alloc: Global, lines: &mut Lines, job: &Job) -> Result<(), NoMemory>
    ensures { OnOk result (lines.new ≡ lines.old ++ written (filter_settings job.now)) }
{
    push_switch(lines, "/A", job.only_a)?;
    push_switch(lines, "/M", job.only_m)?;
    push_attr(alloc, lines, "/IA:", job.ia)?;
    push_attr(alloc, lines, "/XA:", job.xa)
}

fn push_excluded(lines: &mut Lines, job: &Job) -> Result<(), NoMemory>
    ensures { OnOk result (lines.new ≡ lines.old ++ written (exclude_settings job.now)) }
{
    push_excludes(lines, "/XF", &job.xf)?;
    push_excludes(lines, "/XD", &job.xd)
}

fn push_class(lines: &mut Lines, job: &Job) -> Result<(), NoMemory>
    ensures { OnOk result (lines.new ≡ lines.old ++ written (class_settings job.now)) }
{
    push_switch(lines, "/XC", job.xc)?;
    push_switch(lines, "/XN", job.xn)?;
    push_switch(lines, "/XO", job.xo)?;
    push_switch(lines, "/XL", job.xl)?;
    push_switch(lines, "/XX", job.xx)?;
    push_switch(lines, "/IS", job.with_same)?;
    push_switch(lines, "/IT", job.with_tweaked)
}

fn push_bound(lines: &mut Lines, job: &Job) -> Result<(), NoMemory>
    ensures { OnOk result (lines.new ≡ lines.old ++ written (bound_settings job.now)) }
{
    push_number(lines, "/MAX:", job.max)?;
    push_number(lines, "/MIN:", job.min)?;
    push_number(lines, "/MAXAGE:", wide(job.maxage))?;
    push_number(lines, "/MINAGE:", wide(job.minage))?;
    push_switch(lines, "/FFT", job.fft)?;
    push_switch(lines, "/DST", job.dst)?;
    push_switch(lines, "/X", job.all_extras)
}

fn push_run(lines: &mut Lines, job: &Job) -> Result<(), NoMemory>
    ensures { OnOk result (lines.new ≡ lines.old ++ written (run_settings job.now)) }
{
    push_switch(lines, "/Z", job.strides)?;
    push_other_number(lines, "/MT:", 1, u64::from(job.workers))?;
    push_other_number(lines, "/R:", 1000000, u64::from(job.retries))?;
    push_other_number(lines, "/W:", 30, u64::from(job.wait))?;
    push_switch(lines, "/L", job.list_only)
}

fn push_shown(lines: &mut Lines, job: &Job) -> Result<(), NoMemory>
    ensures { OnOk result (lines.new ≡ lines.old ++ written (shown_settings job.now)) }
{
    push_switch(lines, "/V", job.verbose)?;
    push_switch(lines, "/NFL", job.nfl)?;
    push_switch(lines, "/NDL", job.ndl)?;
    push_switch(lines, "/NC", job.nc)?;
    push_switch(lines, "/NS", job.ns)
}

fn push_layout(lines: &mut Lines, job: &Job) -> Result<(), NoMemory>
    ensures { OnOk result (lines.new ≡ lines.old ++ written (layout_settings job.now)) }
{
    push_switch(lines, "/NJH", job.njh)?;
    push_switch(lines, "/NJS", job.njs)?;
    push_switch(lines, "/BYTES", job.plain_bytes)?;
    push_switch(lines, "/FP", job.full_path)?;
    push_switch(lines, "/TS", job.with_time)?;
    push_scan(lines, job.scan)
}

fn push_sub(lines: &mut Lines, sub: Sub) -> Result<(), NoMemory>
    ensures { OnOk result (lines.new ≡ lines.old ++ text_of (sub_lines sub)) }
{
    match sub {
        Sub::None => Ok(()),
        Sub::NonEmpty => push_line(lines, "/S"),
        Sub::All => push_line(lines, "/E"),
    }
}

fn push_moving(lines: &mut Lines, moving: Moving) -> Result<(), NoMemory>
    ensures { OnOk result (lines.new ≡ lines.old ++ text_of (moving_lines moving)) }
{
    match moving {
        Moving::No => Ok(()),
        Moving::Files => push_line(lines, "/MOV"),
        Moving::All => push_line(lines, "/MOVE"),
    }
}

fn push_scan(lines: &mut Lines, scan: Scan) -> Result<(), NoMemory>
    ensures { OnOk result (lines.new ≡ lines.old ++ text_of (scan_lines scan)) }
{
    match scan {
        Scan::Size => Ok(()),
        Scan::Digest => push_line(lines, "/SCAN:DIGEST"),
    }
}

fn wide(number: Option<u32>) -> Option<u64>
    ensures { result ≡ number }
{
    match number {
        Some(number) => Some(u64::from(number)),
        None => None,
    }
}
