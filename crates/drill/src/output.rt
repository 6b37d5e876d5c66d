//! What a drill prints.

ghost use Rattle.std.specs.Prelude.{◌≡◌, ◌⊎◌, ◌++◌, ◌<◌, ◌≤◌, Bool, true, ℕ, List, string_bytes, IfOk, OnOk, OnErr};
ghost use Rattle.rc_volume.specs.Faults.{RisesIf, RoseBy};
ghost use Rattle.rc_volume.specs.Streams.{AppendsFront, sink_failed};
ghost use Rattle.rc_mem.specs.MemSite.{told_by};
ghost use Rattle.rc_run.specs.Outcome.{line_of, status_of};
ghost use Rattle.rc_sitetext.specs.SiteText.{AreFiles, JobText, site_text};
ghost use Rattle.drill.specs.Drilling.{OfSome, WritesOne, WritesOut};
ghost use Rattle.drill.specs.Finishing.{IsPrinted, OfFiles, Sent, end_of, stop_line};
ghost use Rattle.drill.specs.Printed.{argument_line, digest_line, drill_text, end_text, status_lines, text_line, whole_line};

use crate::begin::Stop;
use crate::digest::DigestSink;
use crate::mirror::Finished;
use rc_mem::{MemJobs, MemSite};
use rc_run::{Outcome, outcome_text, status};
use rc_sitetext::write_site;
use rc_tree::NoMemory;
use rc_volume::{Sink, SinkErr};
use std::alloc::Global;

/// What a run leaves to be printed: how it ended, with its job files, the moment of its start, and whether of the site
/// text only the digest is printed.
#[derive(Drop)]
pub(crate) struct Printing {
    pub(crate) digests: bool,
    pub(crate) moment: u64,
    pub(crate) jobs: MemJobs,
    pub(crate) finished: Finished,
}

/// Writes which argument is bad, and answers 16, or 32 where memory runs out.
pub(crate) fn refuse_argument<K: Sink>(alloc: Global, place: u64, out: &mut K) -> u8
    ensures written { OfSome K.tells (K.received out.new) (λ new. WritesOut
        (RoseBy 1 (K.faults out.old) (K.faults out.new))
        (K.received out.old) (argument_line place) 16 new result) }
    ensures counts { K.faults out.old ≤ K.faults out.new }
    ensures fault { K.faults out.old < K.faults out.new → result ≡ 16 }
{
    match argument_line(alloc, place) {
        Ok(line) => write_line(alloc, line.as_str(), out),
        Err(NoMemory) => 32,
    }
}

fn argument_line(alloc: Global, place: u64) -> Result<String, NoMemory>
    ensures { IfOk result (λ line. string_bytes line ≡ argument_line place) }
{
    let mut line = String::new(alloc);
    write!(line, "ERROR: drill word {place}\n")?;
    Ok(line)
}

/// Writes why there is no site to run on, and answers 16, or 32 where memory runs out.
pub(crate) fn refuse<K: Sink>(alloc: Global, stop: Stop, out: &mut K) -> u8
    ensures written { OfSome K.tells (K.received out.new) (λ new. WritesOut
        (RoseBy 1 (K.faults out.old) (K.faults out.new))
        (K.received out.old) (stop_line stop) 16 new result) }
    ensures silent { stop ≡ Stop.NoMemory →
        (K.tells ≡ true → K.received out.new ≡ K.received out.old) × (result ≡ 32) }
    ensures counts { K.faults out.old ≤ K.faults out.new }
    ensures fault { K.faults out.old < K.faults out.new → result ≡ 16 }
{
    match stop {
        Stop::Input => write_line(alloc, "ERROR: input\n", out),
        Stop::SiteText { line, kind } => refuse_text(alloc, line, kind, out),
        Stop::NoMemory => 32,
    }
}

fn refuse_text<K: Sink>(alloc: Global, line: u64, kind: u8, out: &mut K) -> u8
    ensures written { OfSome K.tells (K.received out.new) (λ new. WritesOut
        (RoseBy 1 (K.faults out.old) (K.faults out.new))
        (K.received out.old) (text_line line kind) 16 new result) }
    ensures counts { K.faults out.old ≤ K.faults out.new }
    ensures fault { K.faults out.old < K.faults out.new → result ≡ 16 }
{
    match text_line(alloc, line, kind) {
        Ok(line) => write_line(alloc, line.as_str(), out),
        Err(NoMemory) => 32,
    }
}

fn text_line(alloc: Global, line: u64, kind: u8) -> Result<String, NoMemory>
    ensures { IfOk result (λ text. string_bytes text ≡ text_line line kind) }
{
    let mut text = String::new(alloc);
    write!(text, "ERROR: site text line {line} kind {kind}\n")?;
    Ok(text)
}

// Writes a line, and answers 16, or 32 where memory runs out.
fn write_line<K: Sink>(alloc: Global, line: &str, out: &mut K) -> u8
    ensures written { OfSome K.tells (K.received out.new) (λ new. WritesOut
        (RoseBy 1 (K.faults out.old) (K.faults out.new))
        (K.received out.old) line.now 16 new result) }
    ensures counts { K.faults out.old ≤ K.faults out.new }
    ensures fault { K.faults out.old < K.faults out.new → result ≡ 16 }
{
    match out.write(alloc, line.as_bytes()) {
        Ok(()) => 16,
        Err(SinkErr::Failed) => 16,
        Err(SinkErr::NoMemory) => 32,
    }
}

/// Writes how a run ended, and answers its status, 16 where writing failed, or 32 where memory ran out.
pub(crate) fn write_finished<K: Sink>(alloc: Global, out: &mut K, printing: &Printing) -> u8
    ensures written { OfSome K.tells (K.received out.new) (λ new. WritesOne
        (IsPrinted printing.now) (RoseBy 1 (K.faults out.old) (K.faults out.new))
        (K.received out.old) new result) }
    ensures counts { K.faults out.old ≤ K.faults out.new }
    ensures fault { K.faults out.old < K.faults out.new → result ≡ 16 }
{
    match write_end(alloc, out, printing) {
        Ok(()) => status(&printing.finished.outcome),
        Err(SinkErr::Failed) => 16,
        Err(SinkErr::NoMemory) => 32,
    }
}

// Writes the report, the lines of the outcome, and the site or its digest.
fn write_end<K: Sink>(alloc: Global, out: &mut K, printing: &Printing) -> Result<(), SinkErr>
    ensures sent { OfFiles printing.now.jobs (λ files. Sent K.tells result
        (drill_text printing.now.digests printing.now.moment files
        (end_of printing.now.finished printing.now.jobs)) (K.received out.old) (K.received out.new)) }
    ensures cause { RisesIf (sink_failed result) (K.faults out.old) (K.faults out.new) }
{
    have_some_spelling(&printing.jobs);
    match write_report(alloc, out, &printing.finished) {
        Ok(()) => write_site_text(alloc, out, printing),
        Err(e) => Err(e),
    }
}

// Job files have names.
fn have_some_spelling(jobs: &MemJobs)
    ensures { (files : List JobText) × AreFiles jobs.now files }
{
    let _files = jobs.files();
}

// Writes the report and the lines of the outcome.
fn write_report<K: Sink>(alloc: Global, out: &mut K, finished: &Finished) -> Result<(), SinkErr>
    ensures sent { Sent K.tells result
        (finished.now.report ++ status_lines finished.now.outcome)
        (K.received out.old) (K.received out.new) }
    ensures cause { RisesIf (sink_failed result) (K.faults out.old) (K.faults out.new) }
{
    match out.write(alloc, finished.report.bytes()) {
        Ok(()) => write_status(alloc, out, &finished.outcome),
        Err(e) => Err(e),
    }
}

// Writes the site text of the end, or the line of its digest.
fn write_site_text<K: Sink>(alloc: Global, out: &mut K, printing: &Printing) -> Result<(), SinkErr>
    ensures sent { OfFiles printing.now.jobs (λ files. Sent K.tells result
        (end_text printing.now.digests
        (site_text printing.now.moment (told_by printing.now.finished.site) files))
        (K.received out.old) (K.received out.new)) }
    ensures cause { RisesIf (sink_failed result) (K.faults out.old) (K.faults out.new) }
{
    let site = &printing.finished.site;
    if printing.digests {
        write_digest(alloc, out, site, printing.moment, &printing.jobs)
    } else {
        write_whole(alloc, out, site, printing.moment, &printing.jobs)
    }
}

// Writes a site text.
fn write_whole<K: Sink>(
    alloc: Global,
    out: &mut K,
    site: &MemSite,
    moment: u64,
    jobs: &MemJobs,
) -> Result<(), SinkErr>
    ensures sent { OfFiles jobs.now (λ files. Sent K.tells result
        (site_text moment (told_by site.now) files) (K.received out.old) (K.received out.new)) }
    ensures cause { RisesIf (sink_failed result) (K.faults out.old) (K.faults out.new) }
{
    have_some_spelling(jobs);
    write_site(alloc, out, site, moment, jobs)
}

// Writes the line of the digest of a site text, which is not held whole.
fn write_digest<K: Sink>(
    alloc: Global,
    out: &mut K,
    site: &MemSite,
    moment: u64,
    jobs: &MemJobs,
) -> Result<(), SinkErr>
    ensures sent { OfFiles jobs.now (λ files. Sent K.tells result
        (digest_line (site_text moment (told_by site.now) files))
        (K.received out.old) (K.received out.new)) }
    ensures cause { RisesIf (sink_failed result) (K.faults out.old) (K.faults out.new) }
{
    have_some_spelling(jobs);
    match digest_line(alloc, site, moment, jobs) {
        Ok(line) => write_text(alloc, out, &line),
        Err(NoMemory) => Err(SinkErr::NoMemory),
    }
}

// Writes a text.
fn write_text<K: Sink>(alloc: Global, out: &mut K, text: &String) -> Result<(), SinkErr>
    ensures sent { Sent K.tells result (string_bytes text.now)
        (K.received out.old) (K.received out.new) }
    ensures cause { RisesIf (sink_failed result) (K.faults out.old) (K.faults out.new) }
{
    out.write(alloc, text.as_bytes())
}

fn digest_line(
    alloc: Global,
    site: &MemSite,
    moment: u64,
    jobs: &MemJobs,
) -> Result<String, NoMemory>
    ensures { IfOk result (λ line. OfFiles jobs.now (λ files. string_bytes line
        ≡ digest_line (site_text moment (told_by site.now) files))) }
{
    let mut sink = DigestSink::new(alloc);
    match write_site(alloc, &mut sink, site, moment, jobs) {
        Ok(()) => digest_text(alloc, sink),
        Err(_) => Err(NoMemory),
    }
}

fn digest_text(alloc: Global, sink: DigestSink) -> Result<String, NoMemory>
    ensures { IfOk result (λ line. string_bytes line ≡ digest_line sink) }
{
    let digits = hex::encode(alloc, sink.finish())?;
    let mut line = String::from_str(alloc, "DIGEST\t")?;
    line.push_str(digits.as_str())?;
    line.push('\n')?;
    Ok(line)
}

// Writes the line of a refusal or a fault, where there is one, and that of the status.
fn write_status<K: Sink>(alloc: Global, out: &mut K, outcome: &Outcome) -> Result<(), SinkErr>
    ensures sent { Sent K.tells result (status_lines outcome.now)
        (K.received out.old) (K.received out.new) }
    ensures cause { RisesIf (sink_failed result) (K.faults out.old) (K.faults out.new) }
{
    match status_lines(alloc, outcome) {
        Ok(lines) => write_text(alloc, out, &lines),
        Err(_) => Err(SinkErr::NoMemory),
    }
}

fn status_lines(alloc: Global, outcome: &Outcome) -> Result<String, NoMemory>
    ensures { IfOk result (λ lines. string_bytes lines ≡ status_lines outcome.now) }
{
    let mut lines = whole_line(alloc, outcome)?;
    let number = status(outcome);
    write!(lines, "STATUS\t{number}\n")?;
    Ok(lines)
}

// The line of a refusal or a fault and its end; nothing where there is none.
fn whole_line(alloc: Global, outcome: &Outcome) -> Result<String, NoMemory>
    ensures { IfOk result (λ line. string_bytes line ≡ whole_line (line_of outcome.now)) }
{
    let text = outcome_text(alloc, outcome)?;
    let mut line = String::from_str(alloc, text.text())?;
    if !line.is_empty() {
        line.push('\n')?;
    }
    Ok(line)
}
