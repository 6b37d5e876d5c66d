//! The report of a plan, written piece by piece.

ghost use Rattle.std.specs.Prelude.{◌≡◌, ◌++◌, true, OnOk, OnErr};
ghost use Rattle.rc_volume.specs.Faults.{RisesIf};
ghost use Rattle.rc_volume.specs.Streams.{AppendsFront, sink_failed};
ghost use Rattle.rc_report.specs.Report.{header_part, line_of, lines_of, report_of, summary_part};

use crate::given::{is_given_up, is_rising};
use crate::header::fill_header;
use crate::lines::fill_line;
use crate::summary::fill_totals;
use crate::tags::is_shown;
use rc_class::{GivenUp, Item, Plan};
use rc_job::Job;
use rc_volume::{Sink, SinkErr};
use std::alloc::Global;

// How many bytes go into a sink at once at most.
const PIECE: usize = 65536;

/// Writes the report of a plan, of which these files were given up, as the job's switches ask for
/// it: the header, a line for each key that has one, and the summary, in pieces of at most 65536
/// bytes. Of the job only its roots, its file patterns and the switches of the report are read.
///
/// After an error the sink has received a front of the report: `Failed` where a write failed, and
/// `NoMemory` where memory was wanting.
pub fn report_to<K: Sink>(
    alloc: Global,
    sink: &mut K,
    job: &Job,
    plan: &Plan,
    failed: &[GivenUp],
) -> Result<(), SinkErr>
    ensures written { K.tells ≡ true → OnOk result
        (K.received sink.new ≡ K.received sink.old
        ++ report_of job.now plan.now.moment plan.now.items failed.now) }
    ensures front { K.tells ≡ true → OnErr result (AppendsFront
        (K.received sink.old) (report_of job.now plan.now.moment plan.now.items failed.now)
        (K.received sink.new)) }
    ensures cause { RisesIf (sink_failed result) (K.faults sink.old) (K.faults sink.new) }
{
    let mut line = String::new(alloc);
    match write_header(alloc, sink, &mut line, job, plan) {
        Ok(()) => write_rest(alloc, sink, &mut line, job, plan, failed),
        Err(e) => Err(e),
    }
}

// Writes what comes behind the header.
fn write_rest<K: Sink>(
    alloc: Global,
    sink: &mut K,
    line: &mut String,
    job: &Job,
    plan: &Plan,
    failed: &[GivenUp],
) -> Result<(), SinkErr>
    ensures written { K.tells ≡ true → OnOk result
        (K.received sink.new ≡ K.received sink.old
        ++ (lines_of job.now plan.now.items failed.now
        ++ summary_part job.now plan.now.items failed.now)) }
    ensures front { K.tells ≡ true → OnErr result (AppendsFront (K.received sink.old)
        (lines_of job.now plan.now.items failed.now
        ++ summary_part job.now plan.now.items failed.now)
        (K.received sink.new)) }
    ensures cause { RisesIf (sink_failed result) (K.faults sink.old) (K.faults sink.new) }
{
    match write_lines(alloc, sink, line, job, plan, failed) {
        Ok(()) => write_summary(alloc, sink, line, job, plan, failed),
        Err(e) => Err(e),
    }
}

// Writes the header, unless it is left out.
fn write_header<K: Sink>(
    alloc: Global,
    sink: &mut K,
    line: &mut String,
    job: &Job,
    plan: &Plan,
) -> Result<(), SinkErr>
    ensures written { K.tells ≡ true → OnOk result
        (K.received sink.new ≡ K.received sink.old ++ header_part job.now plan.now.moment) }
    ensures front { K.tells ≡ true → OnErr result (AppendsFront
        (K.received sink.old) (header_part job.now plan.now.moment) (K.received sink.new)) }
    ensures cause { RisesIf (sink_failed result) (K.faults sink.old) (K.faults sink.new) }
{
    if job.njh {
        return Ok(());
    }
    match fill_header(alloc, line, job, plan.moment) {
        Ok(()) => send(alloc, sink, line.as_bytes()),
        Err(_) => Err(SinkErr::NoMemory),
    }
}

// Writes the lines of the items. They are gone through once.
fn write_lines<K: Sink>(
    alloc: Global,
    sink: &mut K,
    line: &mut String,
    job: &Job,
    plan: &Plan,
    failed: &[GivenUp],
) -> Result<(), SinkErr>
    ensures written { K.tells ≡ true → OnOk result
        (K.received sink.new
        ≡ K.received sink.old ++ lines_of job.now plan.now.items failed.now) }
    ensures front { K.tells ≡ true → OnErr result (AppendsFront (K.received sink.old)
        (lines_of job.now plan.now.items failed.now) (K.received sink.new)) }
    ensures cause { RisesIf (sink_failed result) (K.faults sink.old) (K.faults sink.new) }
{
    let rising = is_rising(failed);
    let items = plan.items.items();
    for (place, item) in items.iter().enumerate() {
        let given_up = is_given_up(failed, rising, place, item);
        match write_item(alloc, sink, line, job, item, given_up) {
            Ok(()) => {}
            Err(e) => return Err(e),
        }
    }
    Ok(())
}

// Writes the line of an item, where it has one.
fn write_item<K: Sink>(
    alloc: Global,
    sink: &mut K,
    line: &mut String,
    job: &Job,
    item: &Item,
    given_up: bool,
) -> Result<(), SinkErr>
    ensures written { K.tells ≡ true → OnOk result
        (K.received sink.new ≡ K.received sink.old
        ++ line_of job.now (record { item = item.now; given_up = given_up })) }
    ensures front { K.tells ≡ true → OnErr result (AppendsFront (K.received sink.old)
        (line_of job.now (record { item = item.now; given_up = given_up }))
        (K.received sink.new)) }
    ensures cause { RisesIf (sink_failed result) (K.faults sink.old) (K.faults sink.new) }
{
    if !is_shown(job, item) {
        return Ok(());
    }
    match fill_line(alloc, line, job, item, given_up) {
        Ok(()) => send(alloc, sink, line.as_bytes()),
        Err(_) => Err(SinkErr::NoMemory),
    }
}

// Writes the summary, unless it is left out.
fn write_summary<K: Sink>(
    alloc: Global,
    sink: &mut K,
    line: &mut String,
    job: &Job,
    plan: &Plan,
    failed: &[GivenUp],
) -> Result<(), SinkErr>
    ensures written { K.tells ≡ true → OnOk result
        (K.received sink.new
        ≡ K.received sink.old ++ summary_part job.now plan.now.items failed.now) }
    ensures front { K.tells ≡ true → OnErr result (AppendsFront (K.received sink.old)
        (summary_part job.now plan.now.items failed.now) (K.received sink.new)) }
    ensures cause { RisesIf (sink_failed result) (K.faults sink.old) (K.faults sink.new) }
{
    if job.njs {
        return Ok(());
    }
    match fill_totals(alloc, line, job.plain_bytes, plan, failed) {
        Ok(()) => send(alloc, sink, line.as_bytes()),
        Err(_) => Err(SinkErr::NoMemory),
    }
}

// Writes a text, so many bytes at once at most.
fn send<K: Sink>(alloc: Global, sink: &mut K, text: &[u8]) -> Result<(), SinkErr>
    ensures written { K.tells ≡ true → OnOk result
        (K.received sink.new ≡ K.received sink.old ++ text.now) }
    ensures front { K.tells ≡ true → OnErr result
        (AppendsFront (K.received sink.old) text.now (K.received sink.new)) }
    ensures cause { RisesIf (sink_failed result) (K.faults sink.old) (K.faults sink.new) }
{
    let mut done = 0;
    'pieces: while done < text.len() {
        let len = (text.len() - done).min(PIECE);
        match sink.write(alloc, &text[done..done + len]) {
            Ok(()) => {}
            Err(e) => return Err(e),
        }
        done += len;
    }
    Ok(())
}
