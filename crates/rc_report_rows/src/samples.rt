//! Jobs, plans and texts to begin with.

use rc_class::{Act, After, Class, Facts, GivenUp, Item, Items, Plan};
use rc_job::Job;
use rc_mem::MemSink;
use rc_report::report_to;
use rc_tree::{Attr, GREATEST_MOMENT, Kind, Moment, Path, Text};
use std::alloc::Global;
use std::test::Fail;

// 2024-01-01 00:00:00 UTC.
pub const T0: u64 = 133485408000000000;

/// A path, what is decided of it, the size in bytes and the moment when it was written.
pub type Row = (&'static str, Kind, Act, Class, u64, u64);

/// A switch of the report.
#[derive(Clone, Copy, Debug)]
pub enum Switch {
    V,
    Nfl,
    Ndl,
    Nc,
    Ns,
    Njh,
    Njs,
    Bytes,
    Fp,
    Ts,
}

pub const NO_FAILURES: &[GivenUp] = &[];

fn item(alloc: Global, row: &Row) -> Result<Item, Fail> {
    let (path, kind, act, class, size, written) = *row;
    Ok(Item {
        path: Path::read(alloc, path)?,
        act,
        class,
        after: After::Nothing,
        facts: Facts {
            kind,
            size,
            written: Moment::new(written.min(GREATEST_MOMENT)),
            attr: Attr::NONE,
        },
    })
}

/// The plan of these items.
pub fn plan_of(alloc: Global, items: Vec<Item>) -> Plan {
    Plan {
        job: Text::empty(alloc),
        moment: Moment::new(T0),
        stride: 0,
        with_bytes: true,
        items: Items::new(items),
    }
}

/// The plan of these rows.
pub fn plan(alloc: Global, rows: &[Row]) -> Result<Plan, Fail> {
    let mut items = Vec::new(alloc);
    for row in rows {
        items.push(item(alloc, row)?)?;
    }
    Ok(plan_of(alloc, items))
}

fn set(job: &mut Job, switch: Switch) {
    match switch {
        Switch::V => job.verbose = true,
        Switch::Nfl => job.nfl = true,
        Switch::Ndl => job.ndl = true,
        Switch::Nc => job.nc = true,
        Switch::Ns => job.ns = true,
        Switch::Njh => job.njh = true,
        Switch::Njs => job.njs = true,
        Switch::Bytes => job.plain_bytes = true,
        Switch::Fp => job.full_path = true,
        Switch::Ts => job.with_time = true,
    }
}

/// The job from SRC to DST under these switches.
pub fn job(alloc: Global, switches: &[Switch]) -> Result<Job, Fail> {
    let mut job = Job::new(alloc)?;
    job.source = Some(Text::of(alloc, "SRC")?);
    job.target = Some(Text::of(alloc, "DST")?);
    for switch in switches {
        set(&mut job, *switch);
    }
    Ok(job)
}

/// These lines as one text.
pub fn text_of(alloc: Global, lines: &[&str]) -> Result<String, Fail> {
    let mut text = String::new(alloc);
    for line in lines {
        text.push_str(line)?;
        text.push('\n')?;
    }
    Ok(text)
}

/// Whether the report of a plan has these lines.
pub fn reports(
    alloc: Global,
    job: &Job,
    plan: &Plan,
    failed: &[GivenUp],
    lines: &[&str],
) -> Result<bool, Fail> {
    let mut sink = MemSink::new(alloc);
    report_to(alloc, &mut sink, job, plan, failed)?;
    Ok(sink.bytes() == text_of(alloc, lines)?.as_bytes())
}
