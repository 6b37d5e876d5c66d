//! The canonical texts as they are printed.

use rc_job::{Exclude, Excludes, Job, Moving, Patterns, Sub};
use rc_tree::{Scan, Text};
use rc_wild::{PathPattern, Pattern};
use std::alloc::Global;
use std::test::Fail;

// Whether the copy of a job has this canonical text.
fn prints(alloc: Global, job: &Job, text: &str) -> Result<bool, Fail> {
    Ok(job.copy(alloc)?.text(alloc)?.text() == text)
}

#[test]
fn the_text_of_no_settings(rt: HostRuntime) -> Result<(), Fail> {
    let job = Job::new(rt.alloc())?;
    assert_eq!(rt;
        [u32::from(job.workers), job.retries, job.wait],
        [1, 1000000, 30]
    );
    assert!(rt; prints(rt.alloc(), &job, "/IF\n*.*\n")?);
    Ok(())
}

// SRC to DST, as a mirror without *.tmp.
fn set_mirror(alloc: Global, job: &mut Job) -> Result<(), Fail> {
    job.source = Some(Text::of(alloc, "SRC")?);
    job.target = Some(Text::of(alloc, "DST")?);
    job.sub = Sub::All;
    job.purge = true;
    job.xf = Excludes::new(vec![in alloc; Exclude::Name(Pattern::read(alloc, "*.tmp")?)]?);
    Ok(())
}

#[test]
fn the_text_of_a_mirror(rt: HostRuntime) -> Result<(), Fail> {
    let text = "/SD:SRC\n/DD:DST\n/IF\n*.*\n/E\n/PURGE\n/XF\n*.tmp\n";
    assert_eq!(rt; text.len(), 44);
    let mut job = Job::new(rt.alloc())?;
    set_mirror(rt.alloc(), &mut job)?;
    assert!(rt; prints(rt.alloc(), &job, text)?);
    Ok(())
}

// Texts that hold a space or begin as a switch or a comment do.
fn set_texts(alloc: Global, job: &mut Job) -> Result<(), Fail> {
    job.source = Some(Text::of(alloc, "a b")?);
    job.files = Patterns::new(vec![in alloc; Pattern::read(alloc, "a b")?]?);
    let mut paths = Vec::new(alloc);
    for path in ["/a", "::\\b", "c\\d"] {
        paths.push(Exclude::Path(PathPattern::read(alloc, path)?))?;
    }
    job.xd = Excludes::new(paths);
    Ok(())
}

// Each switch of one field, and a choice of each other.
fn set_switches(job: &mut Job) {
    job.no_source = true;
    job.no_target = true;
    job.sub = Sub::NonEmpty;
    job.purge = true;
    job.moving = Moving::All;
    job.create = true;
    job.secfix = true;
    job.timfix = true;
    job.only_a = true;
    job.only_m = true;
    job.xc = true;
    job.xn = true;
    job.xo = true;
    job.xl = true;
    job.xx = true;
    job.with_same = true;
    job.with_tweaked = true;
    job.fft = true;
    job.dst = true;
    job.all_extras = true;
    job.strides = true;
    job.list_only = true;
    job.verbose = true;
    job.nfl = true;
    job.ndl = true;
    job.nc = true;
    job.ns = true;
    job.njh = true;
    job.njs = true;
    job.plain_bytes = true;
    job.full_path = true;
    job.with_time = true;
    job.scan = Scan::Digest;
}

fn set_letters(job: &mut Job) {
    job.copy.security = true;
    job.copy.owner = true;
    job.copy.auditing = true;
    job.dcopy.attributes = false;
    job.plus.readonly = true;
    job.plus.archive = true;
    job.plus.offline = true;
    job.ia = job.plus;
}

fn set_numbers(job: &mut Job) {
    job.lev = Some(2);
    job.max = Some(18446744073709551615);
    job.minage = Some(20240101);
    job.workers = 128;
    job.retries = 0;
    job.wait = 1000000000;
}

#[test]
fn the_texts_of_a_value_for_each_switch(rt: HostRuntime) -> Result<(), Fail> {
    let mut job = Job::new(rt.alloc())?;
    set_texts(rt.alloc(), &mut job)?;
    set_switches(&mut job);
    set_letters(&mut job);
    set_numbers(&mut job);
    assert!(rt; prints(rt.alloc(), &job, TEXT)?);
    assert!(rt; job.core_text(rt.alloc())?.text() == CORE_TEXT);
    Ok(())
}

const TEXT: &str = "/SD:\"a b\"\n/NOSD\n/NODD\n/IF\n\"a b\"\n/S\n/LEV:2\n/PURGE\n/MOVE\n/CREATE\n\
    /COPY:DATSOU\n/NODCOPY\n/SECFIX\n/TIMFIX\n/A+:RA\n/A\n/M\n/IA:RAO\n/XD\n\"/a\"\n\"::\\b\"\nc\\d\n\
    /XC\n/XN\n/XO\n/XL\n/XX\n/IS\n/IT\n/MAX:18446744073709551615\n/MINAGE:20240101\n/FFT\n/DST\n/X\n\
    /Z\n/MT:128\n/R:0\n/W:1000000000\n/L\n/V\n/NFL\n/NDL\n/NC\n/NS\n/NJH\n/NJS\n/BYTES\n/FP\n/TS\n\
    /SCAN:DIGEST\n";

const CORE_TEXT: &str = "/SD:\"a b\"\n/IF\n\"a b\"\n/S\n/LEV:2\n/PURGE\n/MOVE\n/CREATE\n\
    /COPY:DATSOU\n/NODCOPY\n/SECFIX\n/TIMFIX\n/A+:RA\n/A\n/M\n/IA:RAO\n/XD\n\"/a\"\n\"::\\b\"\nc\\d\n\
    /XC\n/XN\n/XO\n/XL\n/XX\n/IS\n/IT\n/MAX:18446744073709551615\n/MINAGE:20240101\n/FFT\n/DST\n/X\n";
