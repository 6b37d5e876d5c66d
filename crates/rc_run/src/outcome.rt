//! How a run ended.

ghost use Rattle.std.specs.Prelude.{◌≡◌, ◌++◌, IfOk, chars, codes, decimal, string_bytes};
ghost use Rattle.rc_report.specs.Report.{path_text};
ghost use Rattle.rc_run.specs.Outcome.{status_of, line_of, side_name, unbuilt_number};

use rc_report::push_path;
use rc_tree::{NoMemory, Path, Text};
use rc_volume::Side;
use std::alloc::{AllocError, Global};

/// What a run would need that is not built yet.
#[derive(Clone, Copy, Debug, PartialEq, Eq)]
pub enum Unbuilt {
    /// A switch that has no effect in a run yet.
    Words,
    /// A record of a run.
    Record,
}

/// How a run ended.
#[derive(Debug, Drop)]
pub enum Outcome {
    /// The trees are the goals of those on which the run began. `bits` are the exit bits, and `moment` is when the
    /// run began, in 100-nanosecond units since 1601.
    Done { bits: u8, moment: u64 },
    /// Under `/L`: the report says what would be done, and nothing was changed. `bits` are the exit bits of that.
    Listed { bits: u8 },
    /// The words were refused: of the command line where `file` is empty, and else of that job file; the word's number
    /// from 1, or 0 where no one word is at fault; and the kind of the refusal.
    Usage { file: Text, place: u64, kind: u8 },
    /// The store has no job file of this name.
    JobMissing { name: Text },
    /// The job file of this name would be the ninth within another.
    JobDeep { name: Text },
    /// The job file of this name is named while it is read.
    JobRound { name: Text },
    /// The store of job files failed.
    JobFault,
    /// What was asked is not built yet.
    NotYet { what: Unbuilt },
    /// A root could not be bound.
    RootFault { side: Side },
    /// A directory could not be listed.
    ListFault { side: Side },
    /// This side has more than 500000 decided entries: at least `count`. The source is looked at first.
    TooMany { side: Side, count: u64 },
    /// This file would be copied, and has more than 2^40 bytes: `size`. Of several, the one with the least key.
    TooBig { path: Path, size: u64 },
    /// The record failed.
    RecordFault,
    /// A tree could not be read or changed.
    SiteFault { side: Side },
    /// The report could not be written. The trees are as after `Done`, or under `/L` as after `Listed`.
    SinkFault,
    NoMemory,
}

/// The exit status: the bits at `Done` and at `Listed`, 32 where memory ran out, and else 16.
pub fn status(outcome: &Outcome) -> u8
    ensures { result ≡ status_of outcome.now }
{
    match outcome {
        Outcome::Done { bits, .. } => *bits,
        Outcome::Listed { bits } => *bits,
        Outcome::NoMemory => 32,
        _ => 16,
    }
}

/// The line of a refusal or a fault, without a line end; the empty text at `Done` and at `Listed`.
pub fn outcome_text(alloc: Global, outcome: &Outcome) -> Result<Text, NoMemory>
    ensures { IfOk result (λ text. text ≡ line_of outcome.now) }
{
    let line = line_of(alloc, outcome)?;
    Text::of(alloc, line.as_str())
}

fn line_of(alloc: Global, outcome: &Outcome) -> Result<String, AllocError>
    ensures { IfOk result (λ line. chars (string_bytes line) ≡ line_of outcome.now) }
{
    match outcome {
        Outcome::Done { .. } => String::from_str(alloc, ""),
        Outcome::Listed { .. } => String::from_str(alloc, ""),
        Outcome::Usage { file, place, kind } => usage_line(alloc, file, *place, *kind),
        Outcome::JobMissing { name } => job_line(alloc, "ERROR: job file missing: ", name),
        Outcome::JobDeep { name } => job_line(alloc, "ERROR: job file too deep: ", name),
        Outcome::JobRound { name } => job_line(alloc, "ERROR: job file names itself: ", name),
        Outcome::JobFault => String::from_str(alloc, "ERROR: job store fault"),
        Outcome::NotYet { what } => not_yet_line(alloc, *what),
        Outcome::RootFault { side } => fault_line(alloc, "root", *side),
        Outcome::ListFault { side } => fault_line(alloc, "listing", *side),
        Outcome::TooMany { side, count } => too_many_line(alloc, *side, *count),
        Outcome::TooBig { path, size } => too_big_line(alloc, path, *size),
        Outcome::RecordFault => String::from_str(alloc, "ERROR: record fault"),
        Outcome::SiteFault { side } => fault_line(alloc, "volume", *side),
        Outcome::SinkFault => String::from_str(alloc, "ERROR: report fault"),
        Outcome::NoMemory => String::from_str(alloc, "ERROR: no memory"),
    }
}

// The line of a refused word, of the command line or of a job file.
fn usage_line(alloc: Global, file: &Text, place: u64, kind: u8) -> Result<String, AllocError>
    ensures { IfOk result
        (λ line. chars (string_bytes line) ≡ line_of (Outcome.Usage file.now place kind)) }
{
    let mut line = word_line(alloc, place, kind)?;
    let file = file.text();
    if !file.is_empty() {
        line.push_str(" of job file ")?;
        line.push_str(file)?;
    }
    Ok(line)
}

// The part of that line that both have.
fn word_line(alloc: Global, place: u64, kind: u8) -> Result<String, AllocError>
    ensures { IfOk result (λ line. string_bytes line
        ≡ codes "ERROR: usage U" ++ decimal kind ++ codes " at word " ++ decimal place) }
{
    format!(in alloc; "ERROR: usage U{kind} at word {place}")
}

// The line of a job file that is not read, which this text begins.
fn job_line(alloc: Global, front: &str, name: &Text) -> Result<String, AllocError>
    ensures { IfOk result
        (λ line. chars (string_bytes line) ≡ chars front.now ++ name.now) }
{
    let mut line = String::from_str(alloc, front)?;
    line.push_str(name.text())?;
    Ok(line)
}

fn not_yet_line(alloc: Global, what: Unbuilt) -> Result<String, AllocError>
    ensures { IfOk result (λ line.
        string_bytes line ≡ codes "ERROR: not built yet: " ++ decimal (unbuilt_number what)) }
{
    let number = unbuilt_number(what);
    format!(in alloc; "ERROR: not built yet: {number}")
}

fn unbuilt_number(what: Unbuilt) -> u8
    ensures { result ≡ unbuilt_number what }
{
    match what {
        Unbuilt::Words => 1,
        Unbuilt::Record => 3,
    }
}

fn fault_line(alloc: Global, what: &str, side: Side) -> Result<String, AllocError>
    ensures { IfOk result (λ line. string_bytes line
        ≡ codes "ERROR: " ++ what.now ++ codes " fault: " ++ side_name side) }
{
    let side = side_name(side);
    format!(in alloc; "ERROR: {what} fault: {side}")
}

fn too_many_line(alloc: Global, side: Side, count: u64) -> Result<String, AllocError>
    ensures { IfOk result (λ line. string_bytes line
        ≡ codes "ERROR: too many entries: " ++ side_name side ++ codes " " ++ decimal count) }
{
    let side = side_name(side);
    format!(in alloc; "ERROR: too many entries: {side} {count}")
}

fn too_big_line(alloc: Global, path: &Path, size: u64) -> Result<String, AllocError>
    ensures { IfOk result
        (λ line. chars (string_bytes line) ≡ line_of (Outcome.TooBig path.now size)) }
{
    let path = path_text(alloc, path)?;
    format!(in alloc; "ERROR: file too big: {path} {size}")
}

fn path_text(alloc: Global, path: &Path) -> Result<String, AllocError>
    ensures { IfOk result (λ text. string_bytes text ≡ path_text path.now) }
{
    let mut text = String::new(alloc);
    push_path(&mut text, path)?;
    Ok(text)
}

fn side_name(side: Side) -> &'static str
    ensures { result.now ≡ side_name side }
{
    match side {
        Side::Source => "source",
        Side::Target => "target",
    }
}
