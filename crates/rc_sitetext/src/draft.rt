//! What the lines of a text have said so far, and one line more.

ghost use Rattle.std.specs.Prelude.{◌≡◌, ◌==◌, ◌<◌, IfOk, codes, false, length, true};
ghost use Rattle.std.specs.Str.{bytes_eq};
ghost use Rattle.rc_mem.specs.MemSite.{IsFreshSite, seen_by, told_by};
ghost use Rattle.rc_sitetext.specs.Drafts.{seen};
ghost use Rattle.rc_sitetext.specs.Faults.{Answers, begun, is_done, line_read, moment_at, start, text_read, version_at};
ghost use Rattle.rc_sitetext.specs.Reading.{value_behind};

use crate::entry::{Entries, needed};
use crate::err::{FaultKind, LineErr};
use crate::fields::value_behind;
use crate::jobs::JobFiles;
use crate::site_file::SiteFile;
use crate::values::{hex_of, is_numeral, number_of};
use rc_mem::MemSite;
use rc_tree::{GREATEST_MOMENT, NoMemory};
use std::alloc::Global;
use std::str;

/// What may come next.
#[derive(Clone, Copy, Debug, PartialEq, Eq)]
pub(crate) enum Place {
    /// The line `SITE`.
    AtSite,
    /// The line `MOMENT`.
    AtMoment,
    /// The line `SOURCE`.
    AtSource,
    /// Entries of the source, and the line `TARGET`.
    InSource,
    /// Entries of the target, and the line `RECORD`.
    InTarget,
    /// Lines `JOB`, and the line `END`.
    InJobs,
    /// Nothing.
    Done,
}

/// What the lines of a text have said so far.
#[derive(Debug, Drop)]
pub(crate) struct Draft {
    place: Place,
    moment: u64,
    source: Entries,
    target: Entries,
    notes: Vec<u8>,
    jobs: JobFiles,
}

impl Draft {
    /// What no line says.
    pub(crate) fn new(alloc: Global) -> Draft
        ensures { seen result ≡ start }
    {
        Draft {
            place: Place::AtSite,
            moment: 0,
            source: Entries::new(alloc),
            target: Entries::new(alloc),
            notes: Vec::new(alloc),
            jobs: JobFiles::new(alloc),
        }
    }

    /// Whether the line `END` was read.
    pub(crate) fn is_done(&self) -> bool
        ensures { result ≡ is_done self.now.place }
    {
        matches!(self.place, Place::Done)
    }

    /// With one more line, without its end.
    #[tactic(auto, unfolding(crate::specs::Faults::line_read))]
    pub(crate) fn with_line(self, alloc: Global, line: &[u8]) -> Result<Draft, LineErr>
        ensures { Answers seen result (line_read (seen self) line.now) }
    {
        if self.is_done() {
            return Err(LineErr::Fault(FaultKind::End));
        }
        match str::from_utf8(line) {
            Ok(text) => self.with_text(alloc, text),
            Err(_) => Err(LineErr::Fault(FaultKind::Utf8)),
        }
    }

    #[tactic(auto, unfolding(crate::specs::Faults::text_read))]
    fn with_text(self, alloc: Global, line: &str) -> Result<Draft, LineErr>
        ensures { Answers seen result (text_read self.place (seen self) line.now) }
    {
        match self.place {
            Place::AtSite => {
                read_version(line)?;
                Ok(Draft {
                    place: Place::AtMoment,
                    ..self
                })
            }
            Place::AtMoment => Ok(Draft {
                place: Place::AtSource,
                moment: moment_of(line)?,
                ..self
            }),
            Place::AtSource if line == "SOURCE" => Ok(Draft {
                place: Place::InSource,
                ..self
            }),
            Place::AtSource => Err(LineErr::Fault(FaultKind::Line)),
            Place::InSource => self.in_source(alloc, line),
            Place::InTarget => self.in_target(alloc, line),
            Place::InJobs => self.in_jobs(alloc, line),
            Place::Done => Err(LineErr::Fault(FaultKind::End)),
        }
    }

    // An entry of the source, or its end.
    #[tactic(auto, unfolding(crate::specs::Faults::text_read))]
    fn in_source(self, alloc: Global, line: &str) -> Result<Draft, LineErr>
        ensures { Answers seen result (text_read Place.InSource (seen self) line.now) }
    {
        if line == "TARGET" {
            return Ok(Draft {
                place: Place::InTarget,
                ..self
            });
        }
        Ok(Draft {
            source: self.source.with(alloc, line)?,
            ..self
        })
    }

    // An entry of the target, or the record behind them.
    #[tactic(auto, unfolding(crate::specs::Faults::text_read))]
    fn in_target(self, alloc: Global, line: &str) -> Result<Draft, LineErr>
        ensures { Answers seen result (text_read Place.InTarget (seen self) line.now) }
    {
        match value_behind(line, "RECORD") {
            Ok(hex) => Ok(Draft {
                place: Place::InJobs,
                notes: needed(FaultKind::Field, hex_of(alloc, hex))?,
                ..self
            }),
            Err(_) => Ok(Draft {
                target: self.target.with(alloc, line)?,
                ..self
            }),
        }
    }

    // A job file, or the end.
    #[tactic(auto, unfolding(crate::specs::Faults::text_read))]
    fn in_jobs(self, alloc: Global, line: &str) -> Result<Draft, LineErr>
        ensures { Answers seen result (text_read Place.InJobs (seen self) line.now) }
    {
        if line == "END" {
            return Ok(Draft {
                place: Place::Done,
                ..self
            });
        }
        Ok(Draft {
            jobs: self.jobs.with(alloc, line)?,
            ..self
        })
    }

    /// What it says, all lines being read.
    pub(crate) fn into_file(self, alloc: Global) -> Result<SiteFile, NoMemory>
        ensures moment { IfOk result (λ file. file.moment ≡ self.moment) }
        ensures told { IfOk result (λ file. told_by file.site
            ≡ record { source = self.source; target = self.target; notes = self.notes.items }) }
        ensures jobs { IfOk result (λ file. file.jobs ≡ self.jobs) }
        ensures fresh { IfOk result (λ file. IsFreshSite (told_by file.site) (seen_by file.site)) }
    {
        let source = self.source.into_tree();
        let target = self.target.into_tree();
        Ok(SiteFile {
            site: MemSite::new(alloc, source, target, self.notes)?,
            moment: self.moment,
            jobs: self.jobs.into_store(),
        })
    }
}

// The first line: the version of the format is 1.
#[tactic(auto, unfolding(crate::specs::Faults::version_at))]
fn read_version(line: &str) -> Result<(), LineErr>
    ensures { Answers (λ _. codes "1") result (version_at line.now) }
{
    if needed(FaultKind::Line, value_behind(line, "SITE"))? == "1" {
        Ok(())
    } else {
        Err(LineErr::Fault(FaultKind::Field))
    }
}

#[tactic(auto, unfolding(crate::specs::Faults::moment_at))]
fn moment_of(line: &str) -> Result<u64, LineErr>
    ensures { Answers (λ m. m) result (moment_at line.now) }
{
    let number = needed(FaultKind::Line, value_behind(line, "MOMENT"))?;
    if !is_numeral(number) {
        return Err(LineErr::Fault(FaultKind::Field));
    }
    needed(FaultKind::Limit, number_of(number, GREATEST_MOMENT))
}
