//! A run over folders of the host, and the exit status of the program.

ghost use Rattle.std.specs.Prelude.{◌≡◌, ◌≢◌, ℕ, true, [], IfOk, IfErr};
ghost use Rattle.std.specs.FinMap.{empty};
ghost use Rattle.std.specs.IoError.{error_kind};
ghost use Rattle.rc_jobfiles.specs.Ask.{texts};
ghost use Rattle.rc_jobfiles.specs.Resolving.{names_no_file};
ghost use Rattle.rc_volume.specs.Faults.{RisesIf};
ghost use Rattle.rc_volume.specs.Streams.{sink_failed};
ghost use Rattle.rc_run.specs.Answers.{IsNamed};
ghost use Rattle.rc_run.specs.Outcome.{status_of, CausesInSink, IsOrFault};
ghost use Rattle.rc_run.specs.Words.{asked, binding_of, IfRefused, IfRun};
ghost use Rattle.rc_host.specs.HostSite.{seen_by};

use crate::run::{Closed, robocopy_run};
use rc_host::{HostJobs, HostSite, Output, SystemClock};
use rc_tree::NoMemory;
use std::alloc::Global;
use std::io::{self, ErrorKind, Write};

/// Mirrors the folders that the words name, with the job files of the current folder.
///
/// Of folders no contract says what they hold. What is promised of words that name no job file is that they are refused as
/// the rules say, and that else the roots of the job which they ask for are named, and no other ones.
pub(crate) fn run_on_host<W: Write, V: Write>(
    rt: &HostRuntime,
    alloc: Global,
    words: &[String],
    out: &mut Output<W>,
    errors: &mut Output<V>,
) -> io::Result<Closed<HostSite>>
    ensures refused { names_no_file (texts words.now) ≡ true → IfOk result (λ closed.
        IfRefused (asked (texts words.now) empty)
        (λ refusal. IsOrFault refusal closed.outcome)) }
    ensures bound { names_no_file (texts words.now) ≡ true → IfOk result (λ closed.
        IfRun (asked (texts words.now) empty) (λ job. (moment : ℕ)
        × IsNamed closed.outcome (binding_of job moment) [] (seen_by closed.site).bound)) }
    ensures status { IfOk result (λ closed. closed.status ≡ status_of closed.outcome) }
    ensures out_cause { IfOk result
        (λ closed. CausesInSink closed.outcome out.old.failures out.new.failures) }
    ensures errors_cause { IfOk result
        (λ closed. RisesIf (sink_failed closed.said) errors.old.failures errors.new.failures) }
{
    let site = HostSite::new(rt, alloc);
    let mut clock = SystemClock::new(rt);
    match HostJobs::new(rt, alloc, ".") {
        Ok(mut jobs) => {
            let closed = robocopy_run(alloc, words, site, &mut jobs, out, errors, &mut clock);
            Ok(closed)
        }
        Err(NoMemory) => Err(io::Error::from(ErrorKind::OutOfMemory)),
    }
}

/// The exit status of the program: that of the run, or, where there was none, 32 for want of memory and 16 else.
pub(crate) fn exit_status(answered: &io::Result<Closed<HostSite>>) -> u8
    ensures closed { IfOk answered.now (λ closed. result ≡ closed.status) }
    ensures no_memory { IfErr answered.now
        (λ e. error_kind e ≡ ErrorKind.OutOfMemory → result ≡ 32) }
    ensures failed { IfErr answered.now
        (λ e. error_kind e ≢ ErrorKind.OutOfMemory → result ≡ 16) }
{
    match answered {
        Ok(closed) => closed.status,
        Err(e) if e.kind() == ErrorKind::OutOfMemory => 32,
        Err(_) => 16,
    }
}
