//! `robocopy SOURCE TARGET` mirrors one folder of the host onto another. The report goes to standard output, the line of a
//! refusal or a fault to standard error, and the exit status is that of the outcome.
#![tactic(auto)]

mod host;
mod run;
mod saying;

use host::{exit_status, run_on_host};
use rc_host::{HostSite, Output};
use run::Closed;
use std::env;
use std::io::{self, ErrorKind};
use std::process::ExitCode;

fn main(rt: HostRuntime) -> ExitCode {
    let answered = match words(&rt) {
        Ok(words) => mirror_folders(&rt, &words),
        Err(e) => Err(e),
    };
    ExitCode::from(exit_status(&answered))
}

// The words behind the program's name. Of a word that is no UTF-8 a line is written to standard error.
fn words(rt: &HostRuntime) -> io::Result<Vec<String>> {
    match env::args(rt) {
        Ok(mut words) => {
            let _program = words.next();
            Ok(words.collect(rt.alloc())?)
        }
        Err(e) if e.kind() == ErrorKind::InvalidData => {
            let _ = eprintln!(rt; "ERROR: a word is no UTF-8");
            Err(e)
        }
        Err(e) => Err(e),
    }
}

// Mirrors the folders that the words name. The report goes to standard output, the line of the outcome to standard error.
fn mirror_folders(rt: &HostRuntime, words: &[String]) -> io::Result<Closed<HostSite>> {
    let mut out = Output::new(rt.stdout());
    let mut errors = Output::new(rt.stderr());
    run_on_host(rt, rt.alloc(), words, &mut out, &mut errors)
}
