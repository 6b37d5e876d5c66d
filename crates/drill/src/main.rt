//! `drill SOURCE TARGET` reads a site text from standard input, mirrors the site in memory, and prints the report, the
//! exit status and the site text of the end. With `/GEN:n` the site is generated and the digest of its text printed;
//! `/FAIL:part:n` and `/FAILREAD:path:times` make calls and reads of the site fail.
#![tactic(auto)]

mod adapters;
mod begin;
mod digest;
mod host;
mod mirror;
mod output;
mod run;

use adapters::{StdInput, StdOutput};
use host::{drill_streams, exit_status};
use std::env;
use std::io::{self, BufReader, BufWriter, ErrorKind};
use std::process::ExitCode;

fn main(rt: HostRuntime) -> ExitCode {
    let drilled = match words(&rt) {
        Ok(words) => drill_host(&rt, &words),
        Err(e) => Err(e),
    };
    ExitCode::from(exit_status(&drilled))
}

// The words behind the program's name. Of a word that is no UTF-8 a line is written to standard error.
fn words(rt: &HostRuntime) -> io::Result<Vec<String>> {
    match env::args(rt) {
        Ok(mut words) => {
            let _program = words.next();
            Ok(words.collect(rt.alloc())?)
        }
        Err(e) if e.kind() == ErrorKind::InvalidData => {
            let _ = eprintln!(rt; "ERROR: a word is no UTF-8");
            Err(e)
        }
        Err(e) => Err(e),
    }
}

// Drills standard input into standard output.
fn drill_host(rt: &HostRuntime, words: &[String]) -> io::Result<u8> {
    let alloc = rt.alloc();
    let mut input = StdInput::new(BufReader::new(alloc, rt.stdin())?);
    let mut out = StdOutput::new(BufWriter::new(alloc, rt.stdout())?);
    Ok(drill_streams(alloc, words, &mut input, &mut out))
}
