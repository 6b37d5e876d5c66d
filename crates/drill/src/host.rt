//! A drill over a reader and a writer, and the exit status of the program.

ghost use Rattle.std.specs.Prelude.{◌≡◌, ◌≢◌, ◌<◌, ◌≤◌, IfOk, IfErr};
ghost use Rattle.std.specs.IoError.{error_kind};
ghost use Rattle.rc_volume.specs.Faults.{RoseBy};
ghost use Rattle.rc_drillwords.specs.Asking.{spellings};
ghost use Rattle.drill.specs.Streams.{DrillsStreams};

use crate::adapters::{StdInput, StdOutput};
use crate::run::drill_run;
use std::alloc::Global;
use std::io::{self, ErrorKind, Read, Write};

/// Drills what a reader has left into a writer. The status is that of the drill on all words, and 16 where a write or
/// the writer's end failed.
pub fn drill_streams<R: Read, W: Write>(
    alloc: Global,
    words: &[String],
    input: &mut StdInput<R>,
    out: &mut StdOutput<W>,
) -> u8
    ensures answered { DrillsStreams
        (RoseBy 1 input.old.failures input.new.failures) out.old.failures out.new.failures
        (spellings words.now) result }
    ensures input_counts { input.old.failures ≤ input.new.failures }
    ensures output_counts { out.old.failures ≤ out.new.failures }
    ensures output_fault { out.old.failures < out.new.failures → result ≡ 16 }
{
    let status = drill_run(alloc, words, input, out);
    match out.finish() {
        Ok(()) => status,
        Err(_) => 16,
    }
}

/// The exit status of the program: that of the drill, or, where there was none, 32 for want of memory and 16 else.
pub fn exit_status(drilled: &io::Result<u8>) -> u8
    ensures drilled { IfOk drilled.now (λ status. result ≡ status) }
    ensures no_memory { IfErr drilled.now
        (λ e. error_kind e ≡ ErrorKind.OutOfMemory → result ≡ 32) }
    ensures failed { IfErr drilled.now
        (λ e. error_kind e ≢ ErrorKind.OutOfMemory → result ≡ 16) }
{
    match drilled {
        Ok(status) => *status,
        Err(e) if e.kind() == ErrorKind::OutOfMemory => 32,
        Err(_) => 16,
    }
}
