//! Standard input and output as the input and the sink of a drill. Contracts say nothing of the bytes that reach or
//! leave the system.

ghost use Rattle.std.specs.Prelude.{◌≡◌, ◌≤◌, Bool, false, List, ℕ, [], length, IfOk, OnOk, OnErr};
ghost use Rattle.std.specs.Io.KnownBytes.{Appends, Keeps, ReadConsumes};
ghost use Rattle.rc_volume.specs.Faults.{RisesIf};
ghost use Rattle.rc_volume.specs.Streams.{input_failed, sink_failed};
ghost use Rattle.drill.specs.Streams.{has_failed, AppendsFrontOf};

use rc_volume::{Input, InputErr, Sink, SinkErr};
use std::alloc::Global;
use std::io::{self, ErrorKind, Read, Write};

/// An input over a reader.
#[derive(Drop)]
pub struct StdInput<R> {
    reader: R,
    failures: u64,
}

impl<R: Read> StdInput<R> {
    /// An input of what `reader` has left.
    pub fn new(reader: R) -> StdInput<R>
        ensures kept { result.reader ≡ reader }
        ensures none { result.failures ≡ 0 }
    {
        StdInput {
            reader,
            failures: 0,
        }
    }
}

impl<R: Read> Input for StdInput<R> {
    ghost tells = { false };

    ghost rest = { λ _. [] };

    ghost faults = { λ input. input.failures };

    fn read(&mut self, _alloc: Global, buf: &mut [u8]) -> Result<usize, InputErr>
        ensures bound { IfOk result (λ n. n ≤ length buf.new) }
        ensures bytes { ReadConsumes (R.remaining self.old.reader) (R.remaining self.new.reader)
            result buf.new }
        ensures cause { RisesIf (input_failed result) self.old.failures self.new.failures }
    {
        match self.reader.read(buf) {
            Ok(count) => Ok(count),
            Err(_) => {
                self.failures = self.failures.saturating_add(1);
                Err(InputErr::Failed)
            }
        }
    }
}

/// A sink over a writer.
#[derive(Drop)]
pub struct StdOutput<W> {
    writer: W,
    failures: u64,
}

impl<W: Write> StdOutput<W> {
    /// A sink that writes to `writer`.
    pub fn new(writer: W) -> StdOutput<W>
        ensures kept { result.writer ≡ writer }
        ensures none { result.failures ≡ 0 }
    {
        StdOutput {
            writer,
            failures: 0,
        }
    }

    /// Writes out what the writer still keeps.
    pub fn finish(&mut self) -> io::Result<()>
        ensures bytes { Keeps (W.contents self.old.writer) (W.contents self.new.writer) }
        ensures cause { RisesIf (has_failed result) self.old.failures self.new.failures }
    {
        match self.writer.flush() {
            Ok(ended) => Ok(ended),
            Err(e) => {
                self.failures = self.failures.saturating_add(1);
                Err(e)
            }
        }
    }
}

impl<W: Write> Sink for StdOutput<W> {
    ghost tells = { false };

    ghost received = { λ _. [] };

    ghost faults = { λ out. out.failures };

    fn write(&mut self, _alloc: Global, bytes: &[u8]) -> Result<(), SinkErr>
        ensures bytes { OnOk result
            (Appends (W.contents self.old.writer) (W.contents self.new.writer) bytes.now) }
        ensures front { OnErr result
            (AppendsFrontOf (W.contents self.old.writer) (W.contents self.new.writer) bytes.now) }
        ensures cause { RisesIf (sink_failed result) self.old.failures self.new.failures }
    {
        match write_from_front(&mut self.writer, bytes) {
            Ok(()) => Ok(()),
            Err(_) => {
                self.failures = self.failures.saturating_add(1);
                Err(SinkErr::Failed)
            }
        }
    }
}

// Writes the bytes in their order. After an error some of them from the first on were written, and nothing else.
fn write_from_front<W: Write>(writer: &mut W, bytes: &[u8]) -> io::Result<()>
    ensures bytes { OnOk result
        (Appends (W.contents writer.old) (W.contents writer.new) bytes.now) }
    ensures front { OnErr result
        (AppendsFrontOf (W.contents writer.old) (W.contents writer.new) bytes.now) }
{
    let mut rest = bytes;
    // Each turn writes a byte or was interrupted.
    for turn in 0..u64::MAX {
        if rest.is_empty() {
            return Ok(());
        }
        match writer.write(rest) {
            Ok(0) => return Err(io::Error::from(ErrorKind::WriteZero)),
            Ok(count) => rest = &rest[count..],
            Err(e) if e.kind() == ErrorKind::Interrupted => {}
            Err(e) => return Err(e),
        }
    }
    Err(io::Error::from(ErrorKind::Interrupted))
}
