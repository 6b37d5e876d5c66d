//! A stream of the host as a sink.

ghost use Rattle.std.specs.Prelude.{◌≡◌, Bool, false, List, ℕ, []};

use rc_volume::{Sink, SinkErr};
use std::alloc::Global;
use std::io::Write;

/// A sink over a writer, as standard output. Each piece is written out at once, so that the answer tells of each failure.
#[derive(Drop)]
pub struct Output<W> {
    writer: W,
    failures: u64,
}

impl<W: Write> Output<W> {
    /// A sink that writes to `writer`.
    pub fn new(writer: W) -> Output<W>
        ensures kept { result.writer ≡ writer }
        ensures none { result.failures ≡ 0 }
    {
        Output {
            writer,
            failures: 0,
        }
    }
}

impl<W: Write> Sink for Output<W> {
    ghost tells = { false };

    ghost received = { λ _. [] };

    ghost faults = { λ out. out.failures };

    fn write(&mut self, _alloc: Global, bytes: &[u8]) -> Result<(), SinkErr> {
        if self.writer.write_all(bytes).is_ok() && self.writer.flush().is_ok() {
            return Ok(());
        }
        self.failures = self.failures.saturating_add(1);
        Err(SinkErr::Failed)
    }
}
