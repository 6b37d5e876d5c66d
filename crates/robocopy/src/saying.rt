//! The line that says how a run ended.

ghost use Rattle.std.specs.Prelude.{◌≡◌, ◌++◌, true, string_bytes, IfOk, OnOk, OnErr};
ghost use Rattle.rc_run.specs.Outcome.{ending, is_reported, line_of};
ghost use Rattle.rc_volume.specs.Faults.{RisesIf};
ghost use Rattle.rc_volume.specs.Streams.{AppendsFront, sink_failed};
ghost use Rattle.robocopy.specs.Lines.{whole_line};

use rc_run::{Outcome, outcome_text};
use rc_tree::NoMemory;
use rc_volume::{Sink, SinkErr};
use std::alloc::Global;

/// Sends the line of a refusal or a fault and its end, in one piece. There is none at `Done` and at `Listed`.
pub(crate) fn say<E: Sink>(alloc: Global, outcome: &Outcome, errors: &mut E) -> Result<(), SinkErr>
    ensures said { E.tells ≡ true → OnOk result
        (E.received errors.new ≡ E.received errors.old ++ whole_line (line_of outcome.now)) }
    ensures said_front { E.tells ≡ true → OnErr result
        (AppendsFront (E.received errors.old) (whole_line (line_of outcome.now))
        (E.received errors.new)) }
    ensures said_cause { RisesIf (sink_failed result) (E.faults errors.old) (E.faults errors.new) }
    ensures unsaid { is_reported (ending outcome.now) ≡ true →
        (errors.new ≡ errors.old) × (result ≡ Ok tt) }
{
    if is_reported(outcome) {
        return Ok(());
    }
    match whole_line(alloc, outcome) {
        Ok(line) => errors.write(alloc, line.as_bytes()),
        Err(NoMemory) => Err(SinkErr::NoMemory),
    }
}

// Whether a run ended with its whole report, so that there is no line.
fn is_reported(outcome: &Outcome) -> bool
    ensures { result ≡ is_reported (ending outcome.now) }
{
    match outcome {
        Outcome::Done { .. } | Outcome::Listed { .. } => true,
        _ => false,
    }
}

// The line of a refusal or a fault and its end; nothing where there is none.
fn whole_line(alloc: Global, outcome: &Outcome) -> Result<String, NoMemory>
    ensures { IfOk result (λ line. string_bytes line ≡ whole_line (line_of outcome.now)) }
{
    let text = outcome_text(alloc, outcome)?;
    let mut line = String::from_str(alloc, text.text())?;
    if !line.is_empty() {
        line.push('\n')?;
    }
    Ok(line)
}
