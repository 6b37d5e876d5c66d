//! How moments are written.

ghost use Rattle.std.specs.Prelude.{◌≡◌, ◌++◌, IfOk, OnOk, encode_utf8_all, string_bytes};
ghost use Rattle.rc_report.specs.Stamps.{stamp_of};

use crate::parts::push_text;
use rc_dates::moment_text;
use rc_tree::{Moment, NoMemory, Text};
use std::alloc::Global;

/// A moment as `YYYY/MM/DD HH:MM:SS`.
pub(crate) fn stamp_of(alloc: Global, moment: Moment) -> Result<Text, NoMemory>
    ensures { IfOk result (λ text. text ≡ stamp_of moment) }
{
    moment_text(alloc, moment.units())
}

/// Adds a moment so.
pub(crate) fn push_stamp(alloc: Global, line: &mut String, moment: Moment) -> Result<(), NoMemory>
    ensures { OnOk result
        (string_bytes line.new ≡ string_bytes line.old ++ encode_utf8_all (stamp_of moment)) }
{
    let stamp = stamp_of(alloc, moment)?;
    push_text(line, stamp.text())?;
    Ok(())
}
