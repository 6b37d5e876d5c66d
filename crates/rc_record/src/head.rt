//! The head of a record.

ghost use Rattle.std.specs.Prelude.{◌≡◌, ◌+◌, ◌≤◌, length, IfOk, OnOk};
ghost use Rattle.std.specs.Int.{w32};
ghost use Rattle.rc_record.specs.Codes.{flag_of};
ghost use Rattle.rc_record.specs.Fields.{code_at};
ghost use Rattle.rc_record.specs.Answers.{Shows};
ghost use Rattle.rc_record.specs.Grammar.{head_at, magic_at, moment_at, stride_at};

use crate::codes;
use crate::fields::{byte_at, field_at, u32_at, u64_at};
use rc_tree::{GREATEST_MOMENT, Moment};

/// What stands before the job's text.
#[derive(Clone, Copy, Debug, PartialEq, Eq)]
pub struct Head {
    /// When the run began.
    pub moment: Moment,
    /// How many bytes a unit of a file has at most. It is 0: a file is one unit.
    pub stride: u32,
    /// Whether copies have the source's bytes.
    pub with_bytes: bool,
    /// How many bytes the job's text has.
    pub text_len: u32,
}

/// The head, or the place of its first field that is at fault. Byte 0, the plan's gate, is no part of it.
#[tactic(auto, unfolding(crate::specs::Grammar::head_at))]
pub fn head_at(bytes: &[u8]) -> Result<Head, u64>
    ensures head { result ≡ head_at bytes.now }
    ensures whole { IfOk result (λ head. head.stride ≡ 0) }
    ensures within { IfOk result (λ _. 22 ≤ length bytes.now) }
{
    magic_at(bytes)?;
    let moment = moment_at(bytes, 5)?;
    let stride = stride_at(bytes)?;
    let with_bytes = flag_at(bytes)?;
    let text_len = u32_at(bytes, 18)?;
    Ok(Head {
        moment,
        stride,
        with_bytes,
        text_len,
    })
}

// The four characters by which a record of this version is known.
#[tactic(auto, unfolding(crate::specs::Grammar::magic_at))]
fn magic_at(bytes: &[u8]) -> Result<&[u8], u64>
    ensures { Shows (λ magic. magic.now) result (magic_at bytes.now) }
{
    let magic = field_at(bytes, 1, 4)?;
    if magic == b"RCR1".as_slice() {
        Ok(magic)
    } else {
        Err(1)
    }
}

/// A moment at an offset.
#[tactic(auto, unfolding(crate::specs::Grammar::moment_at))]
pub(crate) fn moment_at(bytes: &[u8], off: u64) -> Result<Moment, u64>
    ensures moment { result ≡ moment_at off bytes.now }
    ensures within { IfOk result (λ _. off + 8 ≤ length bytes.now) }
{
    let units = u64_at(bytes, off)?;
    if units <= GREATEST_MOMENT {
        Ok(Moment::new(units))
    } else {
        Err(off)
    }
}

#[tactic(auto, unfolding(crate::specs::Grammar::stride_at))]
fn stride_at(bytes: &[u8]) -> Result<u32, u64>
    ensures stride { result ≡ stride_at bytes.now }
    ensures whole { IfOk result (λ stride. stride ≡ 0) }
{
    let stride = u32_at(bytes, 13)?;
    if stride == 0 { Ok(stride) } else { Err(13) }
}

#[tactic(auto, unfolding(crate::specs::Fields::code_at))]
fn flag_at(bytes: &[u8]) -> Result<bool, u64>
    ensures { result ≡ code_at flag_of 17 bytes.now }
{
    let code = byte_at(bytes, 17)?;
    codes::flag_of(code).ok_or(17)
}
