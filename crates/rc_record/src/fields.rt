//! Fields at their offsets. Each answers its value, or the place at which the record is bad.

ghost use Rattle.std.specs.Prelude.{◌≡◌, ◌+◌, ◌≤◌, ◌<◌, length, chars, IfOk};
ghost use Rattle.std.specs.Int.{w16, w32, w64};
ghost use Rattle.rc_record.specs.Answers.{Shows};
ghost use Rattle.rc_record.specs.Fields.{byte_at, field_at, number_at};
ghost use Rattle.rc_record.specs.Grammar.{text_at};

/// So many bytes from an offset on.
#[tactic(auto, unfolding(crate::specs::Fields::field_at))]
pub(crate) fn field_at(bytes: &[u8], off: u64, len: u64) -> Result<&[u8], u64>
    ensures field { Shows (λ field. field.now) result (field_at len off bytes.now) }
    ensures within { IfOk result
        (λ field. (length field.now ≡ len) × (off + len ≤ length bytes.now)) }
{
    let end = bytes.len() as u64;
    if off > end || end - off < len {
        return Err(end);
    }
    let (_, rest) = bytes.split_at(off as usize);
    let (field, _) = rest.split_at(len as usize);
    Ok(field)
}

/// One byte.
#[tactic(auto, unfolding(crate::specs::Fields::byte_at))]
pub(crate) fn byte_at(bytes: &[u8], off: u64) -> Result<u8, u64>
    ensures byte { result ≡ byte_at off bytes.now }
    ensures within { IfOk result (λ _. off < length bytes.now) }
{
    let end = bytes.len() as u64;
    if off < end {
        Ok(bytes[off as usize])
    } else {
        Err(end)
    }
}

/// A number of two bytes, the least first.
#[tactic(auto, unfolding(crate::specs::Fields::number_at))]
pub(crate) fn u16_at(bytes: &[u8], off: u64) -> Result<u16, u64>
    ensures number { result ≡ number_at w16 off bytes.now }
    ensures within { IfOk result (λ _. off + 2 ≤ length bytes.now) }
{
    match field_at(bytes, off, 2) {
        Ok(field) => Ok(u16::from_le_bytes([field[0], field[1]])),
        Err(place) => Err(place),
    }
}

/// A number of four bytes.
#[tactic(auto, unfolding(crate::specs::Fields::number_at))]
pub(crate) fn u32_at(bytes: &[u8], off: u64) -> Result<u32, u64>
    ensures number { result ≡ number_at w32 off bytes.now }
    ensures within { IfOk result (λ _. off + 4 ≤ length bytes.now) }
{
    match field_at(bytes, off, 4) {
        Ok(field) => Ok(u32::from_le_bytes([field[0], field[1], field[2], field[3]])),
        Err(place) => Err(place),
    }
}

/// A number of eight bytes.
#[tactic(auto, unfolding(crate::specs::Fields::number_at))]
pub(crate) fn u64_at(bytes: &[u8], off: u64) -> Result<u64, u64>
    ensures number { result ≡ number_at w64 off bytes.now }
    ensures within { IfOk result (λ _. off + 8 ≤ length bytes.now) }
{
    match field_at(bytes, off, 8) {
        Ok(field) => Ok(u64::from_le_bytes([
            field[0], field[1], field[2], field[3], field[4], field[5], field[6], field[7],
        ])),
        Err(place) => Err(place),
    }
}

/// A text of so many bytes in UTF-8.
#[tactic(auto, unfolding(crate::specs::Grammar::text_at))]
pub(crate) fn text_at(bytes: &[u8], off: u64, len: u64) -> Result<&str, u64>
    ensures text { Shows (λ text. chars text.now) result (text_at len off bytes.now) }
    ensures within { IfOk result (λ _. off + len ≤ length bytes.now) }
{
    let field = field_at(bytes, off, len)?;
    match str::from_utf8(field) {
        Ok(text) => Ok(text),
        Err(_) => Err(off),
    }
}
