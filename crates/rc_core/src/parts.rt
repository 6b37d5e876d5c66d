//! Parts of bytes, cut to where the bytes end.

ghost use Rattle.std.specs.Prelude.{◌≡◌, ◌+◌, drop, take};

// The bytes before a place.
pub(crate) fn before(bytes: &[u8], place: u64) -> &[u8]
    ensures { result.now ≡ take place bytes.now }
{
    &bytes[..bytes.len().min(place as usize)]
}

// The bytes from a place on.
pub(crate) fn behind(bytes: &[u8], place: u64) -> &[u8]
    ensures { result.now ≡ drop place bytes.now }
{
    &bytes[bytes.len().min(place as usize)..]
}

// The bytes behind a range.
pub(crate) fn past(bytes: &[u8], off: u64, len: u64) -> &[u8]
    ensures { result.now ≡ drop (off + len) bytes.now }
{
    let end = (off as usize).saturating_add(len as usize);
    &bytes[bytes.len().min(end)..]
}
