//! Site texts in short.

use std::alloc::{AllocError, Global};

/// Two sides, a record and a job file, in ten lines.
pub const TEXT: &str = "SITE;1|MOMENT;5|SOURCE|D;d;-;0;0;-;-;-|\
F;d\\a.txt;A;7;8;-;-;-;5;68656c6c6f|TARGET|F;b;-;0;0;-;-;-;2;*00|RECORD;a5|JOB;B.RCJ;00|END|";

/// The bytes of a text: `;` stands for a tab, `|` for a line end, `~` for a byte that begins no character, and `^` for
/// 65536 bytes in hexadecimal.
pub fn bytes_of(alloc: Global, short: &str) -> Result<Vec<u8>, AllocError> {
    let mut bytes = Vec::new(alloc);
    for byte in short.bytes() {
        match byte {
            b';' => bytes.push(b'\t')?,
            b'|' => bytes.push(b'\n')?,
            b'~' => bytes.push(0xFF)?,
            b'^' => bytes.extend_from_slice(&vec![in alloc; b'0'; 131072]?)?,
            other => bytes.push(other)?,
        }
    }
    Ok(bytes)
}
