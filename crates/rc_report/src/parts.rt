//! The parts of which lines are made.

ghost use Rattle.std.specs.Prelude.{◌≡◌, ◌-◌, ◌++◌, ◌∷◌, OnOk, string_bytes, chars, encode_utf8_all, flat_map, replicate};
ghost use Rattle.rc_report.specs.Report.{left_in, path_text, right_in};

use rc_tree::{Name, Path};
use std::alloc::AllocError;

/// Adds the names of a path with `\` between them. After an error, which is want of memory, a part
/// of that may stand in the line.
pub fn push_path(line: &mut String, path: &Path) -> Result<(), AllocError>
    ensures { OnOk result (string_bytes line.new ≡ string_bytes line.old ++ path_text path.now) }
{
    match path.names() {
        [] => Ok(()),
        [first, rest @ ..] => {
            line.push_str(first.text())?;
            push_below(line, rest)
        }
    }
}

// Adds each name behind a `\`.
fn push_below(line: &mut String, names: &[Name]) -> Result<(), AllocError>
    ensures { OnOk result (string_bytes line.new
        ≡ string_bytes line.old ++ flat_map (λ next. 92 ∷ encode_utf8_all next) names.now) }
{
    for name in names {
        line.push('\\')?;
        line.push_str(name.text())?;
    }
    Ok(())
}

/// Adds a text.
pub(crate) fn push_text(line: &mut String, text: &str) -> Result<(), AllocError>
    ensures { OnOk result
        (string_bytes line.new ≡ string_bytes line.old ++ encode_utf8_all (chars text.now)) }
{
    line.push_str(text)?;
    Ok(())
}

/// Adds a text of ASCII characters at the left of so many places; a longer one is whole.
pub(crate) fn push_left(line: &mut String, width: usize, text: &str) -> Result<(), AllocError>
    ensures { OnOk result
        (string_bytes line.new ≡ string_bytes line.old ++ left_in width text.now) }
{
    line.push_str(text)?;
    push_spaces(line, text.len(), width)
}

/// Adds a text of ASCII characters at the right of so many places; a longer one is whole.
pub(crate) fn push_right(line: &mut String, width: usize, text: &str) -> Result<(), AllocError>
    ensures { OnOk result
        (string_bytes line.new ≡ string_bytes line.old ++ right_in width text.now) }
{
    push_spaces(line, text.len(), width)?;
    line.push_str(text)
}

// Adds a space for each place from one up to another.
fn push_spaces(line: &mut String, from: usize, to: usize) -> Result<(), AllocError>
    ensures { OnOk result
        (string_bytes line.new ≡ string_bytes line.old ++ replicate (to - from) 32) }
{
    for _ in from..to {
        line.push(' ')?;
    }
    Ok(())
}
