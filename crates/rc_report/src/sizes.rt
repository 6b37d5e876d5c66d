//! How sizes are written.

ghost use Rattle.std.specs.Prelude.{◌≡◌, ◌⊎◌, ◌++◌, ◌%◌, ◌/◌, IfOk, string_bytes};
ghost use Rattle.rc_report.specs.Report.{in_tenths, size_text, tenths};

use std::alloc::{AllocError, Global};

// How many bytes a MiB and a GiB have.
const MEBIBYTE: u128 = 1048576;

const GIBIBYTE: u128 = 1073741824;

/// A size, as a plain number or in the greatest unit that it reaches.
pub(crate) fn size_text(alloc: Global, plain: bool, size: u128) -> Result<String, AllocError>
    ensures { IfOk result (λ text. string_bytes text ≡ size_text plain size) }
{
    if plain || size < MEBIBYTE {
        return size.to_string(alloc);
    }
    if size < GIBIBYTE {
        in_tenths(alloc, MEBIBYTE, size, " m")
    } else {
        in_tenths(alloc, GIBIBYTE, size, " g")
    }
}

// The tenths of a size in this unit, rounded down, and the unit's name.
fn in_tenths(alloc: Global, unit: u128, size: u128, name: &str) -> Result<String, AllocError>
    requires { (unit ≡ 1048576) ⊎ (unit ≡ 1073741824) }
    ensures { IfOk result (λ text. string_bytes text ≡ in_tenths unit size ++ name.now) }
{
    let mut text = whole(unit, size).to_string(alloc)?;
    text.push('.')?;
    text.push_str(&tenth(unit, size).to_string(alloc)?)?;
    text.push_str(name)?;
    Ok(text)
}

// The whole units.
fn whole(unit: u128, size: u128) -> u128
    requires { (unit ≡ 1048576) ⊎ (unit ≡ 1073741824) }
    ensures { result ≡ tenths unit size / 10 }
{
    size / unit
}

// The last digit of these tenths.
fn tenth(unit: u128, size: u128) -> u128
    requires { (unit ≡ 1048576) ⊎ (unit ≡ 1073741824) }
    ensures { result ≡ tenths unit size % 10 }
{
    size % unit * 10 / unit
}
