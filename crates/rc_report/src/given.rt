//! Files that were given up, asked for by their places among the items of a plan.

ghost use Rattle.std.specs.Prelude.{◌≡◌, ◌<◌, true, get_or, length};
ghost use Rattle.rc_report.specs.Totals.{is_given_up};
ghost use Rattle.rc_report.specs.Given.{IsRising, is_named, none};

use rc_class::{GivenUp, Item};

/// Whether the places rise strictly, as those of every run do.
pub(crate) fn is_rising(failed: &[GivenUp]) -> bool
    ensures sure { result ≡ true → IsRising failed.now }
    ensures all { IsRising failed.now → result ≡ true }
{
    for next in 1..failed.len() {
        if place_of(failed, next) <= place_of(failed, next - 1) {
            return false;
        }
    }
    true
}

/// Whether the item at a place is a file that was given up; `rising` says that the places are known
/// to rise.
pub(crate) fn is_given_up(failed: &[GivenUp], rising: bool, place: usize, item: &Item) -> bool
    requires { rising ≡ true → IsRising failed.now }
    ensures { result ≡ is_given_up failed.now place item.now }
{
    if !item.act.is_copy() {
        return false;
    }
    if rising {
        is_found(failed, place)
    } else {
        is_among(failed, place)
    }
}

// Whether a place is named, where the places rise.
fn is_found(failed: &[GivenUp], place: usize) -> bool
    requires { IsRising failed.now }
    ensures { result ≡ is_named failed.now place }
{
    let (mut low, mut high) = (0, failed.len());
    'halves: while low < high {
        let middle = low + (high - low) / 2;
        let named = place_of(failed, middle);
        if named == place {
            return true;
        }
        if named < place {
            low = middle + 1;
        } else {
            high = middle;
        }
    }
    false
}

// The same in any order.
fn is_among(failed: &[GivenUp], place: usize) -> bool
    ensures { result ≡ is_named failed.now place }
{
    failed
        .iter()
        .any(|given_up| given_up.item as usize == place)
}

// The place that one with this number names.
fn place_of(failed: &[GivenUp], number: usize) -> usize
    requires { number < length failed.now }
    ensures { result ≡ (get_or failed.now number none).item }
{
    failed[number].item as usize
}
