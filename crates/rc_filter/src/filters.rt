//! What the filters of a job say of a file's facts. A value that equals a bound passes.

ghost use Rattle.std.specs.Prelude.{◌≡◌};
ghost use Rattle.rc_filter.specs.Filters.{cutoff, cutoff_of, has_attr, is_above, is_below, is_wrong_age, is_wrong_attr, is_wrong_size, lacks_archive, lacks_asked, share_attr, share_compared, share_other};

use rc_dates::{date_to_moment, days_before};
use rc_job::Job;
use rc_tree::{Attr, Moment};

/// Whether a file's attributes are not those that `/A`, `/M`, `/IA` and `/XA` ask for.
pub(crate) fn is_wrong_attr(job: &Job, attr: Attr) -> bool
    ensures { result ≡ is_wrong_attr job.now attr }
{
    lacks_archive(job, attr) || lacks_asked(job, attr) || share_attr(job.xa, attr)
}

/// Whether a file's size, in bytes, is above that of `/MAX` or below that of `/MIN`.
pub(crate) fn is_wrong_size(job: &Job, size: u64) -> bool
    ensures { result ≡ is_wrong_size job.now size }
{
    is_above(job.max, size) || is_below(job.min, size)
}

/// Whether a file was written before the moment of `/MAXAGE` or after that of `/MINAGE`, where ages count back from a
/// moment.
pub(crate) fn is_wrong_age(job: &Job, moment: Moment, written: Moment) -> bool
    ensures { result ≡ is_wrong_age job.now moment written }
{
    let (now, written) = (moment.units(), written.units());
    is_below(cutoff_of(now, job.maxage), written) || is_above(cutoff_of(now, job.minage), written)
}

// Attributes

fn lacks_archive(job: &Job, attr: Attr) -> bool
    ensures { result ≡ lacks_archive job.now attr }
{
    (job.only_a || job.only_m) && !attr.archive
}

fn lacks_asked(job: &Job, attr: Attr) -> bool
    ensures { result ≡ lacks_asked job.now attr }
{
    has_attr(job.ia) && !share_attr(job.ia, attr)
}

fn has_attr(attr: Attr) -> bool
    ensures { result ≡ has_attr attr }
{
    share_attr(attr, attr)
}

// Whether two have an attribute in common.
fn share_attr(a: Attr, b: Attr) -> bool
    ensures { result ≡ share_attr a b }
{
    share_compared(a, b) || share_other(a, b)
}

// One that a mirror compares.
fn share_compared(a: Attr, b: Attr) -> bool
    ensures { result ≡ share_compared a b }
{
    a.readonly && b.readonly
        || a.hidden && b.hidden
        || a.system && b.system
        || a.archive && b.archive
        || a.temporary && b.temporary
        || a.not_indexed && b.not_indexed
}

// One of the others.
fn share_other(a: Attr, b: Attr) -> bool
    ensures { result ≡ share_other a b }
{
    a.sparse && b.sparse
        || a.compressed && b.compressed
        || a.offline && b.offline
        || a.encrypted && b.encrypted
}

// Bounds

fn is_above(bound: Option<u64>, value: u64) -> bool
    ensures { result ≡ is_above bound value }
{
    match bound {
        None => false,
        Some(most) => most < value,
    }
}

fn is_below(bound: Option<u64>, value: u64) -> bool
    ensures { result ≡ is_below bound value }
{
    match bound {
        None => false,
        Some(least) => value < least,
    }
}

// Ages

fn cutoff_of(moment: u64, age: Option<u32>) -> Option<u64>
    ensures { result ≡ cutoff_of moment age }
{
    match age {
        None => None,
        Some(age) => cutoff(moment, age),
    }
}

// The moment that an age stands for: so many days before another, or the midnight at which a date begins.
fn cutoff(moment: u64, age: u32) -> Option<u64>
    ensures { result ≡ cutoff moment age }
{
    if age < 1900 {
        return Some(days_before(moment, age));
    }
    match date_to_moment(age) {
        Ok(midnight) => Some(midnight),
        Err(_) => None,
    }
}
