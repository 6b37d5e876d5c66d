//! What a key is called, and whether it has a line.

ghost use Rattle.std.specs.Prelude.{◌≡◌};
ghost use Rattle.rc_report.specs.Report.{act_tag, class_tag, extra_tag, is_hidden, is_kept, is_shown, path_end, tag_of};

use rc_class::{Act, Class, Item};
use rc_job::Job;
use rc_tree::Kind;

/// Whether a key has a line.
pub(crate) fn is_shown(job: &Job, item: &Item) -> bool
    ensures { result ≡ is_shown job.now item.now }
{
    !is_hidden(job, item.facts.kind) && (job.verbose || !is_kept(item.act))
}

/// The first words of a line.
pub(crate) fn tag_of(item: &Item, given_up: bool) -> &'static str
    ensures { result.now ≡ tag_of (record { item = item.now; given_up = given_up }) }
{
    if given_up {
        "FAILED"
    } else {
        act_tag(item.act, item.class, item.facts.kind)
    }
}

/// What stands behind a path.
pub(crate) fn path_end(kind: Kind) -> &'static str
    ensures { result.now ≡ path_end kind }
{
    match kind {
        Kind::File => "",
        Kind::Dir => "\\",
    }
}

// Whether keys of a kind have no lines.
fn is_hidden(job: &Job, kind: Kind) -> bool
    ensures { result ≡ is_hidden job.now kind }
{
    match kind {
        Kind::File => job.nfl,
        Kind::Dir => job.ndl,
    }
}

fn is_kept(act: Act) -> bool
    ensures { result ≡ is_kept act }
{
    matches!(act, Act::Keep(_))
}

fn act_tag(act: Act, class: Class, kind: Kind) -> &'static str
    ensures { result.now ≡ act_tag act class kind }
{
    match act {
        Act::Copy => class_tag(class),
        Act::Make => "New Dir",
        Act::Touch => "Dir",
        Act::Fix => "Fixed",
        Act::Purge | Act::Extra => extra_tag(kind),
        Act::Mismatch => "*Mismatch",
        Act::Keep(_) => "skipped",
    }
}

fn extra_tag(kind: Kind) -> &'static str
    ensures { result.now ≡ extra_tag kind }
{
    match kind {
        Kind::File => "*EXTRA File",
        Kind::Dir => "*EXTRA Dir",
    }
}

// What a copy is called by the class of its file.
fn class_tag(class: Class) -> &'static str
    ensures { result.now ≡ class_tag class }
{
    match class {
        Class::Lonely => "New File",
        Class::Extra => "*EXTRA File",
        Class::Newer => "Newer",
        Class::Older => "Older",
        Class::Changed => "Changed",
        Class::Tweaked => "Tweaked",
        Class::Same => "Same",
        Class::Mismatched => "*Mismatch",
    }
}
