//! How the two sides of a key compare: the class of a key.

ghost use Rattle.std.specs.Prelude.{◌≡◌};
ghost use Rattle.rc_class.specs.Class.{class_at, class_of_files, class_of_kinds, is_same_attr};
ghost use Rattle.rc_class.specs.Codes.{class_code};

use crate::facts::{Facts, Grain, same_time};
use rc_tree::{Attr, Kind};

/// How the source's entry of a key compares with the target's.
#[derive(Clone, Copy, Debug, PartialEq, Eq)]
pub enum Class {
    /// The target has none.
    Lonely,
    /// The source has none.
    Extra,
    /// Two files: the source's was written later.
    Newer,
    /// Two files: the source's was written earlier.
    Older,
    /// Two files of one time and different sizes.
    Changed,
    /// Two files of one time and one size that differ in a compared attribute.
    Tweaked,
    /// Two files in which none of that differs, or two directories.
    Same,
    /// A file and a directory.
    Mismatched,
}

impl Class {
    /// Its number in records: 1 to 8, in the order of the variants.
    pub fn code(self) -> u8
        ensures { result ≡ class_code self }
    {
        match self {
            Class::Lonely => 1,
            Class::Extra => 2,
            Class::Newer => 3,
            Class::Older => 4,
            Class::Changed => 5,
            Class::Tweaked => 6,
            Class::Same => 7,
            Class::Mismatched => 8,
        }
    }
}

/// The class of a key at which the two sides have entries of these facts. `None` exactly where neither has one.
pub fn class_of(source: Option<Facts>, target: Option<Facts>, grain: Grain) -> Option<Class>
    ensures { result ≡ class_at grain source target }
{
    match (source, target) {
        (None, None) => None,
        (Some(_), None) => Some(Class::Lonely),
        (None, Some(_)) => Some(Class::Extra),
        (Some(source), Some(target)) => Some(class_of_both(source, target, grain)),
    }
}

fn class_of_both(source: Facts, target: Facts, grain: Grain) -> Class
    ensures { result ≡ class_of_kinds source.kind target.kind (class_of_files grain source target) }
{
    match (source.kind, target.kind) {
        (Kind::File, Kind::File) => class_of_files(source, target, grain),
        (Kind::Dir, Kind::Dir) => Class::Same,
        _ => Class::Mismatched,
    }
}

fn class_of_files(source: Facts, target: Facts, grain: Grain) -> Class
    ensures { result ≡ class_of_files grain source target }
{
    let (ours, theirs) = (source.written.units(), target.written.units());
    if !same_time(ours, theirs, grain) {
        if theirs < ours {
            Class::Newer
        } else {
            Class::Older
        }
    } else if source.size != target.size {
        Class::Changed
    } else if !same_attr(source.attr, target.attr) {
        Class::Tweaked
    } else {
        Class::Same
    }
}

/// Whether the compared attributes are the same.
pub fn same_attr(a: Attr, b: Attr) -> bool
    ensures { result ≡ is_same_attr a b }
{
    a.compared() == b.compared()
}
