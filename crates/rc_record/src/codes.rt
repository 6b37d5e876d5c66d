//! The values that the numbers of a record stand for. Each answers `None` at a number that stands for none.

ghost use Rattle.std.specs.Prelude.{◌≡◌};
ghost use Rattle.rc_record.specs.Codes.{act_of, after_of, attr_of, class_of, flag_of, kind_of};

use rc_class::{Act, After, Class, Reason};
use rc_tree::{Attr, Kind};

#[tactic(auto, unfolding(crate::specs::Codes::act_of))]
pub(crate) fn act_of(code: u8) -> Option<Act>
    ensures { result ≡ act_of code }
{
    match code {
        1 => Some(Act::Copy),
        2 => Some(Act::Make),
        3 => Some(Act::Touch),
        4 => Some(Act::Fix),
        5 => Some(Act::Purge),
        6 => Some(Act::Extra),
        7 => Some(Act::Mismatch),
        16 => Some(Act::Keep(Reason::NotNamed)),
        17 => Some(Act::Keep(Reason::Excluded)),
        18 => Some(Act::Keep(Reason::Attr)),
        19 => Some(Act::Keep(Reason::Size)),
        20 => Some(Act::Keep(Reason::Age)),
        21 => Some(Act::Keep(Reason::Class)),
        22 => Some(Act::Keep(Reason::Empty)),
        23 => Some(Act::Keep(Reason::Same)),
        _ => None,
    }
}

#[tactic(auto, unfolding(crate::specs::Codes::class_of))]
pub(crate) fn class_of(code: u8) -> Option<Class>
    ensures { result ≡ class_of code }
{
    match code {
        1 => Some(Class::Lonely),
        2 => Some(Class::Extra),
        3 => Some(Class::Newer),
        4 => Some(Class::Older),
        5 => Some(Class::Changed),
        6 => Some(Class::Tweaked),
        7 => Some(Class::Same),
        8 => Some(Class::Mismatched),
        _ => None,
    }
}

#[tactic(auto, unfolding(crate::specs::Codes::after_of))]
pub(crate) fn after_of(code: u8) -> Option<After>
    ensures { result ≡ after_of code }
{
    match code {
        0 => Some(After::Nothing),
        1 => Some(After::RemoveSource),
        2 => Some(After::ClearArchive),
        _ => None,
    }
}

#[tactic(auto, unfolding(crate::specs::Codes::kind_of))]
pub(crate) fn kind_of(code: u8) -> Option<Kind>
    ensures { result ≡ kind_of code }
{
    match code {
        0 => Some(Kind::File),
        1 => Some(Kind::Dir),
        _ => None,
    }
}

#[tactic(auto, unfolding(crate::specs::Codes::flag_of))]
pub(crate) fn flag_of(code: u8) -> Option<bool>
    ensures { result ≡ flag_of code }
{
    match code {
        0 => Some(false),
        1 => Some(true),
        _ => None,
    }
}

#[tactic(auto, unfolding(crate::specs::Codes::attr_of))]
pub(crate) fn attr_of(kind: Kind, stored: u32) -> Option<Attr>
    ensures { result ≡ attr_of kind stored }
{
    Attr::read(stored, kind)
}
