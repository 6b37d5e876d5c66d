//! The properties of what is made, copied and touched.

ghost use Rattle.std.specs.Prelude.{◌≡◌, IfOk};
ghost use Rattle.rc_class.specs.Goal.{adjusted, copied_props, directory_props, fixed_props, fresh_attr, fresh_props, letter, over, picked};

use crate::Rules;
use rc_tree::{Attr, Kind, Moment, NoMemory, Props, Security};
use std::alloc::Global;

/// The properties of a file that is copied, where the source's has these and the target's, or a fresh one, had those.
pub fn copied_props(
    alloc: Global,
    rules: Rules,
    source: &Props,
    old: &Props,
) -> Result<Props, NoMemory>
    ensures { IfOk result (λ props. props ≡ copied_props rules source.now old.now) }
{
    Ok(Props {
        attr: copied_attr(rules, source.attr, old.attr),
        created: pick(rules.times, source.created, old.created),
        written: pick(rules.times, source.written, old.written),
        access: pick_security(alloc, rules.access, &source.access, &old.access)?,
        owner: pick_security(alloc, rules.owner, &source.owner, &old.owner)?,
        audit: pick_security(alloc, rules.audit, &source.audit, &old.audit)?,
    })
}

/// The properties of a directory that is made or touched, where the source's has these and the target's, or a fresh
/// one, had those. Security stays.
pub fn directory_props(
    alloc: Global,
    rules: Rules,
    source: &Props,
    old: &Props,
) -> Result<Props, NoMemory>
    ensures { IfOk result (λ props. props ≡ directory_props rules source.now old.now) }
{
    Ok(Props {
        attr: if rules.dir_attr {
            lay_over(source.attr, old.attr)
        } else {
            old.attr
        },
        created: pick(rules.dir_times, source.created, old.created),
        written: pick(rules.dir_times, source.written, old.written),
        access: old.access.copy(alloc)?,
        owner: old.owner.copy(alloc)?,
        audit: old.audit.copy(alloc)?,
    })
}

/// The properties of a file that stays, where the source's has these and the target's those, with the times or the
/// security that are to be mended.
pub fn fixed_props(
    alloc: Global,
    rules: Rules,
    source: &Props,
    old: &Props,
) -> Result<Props, NoMemory>
    ensures { IfOk result (λ props. props ≡ fixed_props rules source.now old.now) }
{
    let mends_access = rules.access || !(rules.owner || rules.audit);
    Ok(Props {
        attr: old.attr,
        created: pick(rules.timfix, source.created, old.created),
        written: pick(rules.timfix, source.written, old.written),
        access: pick_security(
            alloc,
            rules.secfix && mends_access,
            &source.access,
            &old.access,
        )?,
        owner: pick_security(
            alloc,
            rules.secfix && rules.owner,
            &source.owner,
            &old.owner,
        )?,
        audit: pick_security(
            alloc,
            rules.secfix && rules.audit,
            &source.audit,
            &old.audit,
        )?,
    })
}

/// The properties of an entry that is made at a moment, before anything of the source's goes to it: A alone for a file
/// and no attribute for a directory, both times the moment, and no security.
pub fn fresh_props(alloc: Global, kind: Kind, moment: Moment) -> Props
    ensures { result ≡ fresh_props (fresh_attr kind) moment }
{
    Props {
        attr: fresh_attr(kind),
        created: moment,
        written: moment,
        access: Security::empty(alloc),
        owner: Security::empty(alloc),
        audit: Security::empty(alloc),
    }
}

fn fresh_attr(kind: Kind) -> Attr
    ensures { result ≡ fresh_attr kind }
{
    Attr {
        archive: kind == Kind::File,
        ..Attr::NONE
    }
}

fn copied_attr(rules: Rules, source: Attr, old: Attr) -> Attr
    ensures { result ≡ adjusted rules (picked rules.attr (over source old) old) }
{
    let attr = if rules.attr {
        lay_over(source, old)
    } else {
        old
    };
    adjust(rules, attr)
}

// The compared attributes of the source, and the others as they stood.
fn lay_over(source: Attr, old: Attr) -> Attr
    ensures { result ≡ over source old }
{
    Attr {
        readonly: source.readonly,
        hidden: source.hidden,
        system: source.system,
        archive: source.archive,
        temporary: source.temporary,
        not_indexed: source.not_indexed,
        ..old
    }
}

// Sets and clears compared attributes.
fn adjust(rules: Rules, attr: Attr) -> Attr
    ensures { result ≡ adjusted rules attr }
{
    let Rules { plus, minus, .. } = rules;
    Attr {
        readonly: letter(minus.readonly, plus.readonly, attr.readonly),
        hidden: letter(minus.hidden, plus.hidden, attr.hidden),
        system: letter(minus.system, plus.system, attr.system),
        archive: letter(minus.archive, plus.archive, attr.archive),
        temporary: letter(minus.temporary, plus.temporary, attr.temporary),
        not_indexed: letter(minus.not_indexed, plus.not_indexed, attr.not_indexed),
        ..attr
    }
}

fn letter(clear: bool, put: bool, has: bool) -> bool
    ensures { result ≡ letter clear put has }
{
    !clear && (put || has)
}

fn pick(flag: bool, source: Moment, old: Moment) -> Moment
    ensures { result ≡ picked flag source old }
{
    if flag { source } else { old }
}

fn pick_security(
    alloc: Global,
    flag: bool,
    source: &Security,
    old: &Security,
) -> Result<Security, NoMemory>
    ensures { IfOk result (λ security. security ≡ picked flag source.now old.now) }
{
    if flag {
        source.copy(alloc)
    } else {
        old.copy(alloc)
    }
}
