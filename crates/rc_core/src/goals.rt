//! What the target has at the key of a copied file in the end.

ghost use Rattle.std.specs.Prelude.{◌≡◌, IfOk, option_map};
ghost use Rattle.rc_class.specs.Class.{is_lonely};
ghost use Rattle.rc_class.specs.Goal.{copied_file, copy_base, new_file, picked};
ghost use Rattle.rc_core.specs.Copies.{copy_goal};

use crate::rows::copy_some;
use crate::{Bytes, Copied, Standing};
use rc_class::{Class, Plan, Rules, copied_props, fresh_props};
use rc_tree::{Kind, Moment, NoMemory};
use std::alloc::Global;

// What stands at the file's key in the end.
pub(crate) fn copy_goal(
    alloc: Global,
    rules: Rules,
    plan: &Plan,
    file: &Copied,
) -> Result<Option<Standing>, NoMemory>
    ensures { IfOk result
        (λ goal. goal ≡ copy_goal rules plan.now file.now.item file.now.source file.now.start) }
{
    let Some(source) = &file.source else {
        return Ok(None);
    };
    let base = copy_base(alloc, file.item.class, plan.moment, source, &file.start)?;
    copied_some(alloc, rules, plan.with_bytes, source, &base)
}

// What a copy goes on from: a new file, or what stands there.
fn copy_base(
    alloc: Global,
    class: Class,
    moment: Moment,
    source: &Standing,
    start: &Option<Standing>,
) -> Result<Option<Standing>, NoMemory>
    ensures { IfOk result (λ base. base ≡ copy_base class moment source.now start.now) }
{
    if is_lonely(class) {
        match new_file(alloc, moment, source) {
            Ok(new) => Ok(Some(new)),
            Err(e) => Err(e),
        }
    } else {
        copy_some(alloc, start)
    }
}

fn is_lonely(class: Class) -> bool
    ensures { result ≡ is_lonely class }
{
    class == Class::Lonely
}

// A new file, under the source's spelling.
fn new_file(alloc: Global, moment: Moment, source: &Standing) -> Result<Standing, NoMemory>
    ensures { IfOk result (λ new. new ≡ new_file moment source.now) }
{
    let name = source.name().copy(alloc)?;
    let bytes = Bytes::new(Vec::new(alloc));
    let props = fresh_props(alloc, Kind::File, moment);
    Ok(Standing::new(name, Kind::File, bytes, props))
}

fn copied_some(
    alloc: Global,
    rules: Rules,
    with_bytes: bool,
    source: &Standing,
    base: &Option<Standing>,
) -> Result<Option<Standing>, NoMemory>
    ensures { IfOk result
        (λ goal. goal ≡ option_map (copied_file rules with_bytes source.now) base.now) }
{
    match base {
        Some(base) => match copied_file(alloc, rules, with_bytes, source, base) {
            Ok(goal) => Ok(Some(goal)),
            Err(e) => Err(e),
        },
        None => Ok(None),
    }
}

// The file that a copy makes of one that stands.
fn copied_file(
    alloc: Global,
    rules: Rules,
    with_bytes: bool,
    source: &Standing,
    base: &Standing,
) -> Result<Standing, NoMemory>
    ensures { IfOk result
        (λ goal. goal ≡ copied_file rules with_bytes source.now base.now) }
{
    let name = base.name().copy(alloc)?;
    let bytes = picked_bytes(with_bytes, source, base).to_vec(alloc)?;
    let props = copied_props(alloc, rules, source.props(), base.props())?;
    Ok(Standing::new(name, base.kind(), Bytes::new(bytes), props))
}

fn picked_bytes<'a>(with_bytes: bool, source: &'a Standing, base: &'a Standing) -> &'a [u8]
    ensures { result.now ≡ picked with_bytes source.now.bytes base.now.bytes }
{
    if with_bytes {
        source.bytes()
    } else {
        base.bytes()
    }
}
