//! The bytes of a plan, as they are written.

ghost use Rattle.std.specs.Prelude.{◌≡◌, ◌+◌, ◌*◌, ◌≤◌, ◌<◌, ◌^◌, [], ◌∷◌, ◌++◌, true, None, codes, length, replicate, encode_utf8_all, All, IfOk, OnOk};
ghost use Rattle.std.specs.Int.{w16, w32, w64, to_le_bytes};
ghost use Rattle.std.specs.List.{flat_map};
ghost use Rattle.std.specs.Str.{all_scalars};
ghost use Rattle.rc_tree.specs.declared.moment.TheConstants.{GREATEST_MOMENT};
ghost use Rattle.rc_tree.specs.Name.{name_fault};
ghost use Rattle.rc_record.specs.Codes.{kind_code};
ghost use Rattle.rc_record.specs.Spelling.{facts_bytes, flag_code, head_bytes, item_bytes, mark_count, no_marks, path_bytes, plan_bytes, text_bytes, IsAllowed, IsItemTyped, IsPathTyped, IsTyped};

use crate::noted::count_copies;
use rc_class::{Facts, Item, Plan, unit_count};
use rc_tree::{Kind, Name, NoMemory, Path};
use std::alloc::{AllocError, Global};

/// All of a plan's record behind its gate, with no mark.
pub(crate) fn body_of(alloc: Global, plan: &Plan) -> Result<Vec<u8>, NoMemory>
    requires allowed { IsAllowed plan.now }
    ensures body { IfOk result (λ bytes. bytes.items ≡ plan_bytes plan.now ++ no_marks plan.now) }
    ensures typed { IfOk result (λ _. IsTyped plan.now) }
{
    let mut bytes = Vec::new(alloc);
    put_head(&mut bytes, plan)?;
    put_job(&mut bytes, plan)?;
    put_u32(&mut bytes, plan.items.items().len() as u32)?;
    put_items(&mut bytes, plan.items.items())?;
    put_marks(&mut bytes, mark_count(plan))?;
    Ok(bytes)
}

/// How many bytes a plan has between its gate and its marks.
pub(crate) fn plan_len(plan: &Plan) -> u64
    requires allowed { IsAllowed plan.now }
    ensures len { result ≡ length (plan_bytes plan.now) }
    ensures bound { result ≤ 2 ^ 40 }
{
    25 + plan.job.text().len() as u64 + items_len(plan.items.items())
}

// How many marks a plan has.
fn mark_count(plan: &Plan) -> u64
    requires allowed { IsAllowed plan.now }
    ensures { result ≡ mark_count plan.now }
{
    unit_count(plan) + count_copies(plan.items.items()) + 1
}

fn put_head(bytes: &mut Vec<u8>, plan: &Plan) -> Result<(), AllocError>
    requires allowed { IsAllowed plan.now }
    ensures head { OnOk result (bytes.new.items ≡ bytes.old.items ++ head_bytes plan.now) }
    ensures moment { OnOk result (plan.now.moment ≤ GREATEST_MOMENT) }
{
    put_magic(bytes)?;
    put_u64(bytes, plan.moment.units())?;
    put_u32(bytes, plan.stride)?;
    put_byte(bytes, flag_code(plan.with_bytes))?;
    put_u32(bytes, job_len(plan))
}

fn put_magic(bytes: &mut Vec<u8>) -> Result<(), AllocError>
    ensures { OnOk result (bytes.new.items ≡ bytes.old.items ++ codes "RCR1") }
{
    bytes.extend_from_slice(b"RCR1")
}

// How many bytes the text of a plan's job has.
fn job_len(plan: &Plan) -> u32
    requires allowed { IsAllowed plan.now }
    ensures { result ≡ length (text_bytes plan.now) }
{
    plan.job.text().len() as u32
}

fn put_job(bytes: &mut Vec<u8>, plan: &Plan) -> Result<(), AllocError>
    ensures text { OnOk result (bytes.new.items ≡ bytes.old.items ++ text_bytes plan.now) }
    ensures characters { all_scalars plan.now.job ≡ true }
{
    bytes.extend_from_slice(plan.job.text().as_bytes())
}

fn put_byte(bytes: &mut Vec<u8>, byte: u8) -> Result<(), AllocError>
    ensures { OnOk result (bytes.new.items ≡ bytes.old.items ++ byte ∷ []) }
{
    bytes.extend_from_slice(&[byte])
}

fn put_u16(bytes: &mut Vec<u8>, n: u16) -> Result<(), AllocError>
    ensures { OnOk result (bytes.new.items ≡ bytes.old.items ++ to_le_bytes w16 n) }
{
    bytes.extend_from_slice(&n.to_le_bytes())
}

fn put_u32(bytes: &mut Vec<u8>, n: u32) -> Result<(), AllocError>
    ensures { OnOk result (bytes.new.items ≡ bytes.old.items ++ to_le_bytes w32 n) }
{
    bytes.extend_from_slice(&n.to_le_bytes())
}

fn put_u64(bytes: &mut Vec<u8>, n: u64) -> Result<(), AllocError>
    ensures { OnOk result (bytes.new.items ≡ bytes.old.items ++ to_le_bytes w64 n) }
{
    bytes.extend_from_slice(&n.to_le_bytes())
}

fn put_items(bytes: &mut Vec<u8>, items: &[Item]) -> Result<(), AllocError>
    ensures items { OnOk result (bytes.new.items ≡
        bytes.old.items ++ flat_map item_bytes items.now) }
    ensures typed { OnOk result (All IsItemTyped items.now) }
{
    for item in items {
        put_item(bytes, item)?;
    }
    Ok(())
}

fn put_item(bytes: &mut Vec<u8>, item: &Item) -> Result<(), AllocError>
    ensures item { OnOk result (bytes.new.items ≡ bytes.old.items ++ item_bytes item.now) }
    ensures typed { OnOk result (IsItemTyped item.now) }
{
    let len = path_len(&item.path);
    put_byte(bytes, item.act.code())?;
    put_byte(bytes, item.class.code())?;
    put_byte(bytes, item.after.code())?;
    put_facts(bytes, &item.facts)?;
    put_u16(bytes, len as u16)?;
    put_path(bytes, &item.path)
}

fn put_facts(bytes: &mut Vec<u8>, facts: &Facts) -> Result<(), AllocError>
    ensures facts { OnOk result (bytes.new.items ≡ bytes.old.items ++ facts_bytes facts.now) }
    ensures size { OnOk result (facts.now.size < 2 ^ 64) }
    ensures written { OnOk result (facts.now.written ≤ GREATEST_MOMENT) }
{
    put_byte(bytes, kind_code(facts.kind))?;
    put_u64(bytes, facts.size)?;
    put_u64(bytes, facts.written.units())?;
    put_u32(bytes, facts.attr.stored(facts.kind))
}

fn kind_code(kind: Kind) -> u8
    ensures { result ≡ kind_code kind }
{
    match kind {
        Kind::File => 0,
        Kind::Dir => 1,
    }
}

fn flag_code(flag: bool) -> u8
    ensures { result ≡ flag_code flag }
{
    if flag { 1 } else { 0 }
}

// The names of a path with `\` between them.
fn put_path(bytes: &mut Vec<u8>, path: &Path) -> Result<(), AllocError>
    ensures { OnOk result (bytes.new.items ≡ bytes.old.items ++ path_bytes path.now) }
{
    match path.names() {
        [] => Ok(()),
        [first, rest @ ..] => {
            put_name(bytes, first)?;
            put_below(bytes, rest)
        }
    }
}

// Each name behind a `\`.
fn put_below(bytes: &mut Vec<u8>, names: &[Name]) -> Result<(), AllocError>
    ensures { OnOk result (bytes.new.items
        ≡ bytes.old.items ++ flat_map (λ next. 92 ∷ encode_utf8_all next) names.now) }
{
    for name in names {
        put_byte(bytes, b'\\')?;
        put_name(bytes, name)?;
    }
    Ok(())
}

fn put_name(bytes: &mut Vec<u8>, name: &Name) -> Result<(), AllocError>
    ensures { OnOk result (bytes.new.items ≡ bytes.old.items ++ encode_utf8_all name.now) }
{
    bytes.extend_from_slice(name.text().as_bytes())
}

fn put_marks(bytes: &mut Vec<u8>, count: u64) -> Result<(), AllocError>
    ensures { OnOk result (bytes.new.items ≡ bytes.old.items ++ replicate count 0) }
{
    for _ in 0..count {
        bytes.push(0)?;
    }
    Ok(())
}

fn items_len(items: &[Item]) -> u64
    requires few { length items.now ≤ 1000000 }
    ensures len { result ≡ length (flat_map item_bytes items.now) }
    ensures bound { result ≤ 65562 * length items.now }
{
    let mut len = 0;
    for item in items {
        len += 26 + path_len(&item.path);
    }
    len
}

// How many bytes the text of a path has.
fn path_len(path: &Path) -> u64
    ensures len { result ≡ length (path_bytes path.now) }
    ensures bound { result ≤ 65535 }
    ensures typed { IsPathTyped path.now }
{
    match path.names() {
        [] => 0,
        [first, rest @ ..] => name_len(first) + below_len(rest),
    }
}

fn below_len(names: &[Name]) -> u64
    requires few { length names.now ≤ 63 }
    ensures len { result ≡ length (flat_map (λ next. 92 ∷ encode_utf8_all next) names.now) }
    ensures bound { result ≤ 1021 * length names.now }
    ensures named { All (λ name. name_fault name ≡ None) names.now }
    ensures characters { All (λ name. all_scalars name ≡ true) names.now }
{
    let mut len = 0;
    for name in names {
        len += 1 + name_len(name);
    }
    len
}

// How many bytes a name has.
fn name_len(name: &Name) -> u64
    ensures len { result ≡ length (encode_utf8_all name.now) }
    ensures bound { result ≤ 1020 }
    ensures named { name_fault name.now ≡ None }
    ensures characters { all_scalars name.now ≡ true }
{
    name.text().len() as u64
}
