//! The properties of a copied file.

ghost use Rattle.std.specs.Prelude.{◌≡◌, ◌<◌, ⊤, true, Some, IfOk, length, option_map};
ghost use Rattle.std.specs.FinMap.{get};
ghost use Rattle.rc_tree.specs.Path.{key_of};
ghost use Rattle.rc_tree.specs.Tree.{Node};
ghost use Rattle.rc_class.specs.Class.{is_lonely};
ghost use Rattle.rc_class.specs.Goal.{copied_props};
ghost use Rattle.rc_volume.specs.Frames.{Looks};
ghost use Rattle.rc_volume.specs.Site.{HasFile, node_at};
ghost use Rattle.rc_copy.specs.Copying.{copy_cause, ChangesTarget, Finishes, GivesProps, OnTarget};

use crate::copying::Copying;
use crate::err::{CopyErr, fault};
use rc_class::{Class, Item, Rules, copied_props, fresh_props};
use rc_tree::{Kind, Path, Props};
use rc_volume::{Side, Site};
use std::alloc::Global;

/// Gives a file that stands the properties of a copy. Where a side has nothing there any more, all stays as it is.
pub(crate) fn finish<S: Site>(
    alloc: Global,
    site: &mut S,
    copying: &Copying,
    item: &Item,
) -> Result<(), CopyErr>
    requires below { 0 < length item.now.path }
    requires stands { S.tells ≡ true →
        HasFile (S.view site.old).told.target (key_of item.now.path) (λ _. ⊤) }

    ensures frame { ChangesTarget S.tells (key_of item.now.path) (copy_cause result)
        (S.view site.old) (S.view site.new) }
    ensures finished { S.tells ≡ true → let key = key_of item.now.path in (from : Node) →
        get (S.view site.old).told.source key ≡ Some from →
        OnTarget key (Finishes result copying.now item.now from)
        (S.view site.old) (S.view site.new) }
{
    match props_at(alloc, site, Side::Source, &item.path) {
        Ok(Some(source)) => finish_from(alloc, site, copying, item, &source),
        Ok(None) => Ok(()),
        Err(e) => Err(e),
    }
}

// The same where the source's file has these properties.
fn finish_from<S: Site>(
    alloc: Global,
    site: &mut S,
    copying: &Copying,
    item: &Item,
    source: &Props,
) -> Result<(), CopyErr>
    requires below { 0 < length item.now.path }
    requires stands { S.tells ≡ true →
        HasFile (S.view site.old).told.target (key_of item.now.path) (λ _. ⊤) }

    ensures frame { ChangesTarget S.tells (key_of item.now.path) (copy_cause result)
        (S.view site.old) (S.view site.new) }
    ensures finished { S.tells ≡ true → (from : Node) → from.props ≡ source.now →
        OnTarget (key_of item.now.path) (Finishes result copying.now item.now from)
        (S.view site.old) (S.view site.new) }
{
    if is_lonely(item.class) {
        let old = fresh_props(alloc, Kind::File, copying.moment);
        return set_copied_props(alloc, site, copying.rules, &item.path, source, &old);
    }
    match props_at(alloc, site, Side::Target, &item.path) {
        Ok(Some(old)) => set_copied_props(alloc, site, copying.rules, &item.path, source, &old),
        Ok(None) => Ok(()),
        Err(e) => Err(e),
    }
}

// Whether the target had nothing when all was decided: then the copy is new, whatever stands there by now.
fn is_lonely(class: Class) -> bool
    ensures { result ≡ is_lonely class }
{
    class == Class::Lonely
}

// The properties of what a side has at a path; none where it has nothing.
fn props_at<S: Site>(
    alloc: Global,
    site: &mut S,
    side: Side,
    path: &Path,
) -> Result<Option<Props>, CopyErr>
    requires { 0 < length path.now }

    ensures frame { Looks S.tells (copy_cause result) (S.view site.old) (S.view site.new) }
    ensures props { S.tells ≡ true →
        let node = node_at (S.view site.old).told side (key_of path.now) in
        IfOk result (λ props. props ≡ option_map (λ node. node.props) node) }
{
    match site.stat(alloc, side, path) {
        Ok(Some(entry)) => Ok(Some(entry.props)),
        Ok(None) => Ok(None),
        Err(e) => Err(fault(e, side)),
    }
}

// Gives a file that stands the properties of a copy over one that had these.
fn set_copied_props<S: Site>(
    alloc: Global,
    site: &mut S,
    rules: Rules,
    path: &Path,
    source: &Props,
    old: &Props,
) -> Result<(), CopyErr>
    requires { S.tells ≡ true →
        HasFile (S.view site.old).told.target (key_of path.now) (λ _. ⊤) }

    ensures frame { ChangesTarget S.tells (key_of path.now) (copy_cause result)
        (S.view site.old) (S.view site.new) }
    ensures set { S.tells ≡ true → OnTarget (key_of path.now)
        (GivesProps result (copied_props rules source.now old.now))
        (S.view site.old) (S.view site.new) }
{
    let Ok(props) = copied_props(alloc, rules, source, old) else {
        return Err(CopyErr::NoMemory);
    };
    match site.set_props(alloc, Side::Target, path, &props) {
        Ok(()) => Ok(()),
        Err(e) => Err(fault(e, Side::Target)),
    }
}
