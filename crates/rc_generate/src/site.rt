//! The site: its directories one after another, each with its files.

ghost use Rattle.std.specs.Prelude.{◌≡◌, ◌≤◌, ◌<◌, ◌∷◌, [], None, option_map, IfSome, IsSomeAnd, IfOk, OnOk};
ghost use Rattle.std.specs.FinMap.{get, insert};
ghost use Rattle.rc_tree.specs.declared.attr.Kind.TheVariants.{File};
ghost use Rattle.rc_tree.specs.Path.{key_of, parent_of};
ghost use Rattle.rc_tree.specs.Tree.{IsDirectory};
ghost use Rattle.rc_volume.specs.declared.site.Side.TheVariants.{Source, Target};
ghost use Rattle.rc_mem.specs.Nodes.{node_of};
ghost use Rattle.rc_generate.specs.Generated.{IsGenerated, dir_key, dir_name, directory, file_key, has, state_at};
ghost use Rattle.rc_generate.specs.Making.{ComesTo, HasDirectory, HasFiles, HasRoom, IsBare, IsFree, with_file};

use crate::files::{Pair, make_pair, props_of};
use crate::names::{dir_path, file_path};
use rc_mem::{SharedBytes, Tree, TreeNode};
use rc_stop::{drawn, next_state};
use rc_tree::{Attr, Kind, NoMemory, Path};
use std::alloc::Global;

/// The moment of a generated site: when its directories and most of its files were made and written.
pub const MOMENT: u64 = 133485408000000000;

/// The two trees of a generated site.
#[derive(Debug, Drop)]
pub struct Generated {
    pub source: Tree,
    pub target: Tree,
}

/// The two trees that are generated from a number: at most 20,200 entries with less than 106,000,000 bytes on both
/// sides together. The bytes of a file that both sides have alike are shared.
pub fn generate(alloc: Global, number: u64) -> Result<Generated, NoMemory>
    ensures source { IfOk result (λ site. IsGenerated number Source site.source) }
    ensures target { IfOk result (λ site. IsGenerated number Target site.target) }
{
    let mut site = Generated {
        source: Tree::new(alloc),
        target: Tree::new(alloc),
    };
    let mut state = number;
    'directories: for i in 0..100 {
        match add_directory(alloc, &mut site, i, state) {
            Ok(after) => state = after,
            Err(e) => return Err(e),
        }
    }
    Ok(site)
}

// Adds a directory with its files to both sides, by the draws behind a state, and answers the state behind them.
fn add_directory(alloc: Global, site: &mut Generated, i: u64, state: u64) -> Result<u64, NoMemory>
    requires small { i < 100 }
    requires source { IsBare i site.old.source }
    requires target { IsBare i site.old.target }
    ensures state { IfOk result (λ after. after ≡ state_at state 100) }
    ensures source { OnOk result (HasDirectory state i Source site.old.source site.new.source) }
    ensures target { OnOk result (HasDirectory state i Target site.old.target site.new.target) }
{
    let dir = dir_path(alloc, i)?;
    place_dir(alloc, &mut site.source, &dir, i)?;
    place_dir(alloc, &mut site.target, &dir, i)?;
    add_files(alloc, site, &dir, i, state)
}

// Puts a directory into the root, where nothing stands.
fn place_dir(alloc: Global, tree: &mut Tree, path: &Path, i: u64) -> Result<(), NoMemory>
    requires path { path.now ≡ dir_name i ∷ [] }
    requires absent { get tree.old (dir_key i) ≡ None }
    ensures { OnOk result (tree.new ≡ insert tree.old (dir_key i) (directory i)) }
{
    let node = TreeNode {
        path: path.copy(alloc)?,
        kind: Kind::Dir,
        bytes: SharedBytes::new(alloc, Vec::new(alloc))?,
        props: props_of(alloc, Attr::NONE),
    };
    tree.place(alloc, node)
}

// Adds the files of a directory to both sides, by the draws behind a state, and answers the state behind them.
fn add_files(
    alloc: Global,
    site: &mut Generated,
    dir: &Path,
    i: u64,
    state: u64,
) -> Result<u64, NoMemory>
    requires small { i < 100 }
    requires dir { dir.now ≡ dir_name i ∷ [] }
    requires source { HasRoom i site.old.source }
    requires target { HasRoom i site.old.target }
    ensures state { IfOk result (λ after. after ≡ state_at state 100) }
    ensures source { OnOk result (HasFiles state i 100 Source site.old.source site.new.source) }
    ensures target { OnOk result (HasFiles state i 100 Target site.old.target site.new.target) }
{
    let mut state = state;
    'files: for j in 0..100 {
        state = next_state(state);
        match add_file(alloc, site, dir, i, j, drawn(state)) {
            Ok(()) => {}
            Err(e) => return Err(e),
        }
    }
    Ok(state)
}

// Adds what both sides have of a file, by its draw.
fn add_file(
    alloc: Global,
    site: &mut Generated,
    dir: &Path,
    i: u64,
    j: u64,
    draw: u64,
) -> Result<(), NoMemory>
    requires small { j < 100 }
    requires dir { dir.now ≡ dir_name i ∷ [] }
    requires source { IsFree (dir_key i) (file_key i j) site.old.source }
    requires target { IsFree (dir_key i) (file_key i j) site.old.target }
    ensures source { OnOk result
        (ComesTo (file_key i j) (has Source i j draw) site.old.source site.new.source) }
    ensures target { OnOk result
        (ComesTo (file_key i j) (has Target i j draw) site.old.target site.new.target) }
{
    let path = file_path(alloc, dir, j)?;
    let Pair { source, target } = make_pair(alloc, path, i, j, draw)?;
    place_file(alloc, &mut site.source, source)?;
    place_file(alloc, &mut site.target, target)
}

// Puts a file where nothing stands, in a directory of the tree, if there is one to put.
fn place_file(alloc: Global, tree: &mut Tree, file: Option<TreeNode>) -> Result<(), NoMemory>
    requires absent { IfSome file (λ file. get tree.old (key_of file.path) ≡ None) }
    requires parent { IfSome file (λ file. IsSomeAnd (parent_of file.path)
        (λ parent. IsDirectory tree.old (key_of parent))) }
    requires file { IfSome file (λ file. file.kind ≡ File) }
    ensures { OnOk result (tree.new ≡ with_file file tree.old) }
{
    match file {
        Some(file) => tree.place(alloc, file),
        None => Ok(()),
    }
}
