//! A tree in memory.

ghost use Rattle.std.specs.Prelude.{◌≡◌, ◌+◌, ◌≤◌, ◌<◌, ⊤, [], ◌∷◌, ◌++◌, map, length, All, IsTrue, false, IsSome, IfSome, IsSomeAnd, IfOk, OnOk, OnErr, MatchOption, option_map, true, None};
ghost use Rattle.std.specs.Option.{option_copied};
ghost use Rattle.std.specs.FinMap.{entries, empty, insert, get};
ghost use Rattle.std.specs.declared.cmp.Ordering.TheVariants.{Less};
ghost use Rattle.rc_tree.specs.declared.attr.Kind.TheVariants.{Dir};
ghost use Rattle.rc_tree.specs.Path.{key_of, key_cmp, last_name, parent_of};
ghost use Rattle.rc_tree.specs.Tree.{IsDirectory, IsTree};
ghost use Rattle.rc_volume.specs.Site.{Becomes, Comes, Goes, HasFile, IsListed, IsRemovable, IsVacant, IsEnd, Lists, bytes_in, entry_of, resized, with_props, written_at};
ghost use Rattle.rc_mem.specs.Directories.{dir_above, is_dir};
ghost use Rattle.rc_mem.specs.Nodes.{IsSpelledIn, at_key, fresh_node, node_of};
ghost use Rattle.rc_mem.specs.Held.{AltersAt, IsPlaced, IsSound, tree_held};
ghost use Rattle.rc_mem.specs.Listing.{IsChildOf, ShowsNext};

use crate::node::{keeps_limits, make_node};
use crate::{Nodes, TreeNode};
use rc_tree::{Entry, Key, Kind, Name, NoMemory, Path, Props};
use std::alloc::Global;
use std::collections::BTreeMap;
use std::marker::Model;

/// A tree: its nodes by their keys. Each has the path that the tree spells its key by. Contracts see the map from keys
/// to nodes.
#[derive(Debug, Drop)]
pub struct Tree {
    nodes: BTreeMap<Key, TreeNode>,
}

impl Model for Tree {
    ghost use Rattle.rc_tree.specs.Tree as rc;
    ghost use Rattle.rc_tree.specs.Codes.{coded_tree};

    ghost Value = { rc.Tree };

    ghost coded = { coded_tree };

    ghost use Rattle.rc_mem.specs.Held.{IsSound, tree_held};

    ghost view = { λ t. tree_held t.nodes };

    ghost invariant = { λ t. IsSound t.nodes };
}

impl Tree {
    /// The tree without entries.
    pub fn new(alloc: Global) -> Tree
        ensures { result ≡ empty }
    {
        Tree {
            nodes: BTreeMap::new(alloc),
        }
    }

    /// Puts a node at the end: not at the root, at a key above all keys before, in the root or in a directory, and
    /// without bytes where it is a directory. It is spelled as its directory is. After an error the tree is as it was.
    pub fn add(&mut self, alloc: Global, node: TreeNode) -> Result<(), NoMemory>
        requires above { All (λ entry. key_cmp entry.0 (key_of node.path) ≡ Less)
            (entries self.old) }
        requires parent { IsSomeAnd (parent_of node.path)
            (λ parent. IsDirectory self.old (key_of parent)) }
        requires no_bytes { node.kind ≡ Dir → node.bytes ≡ [] }
        ensures added { OnOk result (self.new ≡ insert self.old (key_of node.path) (node_of node)) }
        ensures err { OnErr result (self.new ≡ self.old) }
    {
        self.place(alloc, node)
    }

    /// Puts a node where nothing stands, in the root or in a directory, and without bytes where it is a directory. It is
    /// spelled as its directory is. After an error the tree is as it was.
    pub fn place(&mut self, alloc: Global, node: TreeNode) -> Result<(), NoMemory>
        requires absent { get self.old (key_of node.path) ≡ None }
        requires parent { IsSomeAnd (parent_of node.path)
            (λ parent. IsDirectory self.old (key_of parent)) }
        requires no_bytes { node.kind ≡ Dir → node.bytes ≡ [] }
        ensures added { OnOk result (self.new ≡ insert self.old (key_of node.path) (node_of node)) }
        ensures err { OnErr result (self.new ≡ self.old) }
    {
        let own = self.spelled(alloc, &node.path)?;
        let node = TreeNode { path: own, ..node };
        self.nodes.insert(node.path.key(alloc)?, node)?;
        Ok(())
    }

    /// What the definition of a tree asks for holds of every tree.
    pub fn keeps_shape(&self)
        ensures { IsTree self.now }
    {
        let _ = &self.nodes;
    }

    /// The nodes, in the order of their keys.
    pub fn nodes(&self) -> Nodes<'_>
        ensures nodes { map at_key result ≡ entries self.now }
        ensures spelled { All (λ node. IsSpelledIn self.now node.path) result }
        ensures tree { IsTree self.now }
    {
        Nodes::new(self.nodes.values())
    }

    /// The node at a key.
    pub fn at(&self, key: &Key) -> Option<&TreeNode>
        ensures found { option_map (λ node. node_of node.now) result ≡ get self.now key.now }
        ensures placed { IfSome result (λ node. key_of node.now.path ≡ key.now) }
        ensures spelled { IfSome result (λ node. IsSpelledIn self.now node.now.path) }
    {
        self.nodes.get(key)
    }

    /// The node at the key of a path.
    pub fn get(&self, alloc: Global, path: &Path) -> Result<Option<&TreeNode>, NoMemory>
        ensures found { IfOk result (λ found. option_map (λ node. node_of node.now) found
            ≡ get self.now (key_of path.now)) }
        ensures placed { IfOk result
            (λ found. IfSome found (λ node. key_of node.now.path ≡ key_of path.now)) }
        ensures directory { IfOk result
            (λ found. IfSome found (λ node. node.now.kind ≡ Dir → node.now.bytes ≡ [])) }
    {
        self.keeps_shape();
        let key = path.key(alloc)?;
        Ok(self.at(&key))
    }

    /// Whether a path is the root, or a directory stands there.
    pub fn is_directory(&self, alloc: Global, path: &Path) -> Result<bool, NoMemory>
        ensures { IfOk result (λ is. is ≡ is_dir self.now (key_of path.now)) }
    {
        if path.names().is_empty() {
            return Ok(true);
        }
        match self.get(alloc, path)? {
            Some(node) => Ok(node.is_directory()),
            None => Ok(false),
        }
    }

    /// Whether the directory is there in which an entry at this path would stand.
    pub fn has_parent(&self, alloc: Global, path: &Path) -> Result<bool, NoMemory>
        ensures computed { IfOk result
            (λ has. has ≡ dir_above self.now (parent_of (key_of path.now))) }
        ensures stands { IfOk result (λ has. has ≡ true → IsSomeAnd (parent_of path.now)
            (λ parent. IsDirectory self.now (key_of parent))) }
    {
        match path.parent(alloc)? {
            Some(parent) => self.is_directory(alloc, &parent),
            None => Ok(false),
        }
    }

    /// What a listing of a directory shows next behind the name `after`.
    pub(crate) fn next_entry(
        &self,
        alloc: Global,
        dir: &Path,
        after: Option<&Name>,
    ) -> Result<Option<Entry>, NoMemory>
        ensures listed { IfOk result
            (Lists self.now (key_of dir.now) (option_copied after.entry)) }
        ensures rising { IfOk result
            (λ found. IfSome found (IsListed (length dir.now) (option_copied after.entry))) }
    {
        match next_node(alloc, &self.nodes, dir, after)? {
            Some(node) => Ok(Some(node.shown(alloc)?)),
            None => Ok(None),
        }
    }

    /// The entry at the key of a path that is not the root.
    pub(crate) fn entry_at(&self, alloc: Global, path: &Path) -> Result<Option<Entry>, NoMemory>
        requires { 0 < length path.now }
        ensures found { IfOk result
            (λ found. found ≡ option_map entry_of (get self.now (key_of path.now))) }
        ensures no_size { IfOk result
            (λ found. IfSome found (λ entry. entry.kind ≡ Dir → entry.size ≡ 0)) }
    {
        match self.get(alloc, path)? {
            Some(node) => Ok(Some(node.shown(alloc)?)),
            None => Ok(None),
        }
    }

    /// Makes an entry without bytes, attributes, security and times. It is spelled as its directory is. After an error
    /// the tree is as it was.
    pub(crate) fn make(&mut self, alloc: Global, path: &Path, kind: Kind) -> Result<(), NoMemory>
        requires { IsVacant self.old path.now }
        ensures made { OnOk result (AltersAt (key_of path.now)
            (Comes (fresh_node kind (last_name path.now))) self.old self.new) }
        ensures err { OnErr result (self.new ≡ self.old) }
    {
        let own = self.spelled(alloc, path)?;
        let node = make_node(alloc, own, kind)?;
        self.nodes.insert(path.key(alloc)?, node)?;
        Ok(())
    }

    /// Writes bytes within a file. After an error the tree is as it was.
    pub(crate) fn put(
        &mut self,
        alloc: Global,
        path: &Path,
        off: usize,
        bytes: &[u8],
    ) -> Result<(), NoMemory>
        requires { HasFile self.old (key_of path.now)
            (λ node. off + length bytes.now ≤ length node.bytes) }
        ensures put { OnOk result
            (AltersAt (key_of path.now) (Becomes (written_at off bytes.now)) self.old self.new) }
        ensures err { OnErr result (self.new ≡ self.old) }
    {
        let key = path.key(alloc)?;
        match self.nodes.get_mut(&key) {
            Some(node) => node.put(off, bytes),
            None => unreachable!(),
        }
    }

    /// Cuts a file to a length, or fills it up with 0. After an error the tree is as it was.
    pub(crate) fn set_len(&mut self, alloc: Global, path: &Path, len: usize) -> Result<(), NoMemory>
        requires { HasFile self.old (key_of path.now) (λ _. ⊤) }
        ensures resized { OnOk result
            (AltersAt (key_of path.now) (Becomes (resized len)) self.old self.new) }
        ensures err { OnErr result (self.new ≡ self.old) }
    {
        let key = path.key(alloc)?;
        match self.nodes.get_mut(&key) {
            Some(node) => node.resize(len),
            None => unreachable!(),
        }
    }

    /// Gives an entry properties. After an error the tree is as it was.
    pub(crate) fn set_props(
        &mut self,
        alloc: Global,
        path: &Path,
        props: &Props,
    ) -> Result<(), NoMemory>
        requires { IsSome (get self.old (key_of path.now)) }
        ensures props { OnOk result
            (AltersAt (key_of path.now) (Becomes (with_props props.now)) self.old self.new) }
        ensures err { OnErr result (self.new ≡ self.old) }
    {
        let key = path.key(alloc)?;
        let props = props.copy(alloc)?;
        match self.nodes.get_mut(&key) {
            Some(node) => node.set_props(props),
            None => unreachable!(),
        }
        Ok(())
    }

    /// Removes a file, or a directory without entries. After an error the tree is as it was.
    pub(crate) fn remove(&mut self, alloc: Global, path: &Path) -> Result<(), NoMemory>
        requires { IsRemovable self.old (key_of path.now) }
        ensures removed { OnOk result (AltersAt (key_of path.now) Goes self.old self.new) }
        ensures err { OnErr result (self.new ≡ self.old) }
    {
        let key = path.key(alloc)?;
        self.nodes.remove(&key);
        Ok(())
    }

    // The path of a new entry: its last name in its directory, as the tree spells that.
    fn spelled(&self, alloc: Global, path: &Path) -> Result<Path, NoMemory>
        requires { IsSomeAnd (parent_of path.now)
            (λ parent. IsDirectory self.now (key_of parent)) }
        ensures { IfOk result (IsPlaced self.now path.now) }
    {
        keeps_limits(path);
        let Some(parent) = path.parent(alloc)? else {
            unreachable!()
        };
        match self.at(&parent.key(alloc)?) {
            Some(node) => child_of(alloc, &node.path, path),
            None => child_of(alloc, &parent, path),
        }
    }
}

// The path of the entry that has the last name of `path`, in a directory.
fn child_of(alloc: Global, dir: &Path, path: &Path) -> Result<Path, NoMemory>
    requires some { 0 < length path.now }
    requires shallow { length dir.now < 64 }
    ensures { IfOk result (λ own. own ≡ dir.now ++ last_name path.now ∷ []) }
{
    let names = path.names();
    match dir.join(alloc, &names[names.len() - 1]) {
        Ok(own) => Ok(own),
        Err(_) => Err(NoMemory),
    }
}

// What a listing of `dir` shows next behind the name `after`: the first node from the floor on, where it stands in `dir`.
fn next_node<'a>(
    alloc: Global,
    nodes: &'a BTreeMap<Key, TreeNode>,
    dir: &Path,
    after: Option<&Name>,
) -> Result<Option<&'a TreeNode>, NoMemory>
    requires { IsSound nodes.now }
    ensures { let tree = tree_held nodes.now in
        IfOk result (λ found. MatchOption found
        (IsEnd tree (key_of dir.now) (option_copied after.entry))
        (λ node. ShowsNext tree (key_of dir.now) (option_copied after.entry) node.now)) }
{
    let floor = dir.floor(alloc, after)?;
    match nodes.range(floor..).next() {
        Some((_, node)) if is_child(&node.path, dir) => Ok(Some(node)),
        _ => Ok(None),
    }
}

// Whether the entry at `path` stands in the directory `dir`.
fn is_child(path: &Path, dir: &Path) -> bool
    ensures child { IsTrue result → IsChildOf dir.now path.now }
    ensures other { result ≡ false → ¬ (IsChildOf dir.now path.now) }
{
    let depth = dir.names().len();
    path.names().len() == depth + 1 && path.cmp_front(depth, dir).is_eq()
}
