//! The node of a tree.

ghost use Rattle.std.specs.Prelude.{◌≡◌, ◌+◌, ◌<◌, ◌≤◌, None, length, IfOk, OnOk, OnErr};
ghost use Rattle.rc_tree.specs.Name.{name_fault};
ghost use Rattle.rc_tree.specs.Path.{last_name};
ghost use Rattle.rc_volume.specs.Site.{entry_of, written_at, resized, with_props};
ghost use Rattle.rc_mem.specs.Directories.{is_dir_kind};
ghost use Rattle.rc_mem.specs.Nodes.{node_of, fresh_node};

use crate::SharedBytes;
use rc_tree::{Attr, Entry, Kind, Moment, NoMemory, Path, Props, Security};
use std::alloc::Global;

/// An entry with its path and its bytes.
#[derive(Debug, Drop)]
pub struct TreeNode {
    pub path: Path,
    pub kind: Kind,
    pub bytes: SharedBytes,
    pub props: Props,
}

impl TreeNode {
    /// What a listing shows of a node that is not the root.
    pub(crate) fn shown(&self, alloc: Global) -> Result<Entry, NoMemory>
        requires { 0 < length self.now.path }
        ensures { IfOk result (λ entry. entry ≡ entry_of (node_of self.now)) }
    {
        let names = self.path.names();
        Ok(Entry {
            name: names[names.len() - 1].copy(alloc)?,
            kind: self.kind,
            size: self.bytes.as_slice().len() as u64,
            props: self.props.copy(alloc)?,
        })
    }

    /// Whether the node is a directory.
    pub(crate) fn is_directory(&self) -> bool
        ensures { result ≡ is_dir_kind self.now.kind }
    {
        match self.kind {
            Kind::Dir => true,
            Kind::File => false,
        }
    }

    /// The same node. The bytes are shared.
    pub fn copy(&self, alloc: Global) -> Result<TreeNode, NoMemory>
        ensures path { IfOk result (λ copy. copy.path ≡ self.now.path) }
        ensures kind { IfOk result (λ copy. copy.kind ≡ self.now.kind) }
        ensures same { IfOk result (λ copy. node_of copy ≡ node_of self.now) }
    {
        Ok(TreeNode {
            path: self.path.copy(alloc)?,
            kind: self.kind,
            bytes: self.bytes.share()?,
            props: self.props.copy(alloc)?,
        })
    }

    /// Writes bytes within the node's bytes. After an error it is as it was.
    pub(crate) fn put(&mut self, off: usize, bytes: &[u8]) -> Result<(), NoMemory>
        requires { off + length bytes.now ≤ length self.old.bytes }
        ensures path { self.new.path ≡ self.old.path }
        ensures kind { self.new.kind ≡ self.old.kind }
        ensures put { OnOk result (node_of self.new ≡ written_at off bytes.now (node_of self.old)) }
        ensures err { OnErr result (node_of self.new ≡ node_of self.old) }
    {
        self.bytes.put(off, bytes)
    }

    /// Cuts the node's bytes to a length, or fills them up with 0. After an error it is as it was.
    pub(crate) fn resize(&mut self, len: usize) -> Result<(), NoMemory>
        ensures path { self.new.path ≡ self.old.path }
        ensures kind { self.new.kind ≡ self.old.kind }
        ensures resized { OnOk result (node_of self.new ≡ resized len (node_of self.old)) }
        ensures err { OnErr result (node_of self.new ≡ node_of self.old) }
    {
        self.bytes.resize(len)
    }

    /// Gives the node properties.
    pub(crate) fn set_props(&mut self, props: Props)
        ensures path { self.new.path ≡ self.old.path }
        ensures kind { self.new.kind ≡ self.old.kind }
        ensures props { node_of self.new ≡ with_props props (node_of self.old) }
    {
        self.props = props;
    }
}

/// A path keeps to the greatest depth, and its last name is a name.
pub(crate) fn keeps_limits(path: &Path)
    ensures depth { length path.now ≤ 64 }
    ensures named { 0 < length path.now → name_fault (last_name path.now) ≡ None }
{
    let names = path.names();
    if let Some(name) = names.last() {
        name.text();
    }
}

/// An entry as it is made: without bytes, attributes, security and times.
pub(crate) fn make_node(alloc: Global, path: Path, kind: Kind) -> Result<TreeNode, NoMemory>
    ensures path { IfOk result (λ node. node.path ≡ path) }
    ensures fresh { IfOk result (λ node. node_of node ≡ fresh_node kind (last_name path)) }
{
    Ok(TreeNode {
        path,
        kind,
        bytes: SharedBytes::new(alloc, Vec::new(alloc))?,
        props: Props {
            attr: Attr::NONE,
            created: Moment::new(0),
            written: Moment::new(0),
            access: Security::empty(alloc),
            owner: Security::empty(alloc),
            audit: Security::empty(alloc),
        },
    })
}
