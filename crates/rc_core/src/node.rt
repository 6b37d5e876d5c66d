//! What stands at a key, and lists of it in the order of keys.

ghost use Rattle.std.specs.Prelude.{◌≡◌, IfOk};

use rc_tree::{Kind, NoMemory, Path, Props, Text};
use std::alloc::Global;
use std::marker::Model;

/// The bytes of a file. Contracts see them as the list.
#[derive(Debug, Drop)]
pub struct Bytes {
    bytes: Vec<u8>,
}

impl Model for Bytes {
    ghost use Rattle.std.specs.Prelude.{List, ℕ};

    ghost Value = { List ℕ };

    ghost view = { λ b. b.bytes.items };
}

impl Bytes {
    /// These bytes.
    pub fn new(bytes: Vec<u8>) -> Bytes
        ensures { result ≡ bytes.items }
    {
        Bytes { bytes }
    }

    /// The bytes.
    pub fn bytes(&self) -> &[u8]
        ensures { result.now ≡ self.now }
    {
        self.bytes.as_slice()
    }

    /// Equal bytes.
    pub fn copy(&self, alloc: Global) -> Result<Bytes, NoMemory>
        ensures { IfOk result (λ copy. copy ≡ self.now) }
    {
        Ok(Bytes {
            bytes: self.bytes.as_slice().to_vec(alloc)?,
        })
    }
}

/// An entry with its path and its bytes.
#[derive(Debug, Drop)]
pub struct Node {
    pub path: Path,
    pub kind: Kind,
    /// None where it is a directory.
    pub bytes: Bytes,
    pub props: Props,
}

/// Nodes in the order of their keys. Contracts see them as the list.
#[derive(Debug, Drop)]
pub struct Nodes {
    list: Vec<Node>,
}

impl Model for Nodes {
    ghost use Rattle.std.specs.Prelude.{List};
    ghost use Rattle.rc_core.specs.declared.node.Node as node;

    ghost Value = { List node.Node };

    ghost view = { λ n. n.list.items };
}

impl Nodes {
    /// These nodes.
    pub fn new(list: Vec<Node>) -> Nodes
        ensures { result ≡ list.items }
    {
        Nodes { list }
    }

    /// The nodes.
    pub fn list(&self) -> &[Node]
        ensures { result.now ≡ self.now }
    {
        self.list.as_slice()
    }
}

/// What stands at a key, without its path. Contracts see it as a node of a tree.
#[derive(Debug, Drop)]
pub struct Standing {
    name: Text,
    kind: Kind,
    bytes: Bytes,
    props: Props,
}

impl Model for Standing {
    ghost use Rattle.rc_tree.specs.Tree as rc;
    ghost use Rattle.rc_tree.specs.Codes.{coded_node};

    ghost Value = { rc.Node };

    ghost coded = { coded_node };

    ghost view = { λ s. record { spelling = s.name; kind = s.kind; bytes = s.bytes; props = s.props } };
}

impl Standing {
    /// What stands there is spelled so, and is this.
    pub fn new(name: Text, kind: Kind, bytes: Bytes, props: Props) -> Standing
        ensures { result ≡ (record { spelling = name; kind = kind; bytes = bytes; props = props }) }
    {
        Standing {
            name,
            kind,
            bytes,
            props,
        }
    }

    /// Its spelling.
    pub fn name(&self) -> &Text
        ensures { result.now ≡ self.now.spelling }
    {
        &self.name
    }

    /// A file or a directory.
    pub fn kind(&self) -> Kind
        ensures { result ≡ self.now.kind }
    {
        self.kind
    }

    /// Its bytes.
    pub fn bytes(&self) -> &[u8]
        ensures { result.now ≡ self.now.bytes }
    {
        self.bytes.bytes()
    }

    /// Its properties.
    pub fn props(&self) -> &Props
        ensures { result.now ≡ self.now.props }
    {
        &self.props
    }

    /// The same.
    pub fn copy(&self, alloc: Global) -> Result<Standing, NoMemory>
        ensures { IfOk result (λ copy. copy ≡ self.now) }
    {
        Ok(Standing {
            name: self.name.copy(alloc)?,
            kind: self.kind,
            bytes: self.bytes.copy(alloc)?,
            props: self.props.copy(alloc)?,
        })
    }

    /// The same with other bytes.
    pub fn with_bytes(&self, alloc: Global, bytes: Vec<u8>) -> Result<Standing, NoMemory>
        ensures { IfOk result (λ new. new ≡ (record self.now { bytes = bytes.items })) }
    {
        Ok(Standing {
            name: self.name.copy(alloc)?,
            kind: self.kind,
            bytes: Bytes::new(bytes),
            props: self.props.copy(alloc)?,
        })
    }
}
