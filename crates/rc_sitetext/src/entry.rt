//! The line of an entry, and the entries of a side.

ghost use Rattle.std.specs.Prelude.{◌≡◌, ◌&&◌, [], IfOk, Some, length};
ghost use Rattle.std.specs.FinMap.{empty};
ghost use Rattle.std.specs.Str.{bytes_eq};
ghost use Rattle.rc_tree.specs.Path.{key_cmp, parent_of};
ghost use Rattle.rc_mem.specs.Directories.{is_dir_kind};
ghost use Rattle.rc_mem.specs.Nodes as mem;
ghost use Rattle.rc_sitetext.specs.Drafts.{fields_of, values_of};
ghost use Rattle.rc_sitetext.specs.Faults.{Answers, added_at, needed};
ghost use Rattle.rc_sitetext.specs.Lines.{texts_of};
ghost use Rattle.rc_sitetext.specs.Reading.{Gives, are_same, bytes_of, fields_at, is_behind, is_numeral, is_own_dir, is_short, is_within, node_of, values_at};

use crate::err::{FaultKind, LineErr, ValueErr};
use crate::fields::{EntryTexts, entry_texts};
use crate::values::{GREATEST_SIZE, attr_of, content_of, hex_of, is_numeral, number_of, path_of};
use rc_mem::{SharedBytes, Tree, TreeNode};
use rc_tree::{
    Attr, GREATEST_MOMENT, GREATEST_SECURITY, Key, Kind, Moment, Name, NoMemory, Path, Props,
    Security,
};
use std::alloc::Global;
use std::marker::Model;

// The fields that are spelled well. The numbers are only looked at.
#[derive(Debug, Drop)]
struct EntryFields {
    path: Path,
    attr: Attr,
    access: Vec<u8>,
    owner: Vec<u8>,
    audit: Vec<u8>,
}

// The values that keep to their limits.
#[derive(Debug, Drop)]
struct EntryValues {
    path: Path,
    props: Props,
    size: u64,
}

/// A value, or this fault where it was refused.
pub(crate) fn needed<T>(kind: FaultKind, read: Result<T, ValueErr>) -> Result<T, LineErr>
    ensures { result ≡ needed kind read }
{
    match read {
        Ok(value) => Ok(value),
        Err(ValueErr::Refused) => Err(LineErr::Fault(kind)),
        Err(ValueErr::NoMemory) => Err(LineErr::NoMemory),
    }
}

#[tactic(auto, unfolding(crate::specs::Reading::fields_at))]
fn fields_of(alloc: Global, texts: &EntryTexts<'_>) -> Result<EntryFields, ValueErr>
    ensures { Gives fields_of result (fields_at (texts_of texts.now)) }
{
    let path = path_of(alloc, texts.path)?;
    let attr = attr_of(texts.attr)?;
    let access = hex_of(alloc, texts.access)?;
    let owner = hex_of(alloc, texts.owner)?;
    let audit = hex_of(alloc, texts.last.audit)?;
    if !are_numerals(texts) {
        return Err(ValueErr::Refused);
    }
    Ok(EntryFields {
        path,
        attr,
        access,
        owner,
        audit,
    })
}

fn are_numerals(texts: &EntryTexts<'_>) -> bool
    ensures { result ≡ (is_numeral texts.now.created.now
        && (is_numeral texts.now.written.now && is_numeral texts.now.last.size.now)) }
{
    is_numeral(texts.created) && (is_numeral(texts.written) && is_numeral(texts.last.size))
}

#[tactic(auto, unfolding(crate::specs::Reading::values_at))]
fn values_of(texts: &EntryTexts<'_>, fields: EntryFields) -> Result<EntryValues, ValueErr>
    ensures { Gives values_of result (values_at (texts_of texts.now) (fields_of fields)) }
{
    let created = number_of(texts.created, GREATEST_MOMENT)?;
    let written = number_of(texts.written, GREATEST_MOMENT)?;
    let size = number_of(texts.last.size, GREATEST_SIZE)?;
    if !are_short(&fields) {
        return Err(ValueErr::Refused);
    }
    Ok(EntryValues {
        path: fields.path,
        props: Props {
            attr: fields.attr,
            created: Moment::new(created),
            written: Moment::new(written),
            access: Security::new(fields.access),
            owner: Security::new(fields.owner),
            audit: Security::new(fields.audit),
        },
        size,
    })
}

fn are_short(fields: &EntryFields) -> bool
    ensures { result ≡ (is_short fields.now.access.items
        && (is_short fields.now.owner.items && is_short fields.now.audit.items)) }
{
    is_short(&fields.access) && (is_short(&fields.owner) && is_short(&fields.audit))
}

// Whether a security string is not too long.
fn is_short(bytes: &[u8]) -> bool
    ensures { result ≡ is_short bytes.now }
{
    bytes.len() <= GREATEST_SECURITY
}

// The bytes of an entry. A directory has none.
fn bytes_of(alloc: Global, kind: Kind, size: u64, text: &str) -> Result<Vec<u8>, ValueErr>
    ensures content { Gives (λ v. v.items) result (bytes_of kind size text.now) }
    ensures no_bytes { kind ≡ Kind.Dir → IfOk result (λ v. v.items ≡ []) }
{
    match kind {
        Kind::Dir => Ok(Vec::new(alloc)),
        Kind::File => content_of(alloc, size, text),
    }
}

fn node_of(
    alloc: Global,
    kind: Kind,
    values: EntryValues,
    bytes: Vec<u8>,
) -> Result<TreeNode, NoMemory>
    ensures path { IfOk result (λ node. node.path ≡ values.path) }
    ensures kind { IfOk result (λ node. node.kind ≡ kind) }
    ensures bytes { IfOk result (λ node. node.bytes ≡ bytes.items) }
    ensures node { IfOk result
        (λ node. mem.node_of node ≡ node_of kind (values_of values) bytes.items) }
{
    Ok(TreeNode {
        path: values.path,
        kind,
        bytes: SharedBytes::new(alloc, bytes)?,
        props: values.props,
    })
}

/// The entries of a side, of which the last one is the greatest. Contracts see the tree of them.
#[derive(Debug, Drop)]
pub(crate) struct Entries {
    tree: Tree,
    last: Option<Key>,
}

impl Model for Entries {
    ghost use Rattle.std.specs.Prelude.{◌≡◌};
    ghost use Rattle.rc_tree.specs.Tree as rc;
    ghost use Rattle.rc_tree.specs.Codes.{coded_tree};
    ghost use Rattle.rc_sitetext.specs.Reading.{last_key};

    ghost Value = { rc.Tree };

    ghost coded = { coded_tree };

    ghost view = { λ e. e.tree };

    ghost invariant = { λ e. last_key e.tree ≡ e.last };
}

impl Entries {
    pub(crate) fn new(alloc: Global) -> Entries
        ensures { result ≡ empty }
    {
        Entries {
            tree: Tree::new(alloc),
            last: None,
        }
    }

    /// The tree of the entries.
    pub(crate) fn into_tree(self) -> Tree
        ensures { result ≡ self }
    {
        let Entries { tree, .. } = self;
        tree
    }

    /// The entries with that of this line behind them.
    #[tactic(auto, unfolding(crate::specs::Faults::added_at))]
    pub(crate) fn with(self, alloc: Global, line: &str) -> Result<Entries, LineErr>
        ensures { Answers (λ e. e) result (added_at self line.now) }
    {
        let texts = needed(FaultKind::Line, entry_texts(line))?;
        let fields = needed(FaultKind::Field, fields_of(alloc, &texts))?;
        let values = needed(FaultKind::Limit, values_of(&texts, fields))?;
        if !is_within(alloc, &self.tree, &values.path)? {
            return Err(LineErr::Fault(FaultKind::Parent));
        }
        let key = values.path.key(alloc)?;
        if !is_behind(&self.last, &key) {
            return Err(LineErr::Fault(FaultKind::Order));
        }
        let bytes = bytes_of(alloc, texts.kind, values.size, texts.last.content);
        let bytes = needed(FaultKind::Content, bytes)?;
        let Entries { mut tree, .. } = self;
        tree.add(alloc, node_of(alloc, texts.kind, values, bytes)?)?;
        Ok(Entries {
            tree,
            last: Some(key),
        })
    }
}

// Whether an entry may stand at a path: in the root, or in a directory of the tree, in the tree's own spelling.
fn is_within(alloc: Global, tree: &Tree, path: &Path) -> Result<bool, NoMemory>
    ensures { IfOk result (λ is. is ≡ is_within tree.now (parent_of path.now)) }
{
    let Some(dir) = path.parent(alloc)? else {
        return Ok(false);
    };
    is_own_dir(alloc, tree, &dir)
}

// Whether this is the root, or a directory of the tree in the tree's own spelling.
fn is_own_dir(alloc: Global, tree: &Tree, dir: &Path) -> Result<bool, NoMemory>
    ensures { IfOk result (λ is. is ≡ is_own_dir tree.now dir.now) }
{
    if dir.names().is_empty() {
        return Ok(true);
    }
    let key = dir.key(alloc)?;
    match tree.at(&key) {
        Some(node) => Ok(is_dir_at(node, dir)),
        None => Ok(false),
    }
}

// Whether a node is a directory at this path in this spelling.
fn is_dir_at(node: &TreeNode, path: &Path) -> bool
    ensures { result ≡ (is_dir_kind node.now.kind && are_same node.now.path path.now) }
{
    match node.kind {
        Kind::Dir => are_same(node.path.names(), path.names()),
        Kind::File => false,
    }
}

// Whether these are the same names in the same spelling.
fn are_same(some: &[Name], others: &[Name]) -> bool
    ensures { result ≡ are_same some.now others.now }
{
    match some {
        [] => others.is_empty(),
        [first, rest @ ..] => match others {
            [] => false,
            [other, behind @ ..] => is_same(first, other) && are_same(rest, behind),
        },
    }
}

fn is_same(name: &Name, other: &Name) -> bool
    ensures { result ≡ bytes_eq name.now other.now }
{
    name.text() == other.text()
}

// Whether a key comes behind the last one.
fn is_behind(last: &Option<Key>, key: &Key) -> bool
    ensures { result ≡ is_behind key_cmp last.now key.now }
{
    match last {
        Some(last) => last.cmp(key).is_lt(),
        None => true,
    }
}
