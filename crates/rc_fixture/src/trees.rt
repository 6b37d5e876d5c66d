//! Small trees, entry by entry.

ghost use Rattle.std.specs.Prelude.{◌≡◌, IsTrue, All};
ghost use Rattle.std.specs.FinMap.{entries};
ghost use Rattle.std.specs.declared.cmp.Ordering.TheVariants.{Less};
ghost use Rattle.rc_tree.specs.Path.{key_cmp, key_of};

use rc_mem::{SharedBytes, Tree, TreeNode};
use rc_tree::{Attr, GREATEST_MOMENT, Kind, Moment, NoMemory, Path, PathErr, Props, Security};
use std::alloc::{AllocError, Global};
use thiserror::Error;

/// Why there is no tree.
#[derive(Clone, Copy, Debug, PartialEq, Eq, Error)]
pub enum FixtureErr {
    /// A path is none, its directory is not there, the paths do not rise, or a directory has bytes.
    #[error("the entries are not those of a tree in order")]
    Names,
    /// A file was written behind the greatest moment.
    #[error("a file was written too late")]
    Late,
    #[error("out of memory")]
    NoMemory,
}

impl From<NoMemory> for FixtureErr {
    fn from(_: NoMemory) -> Self {
        FixtureErr::NoMemory
    }
}

impl From<AllocError> for FixtureErr {
    fn from(_: AllocError) -> Self {
        FixtureErr::NoMemory
    }
}

/// A file of a root: its name, its bytes, when it was written, in 100-nanosecond units since 1601, and its attributes.
/// It was made one unit before it was written.
pub type Row = (&'static str, &'static [u8], u64, Attr);

/// Properties without security, of an entry that was made one unit before it was written.
pub fn plain_props(alloc: Global, written: Moment, attr: Attr) -> Props
    ensures { result.written ≡ written }
{
    Props {
        attr,
        created: Moment::new(written.units().saturating_sub(1)),
        written,
        access: Security::empty(alloc),
        owner: Security::empty(alloc),
        audit: Security::empty(alloc),
    }
}

/// A tree of these files, in the order of their folded names.
pub fn flat_tree(alloc: Global, rows: &[Row]) -> Result<Tree, FixtureErr> {
    let mut tree = Tree::new(alloc);
    for (name, bytes, written, attr) in rows {
        if *written > GREATEST_MOMENT {
            return Err(FixtureErr::Late);
        }
        let props = plain_props(alloc, Moment::new(*written), *attr);
        put_entry(alloc, &mut tree, name, Kind::File, bytes, props)?;
    }
    Ok(tree)
}

/// Puts an entry behind those that are there, into a directory of the tree; a directory without bytes.
pub fn put_entry(
    alloc: Global,
    tree: &mut Tree,
    path: &str,
    kind: Kind,
    bytes: &[u8],
    props: Props,
) -> Result<(), FixtureErr> {
    let path = read_path(alloc, path)?;
    if (kind == Kind::Dir && !bytes.is_empty())
        || !tree.has_parent(alloc, &path)?
        || !is_above_all(tree, &path)
    {
        return Err(FixtureErr::Names);
    }
    let bytes = SharedBytes::new(alloc, bytes.to_vec(alloc)?)?;
    tree.add(
        alloc,
        TreeNode {
            path,
            kind,
            bytes,
            props,
        },
    )?;
    Ok(())
}

fn read_path(alloc: Global, path: &str) -> Result<Path, FixtureErr> {
    match Path::read(alloc, path) {
        Ok(path) => Ok(path),
        Err(PathErr::NoMemory) => Err(FixtureErr::NoMemory),
        Err(_) => Err(FixtureErr::Names),
    }
}

// Whether all keys of the tree are below that of the path.
fn is_above_all(tree: &Tree, path: &Path) -> bool
    ensures { IsTrue result
        → All (λ entry. key_cmp entry.0 (key_of path.now) ≡ Less) (entries tree.now) }
{
    for node in tree.nodes() {
        if !node.path.cmp(path).is_lt() {
            return false;
        }
    }
    true
}
