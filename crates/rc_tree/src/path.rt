//! Paths and keys: the ways to entries, and what makes two of them one.

ghost use Rattle.std.specs.Prelude.{◌≡◌, ◌⊎◌, ◌≤◌, ◌<◌, None, Some, [], ◌∷◌, ◌++◌, length, take, chars, All, MatchOption, IfOk, IfErr, IsErrOf};
ghost use Rattle.std.proofs.Common.{rules};
ghost use Rattle.std.specs.Cmp.{eq_by_cmp_equiv, nat_cmp_total, partial_equiv_from_equiv, partial_order_from_own_ties};
ghost use Rattle.std.specs.Cmp.Lexicographic.{lists_total};
ghost use Rattle.std.specs.Cmp.Rules.{comparing};
ghost use Rattle.std.specs.Option.{option_copied};
ghost use Rattle.std.specs.Ordering.{as_partial_cmp, eq_by_cmp};
ghost use Rattle.rc_tree.specs.declared.path.PathErr.TheVariants.{NoMemory as OutOfMemory};
ghost use Rattle.rc_tree.specs.Name.{name_fault};
ghost use Rattle.rc_tree.specs.Path.{names_in, path_fault, fault_at, parent_of, key_of, key_cmp, floor_of};

use crate::{Name, NameErr, NoMemory, Text};
use std::alloc::{AllocError, AllocFailed, Global};
use std::cmp::Ordering;
use std::marker::Model;
use thiserror::Error;

// How many names a path has at most.
const GREATEST_DEPTH: usize = 64;

/// Why a text is no path, or a path can't be made. Of the causes in a text the first one from the left is answered, and
/// want of memory may come in place of any.
#[derive(Clone, Copy, Debug, PartialEq, Eq, Error)]
pub enum PathErr {
    /// A part is no name: its number from 0, and why.
    #[error("part {part} of the path is no name: {err}")]
    BadName { part: u64, err: NameErr },
    /// There are more than 64 names.
    #[error("a path has at most 64 names")]
    TooDeep,
    #[error("out of memory")]
    NoMemory,
}

impl From<AllocError> for PathErr {
    ghost from_gives = { λ _ e. e ≡ OutOfMemory };

    fn from(_: AllocError) -> Self {
        PathErr::NoMemory
    }
}

impl<T: Drop> From<AllocFailed<T>> for PathErr {
    ghost from_gives = { λ _ e. e ≡ OutOfMemory };

    fn from(_: AllocFailed<T>) -> Self {
        PathErr::NoMemory
    }
}

impl From<NoMemory> for PathErr {
    ghost from_gives = { λ _ e. e ≡ OutOfMemory };

    fn from(_: NoMemory) -> Self {
        PathErr::NoMemory
    }
}

/// The way from the root of a tree to an entry: a list of 0 to 64 names. The empty list is the root. Contracts see it
/// as the list of the names' spellings.
#[derive(Debug, Drop)]
pub struct Path {
    names: Vec<Name>,
}

impl Model for Path {
    ghost use Rattle.std.specs.Prelude.{◌≤◌, List, ℕ, vec_len};

    ghost Value = { List (List ℕ) };

    ghost view = { λ p. p.names.items };

    ghost invariant = { λ p. vec_len p.names ≤ 64 };
}

impl Path {
    /// The path of no names.
    pub fn root(alloc: Global) -> Path
        ensures { result ≡ [] }
    {
        Path {
            names: Vec::new(alloc),
        }
    }

    /// The path that `text` spells: names with `\` between them. The empty text is the root.
    pub fn read(alloc: Global, text: &str) -> Result<Path, PathErr>
        ensures named { let names = names_in (chars text.now) in
            IfOk result (λ path. (path ≡ names) × (path_fault names ≡ None)) }
        ensures refused { IfErr result
            (λ e. (e ≡ OutOfMemory) ⊎ (path_fault (names_in (chars text.now)) ≡ Some e)) }
    {
        let mut names = Vec::new(alloc);
        if text.is_empty() {
            return Ok(Path { names });
        }
        for part in text.split('\\') {
            let name = read_part(alloc, part, names.len())?;
            names.push(name)?;
        }
        Ok(Path { names })
    }

    /// Its names, from the root down.
    pub fn names(&self) -> &[Name]
        ensures same { result.now ≡ self.now }
        ensures bound { length self.now ≤ 64 }
    {
        self.names.as_slice()
    }

    /// The path without its last name; none for the root.
    pub fn parent(&self, alloc: Global) -> Result<Option<Path>, NoMemory>
        ensures { IfOk result (λ parent. parent ≡ parent_of self.now) }
    {
        match self.names.as_slice() {
            [] => Ok(None),
            [above @ .., _] => Ok(Some(Path {
                names: copy_names(alloc, above)?,
            })),
        }
    }

    /// The path of the entry of this name in the directory of this path. It refuses `TooDeep` alone.
    pub fn join(&self, alloc: Global, name: &Name) -> Result<Path, PathErr>
        ensures joined { IfOk result
            (λ path. (path ≡ self.now ++ name.now ∷ []) × (length self.now < 64)) }
        ensures refused { IfErr result
            (λ e. (e ≡ OutOfMemory) ⊎ ((e ≡ PathErr.TooDeep) × (64 ≤ length self.now))) }
    {
        if self.names.len() >= GREATEST_DEPTH {
            return Err(PathErr::TooDeep);
        }
        let mut names = copy_names(alloc, &self.names)?;
        names.reserve_exact(1)?;
        names.push(name.copy(alloc)?)?;
        Ok(Path { names })
    }

    /// Its key, the folded names.
    pub fn key(&self, alloc: Global) -> Result<Key, NoMemory>
        ensures { IfOk result (λ key. key ≡ key_of self.now) }
    {
        let mut names = Vec::with_capacity(alloc, self.names.len())?;
        for name in &self.names {
            names.push(Text::folded(alloc, name.text())?)?;
        }
        Ok(Key { names })
    }

    /// The least key that an entry of the directory at this path could have behind the name `after`, or at all. What
    /// stands below the entry of that name lies before it.
    pub fn floor(&self, alloc: Global, after: Option<&Name>) -> Result<Key, NoMemory>
        ensures { IfOk result
            (λ floor. floor ≡ key_of self.now ++ floor_of (option_copied after.entry) ∷ []) }
    {
        let Key { mut names } = self.key(alloc)?;
        names.push(floor_name(alloc, after)?)?;
        Ok(Key { names })
    }

    /// How the keys of two paths stand in the order of keys: as lists, and folded names by the numbers of their
    /// characters. It takes no memory.
    pub fn cmp(&self, other: &Path) -> Ordering
        ensures { result ≡ key_cmp (key_of self.now) (key_of other.now) }
    {
        cmp_names(&self.names, &other.names)
    }

    /// The same of this path's first `depth` names, or all of them where it has fewer.
    pub fn cmp_front(&self, depth: usize, other: &Path) -> Ordering
        ensures { result ≡ key_cmp (take depth (key_of self.now)) (key_of other.now) }
    {
        let names = self.names.as_slice();
        cmp_names(&names[..depth.min(names.len())], &other.names)
    }

    /// An equal path.
    pub fn copy(&self, alloc: Global) -> Result<Path, NoMemory>
        ensures { IfOk result (λ copy. copy ≡ self.now) }
    {
        Ok(Path {
            names: copy_names(alloc, &self.names)?,
        })
    }
}

// The name that a path's part spells; `place` is the number of parts before it.
fn read_part(alloc: Global, part: &str, place: usize) -> Result<Name, PathErr>
    ensures named { let fault = fault_at place (name_fault (chars part.now)) None in
        IfOk result (λ name. (name ≡ chars part.now) × (fault ≡ None) × (place < 64)) }
    ensures refused { let fault = fault_at place (name_fault (chars part.now)) None in
        IfErr result (λ e. (e ≡ OutOfMemory) ⊎ (fault ≡ Some e)) }
{
    match Name::read(alloc, part) {
        Ok(name) if place < GREATEST_DEPTH => Ok(name),
        Ok(_) => Err(PathErr::TooDeep),
        Err(NameErr::NoMemory) => Err(PathErr::NoMemory),
        Err(err) => Err(PathErr::BadName {
            part: place as u64,
            err,
        }),
    }
}

fn copy_names(alloc: Global, names: &[Name]) -> Result<Vec<Name>, NoMemory>
    ensures { IfOk result (λ copy. copy.items ≡ names.now) }
{
    let mut copy = Vec::with_capacity(alloc, names.len())?;
    for name in names {
        copy.push(name.copy(alloc)?)?;
    }
    Ok(copy)
}

// The least folded name behind the name `after`, or of all.
fn floor_name(alloc: Global, after: Option<&Name>) -> Result<Text, NoMemory>
    ensures { IfOk result (λ name. name ≡ floor_of (option_copied after.entry)) }
{
    match after {
        Some(name) => Text::folded_below(alloc, name.text()),
        None => Ok(Text::empty(alloc)),
    }
}

// How the keys of two lists of names stand.
fn cmp_names(a: &[Name], b: &[Name]) -> Ordering
    ensures { result ≡ key_cmp (key_of a.now) (key_of b.now) }
{
    match a {
        [] if b.is_empty() => Ordering::Equal,
        [] => Ordering::Less,
        [first, rest @ ..] => match b {
            [] => Ordering::Greater,
            [other, others @ ..] => match first.cmp_folded(other) {
                Ordering::Equal => cmp_names(rest, others),
                apart => apart,
            },
        },
    }
}

/// What two paths of one entry have in common: the list of the folded names.
#[derive(Debug, Drop)]
pub struct Key {
    names: Vec<Text>,
}

impl Model for Key {
    ghost use Rattle.std.specs.Prelude.{List, ℕ};

    ghost Value = { List (List ℕ) };

    ghost view = { λ k. k.names.items };
}

impl Key {
    /// The folded names, from the root down.
    pub fn names(&self) -> &[Text]
        ensures { result.now ≡ self.now }
    {
        self.names.as_slice()
    }
}

// Keys are ordered as lists, and folded names by the numbers of their characters.
impl PartialEq for Key {
    ghost eq = { eq_by_cmp key_cmp };

    ghost laws = { partial_equiv_from_equiv (eq_by_cmp_equiv (lists_total (lists_total nat_cmp_total))) };

    fn eq(&self, other: &Key) -> bool {
        self.cmp(other).is_eq()
    }
}

impl Eq for Key {
    ghost laws = { eq_by_cmp_equiv (lists_total (lists_total nat_cmp_total)) };
}

impl PartialOrd for Key {
    ghost partial_cmp = { as_partial_cmp key_cmp };

    ghost laws = { partial_order_from_own_ties (Prim.search (comparing, rules)) (Prim.search (comparing, rules)) };

    fn partial_cmp(&self, other: &Key) -> Option<Ordering> {
        Some(self.cmp(other))
    }
}

impl Ord for Key {
    ghost cmp = { key_cmp };

    ghost total = { lists_total (lists_total nat_cmp_total) };

    ghost matches_partial_cmp = { Prim.search (comparing, rules) };

    ghost matches_eq = { Prim.search (comparing, rules) };

    fn cmp(&self, other: &Key) -> Ordering {
        self.names.cmp(&other.names)
    }
}
