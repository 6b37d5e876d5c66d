//! Making a tree key by key from two others, as a stop may leave it.

ghost use Rattle.std.specs.Prelude.{◌≡◌, ◌≤◌, ◌%◌, ℕ, true, None, List, [], ◌∷◌, IfOk, IfSome, OnOk};
ghost use Rattle.std.specs.BTreeMap as btree;
ghost use Rattle.std.specs.BTreeMap.{IsOrdered};
ghost use Rattle.std.specs.Map.{keys_of};
ghost use Rattle.std.specs.FinMap as fin;
ghost use Rattle.std.specs.FinMap.{empty, find, get};
ghost use Rattle.rc_tree.specs.Path.{key_cmp};
ghost use Rattle.rc_tree.specs.Tree.{IsTree};
ghost use Rattle.rc_stop.specs.Grown.{grown_by, keys_held, odd_in, picked_from};
ghost use Rattle.rc_stop.specs.KeptSite.{gathered, keys_on, same_side};
ghost use Rattle.rc_stop.specs.Stops.{IsPicked, draws, draws_odd, is_odd, state_behind};

use crate::drawing::{drawn, next_state};
use crate::kept::Touched;
use rc_mem::Tree;
use rc_tree::{Key, NoMemory};
use rc_volume::Side;
use std::alloc::Global;
use std::collections::BTreeMap;

/// Which keys are to be as they were synced last, and the state behind their draws.
#[derive(Drop)]
pub(crate) struct Drawn {
    pub odd: BTreeMap<Key, bool>,
    pub state: u64,
}

/// A tree, and the state behind its draws.
#[derive(Drop)]
pub(crate) struct Picked {
    pub tree: Tree,
    pub state: u64,
}

/// The same tree. The bytes of files are shared.
pub(crate) fn copy_tree(alloc: Global, tree: &Tree) -> Result<Tree, NoMemory>
    ensures { IfOk result (λ copy. copy ≡ tree.now) }
{
    tree.keeps_shape();
    mix(alloc, BTreeMap::new(alloc), tree, tree)
}

/// The tree that has what was synced last at each key that draws odd, and elsewhere what reads; below what is left as no
/// directory it has nothing. Each key that was touched takes one draw, in order.
pub(crate) fn pick_tree(
    alloc: Global,
    state: u64,
    side: Side,
    touched: &[Touched],
    kept: &Tree,
    reads: &Tree,
) -> Result<Picked, NoMemory>
    ensures picked { let keys = gathered (keys_on side touched.now) empty in
        IfOk result (λ p. IsPicked (draws_odd state keys) kept.now reads.now p.tree) }
    ensures state { let keys = gathered (keys_on side touched.now) empty in
        IfOk result (λ p. p.state ≡ state_behind state (fin.keys keys)) }
{
    let drawn = draw_all(alloc, state, gather(alloc, side, touched)?)?;
    Ok(Picked {
        tree: mix(alloc, drawn.odd, kept, reads)?,
        state: drawn.state,
    })
}

// The tree that has what was synced last at each of these keys that is odd, and elsewhere what reads.
fn mix(alloc: Global, odd: BTreeMap<Key, bool>, kept: &Tree, reads: &Tree) -> Result<Tree, NoMemory>
    requires { IsOrdered key_cmp odd }
    ensures { IfOk result (IsPicked (odd_in odd) kept.now reads.now) }
{
    let mut odd = odd;
    add_keys(alloc, &mut odd, reads)?;
    grow_all(alloc, odd, kept, reads)
}

// The keys of the calls on a side, each once and in order.
fn gather(alloc: Global, side: Side, touched: &[Touched]) -> Result<BTreeMap<Key, ()>, NoMemory>
    ensures keys { IfOk result (λ keys. keys_of keys.entries
        ≡ fin.keys (gathered (keys_on side touched.now) empty)) }
    ensures ordered { IfOk result (IsOrdered key_cmp) }
{
    let mut keys = BTreeMap::new(alloc);
    for call in touched {
        gather_one(alloc, side, call, &mut keys)?;
    }
    Ok(keys)
}

// Adds the key of a call, where it was on this side.
fn gather_one(
    alloc: Global,
    side: Side,
    call: &Touched,
    keys: &mut BTreeMap<Key, ()>,
) -> Result<(), NoMemory>
    requires { IsOrdered key_cmp keys.old }
    ensures one { OnOk result (keys_held keys.new
        ≡ gathered (keys_on side (call.now ∷ [])) (keys_held keys.old)) }
    ensures ordered { OnOk result (IsOrdered key_cmp keys.new) }
{
    if is_side(side, call.side) {
        keys.insert(call.path.key(alloc)?, ())?;
    }
    Ok(())
}

// Whether two sides are one.
fn is_side(one: Side, other: Side) -> bool
    ensures { result ≡ same_side one other }
{
    match one {
        Side::Source => match other {
            Side::Source => true,
            Side::Target => false,
        },
        Side::Target => match other {
            Side::Source => false,
            Side::Target => true,
        },
    }
}

// A draw for each key, in order.
fn draw_all(alloc: Global, state: u64, touched: BTreeMap<Key, ()>) -> Result<Drawn, NoMemory>
    requires { IsOrdered key_cmp touched }
    ensures odd { IfOk result (λ drawn. (key : List (List ℕ)) → btree.get key_cmp drawn.odd key
        ≡ find key_cmp key (draws state (keys_of touched.entries))) }
    ensures state { IfOk result (λ drawn. drawn.state
        ≡ state_behind state (keys_of touched.entries)) }
    ensures ordered { IfOk result (λ drawn. IsOrdered key_cmp drawn.odd) }
{
    let mut touched = touched;
    let mut state = state;
    let mut odd = BTreeMap::new(alloc);
    'keys: while let Some((key, ())) = touched.pop_first() {
        state = next_state(state);
        odd.insert(key, is_odd(state))?;
    }
    Ok(Drawn { odd, state })
}

// Whether what is drawn in this state is odd.
pub(crate) fn is_odd(state: u64) -> bool
    ensures { result ≡ is_odd state }
{
    drawn(state) % 2 == 1
}

// Adds the keys of a tree that are not there, as even ones.
fn add_keys(alloc: Global, odd: &mut BTreeMap<Key, bool>, tree: &Tree) -> Result<(), NoMemory>
    requires { IsOrdered key_cmp odd.old }
    ensures same { OnOk result ((key : List (List ℕ)) → odd_in odd.new key ≡ odd_in odd.old key) }
    ensures all { OnOk result ((key : List (List ℕ)) → btree.get key_cmp odd.new key ≡ None →
        get tree.now key ≡ None) }
    ensures ordered { OnOk result (IsOrdered key_cmp odd.new) }
{
    for node in tree.nodes() {
        add_key(odd, node.path.key(alloc)?)?;
    }
    Ok(())
}

// Adds a key that is not there, as an even one.
fn add_key(odd: &mut BTreeMap<Key, bool>, key: Key) -> Result<(), NoMemory>
    requires { IsOrdered key_cmp odd.old }
    ensures same { OnOk result ((other : List (List ℕ)) →
        odd_in odd.new other ≡ odd_in odd.old other) }
    ensures here { OnOk result (btree.get key_cmp odd.new key ≡ None → ⊥) }
    ensures others { OnOk result ((other : List (List ℕ)) → btree.get key_cmp odd.new other ≡ None →
        btree.get key_cmp odd.old other ≡ None) }
    ensures ordered { OnOk result (IsOrdered key_cmp odd.new) }
{
    if !odd.contains_key(&key) {
        odd.insert(key, false)?;
    }
    Ok(())
}

// The tree that has at each of these keys what one of two trees has there, below directories alone.
fn grow_all(
    alloc: Global,
    keys: BTreeMap<Key, bool>,
    kept: &Tree,
    reads: &Tree,
) -> Result<Tree, NoMemory>
    requires ordered { IsOrdered key_cmp keys }
    requires all { (key : List (List ℕ)) → btree.get key_cmp keys key ≡ None →
        get reads.now key ≡ None }
    ensures { IfOk result (IsPicked (odd_in keys) kept.now reads.now) }
{
    let mut keys = keys;
    let mut image = Tree::new(alloc);
    'keys: while let Some((key, odd)) = keys.pop_first() {
        grow_from(alloc, &mut image, kept, reads, &key, odd)?;
    }
    image.keeps_shape();
    Ok(image)
}

// Puts what one of two trees has at a key there, where nothing stands yet, if the directory above is there.
fn grow_from(
    alloc: Global,
    image: &mut Tree,
    kept: &Tree,
    reads: &Tree,
    key: &Key,
    odd: bool,
) -> Result<(), NoMemory>
    requires { get image.old key.now ≡ None }
    ensures { OnOk result (image.new
        ≡ grown_by (picked_from kept.now reads.now (key.now, odd)) image.old) }
{
    if odd {
        grow(alloc, image, kept, key)
    } else {
        grow(alloc, image, reads, key)
    }
}

// Puts what a tree has at a key there, where nothing stands yet, if the directory above is there.
fn grow(alloc: Global, image: &mut Tree, from: &Tree, key: &Key) -> Result<(), NoMemory>
    requires { get image.old key.now ≡ None }
    ensures { OnOk result (image.new ≡ grown_by (key.now, get from.now key.now) image.old) }
{
    from.keeps_shape();
    let Some(node) = from.at(key) else {
        return Ok(());
    };
    if image.has_parent(alloc, &node.path)? {
        image.place(alloc, node.copy(alloc)?)?;
    }
    Ok(())
}
