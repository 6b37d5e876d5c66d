//! Attempts that end before their time.

ghost use Rattle.std.specs.Prelude.{◌≡◌, ◌<◌, ◌↔◌, ◌∷◌, [], IfOk, IsTrue, Some, length, option_map};
ghost use Rattle.rc_core.specs.declared.event.Event.TheVariants.{Fail};
ghost use Rattle.rc_core.specs.declared.event.What.TheVariants.{Finish, Unit as OfUnit};
ghost use Rattle.rc_core.specs.Events.{fail_file, failed_file, fail_finish, fail_unit, given_up_at, with_attempt, IsAtKey, IsLeftOfFinish, IsLeftOfUnit, GoesOn};
ghost use Rattle.rc_core.specs.Nodes.{node_of};
ghost use Rattle.rc_core.specs.Rows.{begun, changed_at, end_size, with_file, Leaves};
ghost use Rattle.rc_volume.specs.Site.{resized};

use crate::files::{begun, last_name, resized};
use crate::goals::copy_goal;
use crate::held::{closing, held};
use crate::left::{is_left_prepared, is_left_unprepared, is_same};
use crate::rows::copy_some;
use crate::{
    CoreErr, Extent, FileRow, FileRows, FileState, Node, Standing, State, UnitRow, UnitState, What,
};
use rc_tree::NoMemory;
use std::alloc::Global;

// An attempt ended before its time, and this is left of the file.
pub(crate) fn fail(
    alloc: Global,
    state: &mut State,
    what: What,
    ticket: u64,
    booked: bool,
    left: &Option<Node>,
) -> Result<(), CoreErr>
    ensures { GoesOn state.old (Fail what ticket booked left.now) result state.new }
{
    let Ok(stands) = standing_of(alloc, left) else {
        return Err(CoreErr::NoMemory);
    };
    match what {
        What::Unit(unit) => fail_unit(alloc, state, unit, ticket, booked, left, stands),
        What::Finish(place) => fail_finish(alloc, state, place, ticket, booked, left, stands),
    }
}

// What stands at a node's key, where there is one.
fn standing_of(alloc: Global, left: &Option<Node>) -> Result<Option<Standing>, NoMemory>
    ensures { IfOk result (λ stands. stands ≡ option_map node_of left.now) }
{
    match left {
        Some(node) => match standing(alloc, node) {
            Ok(standing) => Ok(Some(standing)),
            Err(e) => Err(e),
        },
        None => Ok(None),
    }
}

// A node without its path.
pub(crate) fn standing(alloc: Global, node: &Node) -> Result<Standing, NoMemory>
    ensures { IfOk result (λ standing. standing ≡ node_of node.now) }
{
    let name = last_name(alloc, &node.path)?;
    let bytes = node.bytes.copy(alloc)?;
    let props = node.props.copy(alloc)?;
    Ok(Standing::new(name, node.kind, bytes, props))
}

// Whether what is left stands at the file's key.
fn is_at_key(row: &FileRow, left: &Option<Node>) -> bool
    ensures { IsTrue result ↔ IsAtKey row.now left.now }
{
    match left {
        Some(node) => node.path.cmp(&row.file.item.path).is_eq(),
        None => true,
    }
}

// One attempt more, where it is booked.
fn with_attempt(booked: bool, attempts: u32) -> u32
    ensures { result ≡ with_attempt booked attempts }
{
    if booked {
        attempts.saturating_add(1)
    } else {
        attempts
    }
}

// Given up where all attempts are booked.
fn given_up_at(retries: u32, attempts: u32, now: FileState) -> FileState
    ensures { result ≡ given_up_at retries attempts now }
{
    if retries < attempts {
        FileState::GivenUp
    } else {
        now
    }
}

// Units

fn fail_unit(
    alloc: Global,
    state: &mut State,
    unit: u32,
    ticket: u64,
    booked: bool,
    left: &Option<Node>,
    stands: Option<Standing>,
) -> Result<(), CoreErr>
    requires { stands ≡ option_map node_of left.now }
    ensures { GoesOn state.old (Fail (OfUnit unit) ticket booked left.now) result state.new }
{
    let Some((row, holding, file)) = held(state, unit, ticket) else {
        return Err(CoreErr::NotAllowed { event: 6 });
    };
    match is_left_of_unit(alloc, holding.prepared, row.extent, file, left, &stands) {
        Ok(true) => match free_unit(alloc, state, unit, booked, stands, row, holding.prepared) {
            Ok(()) => Ok(()),
            Err(NoMemory) => Err(CoreErr::NoMemory),
        },
        Ok(false) => Err(CoreErr::NotAllowed { event: 6 }),
        Err(NoMemory) => Err(CoreErr::NoMemory),
    }
}

fn is_left_of_unit(
    alloc: Global,
    is_prepared: bool,
    extent: Extent,
    row: &FileRow,
    left: &Option<Node>,
    stands: &Option<Standing>,
) -> Result<bool, NoMemory>
    ensures { IfOk result (λ is. IsTrue is
        ↔ IsAtKey row.now left.now × IsLeftOfUnit is_prepared extent row.now stands.now) }
{
    let at_key = is_at_key(row, left);
    if is_prepared {
        Ok(at_key && is_left_prepared(extent, row, stands))
    } else {
        let begun = begun(alloc, row)?;
        Ok(at_key && is_left_unprepared(row.file.item.facts.size, row, &begun, stands))
    }
}

// The unit is free again, its file is what is left, and an attempt is booked or not.
fn free_unit(
    alloc: Global,
    state: &mut State,
    unit: u32,
    booked: bool,
    left: Option<Standing>,
    row: UnitRow,
    is_prepared: bool,
) -> Result<(), NoMemory>
    requires unit { unit < length state.old.units }
    requires file { row.extent.file < length state.old.files }
    ensures { Leaves result state.old
        (fail_unit state.old unit booked left row is_prepared) state.new }
{
    let attempts = with_attempt(booked, row.attempts);
    fail_in(
        alloc,
        &mut state.files,
        state.retries,
        attempts,
        is_prepared,
        row.extent,
        left,
    )?;
    state.units.set(
        unit,
        UnitRow {
            state: UnitState::Free,
            attempts,
            ..row
        },
    );
    Ok(())
}

// The file of a unit is what is left, and given up where all attempts are booked.
fn fail_in(
    alloc: Global,
    files: &mut FileRows,
    retries: u32,
    attempts: u32,
    is_prepared: bool,
    extent: Extent,
    left: Option<Standing>,
) -> Result<(), NoMemory>
    requires { extent.file < length files.old }
    ensures { Leaves result files.old
        (changed_at extent.file (failed_file retries attempts is_prepared extent left) files.old)
        files.new }
{
    let row = &mut files.rows[extent.file as usize];
    failed_file(alloc, retries, attempts, is_prepared, extent, left, row)
}

fn failed_file(
    alloc: Global,
    retries: u32,
    attempts: u32,
    is_prepared: bool,
    extent: Extent,
    left: Option<Standing>,
    row: &mut FileRow,
) -> Result<(), NoMemory>
    ensures { Leaves result row.old
        (failed_file retries attempts is_prepared extent left row.old) row.new }
{
    fail_file(alloc, is_prepared, extent, left, row)?;
    row.state = given_up_at(retries, attempts, row.state);
    Ok(())
}

// This is left of the file of a unit, and all that the attempt still had to do may be done.
fn fail_file(
    alloc: Global,
    is_prepared: bool,
    extent: Extent,
    left: Option<Standing>,
    row: &mut FileRow,
) -> Result<(), NoMemory>
    ensures { Leaves result row.old (fail_file is_prepared extent left row.old) row.new }
{
    if is_prepared {
        let mut puts = Vec::new(alloc);
        puts.push((extent.off, extent.len))?;
        row.touch(alloc, Vec::new(alloc), puts, left)
    } else {
        let had = begun_and_resized(alloc, row.file.item.facts.size, row)?;
        row.touch(alloc, had, Vec::new(alloc), left)
    }
}

// The file as it begins, and at a length.
fn begun_and_resized(
    alloc: Global,
    size: u64,
    row: &FileRow,
) -> Result<Vec<Option<Standing>>, NoMemory>
    ensures { IfOk result (λ had. had.items
        ≡ Some (begun row.now row.now.stands)
        ∷ Some (resized size (begun row.now row.now.stands)) ∷ []) }
{
    let begun = begun(alloc, row)?;
    let resized = resized(alloc, size, &begun)?;
    let mut had = Vec::new(alloc);
    had.push(Some(begun))?;
    had.push(Some(resized))?;
    Ok(had)
}

// Finishes

fn fail_finish(
    alloc: Global,
    state: &mut State,
    place: u32,
    ticket: u64,
    booked: bool,
    left: &Option<Node>,
    stands: Option<Standing>,
) -> Result<(), CoreErr>
    requires { stands ≡ option_map node_of left.now }
    ensures { GoesOn state.old (Fail (Finish place) ticket booked left.now) result state.new }
{
    if ticket != 0 {
        return Err(CoreErr::NotAllowed { event: 6 });
    }
    let Some((n, row)) = closing(state, place) else {
        return Err(CoreErr::NotAllowed { event: 6 });
    };
    let Ok(goal) = copy_goal(alloc, state.rules, &state.noted.plan, &row.file) else {
        return Err(CoreErr::NoMemory);
    };
    match is_left_of_finish(
        alloc,
        state.noted.plan.with_bytes,
        row,
        left,
        &stands,
        &goal,
    ) {
        Ok(true) => match open_file(alloc, state, n, booked, stands, goal) {
            Ok(()) => Ok(()),
            Err(NoMemory) => Err(CoreErr::NoMemory),
        },
        Ok(false) => Err(CoreErr::NotAllowed { event: 6 }),
        Err(NoMemory) => Err(CoreErr::NoMemory),
    }
}

fn is_left_of_finish(
    alloc: Global,
    with_bytes: bool,
    row: &FileRow,
    left: &Option<Node>,
    stands: &Option<Standing>,
    goal: &Option<Standing>,
) -> Result<bool, NoMemory>
    ensures { IfOk result (λ is. IsTrue is
        ↔ IsAtKey row.now left.now × IsLeftOfFinish with_bytes goal.now row.now stands.now) }
{
    let begun = begun(alloc, row)?;
    let size = end_size(with_bytes, row, &begun);
    Ok(
        is_at_key(row, left)
            && (is_left_unprepared(size, row, &begun, stands) || is_same(goal, stands)),
    )
}

// The length that the file has in the end.
fn end_size(with_bytes: bool, row: &FileRow, base: &Standing) -> u64
    requires { base.now ≡ begun row.now row.now.stands }
    ensures { result ≡ end_size with_bytes row.now }
{
    if with_bytes {
        row.file.item.facts.size
    } else {
        base.bytes().len() as u64
    }
}

// The file is open again and is what is left, and an attempt is booked or not.
fn open_file(
    alloc: Global,
    state: &mut State,
    n: usize,
    booked: bool,
    left: Option<Standing>,
    goal: Option<Standing>,
) -> Result<(), NoMemory>
    requires { n < length state.old.files }
    ensures { Leaves result state.old
        (with_file n
        (fail_finish state.old.noted.plan.with_bytes state.old.retries booked left goal)
        state.old)
        state.new }
{
    let with_bytes = state.noted.plan.with_bytes;
    open_in(
        alloc,
        &mut state.files,
        n,
        with_bytes,
        state.retries,
        booked,
        left,
        goal,
    )
}

fn open_in(
    alloc: Global,
    files: &mut FileRows,
    n: usize,
    with_bytes: bool,
    retries: u32,
    booked: bool,
    left: Option<Standing>,
    goal: Option<Standing>,
) -> Result<(), NoMemory>
    requires { n < length files.old }
    ensures { Leaves result files.old
        (changed_at n (fail_finish with_bytes retries booked left goal) files.old) files.new }
{
    let row = &mut files.rows[n];
    fail_finish_of(alloc, with_bytes, retries, booked, left, goal, row)
}

fn fail_finish_of(
    alloc: Global,
    with_bytes: bool,
    retries: u32,
    booked: bool,
    left: Option<Standing>,
    goal: Option<Standing>,
    row: &mut FileRow,
) -> Result<(), NoMemory>
    ensures { Leaves result row.old
        (fail_finish with_bytes retries booked left goal row.old) row.new }
{
    let begun = begun(alloc, row)?;
    let size = end_size(with_bytes, row, &begun);
    let mut had = begun_and_resized(alloc, size, row)?;
    had.push(goal)?;
    row.touch(alloc, had, Vec::new(alloc), left)?;
    row.attempts = with_attempt(booked, row.attempts);
    row.state = given_up_at(retries, row.attempts, row.state);
    Ok(())
}
