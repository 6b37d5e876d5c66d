//! Stops after each event of a copy, and the run that begins again.

use crate::events::{Left, Short, refused};
use crate::samples::one_file;
use Left::{Made, Nothing, Whole};
use Short::{Claim, Fail as Failed, Finish, Mark, Put, Rerun, Settle, Stop};
use rc_core::{FileState, State, UnitState, What};
use std::alloc::Global;
use std::test::Fail;

// A file of three bytes is copied.
const COPY: &[Short] = &[
    Claim(0),
    Put(0, 1, ""),
    Put(0, 1, "abc"),
    Settle(0, 1),
    Mark(0, 1, true),
    Finish(0, true),
];

// Its marks may fail to stand.
const DOUBTED: &[Short] = &[
    Claim(0),
    Put(0, 1, ""),
    Put(0, 1, "abc"),
    Settle(0, 1),
    Mark(0, 1, false),
];

const DOUBTED_END: &[Short] = &[
    Claim(0),
    Put(0, 1, ""),
    Put(0, 1, "abc"),
    Settle(0, 1),
    Mark(0, 1, true),
    Finish(0, false),
];

// An attempt at it fails.
const FAILED: &[Short] = &[
    Claim(0),
    Put(0, 1, ""),
    Failed(What::Unit(0), 1, Made("a", "xyz")),
];

// How many events of a list came, what a stop left, the marks of the unit and of the file, and whether it may be so.
type Row = (&'static [Short], usize, Left, (bool, bool), bool);

const STOPS: &[Row] = &[
    // Nothing was done.
    (COPY, 0, Nothing, (false, false), true),
    (COPY, 0, Nothing, (true, false), false),
    (COPY, 0, Made("a", ""), (false, false), false),
    (COPY, 1, Nothing, (false, false), true),
    (COPY, 1, Made("b", ""), (false, false), false),
    // It was brought to its length: nothing, any length up to it, and any bytes behind the one that it had.
    (COPY, 2, Nothing, (false, false), true),
    (COPY, 2, Made("a", ""), (false, false), true),
    (COPY, 2, Made("a", "\0\0\0"), (false, false), true),
    (COPY, 2, Made("a", "xy"), (false, false), true),
    (COPY, 2, Made("a", "\0\0\0\0"), (false, false), false),
    (COPY, 2, Made("A", ""), (false, false), false),
    (COPY, 2, Whole("a", ""), (false, false), false),
    // Its bytes were put.
    (COPY, 3, Nothing, (false, false), true),
    (COPY, 3, Made("a", "abc"), (false, false), true),
    (COPY, 3, Made("a", "xbz"), (false, false), true),
    (COPY, 3, Made("a", "abcd"), (false, false), false),
    // They are durable, and no mark was begun.
    (COPY, 4, Nothing, (false, false), false),
    (COPY, 4, Made("a", "abc"), (false, false), true),
    (COPY, 4, Made("a", "abc"), (true, false), false),
    (COPY, 4, Made("a", "abx"), (false, false), false),
    (COPY, 4, Made("a", "ab"), (false, false), false),
    // Its mark stands.
    (COPY, 5, Made("a", "abc"), (true, false), true),
    (COPY, 5, Made("a", "abc"), (false, false), false),
    (COPY, 5, Made("a", "abc"), (true, true), false),
    (COPY, 5, Whole("a", "abc"), (true, false), false),
    // It is finished.
    (COPY, 6, Whole("a", "abc"), (true, true), true),
    (COPY, 6, Whole("a", "abc"), (true, false), false),
    (COPY, 6, Made("a", "abc"), (true, true), false),
    // A mark that may stand is there or not.
    (DOUBTED, 5, Made("a", "abc"), (true, false), true),
    (DOUBTED, 5, Made("a", "abc"), (false, false), true),
    (DOUBTED_END, 6, Whole("a", "abc"), (true, true), true),
    (DOUBTED_END, 6, Whole("a", "abc"), (true, false), true),
    (DOUBTED_END, 6, Whole("a", "abc"), (false, false), false),
    // A failed attempt is not counted any more.
    (FAILED, 3, Nothing, (false, false), true),
    (FAILED, 3, Made("a", "xyz"), (false, false), true),
    (FAILED, 3, Made("a", "wxyz"), (false, false), false),
];

// Whether the one unit and the one file are as their marks say, and all begins anew.
fn is_anew(state: &State, unit: bool, finish: bool) -> bool {
    let unit = if unit {
        UnitState::Marked
    } else {
        UnitState::Free
    };
    let file = if finish {
        FileState::Finished
    } else {
        FileState::Open
    };
    let units = state
        .units
        .rows()
        .iter()
        .all(|row| row.state == unit && row.attempts == 0);
    let files = state
        .files
        .rows()
        .iter()
        .all(|row| row.state == file && row.attempts == 0);
    units && files && state.next == 1 && !state.stopped
}

// Whether each of these is allowed, or what is refused.
fn go(alloc: Global, state: &mut State, events: &[Short], count: usize) -> Result<u8, Fail> {
    for event in events.iter().take(count) {
        let number = refused(alloc, state, *event)?;
        if number != 0 {
            return Ok(number);
        }
    }
    Ok(0)
}

fn stops_so(alloc: Global, row: &Row) -> Result<bool, Fail> {
    let (events, count, image, (unit, finish), may) = *row;
    let mut state = one_file(alloc, 1)?;
    if go(alloc, &mut state, events, count)? != 0 {
        return Ok(false);
    }
    let number = refused(alloc, &mut state, Stop(image, unit, finish))?;
    if !may {
        return Ok(number == 7 && !state.stopped);
    }
    let again = [Claim(0), Stop(image, unit, finish)];
    let refused_claim = refused(alloc, &mut state, again[0])?;
    let refused_stop = refused(alloc, &mut state, again[1])?;
    let rerun = refused(alloc, &mut state, Rerun)?;
    let all = number == 0 && refused_claim == 1 && refused_stop == 7 && rerun == 0;
    Ok(all && is_anew(&state, unit, finish))
}

#[test]
fn a_stop_leaves_what_may_be_left(rt: HostRuntime) -> Result<(), Fail> {
    let alloc = rt.alloc();
    for row in STOPS {
        assert!(rt; stops_so(alloc, row)?);
    }
    Ok(())
}

#[test]
fn only_what_is_stopped_is_run_again(rt: HostRuntime) -> Result<(), Fail> {
    let alloc = rt.alloc();
    let mut state = one_file(alloc, 0)?;
    assert!(rt; refused(alloc, &mut state, Rerun)? == 8);
    Ok(())
}
