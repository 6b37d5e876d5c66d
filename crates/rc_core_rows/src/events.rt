//! Events one after another, and which of them are refused.

use crate::samples::{file, made, one_file, two_files};
use rc_class::Marks;
use rc_core::{Bytes, CoreErr, Event, Node, Nodes, State, What, step};
use std::alloc::Global;
use std::test::Fail;

// An event in short. A stop has its image and whether the marks of the one unit and of the one file stand.
#[derive(Clone, Copy, Debug)]
pub enum Short {
    Claim(u32),
    Put(u32, u64, &'static str),
    Settle(u32, u64),
    Mark(u32, u64, bool),
    Finish(u32, bool),
    Fail(What, u64, Left),
    Stop(Left, bool, bool),
    Rerun,
}

// What a failed call left: nothing, or a file of this path with these bytes, as a site makes it or as the source has it.
#[derive(Clone, Copy, Debug)]
pub enum Left {
    Nothing,
    Made(&'static str, &'static str),
    Whole(&'static str, &'static str),
}

// An event, and the number of the refusal: 0 where it is allowed.
type Row = (Short, u8);

use Left::{Made, Nothing, Whole};
use Short::{Claim, Fail as Failed, Finish, Mark, Put, Rerun, Settle, Stop};

const UNIT: What = What::Unit(0);

const FINISH: What = What::Finish(0);

// How often the one file of three bytes is tried again, and what comes.
const ONE_FILE: &[(u32, &[Row])] = &[
    // It is copied.
    (
        0,
        &[
            (Claim(0), 0),
            (Put(0, 1, ""), 0),
            (Put(0, 1, "abc"), 0),
            (Settle(0, 1), 0),
            (Finish(0, true), 5),
            (Mark(0, 1, true), 0),
            (Claim(0), 1),
            (Finish(1, true), 5),
            (Finish(0, true), 0),
            (Finish(0, true), 5),
        ],
    ),
    // It is settled once all its bytes are put, and not marked before.
    (
        0,
        &[
            (Claim(0), 0),
            (Settle(0, 1), 3),
            (Mark(0, 1, true), 4),
            (Put(0, 1, ""), 0),
            (Put(0, 1, "ab"), 0),
            (Settle(0, 1), 3),
            (Settle(0, 2), 3),
        ],
    ),
    // A file that is given up is not claimed again.
    (
        0,
        &[
            (Claim(0), 0),
            (Failed(UNIT, 1, Nothing), 0),
            (Claim(0), 1),
            (Claim(1), 1),
        ],
    ),
    // A failed unit leaves other bytes, and neither another length nor another spelling; then it comes under a new ticket.
    (
        1,
        &[
            (Claim(0), 0),
            (Put(0, 1, ""), 0),
            (Failed(UNIT, 1, Made("a", "xxxx")), 6),
            (Failed(UNIT, 1, Made("A", "xxx")), 6),
            (Failed(UNIT, 2, Made("a", "xxx")), 6),
            (Failed(UNIT, 1, Made("a", "xxx")), 0),
            (Put(0, 1, ""), 2),
            (Claim(0), 0),
            (Put(0, 2, ""), 0),
        ],
    ),
    // A finish fails once the units are marked, and leaves the file.
    (
        0,
        &[
            (Claim(0), 0),
            (Put(0, 1, ""), 0),
            (Put(0, 1, "abc"), 0),
            (Settle(0, 1), 0),
            (Failed(FINISH, 0, Nothing), 6),
            (Mark(0, 1, true), 0),
            (Failed(FINISH, 0, Whole("a", "ab")), 6),
            (Failed(FINISH, 0, Whole("a", "abc")), 0),
            (Failed(FINISH, 0, Whole("a", "abc")), 6),
        ],
    ),
];

// The same of two files, of three bytes and of two, that are not tried again.
const TWO_FILES: &[&[Row]] = &[
    // The least unit comes first, each under a ticket of its own.
    &[
        (Claim(1), 1),
        (Claim(0), 0),
        (Claim(1), 0),
        (Put(1, 1, ""), 2),
        (Put(1, 2, ""), 0),
    ],
    // Bytes are put behind those before, are the source's, and stay in the unit.
    &[
        (Claim(0), 0),
        (Put(0, 1, "a"), 2),
        (Put(0, 1, ""), 0),
        (Put(0, 1, "bc"), 2),
        (Put(0, 1, "de"), 2),
        (Put(0, 1, "abcd"), 2),
        (Put(0, 1, "ab"), 0),
        (Put(0, 1, "c"), 0),
    ],
];

fn node_left(alloc: Global, left: Left) -> Result<Option<Node>, Fail> {
    match left {
        Nothing => Ok(None),
        Made(path, bytes) => Ok(Some(made(alloc, path, bytes.as_bytes())?)),
        Whole(path, bytes) => Ok(Some(file(alloc, path, bytes.as_bytes())?)),
    }
}

// The image of a target with this alone.
fn nodes(alloc: Global, node: Option<Node>) -> Result<Nodes, Fail> {
    let mut list = Vec::new(alloc);
    if let Some(node) = node {
        list.push(node)?;
    }
    Ok(Nodes::new(list))
}

fn mark(alloc: Global, stands: bool) -> Result<Marks, Fail> {
    Ok(Marks::new(vec![in alloc; stands; 1]?))
}

fn event(alloc: Global, short: Short) -> Result<Event, Fail> {
    Ok(match short {
        Claim(unit) => Event::Claim { unit },
        Put(unit, ticket, bytes) => Event::Put {
            unit,
            ticket,
            bytes: Bytes::new(bytes.as_bytes().to_vec(alloc)?),
        },
        Settle(unit, ticket) => Event::Settle { unit, ticket },
        Mark(unit, ticket, stood) => Event::Mark {
            unit,
            ticket,
            stood,
        },
        Finish(item, stood) => Event::Finish { item, stood },
        Failed(what, ticket, node) => Event::Fail {
            what,
            ticket,
            booked: true,
            left: node_left(alloc, node)?,
        },
        Stop(image, unit, finish) => Event::Stop {
            image: nodes(alloc, node_left(alloc, image)?)?,
            units: mark(alloc, unit)?,
            finished: mark(alloc, finish)?,
        },
        Rerun => Event::Rerun,
    })
}

// The number of the event where it is refused, and 0 where it is allowed.
pub fn refused(alloc: Global, state: &mut State, short: Short) -> Result<u8, Fail> {
    let event = event(alloc, short)?;
    match step(alloc, state, &event) {
        Ok(()) => Ok(0),
        Err(CoreErr::NotAllowed { event }) => Ok(event),
        Err(CoreErr::NoMemory) => Err("no memory")?,
    }
}

// Whether each event is allowed, or refused by its number.
fn goes(alloc: Global, state: State, rows: &[Row]) -> Result<bool, Fail> {
    let mut state = state;
    for (short, number) in rows {
        if refused(alloc, &mut state, *short)? != *number {
            return Ok(false);
        }
    }
    Ok(true)
}

#[test]
fn one_file_goes_by_its_events(rt: HostRuntime) -> Result<(), Fail> {
    let alloc = rt.alloc();
    for (retries, rows) in ONE_FILE {
        assert!(rt; goes(alloc, one_file(alloc, *retries)?, rows)?);
    }
    Ok(())
}

#[test]
fn two_files_go_side_by_side(rt: HostRuntime) -> Result<(), Fail> {
    let alloc = rt.alloc();
    for rows in TWO_FILES {
        assert!(rt; goes(alloc, two_files(alloc)?, rows)?);
    }
    Ok(())
}
