//! Openings to begin on.

ghost use Rattle.std.specs.Prelude.{◌≡◌, ◌≤◌, length};

use rc_class::{Act, After, Class, Facts, Item, Items, Marks, Noted, Plan, Rules};
use rc_core::{Bytes, Node, Nodes, State};
use rc_tree::{Attr, Kind, Moment, Path, Props, Security, Text};
use std::alloc::Global;
use std::test::Fail;

// Attributes, times, and no security.
pub const RULES: Rules = Rules {
    attr: true,
    times: true,
    access: false,
    owner: false,
    audit: false,
    dir_attr: true,
    dir_times: false,
    plus: Attr::NONE,
    minus: Attr::NONE,
    secfix: false,
    timfix: false,
};

fn props(alloc: Global, created: Moment, written: Moment) -> Props {
    Props {
        attr: Attr::NONE,
        created,
        written,
        access: Security::empty(alloc),
        owner: Security::empty(alloc),
        audit: Security::empty(alloc),
    }
}

fn node(alloc: Global, path: &str, bytes: &[u8], props: Props) -> Result<Node, Fail> {
    Ok(Node {
        path: Path::read(alloc, path)?,
        kind: Kind::File,
        bytes: Bytes::new(bytes.to_vec(alloc)?),
        props,
    })
}

// A file of these bytes in the source, and in the target in the end.
pub fn file(alloc: Global, path: &str, bytes: &[u8]) -> Result<Node, Fail> {
    node(
        alloc,
        path,
        bytes,
        props(alloc, Moment::new(1), Moment::new(2)),
    )
}

// One of these bytes as a site makes it.
pub fn made(alloc: Global, path: &str, bytes: &[u8]) -> Result<Node, Fail> {
    node(
        alloc,
        path,
        bytes,
        props(alloc, Moment::new(0), Moment::new(0)),
    )
}

// The copy of a file that the target has not.
fn copy(alloc: Global, path: &str, size: u64) -> Result<Item, Fail> {
    Ok(Item {
        path: Path::read(alloc, path)?,
        act: Act::Copy,
        class: Class::Lonely,
        after: After::Nothing,
        facts: Facts {
            kind: Kind::File,
            size,
            written: Moment::new(2),
            attr: Attr::NONE,
        },
    })
}

fn plan(alloc: Global, items: Vec<Item>) -> Plan
    ensures { result.items ≡ items.items }
{
    Plan {
        job: Text::empty(alloc),
        moment: Moment::new(3),
        stride: 0,
        with_bytes: true,
        items: Items::new(items),
    }
}

// No mark of so many.
fn unmarked(alloc: Global, count: usize) -> Result<Marks, Fail> {
    Ok(Marks::new(vec![in alloc; false; count]?))
}

// The opening of copies onto an empty target, of which nothing is marked.
fn opened(alloc: Global, items: Vec<Item>, source: Vec<Node>, retries: u32) -> Result<State, Fail>
    requires { length items.items ≤ 2 }
{
    let count = items.len();
    let noted = Noted {
        plan: plan(alloc, items),
        units: unmarked(alloc, count)?,
        finished: unmarked(alloc, count)?,
        last: false,
    };
    let target = Nodes::new(Vec::new(alloc));
    let opened = State::opening(alloc, noted, RULES, Nodes::new(source), target, retries)?;
    Ok(opened)
}

// One lonely file of 3 bytes.
pub fn one_file(alloc: Global, retries: u32) -> Result<State, Fail> {
    let mut items = Vec::new(alloc);
    items.push(copy(alloc, "a", 3)?)?;
    let mut source = Vec::new(alloc);
    source.push(file(alloc, "a", b"abc")?)?;
    opened(alloc, items, source, retries)
}

// Two lonely files, of 3 bytes and of 2.
pub fn two_files(alloc: Global) -> Result<State, Fail> {
    let mut items = Vec::new(alloc);
    items.push(copy(alloc, "a", 3)?)?;
    items.push(copy(alloc, "b", 2)?)?;
    let mut source = Vec::new(alloc);
    source.push(file(alloc, "a", b"abc")?)?;
    source.push(file(alloc, "b", b"de")?)?;
    opened(alloc, items, source, 0)
}
