//! What rows through the program can't show: directories, letters that no switch gives yet, units of strides.

ghost use Rattle.std.specs.Prelude.{◌≡◌, ◌≤◌, ◌^◌, IsTrue, All, true};
ghost use Rattle.rc_class.specs.Units.{is_copy};

use rc_class::{
    Act, After, Class, Facts, Grain, Item, Items, Plan, Reason, Rules, class_of, copied_props,
    directory_props, unit_count,
};
use rc_tree::{Attr, Kind, Moment, Path, Props, Security, Text};
use std::alloc::Global;
use std::test::Fail;

// 2024/01/01 00:00:00 UTC.
const NEW_YEAR: u64 = 133485408000000000;

const EXACT: Grain = Grain {
    fft: false,
    dst: false,
};

const A: Attr = Attr {
    archive: true,
    ..Attr::NONE
};

const A_AND_R: Attr = Attr {
    archive: true,
    readonly: true,
    ..Attr::NONE
};

fn file(size: u64, written: Moment, attr: Attr) -> Facts {
    Facts {
        kind: Kind::File,
        size,
        written,
        attr,
    }
}

fn directory(written: Moment, attr: Attr) -> Facts {
    Facts {
        kind: Kind::Dir,
        size: 0,
        written,
        attr,
    }
}

// Where a side has a directory, which no site text can show yet.
#[test]
fn classes_directories_by_their_kind_alone(rt: HostRuntime) {
    let at = Moment::new(NEW_YEAR);
    let later = Moment::new(NEW_YEAR + 1);
    for (source, target, class) in [
        (Some(directory(at, A)), None, Class::Lonely),
        (None, Some(directory(at, A)), Class::Extra),
        (
            Some(file(0, at, A)),
            Some(directory(at, A)),
            Class::Mismatched,
        ),
        (
            Some(directory(later, A)),
            Some(file(5, at, A)),
            Class::Mismatched,
        ),
        (
            Some(directory(later, A)),
            Some(directory(at, A_AND_R)),
            Class::Same,
        ),
    ] {
        assert_eq!(rt; class_of(source, target, EXACT), Some(class));
    }
}

// The attributes with this stored form at a file, by the bits of MS-FSCC 2.6.
fn stored(bits: u32) -> Result<Attr, Fail> {
    match Attr::read(bits, Kind::File) {
        Some(attr) => Ok(attr),
        None => Err("stored at no file")?,
    }
}

// The item of a file of this size at `D\e`.
fn item(alloc: Global, act: Act, size: u64) -> Result<Item, Fail> {
    Ok(Item {
        path: Path::read(alloc, "D\\e")?,
        act,
        class: Class::Changed,
        after: After::ClearArchive,
        facts: file(size, Moment::new(NEW_YEAR), A_AND_R),
    })
}

fn are_small(items: &[Item]) -> bool
    ensures { IsTrue result →
        All (λ item. is_copy item.act ≡ true → item.facts.size ≤ 2 ^ 40) items.now }
{
    for item in items {
        if item.facts.size > 1099511627776 {
            return false;
        }
    }
    true
}

// The number of units, where a plan is one that a run can have.
fn units(plan: &Plan) -> Option<u64> {
    let strides = plan.stride == 0 || plan.stride >= 1048576;
    let few = plan.items.items().len() <= 4294967296;
    if strides && few && are_small(plan.items.items()) {
        Some(unit_count(plan))
    } else {
        None
    }
}

fn plan_of(alloc: Global, stride: u32, with_bytes: bool, items: Vec<Item>) -> Plan {
    Plan {
        job: Text::empty(alloc),
        moment: Moment::new(NEW_YEAR),
        stride,
        with_bytes,
        items: Items::new(items),
    }
}

#[test]
fn counts_a_unit_for_each_file_or_stride_with_bytes(rt: HostRuntime) -> Result<(), Fail> {
    let alloc = rt.alloc();
    let cases = [
        (0, 0, 0),
        (0, 1, 1),
        (0, 1048576, 1),
        (0, 1048577, 1),
        (0, 1099511627776, 1),
        (1048576, 0, 0),
        (1048576, 1, 1),
        (1048576, 1048576, 1),
        (1048576, 1048577, 2),
        (1048576, 2097152, 2),
        (1048576, 3145729, 4),
        (1048576, 1099511627776, 1048576),
        (u32::MAX, 1099511627776, 257),
    ];
    for (stride, size, count) in cases {
        let items = vec![in alloc; item(alloc, Act::Copy, size)?]?;
        let plan = plan_of(alloc, stride, true, items);
        assert_eq!(rt; units(&plan), Some(count));
        let bare = Plan {
            with_bytes: false,
            ..plan
        };
        assert_eq!(rt; units(&bare), Some(0));
    }
    Ok(())
}

// No flag and no letter.
const NOTHING: Rules = Rules {
    attr: false,
    times: false,
    access: false,
    owner: false,
    audit: false,
    dir_attr: false,
    dir_times: false,
    plus: Attr::NONE,
    minus: Attr::NONE,
    secfix: false,
    timfix: false,
};

fn props(
    alloc: Global,
    attr: Attr,
    (created, written): (Moment, Moment),
    (access, owner, audit): (&[u8], &[u8], &[u8]),
) -> Result<Props, Fail> {
    if access.len() > 9 || owner.len() > 9 || audit.len() > 9 {
        return Err("too long")?;
    }
    Ok(Props {
        attr,
        created,
        written,
        access: Security::new(access.to_vec(alloc)?),
        owner: Security::new(owner.to_vec(alloc)?),
        audit: Security::new(audit.to_vec(alloc)?),
    })
}

#[test]
fn gives_a_directory_what_its_flags_name(rt: HostRuntime) -> Result<(), Fail> {
    let alloc = rt.alloc();
    let times = (Moment::new(3), Moment::new(9));
    let source = props(alloc, A_AND_R, times, (b"a\x00", b"", b"\xff"))?;
    let times = (Moment::new(0), Moment::new(4));
    let old = props(alloc, stored(0x822)?, times, (b"", b"b", b"cc"))?;
    // The two flags, the stored attributes in the end, and the times.
    let cases = [
        (false, false, 0x832, (0, 4)),
        (true, false, 0x831, (0, 4)),
        (false, true, 0x832, (3, 9)),
        (true, true, 0x831, (3, 9)),
    ];
    for (dir_attr, dir_times, attr, times) in cases {
        let rules = Rules {
            dir_attr,
            dir_times,
            ..NOTHING
        };
        let made = directory_props(alloc, rules, &source, &old)?;
        assert_eq!(rt; made.attr.stored(Kind::Dir), attr);
        assert_eq!(rt; (made.created.units(), made.written.units()), times);
        assert_eq!(rt; made.access.bytes(), old.access.bytes());
        assert_eq!(rt; made.owner.bytes(), old.owner.bytes());
        assert_eq!(rt; made.audit.bytes(), old.audit.bytes());
    }
    Ok(())
}

#[test]
fn lays_compared_attributes_over_those_that_stand(rt: HostRuntime) -> Result<(), Fail> {
    let alloc = rt.alloc();
    let times = (Moment::new(0), Moment::new(4));
    // The flag, the letters to set and to clear, the source's, those that stand, and those in the end.
    let cases = [
        (false, 0x80, 0x80, 0x2127, 0x5a00, 0x5a00),
        (true, 0x80, 0x80, 0x2127, 0x5a00, 0x7b27),
        (true, 0x80, 0x80, 0x5a00, 0x2127, 0x80),
        (true, 0x80, 0x80, 0x5a01, 0x822, 0x801),
        (true, 0x80, 0x80, 0x20, 0x21, 0x20),
        (false, 0x2127, 0x80, 0x80, 0x80, 0x2127),
        (false, 0x5a00, 0x80, 0x80, 0x80, 0x80),
        (false, 0x80, 0x2127, 0x80, 0x7b27, 0x5a00),
        (false, 0x80, 0x5a00, 0x80, 0x5a20, 0x5a20),
        (false, 0x2127, 0x2127, 0x80, 0x80, 0x80),
        (false, 0x2127, 0x2127, 0x80, 0x7b27, 0x5a00),
        (false, 0x21, 0x20, 0x80, 0x80, 0x1),
        (true, 0x2, 0x1, 0x21, 0x80, 0x22),
        (true, 0x20, 0x80, 0x80, 0x1, 0x20),
    ];
    for (attr, plus, minus, source, old, end) in cases {
        let rules = Rules {
            attr,
            plus: stored(plus)?,
            minus: stored(minus)?,
            ..NOTHING
        };
        let source = props(alloc, stored(source)?, times, (b"", b"", b""))?;
        let old = props(alloc, stored(old)?, times, (b"", b"", b""))?;
        let made = copied_props(alloc, rules, &source, &old)?;
        assert_eq!(rt; made.attr.stored(Kind::File), end);
    }
    Ok(())
}
