//! Rows of the filters of files by attributes, sizes and ages, and of files that are mended.

ghost use Rattle.std.specs.Prelude.{◌≡◌};
ghost use Rattle.rc_tree.specs.declared.attr.Kind.TheVariants.{File};

use rc_class::{Act, Facts, Reason};
use rc_filter::{copies_bytes, decide_file};
use rc_job::{CopyFlags, Job};
use rc_tree::{Attr, GREATEST_MOMENT, Kind, Moment, Path};
use std::alloc::Global;
use std::test::Fail;

const ATTR: Act = Act::Keep(Reason::Attr);

const SIZE: Act = Act::Keep(Reason::Size);

const AGE: Act = Act::Keep(Reason::Age);

const CLASS: Act = Act::Keep(Reason::Class);

// The moment of the run, 1 January 2024.
const MOMENT: u64 = 133485408000000000;

// The attributes of letters.
fn attr(letters: &str) -> Attr {
    Attr {
        readonly: letters.contains('R'),
        hidden: letters.contains('H'),
        archive: letters.contains('A'),
        offline: letters.contains('O'),
        ..Attr::NONE
    }
}

fn facts(size: u64, written: u64, letters: &str) -> Facts
    ensures { result.kind ≡ File }
{
    Facts {
        kind: Kind::File,
        size,
        written: Moment::new(written.min(GREATEST_MOMENT)),
        attr: attr(letters),
    }
}

// `/MAXAGE`, `/MINAGE`, when the file was written, and what becomes of it.
const AGES: &[(Option<u32>, Option<u32>, u64, Act)] = &[
    (Some(1899), None, 131844672000000000, Act::Copy),
    (Some(1899), None, 131844671999999999, AGE),
    (None, Some(1899), 131844672000000000, Act::Copy),
    (None, Some(1899), 131844672000000001, AGE),
    (Some(19000101), None, 94354848000000000, Act::Copy),
    (Some(19000101), None, 94354847999999999, AGE),
    (None, Some(19000101), 94354848000000000, Act::Copy),
    (None, Some(19000101), 94354848000000001, AGE),
    (Some(16010101), None, 0, Act::Copy),
    (None, Some(16010101), 0, Act::Copy),
    (None, Some(16010101), 1, AGE),
    (Some(0), None, 133485408000000000, Act::Copy),
    (Some(0), None, 133485407999999999, AGE),
    (None, Some(0), 133485408000000001, AGE),
    (Some(1900), None, 0, Act::Copy),
    (Some(20230229), None, 0, Act::Copy),
];

#[test]
fn keeps_files_by_age(rt: HostRuntime) -> Result<(), Fail> {
    let alloc = rt.alloc();
    let path = Path::read(alloc, "x")?;
    for (maxage, minage, written, expected) in AGES {
        let job = Job {
            maxage: *maxage,
            minage: *minage,
            ..Job::new(alloc)?
        };
        let act = decide_file(
            &job,
            Moment::new(MOMENT),
            &path,
            facts(0, *written, "A"),
            None,
        );
        assert_eq!(rt; act, *expected);
    }
    Ok(())
}

// `/MAX`, `/MIN`, the size, and what becomes of the file.
const SIZES: &[(Option<u64>, Option<u64>, u64, Act)] = &[
    (Some(3), None, 3, Act::Copy),
    (Some(3), None, 4, SIZE),
    (None, Some(3), 3, Act::Copy),
    (None, Some(3), 2, SIZE),
    (Some(0), None, 0, Act::Copy),
    (Some(2), Some(4), 3, SIZE),
];

// `/A` or `/M`, `/IA`, `/XA`, the attributes, and what becomes of the file.
const ATTRS: &[(bool, &str, &str, &str, Act)] = &[
    (true, "", "", "RA", Act::Copy),
    (true, "", "", "R", ATTR),
    (false, "RH", "", "H", Act::Copy),
    (false, "RH", "", "A", ATTR),
    (false, "RH", "", "", ATTR),
    (false, "O", "", "O", Act::Copy),
    (false, "", "RH", "H", ATTR),
    (false, "", "RH", "A", Act::Copy),
    (false, "", "O", "O", ATTR),
    (false, "A", "A", "A", ATTR),
];

#[test]
fn keeps_files_by_size_and_attributes(rt: HostRuntime) -> Result<(), Fail> {
    let alloc = rt.alloc();
    let path = Path::read(alloc, "x")?;
    for (max, min, size, expected) in SIZES {
        let job = Job {
            max: *max,
            min: *min,
            ..Job::new(alloc)?
        };
        let act = decide_file(&job, Moment::new(MOMENT), &path, facts(*size, 7, "A"), None);
        assert_eq!(rt; act, *expected);
    }
    for (archive, ia, xa, letters, expected) in ATTRS {
        let job = Job {
            only_a: *archive,
            ia: attr(ia),
            xa: attr(xa),
            ..Job::new(alloc)?
        };
        let act = decide_file(&job, Moment::new(MOMENT), &path, facts(0, 7, letters), None);
        assert_eq!(rt; act, *expected);
        let other = Job {
            only_a: false,
            only_m: *archive,
            ..job
        };
        let act = decide_file(
            &other,
            Moment::new(MOMENT),
            &path,
            facts(0, 7, letters),
            None,
        );
        assert_eq!(rt; act, *expected);
    }
    Ok(())
}

// `/XA:A`, `/MAX:1`, `/MAXAGE:0`, `/XL`: which reason comes first of a lonely file that all of them keep.
const ORDER: &[(bool, bool, bool, bool, Act)] = &[
    (true, true, true, true, ATTR),
    (false, true, true, true, SIZE),
    (false, false, true, true, AGE),
    (false, false, false, true, CLASS),
    (false, false, false, false, Act::Copy),
];

// `/SECFIX`, `/TIMFIX`, `/XL`, `/XO`, when the target's file was written (none: there is none), and what becomes of the
// source's of moment 7.
const MENDED: &[(bool, bool, bool, bool, Option<u64>, Act)] = &[
    (true, false, false, false, Some(7), Act::Fix),
    (false, true, false, false, Some(7), Act::Fix),
    (false, false, false, false, Some(7), CLASS),
    (true, true, true, false, None, CLASS),
    (true, true, false, false, None, Act::Copy),
    (true, false, false, true, Some(8), Act::Fix),
    (true, false, false, false, Some(8), Act::Copy),
    (true, false, false, true, Some(6), Act::Copy),
];

#[test]
fn has_reasons_in_order_and_mends_in_place_of_class(rt: HostRuntime) -> Result<(), Fail> {
    let alloc = rt.alloc();
    let path = Path::read(alloc, "x")?;
    for (xa, max, maxage, xl, expected) in ORDER {
        let job = Job {
            xa: if *xa { attr("A") } else { Attr::NONE },
            max: if *max { Some(1) } else { None },
            maxage: if *maxage { Some(0) } else { None },
            xl: *xl,
            ..Job::new(alloc)?
        };
        let act = decide_file(&job, Moment::new(MOMENT), &path, facts(2, 7, "A"), None);
        assert_eq!(rt; act, *expected);
    }
    for (secfix, timfix, xl, xo, written, expected) in MENDED {
        let job = Job {
            secfix: *secfix,
            timfix: *timfix,
            xl: *xl,
            xo: *xo,
            ..Job::new(alloc)?
        };
        let target = match written {
            Some(written) => Some(facts(2, *written, "A")),
            None => None,
        };
        let act = decide_file(&job, Moment::new(MOMENT), &path, facts(2, 7, "A"), target);
        assert_eq!(rt; act, *expected);
    }
    let young = Job {
        secfix: true,
        maxage: Some(0),
        ..Job::new(alloc)?
    };
    let act = decide_file(
        &young,
        Moment::new(MOMENT),
        &path,
        facts(2, 7, "A"),
        Some(facts(2, 7, "A")),
    );
    assert_eq!(rt; act, AGE);
    Ok(())
}

#[test]
fn copies_no_bytes_under_create(rt: HostRuntime) -> Result<(), Fail> {
    let alloc = rt.alloc();
    let plain = Job::new(alloc)?;
    assert!(rt; copies_bytes(&plain));
    let create = Job {
        create: true,
        ..Job::new(alloc)?
    };
    assert!(rt; !copies_bytes(&create));
    let flags = Job {
        copy: CopyFlags {
            data_bytes: false,
            ..CopyFlags::dat()
        },
        ..Job::new(alloc)?
    };
    assert!(rt; !copies_bytes(&flags));
    Ok(())
}
