//! Rows of decisions: which directories are gone into, which keys are decided, what happens there, and what becomes of
//! the source's entry then.

ghost use Rattle.std.specs.Prelude.{◌≡◌};
ghost use Rattle.rc_tree.specs.declared.attr.Kind.TheVariants.{File};

use rc_class::{Act, After, Facts, Reason};
use rc_filter::{
    decide_after, decide_dir, decide_extra, decide_file, in_scope, is_decided, reaches,
};
use rc_job::{DirectoryFlags, Exclude, Excludes, Job, Moving, Patterns, Sub};
use rc_tree::{Attr, Entry, Kind, Moment, Name, Path, Props, Security, Text};
use rc_wild::{PathPattern, Pattern};
use std::alloc::Global;
use std::test::Fail;

const FILE: Option<Kind> = Some(Kind::File);

const DIR: Option<Kind> = Some(Kind::Dir);

const NOT_NAMED: Act = Act::Keep(Reason::NotNamed);

const EXCLUDED: Act = Act::Keep(Reason::Excluded);

const CLASS: Act = Act::Keep(Reason::Class);

const EMPTY: Act = Act::Keep(Reason::Empty);

const SAME: Act = Act::Keep(Reason::Same);

// The patterns that a text lists, with spaces between them.
fn patterns(alloc: Global, text: &str) -> Result<Patterns, Fail> {
    let mut patterns = Vec::new(alloc);
    for pattern in text.split(' ') {
        patterns.push(Pattern::read(alloc, pattern)?)?;
    }
    Ok(Patterns::new(patterns))
}

// The value that a text spells; none where it is empty.
fn excludes(alloc: Global, text: &str) -> Result<Excludes, Fail> {
    let mut values = Vec::new(alloc);
    if text.is_empty() {
        return Ok(Excludes::new(values));
    }
    let value = match PathPattern::read(alloc, text) {
        Ok(pattern) => Exclude::Path(pattern),
        Err(_) => Exclude::Name(Pattern::read(alloc, text)?),
    };
    values.push(value)?;
    Ok(Excludes::new(values))
}

// The job of these directories, file patterns, files that are left out and directories that are.
fn job(alloc: Global, sub: Sub, files: &str, xf: &str, xd: &str) -> Result<Job, Fail> {
    Ok(Job {
        source: Some(Text::of(alloc, "SRC")?),
        target: Some(Text::of(alloc, "DST")?),
        files: patterns(alloc, files)?,
        sub,
        xf: excludes(alloc, xf)?,
        xd: excludes(alloc, xd)?,
        ..Job::new(alloc)?
    })
}

// `/S` or `/E`, `/LEV`, `/XD`, the path, what the two sides have there, and whether it is gone into and decided.
type Scope = (
    Sub,
    Option<u32>,
    &'static str,
    &'static str,
    Option<Kind>,
    Option<Kind>,
    (bool, bool),
);

const SCOPES: &[Scope] = &[
    (Sub::NonEmpty, Some(1), "", "d", DIR, None, (false, false)),
    (Sub::NonEmpty, Some(1), "", "y", FILE, None, (false, true)),
    (Sub::All, Some(2), "", "d", DIR, None, (true, true)),
    (Sub::All, Some(2), "", "d\\e", DIR, None, (false, false)),
    (Sub::All, Some(3), "", "d\\e", DIR, DIR, (true, true)),
    (Sub::None, None, "", "", DIR, DIR, (true, false)),
    (Sub::None, None, "", "d", DIR, DIR, (false, false)),
    (Sub::None, None, "", "d", None, DIR, (false, false)),
    (Sub::All, None, "", "d", None, DIR, (true, true)),
    (Sub::All, None, "", "d", None, None, (false, false)),
    (Sub::None, None, "", "x", FILE, DIR, (false, true)),
    (Sub::NonEmpty, None, "", "x", DIR, FILE, (false, true)),
    (Sub::All, None, "cache", "cache", DIR, DIR, (false, true)),
    (
        Sub::All,
        None,
        "cache",
        "a\\CACHE",
        None,
        DIR,
        (false, true),
    ),
    (
        Sub::All,
        None,
        "c*e",
        "a\\b\\cache",
        DIR,
        None,
        (false, true),
    ),
    (Sub::All, None, "a\\cache", "cache", DIR, DIR, (true, true)),
    (
        Sub::All,
        None,
        "a\\cache",
        "A\\cache",
        DIR,
        DIR,
        (false, true),
    ),
    (
        Sub::All,
        None,
        "a\\cache",
        "b\\a\\cache",
        DIR,
        DIR,
        (true, true),
    ),
    (Sub::All, None, "src/a", "a", DIR, DIR, (false, true)),
    (Sub::All, None, "DST\\a", "a", None, DIR, (false, true)),
    (Sub::All, None, "x", "x", FILE, None, (false, true)),
];

#[test]
fn goes_into_directories_and_decides_keys(rt: HostRuntime) -> Result<(), Fail> {
    let alloc = rt.alloc();
    for (sub, lev, xd, path, source, target, expected) in SCOPES {
        let job = Job {
            lev: *lev,
            ..job(alloc, *sub, "*.*", "", xd)?
        };
        let path = Path::read(alloc, path)?;
        let entered = in_scope(&job, &path, *source, *target);
        let decided = !path.names().is_empty() && is_decided(&job, &path, *source, *target);
        assert_eq!(rt; (entered, decided), *expected);
    }
    Ok(())
}

// `/IF`, `/XF`, the path, and what becomes of a file that the source alone has, and that the target alone has.
const FILES: &[(&str, &str, &str, Act, Act)] = &[
    ("*.*", "", "d\\x.log", Act::Copy, Act::Extra),
    ("*.txt", "", "d\\x.log", NOT_NAMED, NOT_NAMED),
    ("a* *.LOG", "", "d\\x.log", Act::Copy, Act::Extra),
    ("*.txt", "*.log", "d\\x.log", NOT_NAMED, EXCLUDED),
    ("*.*", "*.log", "d\\x.log", EXCLUDED, EXCLUDED),
    ("*.*", "x.log", "a\\b\\x.log", EXCLUDED, EXCLUDED),
    ("*.*", "d\\*.log", "d\\x.log", EXCLUDED, EXCLUDED),
    ("*.*", "d\\*.log", "x.log", Act::Copy, Act::Extra),
    ("*.*", "SRC\\d\\x.log", "d\\x.log", EXCLUDED, EXCLUDED),
];

// The facts of a file.
fn facts() -> Facts
    ensures { result.kind ≡ File }
{
    Facts {
        kind: Kind::File,
        size: 1,
        written: Moment::new(0),
        attr: Attr::NONE,
    }
}

#[test]
fn decides_files_by_their_names(rt: HostRuntime) -> Result<(), Fail> {
    let alloc = rt.alloc();
    for (files, xf, path, lonely, extra) in FILES {
        let job = job(alloc, Sub::All, files, xf, "d")?;
        let path = Path::read(alloc, path)?;
        let act = decide_file(&job, Moment::new(0), &path, facts(), None);
        assert_eq!(rt; act, *lonely);
        assert_eq!(rt; decide_extra(&job, &path, facts(), false), *extra);
    }
    Ok(())
}

fn props(alloc: Global, attr: Attr, created: u8, written: u8) -> Props {
    Props {
        attr,
        created: Moment::new(u64::from(created)),
        written: Moment::new(u64::from(written)),
        access: Security::empty(alloc),
        owner: Security::empty(alloc),
        audit: Security::empty(alloc),
    }
}

// `/E` in place of `/S`, `/XL`, `/XD`, whether a file below is copied, and what becomes of a lonely directory `d`.
const LONELY: &[(Sub, bool, &str, bool, Act)] = &[
    (Sub::NonEmpty, false, "", false, EMPTY),
    (Sub::NonEmpty, false, "", true, Act::Make),
    (Sub::All, false, "", false, Act::Make),
    (Sub::All, true, "", true, CLASS),
    (Sub::All, true, "D", true, EXCLUDED),
    (Sub::NonEmpty, false, "d", false, EXCLUDED),
];

// The directory flags, `/XD`, the target's kind, attributes and two times there, and what becomes of a directory `d`
// with the attribute R and the times 3 and 4.
type Standing = (bool, bool, &'static str, Kind, Attr, (u8, u8), Act);

const R: Attr = Attr {
    readonly: true,
    ..Attr::NONE
};

const R_AND_SPARSE: Attr = Attr {
    readonly: true,
    sparse: true,
    ..Attr::NONE
};

const STANDING: &[Standing] = &[
    (true, true, "", Kind::Dir, R, (3, 4), SAME),
    (true, false, "", Kind::Dir, Attr::NONE, (3, 4), Act::Touch),
    (true, false, "", Kind::Dir, R_AND_SPARSE, (0, 0), SAME),
    (false, true, "", Kind::Dir, Attr::NONE, (3, 4), SAME),
    (false, true, "", Kind::Dir, R, (2, 4), Act::Touch),
    (false, true, "", Kind::Dir, R, (3, 5), Act::Touch),
    (false, false, "", Kind::Dir, Attr::NONE, (0, 0), SAME),
    (true, true, "d", Kind::Dir, Attr::NONE, (0, 0), EXCLUDED),
    (true, true, "d", Kind::File, R, (3, 4), Act::Mismatch),
];

#[test]
fn decides_directories(rt: HostRuntime) -> Result<(), Fail> {
    let alloc = rt.alloc();
    let path = Path::read(alloc, "d")?;
    let source = props(alloc, R, 3, 4);
    for (sub, xl, xd, some_copied, act) in LONELY {
        let job = Job {
            xl: *xl,
            ..job(alloc, *sub, "*.txt", "", xd)?
        };
        assert!(rt; reaches(&job, &path));
        assert_eq!(rt; decide_dir(&job, &path, &source, None, *some_copied), *act);
    }
    for (attributes, times, xd, kind, attr, (created, written), act) in STANDING {
        let job = Job {
            dcopy: DirectoryFlags {
                attributes: *attributes,
                times: *times,
            },
            with_same: true,
            ..job(alloc, Sub::NonEmpty, "*.*", "", xd)?
        };
        let target = Entry {
            name: Name::read(alloc, "d")?,
            kind: *kind,
            size: 0,
            props: props(alloc, *attr, *created, *written),
        };
        assert!(rt; reaches(&job, &path));
        assert_eq!(rt;
            decide_dir(&job, &path, &source, Some(&target), false),
            *act
        );
    }
    Ok(())
}

// `/IF`, what `/XF` and `/XD` leave out, `/XX`, `/X`, `/PURGE`, an entry that the target alone has, its kind, whether all
// below it is removed, and what becomes of it.
type Extras = (
    &'static str,
    &'static str,
    (bool, bool, bool),
    &'static str,
    Kind,
    bool,
    Act,
);

const PURGE: (bool, bool, bool) = (false, false, true);

const EXTRAS: &[Extras] = &[
    ("*.*", "*.tmp", PURGE, "old", Kind::Dir, false, Act::Extra),
    (
        "*.*",
        "*.tmp",
        PURGE,
        "old\\b.txt",
        Kind::File,
        true,
        Act::Purge,
    ),
    (
        "*.*",
        "*.tmp",
        PURGE,
        "old\\keep.tmp",
        Kind::File,
        true,
        EXCLUDED,
    ),
    (
        "*.*",
        "*.tmp",
        PURGE,
        "old\\sub",
        Kind::Dir,
        true,
        Act::Purge,
    ),
    ("*.*", "old", PURGE, "old", Kind::Dir, true, EXCLUDED),
    ("*.log", "", PURGE, "old", Kind::Dir, true, Act::Purge),
    ("*.log", "", PURGE, "b.txt", Kind::File, true, NOT_NAMED),
    (
        "*.log",
        "",
        (false, true, true),
        "b.txt",
        Kind::File,
        true,
        Act::Extra,
    ),
    (
        "*.txt",
        "",
        (false, true, true),
        "b.txt",
        Kind::File,
        false,
        Act::Purge,
    ),
    (
        "*.*",
        "",
        (false, false, false),
        "old",
        Kind::Dir,
        true,
        Act::Extra,
    ),
    (
        "*.*",
        "",
        (true, false, true),
        "old",
        Kind::Dir,
        true,
        CLASS,
    ),
    (
        "*.*",
        "",
        (true, true, true),
        "b.txt",
        Kind::File,
        true,
        CLASS,
    ),
];

#[test]
fn decides_what_is_purged(rt: HostRuntime) -> Result<(), Fail> {
    let alloc = rt.alloc();
    for (files, left_out, (xx, all_extras, purge), path, kind, all_purged, act) in EXTRAS {
        let job = Job {
            xx: *xx,
            all_extras: *all_extras,
            purge: *purge,
            ..job(alloc, Sub::All, files, left_out, left_out)?
        };
        let path = Path::read(alloc, path)?;
        let there = Facts {
            kind: *kind,
            ..facts()
        };
        assert!(rt; reaches(&job, &path));
        assert_eq!(rt; decide_extra(&job, &path, there, *all_purged), *act);
    }
    Ok(())
}

// `/MOV` or `/MOVE`, `/M`, `/XD`, the kind of the source's entry `d` and of the target's, its act, whether all below it
// is removed, and what becomes of it.
type Releases = (
    Moving,
    bool,
    &'static str,
    Kind,
    Option<Kind>,
    Act,
    bool,
    After,
);

const REMOVED: After = After::RemoveSource;

const RELEASES: &[Releases] = &[
    (
        Moving::All,
        false,
        "",
        Kind::File,
        None,
        Act::Copy,
        false,
        REMOVED,
    ),
    (
        Moving::All,
        false,
        "",
        Kind::File,
        FILE,
        EXCLUDED,
        true,
        After::Nothing,
    ),
    (
        Moving::All,
        false,
        "",
        Kind::File,
        DIR,
        Act::Mismatch,
        true,
        After::Nothing,
    ),
    (
        Moving::All,
        false,
        "",
        Kind::Dir,
        None,
        Act::Make,
        false,
        After::Nothing,
    ),
    (
        Moving::All,
        false,
        "",
        Kind::Dir,
        None,
        Act::Make,
        true,
        REMOVED,
    ),
    (Moving::All, false, "", Kind::Dir, DIR, SAME, true, REMOVED),
    (
        Moving::All,
        false,
        "",
        Kind::Dir,
        DIR,
        Act::Touch,
        true,
        REMOVED,
    ),
    (
        Moving::All,
        false,
        "",
        Kind::Dir,
        None,
        EMPTY,
        true,
        After::Nothing,
    ),
    (
        Moving::All,
        false,
        "",
        Kind::Dir,
        None,
        CLASS,
        true,
        After::Nothing,
    ),
    (
        Moving::All,
        false,
        "",
        Kind::Dir,
        FILE,
        Act::Mismatch,
        true,
        After::Nothing,
    ),
    (
        Moving::All,
        false,
        "d",
        Kind::Dir,
        DIR,
        EXCLUDED,
        true,
        After::Nothing,
    ),
    (
        Moving::Files,
        false,
        "",
        Kind::Dir,
        DIR,
        SAME,
        true,
        After::Nothing,
    ),
    (
        Moving::Files,
        true,
        "",
        Kind::File,
        FILE,
        Act::Copy,
        true,
        REMOVED,
    ),
    (
        Moving::No,
        true,
        "",
        Kind::File,
        None,
        Act::Copy,
        true,
        After::ClearArchive,
    ),
    (
        Moving::No,
        true,
        "",
        Kind::File,
        FILE,
        Act::Fix,
        true,
        After::Nothing,
    ),
    (
        Moving::No,
        true,
        "",
        Kind::File,
        FILE,
        CLASS,
        true,
        After::Nothing,
    ),
    (
        Moving::No,
        false,
        "",
        Kind::File,
        None,
        Act::Copy,
        true,
        After::Nothing,
    ),
];

#[test]
fn decides_what_becomes_of_sources(rt: HostRuntime) -> Result<(), Fail> {
    let alloc = rt.alloc();
    let path = Path::read(alloc, "d")?;
    for (moving, only_m, xd, source, target, act, all_moved, after) in RELEASES {
        let job = Job {
            moving: *moving,
            only_m: *only_m,
            ..job(alloc, Sub::All, "*.*", "", xd)?
        };
        assert_eq!(rt;
            decide_after(&job, &path, *source, *target, *act, *all_moved),
            *after
        );
    }
    Ok(())
}
