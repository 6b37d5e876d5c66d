//! Names, paths and attributes by their public rules.

use rc_tree::{Attr, Kind, Name, NameErr, Path, PathErr};
use std::alloc::{AllocError, Global};
use std::test::Fail;

// A text, and what is wrong with it as a name.
const NAMES: &[(&str, Option<NameErr>)] = &[
    ("...", None),
    (".a", None),
    (" ", None),
    ("a~\u{7f}", None),
    ("", Some(NameErr::Empty)),
    (".", Some(NameErr::Dots)),
    ("..", Some(NameErr::Dots)),
    ("\0", Some(NameErr::BadChar { place: 0 })),
    ("a\u{1f}", Some(NameErr::BadChar { place: 1 })),
    ("é\\", Some(NameErr::BadChar { place: 1 })),
    ("ab/", Some(NameErr::BadChar { place: 2 })),
    ("abc:", Some(NameErr::BadChar { place: 3 })),
    ("*:", Some(NameErr::BadChar { place: 0 })),
    ("..?", Some(NameErr::BadChar { place: 2 })),
    ("\"", Some(NameErr::BadChar { place: 0 })),
    ("<>", Some(NameErr::BadChar { place: 0 })),
    ("a>", Some(NameErr::BadChar { place: 1 })),
    ("a|", Some(NameErr::BadChar { place: 1 })),
];

#[test]
fn reads_names(rt: HostRuntime) -> Result<(), Fail> {
    let alloc = rt.alloc();
    for (text, fault) in NAMES {
        assert_eq!(rt; Name::read(alloc, text).err(), *fault);
    }
    let longest = "é".repeat(alloc, 255)?;
    assert_eq!(rt;
        Name::read(alloc, longest.as_str())?.text(),
        longest.as_str()
    );
    let longer = "é".repeat(alloc, 256)?;
    assert_eq!(rt;
        Name::read(alloc, longer.as_str()).err(),
        Some(NameErr::TooLong)
    );
    Ok(())
}

// The names of a path with `\` between them.
fn spelling(alloc: Global, path: &Path) -> Result<String, AllocError> {
    let mut text = String::new(alloc);
    for name in path.names() {
        if !text.is_empty() {
            text.push('\\')?;
        }
        text.push_str(name.text())?;
    }
    Ok(text)
}

#[test]
fn reads_paths(rt: HostRuntime) -> Result<(), Fail> {
    let alloc = rt.alloc();
    let bad = |part, err| Some(PathErr::BadName { part, err });
    let cases = [
        ("", None),
        ("a", None),
        ("a\\B\\...", None),
        ("a\\\\b", bad(1, NameErr::Empty)),
        ("\\a", bad(0, NameErr::Empty)),
        ("a\\", bad(1, NameErr::Empty)),
        ("a\\b\\..\\c:", bad(2, NameErr::Dots)),
        ("a/b", bad(0, NameErr::BadChar { place: 1 })),
    ];
    for (text, fault) in cases {
        match Path::read(alloc, text) {
            Ok(path) => {
                assert_eq!(rt; None, fault, "at {text}");
                assert_eq!(rt; spelling(alloc, &path)?.as_str(), text);
            }
            Err(err) => assert_eq!(rt; Some(err), fault, "at {text}"),
        }
    }
    Ok(())
}

// READONLY, SYSTEM and NOT_CONTENT_INDEXED.
const SOME: Attr = Attr {
    readonly: true,
    system: true,
    not_indexed: true,
    ..Attr::NONE
};

const ALL: Attr = Attr {
    readonly: true,
    hidden: true,
    system: true,
    archive: true,
    temporary: true,
    sparse: true,
    compressed: true,
    offline: true,
    not_indexed: true,
    encrypted: true,
};

#[test]
fn stores_attributes(rt: HostRuntime) {
    let cases = [
        (Attr::NONE, Kind::File, 0x80),
        (Attr::NONE, Kind::Dir, 0x10),
        (SOME, Kind::File, 0x2005),
        (SOME, Kind::Dir, 0x2015),
        (ALL, Kind::File, 0x7b27),
        (ALL, Kind::Dir, 0x7b37),
    ];
    for (attr, kind, stored) in cases {
        assert_eq!(rt; attr.stored(kind), stored);
        assert_eq!(rt; Attr::read(stored, kind), Some(attr));
    }
}

#[test]
fn prints_errors(rt: HostRuntime) -> Result<(), Fail> {
    let alloc = rt.alloc();
    let err = PathErr::BadName {
        part: 1,
        err: NameErr::BadChar { place: 12 },
    };
    let printed = format!(in alloc; "{err}")?;
    assert_eq!(rt;
        printed.as_str(),
        "part 1 of the path is no name: character 12 may not stand in a name"
    );
    Ok(())
}
