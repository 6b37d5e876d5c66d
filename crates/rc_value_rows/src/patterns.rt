//! Rows whose answers are reasoned by hand from the definitions.

use rc_tree::{Path, PathErr};
use rc_wild::{PathPattern, Pattern, PatternErr};
use std::alloc::Global;
use std::test::Fail;
use thiserror::Error;

#[derive(Debug, Drop, Error)]
enum RowErr {
    #[error("no pattern: {0}")]
    Pattern(#[from] PatternErr),
    #[error("no path: {0}")]
    Path(#[from] PathErr),
}

fn is_match(alloc: Global, pattern: &str, name: &str) -> Result<bool, PatternErr> {
    Ok(Pattern::read(alloc, pattern)?.matches(name))
}

// A pattern, a name, and whether they match.
const NAMES: &[(&str, &str, bool)] = &[
    ("*", "", true),
    ("*", "a.b.c", true),
    ("*.*", "a", true),
    ("*.*", "a.b", true),
    ("*.*", "", true),
    ("*.*.", "a.b", false),
    ("?*.*", "a", false),
    ("*.", "a", false),
    ("*.", "a.", true),
    ("*.txt", ".txt", true),
    ("*.txt", "a.TXT", true),
    ("*.txt", "a.txt.bak", false),
    ("*.t?t", "a.tt", false),
    ("a*b*c", "abc", true),
    ("a*b*c", "axxbyyc", true),
    ("a*b*c", "abbcbc", true),
    ("a*b*c", "ac", false),
    ("a*b*c", "acb", false),
    ("a*b*c", "abcb", false),
    ("**", "", true),
    ("**", "ab", true),
    ("**a", "a", true),
    ("**a", "b", false),
    ("a**", "a", true),
    ("?", "a", true),
    ("?", "", false),
    ("?", "ab", false),
    ("ab?", "abc", true),
    ("ab?", "ab", false),
    ("ab?", "abcd", false),
    ("?*", "", false),
    ("*?", "", false),
    ("*?*?*", "a", false),
    ("*?*?*", "ab", true),
    ("*a", "aaa", true),
    ("*a", "aab", false),
    ("*aab", "aaab", true),
    ("*a*b", "aabab", true),
    ("*ab*ab", "abxab", true),
    ("*ab*ab", "ab", false),
    ("*ab*cd", "abcabcd", true),
    ("*a*bcd*e", "abcabcde", true),
    ("*a*bcd*e", "abcabce", false),
    ("abc", "ABC", true),
    ("abc", "ab", false),
    ("abc", "abcd", false),
    ("abcdef", "abc", false),
    ("a.b", "aXb", false),
    (".*", ".git", true),
    (".*", "git", false),
    ("[ab]", "a", false),
    ("[ab]", "[AB]", true),
    ("é*", "Éa", true),
    ("é", "e", false),
    ("ß", "ẞ", true),
    ("ß", "ss", false),
    ("\u{212a}", "k", true),
    ("K", "\u{212a}", true),
    ("σ", "ς", true),
    ("Σ*", "ςx", true),
    ("\u{212b}", "å", true),
    ("ſ", "S", true),
    ("ı", "I", false),
    ("İ", "i", false),
];

#[test]
fn matches_names(rt: HostRuntime) -> Result<(), Fail> {
    let alloc = rt.alloc();
    for (pattern, name, expected) in NAMES {
        assert_eq!(rt; is_match(alloc, pattern, name)?, *expected);
    }
    let longest = "a".repeat(alloc, 255)?;
    let name = longest.as_str();
    assert!(rt; is_match(alloc, "*".repeat(alloc, 127)?.as_str(), name)?);
    let mut stars = "*a".repeat(alloc, 127)?;
    assert!(rt; is_match(alloc, stars.as_str(), name)?);
    stars.push('b')?;
    assert!(rt; !is_match(alloc, stars.as_str(), name)?);
    assert!(rt; is_match(alloc, "?".repeat(alloc, 255)?.as_str(), name)?);
    assert!(rt; !is_match(alloc, "?".repeat(alloc, 256)?.as_str(), name)?);
    Ok(())
}

// A pattern, the two roots, a path below them, and whether they match.
const PATHS: &[(&str, &str, &str, &str, bool)] = &[
    ("d\\x", "", "", "d\\x", true),
    ("d\\x", "", "", "d\\x\\y", false),
    ("d\\x", "", "", "x", false),
    ("/d/x", "", "", "D\\X", true),
    (".\\d\\\\x", "", "", "d\\x", true),
    ("d/", "", "", "d", true),
    ("\\", "", "", "", true),
    ("\\", "", "", "a", false),
    ("s\\t\\d", "s\\t", "", "d", true),
    ("S/T/d", "\\s\\.\\t\\", "", "d", true),
    ("s\\t\\d", "s\\t", "", "s\\t\\d", false),
    ("t\\d", "s", "t", "d", true),
    ("s\\s\\d", "s", "s\\s", "s\\d", true),
    ("s\\s\\d", "s", "s\\s", "d", false),
    ("t\\d", ".", "t", "t\\d", true),
    ("t\\d", "", "t", "d", false),
    ("s\\t", "s\\t", "", "", true),
    ("s\\t", "s\\t", "", "t", false),
    ("C:\\s\\d", "c:/s", "D:\\t", "d", true),
    ("D:\\t\\d", "C:\\s", "D:\\t", "d", true),
    ("C:\\s\\d", "C:\\r", "", "d", false),
    ("a:*\\b", "", "", "a\\b", false),
    ("*\\x", "", "", "d\\x", true),
    ("*\\x", "", "", "x", false),
    ("*.*\\x", "", "", "d\\x", true),
    ("d\\*.t?t", "", "", "d\\a.TXT", true),
    ("s*\\d", "s1", "", "s1\\d", true),
    ("s*\\d", "s1", "", "d", false),
];

#[test]
fn matches_paths(rt: HostRuntime) -> Result<(), Fail> {
    let alloc = rt.alloc();
    for (value, source, target, path, expected) in PATHS {
        let matched = is_path_match(alloc, value, source, target, path)?;
        assert_eq!(rt; matched, *expected);
    }
    Ok(())
}

fn is_path_match(
    alloc: Global,
    value: &str,
    source: &str,
    target: &str,
    path: &str,
) -> Result<bool, RowErr> {
    let pattern = PathPattern::read(alloc, value)?;
    let path = Path::read(alloc, path)?;
    Ok(pattern.matches(source, target, &path))
}

#[test]
fn reads_and_copies(rt: HostRuntime) -> Result<(), Fail> {
    let alloc = rt.alloc();
    let bad = |place| Some(PatternErr::BadChar { place });
    let none = Some(PatternErr::NoSeparator);
    let rows = [
        ("", Some(PatternErr::Empty), none),
        ("*?.a", None, none),
        ("a:b", bad(1), none),
        ("a\\b", bad(1), None),
        ("C:/*", bad(1), None),
        ("é\u{1f}\\", bad(1), bad(1)),
        ("a/|", bad(1), bad(2)),
        ("\"", bad(0), bad(0)),
        ("<", bad(0), bad(0)),
        ("?>", bad(1), bad(1)),
    ];
    for (text, fault, path_fault) in rows {
        assert_eq!(rt; Pattern::read(alloc, text).err(), fault);
        assert_eq!(rt; PathPattern::read(alloc, text).err(), path_fault);
    }
    let pattern = Pattern::read(alloc, "*.Txt")?.copy(alloc)?;
    assert_eq!(rt; pattern.text(), "*.Txt");
    let pattern = PathPattern::read(alloc, "d/*")?.copy(alloc)?;
    assert_eq!(rt; pattern.text(), "d/*");
    Ok(())
}
