//! The same calls over a table in memory and over one in a file.

use crate::folder::{is_row_of, make_folder, row_of};
use rc_table::{MapTable, SqlTable, Table, TableErr, is_path_text};
use rc_tree::Text;
use rc_volume::Side;
use std::alloc::Global;
use std::fs;
use std::test::Fail;

// A call of a table by its first word, the side, the path (for `next` the one to list behind, or no characters), and the
// answer: a word, or the path that is listed.
const STEPS: &[(&str, Side, &str, &str)] = &[
    ("get", Side::Source, "a\\b.txt", "none"),
    ("next", Side::Source, "", "none"),
    ("put", Side::Source, "a\\b.txt", "done"),
    ("get", Side::Source, "a\\b.txt", "row"),
    ("get", Side::Target, "a\\b.txt", "none"),
    ("get", Side::Source, "A\\b.txt", "none"),
    ("next", Side::Source, "", "a\\b.txt"),
    ("next", Side::Target, "", "none"),
    ("next", Side::Source, "a\\b.txt", "none"),
    ("put", Side::Source, "it's \"one\"; --", "done"),
    ("get", Side::Source, "it's \"one\"; --", "row"),
    ("put", Side::Source, "\u{e9}\u{4e2d}\u{1f980}", "done"),
    ("put", Side::Source, "\u{ffee}", "done"),
    ("put", Side::Target, "z", "done"),
    ("next", Side::Source, "a\\b.txt", "it's \"one\"; --"),
    (
        "next",
        Side::Source,
        "it's \"one\"; --",
        "\u{e9}\u{4e2d}\u{1f980}",
    ),
    ("next", Side::Source, "\u{e9}\u{4e2d}\u{1f980}", "\u{ffee}"),
    ("next", Side::Source, "\u{ffee}", "none"),
    ("put", Side::Source, "\u{1f980}", "done"),
    ("next", Side::Source, "\u{ffee}", "\u{1f980}"),
    ("drop", Side::Target, "a\\b.txt", "done"),
    ("get", Side::Source, "a\\b.txt", "row"),
    ("drop", Side::Source, "a\\b.txt", "done"),
    ("get", Side::Source, "a\\b.txt", "none"),
    ("next", Side::Source, "", "it's \"one\"; --"),
    ("drop", Side::Source, "a\\b.txt", "done"),
    ("commit", Side::Source, "", "done"),
    ("get", Side::Target, "z", "row"),
    ("commit", Side::Source, "", "done"),
    ("put", Side::Target, "z", "done"),
    ("commit", Side::Source, "", "done"),
];

fn got<T: Table>(table: &mut T, alloc: Global, side: Side, path: &Text) -> &'static str {
    match table.get(alloc, side, path) {
        Ok(Some(row)) if is_row_of(&row, 5) => "row",
        Ok(Some(_)) => "another row",
        Ok(None) => "none",
        Err(_) => "refused",
    }
}

fn listed<T: Table>(table: &mut T, alloc: Global, side: Side, last: &Text) -> Result<Text, Fail> {
    let after = if last.text().is_empty() {
        None
    } else {
        Some(last)
    };
    match table.next_key(alloc, side, after) {
        Ok(Some(text)) => Ok(text),
        Ok(None) => Ok(Text::of(alloc, "none")?),
        Err(_) => Ok(Text::of(alloc, "refused")?),
    }
}

fn word_of(answer: Result<(), TableErr>) -> &'static str {
    match answer {
        Ok(()) => "done",
        Err(_) => "refused",
    }
}

// What the call of a step answers.
fn answer<T: Table>(
    table: &mut T,
    alloc: Global,
    call: &str,
    side: Side,
    path: &str,
) -> Result<Text, Fail> {
    let path = Text::of(alloc, path)?;
    let row = row_of(alloc, 5)?;
    let word = match call {
        "get" => got(table, alloc, side, &path),
        "next" => return listed(table, alloc, side, &path),
        "put" if is_path_text(&path) => word_of(table.put(alloc, side, &path, &row)),
        "drop" => word_of(table.drop_key(alloc, side, &path)),
        _ => word_of(table.commit(alloc)),
    };
    Ok(Text::of(alloc, word)?)
}

// How many steps answer as they are to, up to the first that does not.
fn steps_passed<T: Table>(table: &mut T, alloc: Global) -> Result<usize, Fail> {
    for (at, (call, side, path, wanted)) in STEPS.iter().enumerate() {
        if answer(table, alloc, call, *side, path)?.text() != *wanted {
            return Ok(at);
        }
    }
    Ok(STEPS.len())
}

#[test]
fn a_table_in_memory_keeps_rows(rt: HostRuntime) -> Result<(), Fail> {
    let alloc = rt.alloc();
    assert_eq!(rt;
        steps_passed(&mut MapTable::new(alloc), alloc)?,
        STEPS.len()
    );
    Ok(())
}

#[test]
fn a_table_in_a_file_keeps_rows(rt: HostRuntime) -> Result<(), Fail> {
    let alloc = rt.alloc();
    let folder = make_folder(&rt, "keeps")?;
    let file = format!(in alloc; "{folder}/t.rct")?;
    let mut table = SqlTable::new(&rt, alloc, &file)?;
    assert!(rt; !fs::exists(&rt, &file)?);
    let passed = steps_passed(&mut table, alloc)?;
    drop(table);
    fs::remove_dir_all(&rt, &folder)?;
    assert_eq!(rt; passed, STEPS.len());
    Ok(())
}
