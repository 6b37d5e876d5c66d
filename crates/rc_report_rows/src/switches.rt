//! What each switch does to one report, alone and with the others.

use crate::samples::{NO_FAILURES, Row, Switch, T0, job, plan, reports};
use Switch::{Bytes, Fp, Nc, Ndl, Nfl, Njh, Njs, Ns, Ts, V};
use rc_class::{Act, Class, Reason};
use rc_tree::Kind;
use std::test::Fail;

// One day, an hour, two minutes and three seconds.
const LATER: u64 = 901230000000;

const ITEMS: &[Row] = &[
    ("d", Kind::Dir, Act::Make, Class::Lonely, 0, T0),
    (
        "d\\x.log",
        Kind::File,
        Act::Copy,
        Class::Newer,
        1153434,
        T0 + LATER,
    ),
    (
        "e.txt",
        Kind::File,
        Act::Keep(Reason::Class),
        Class::Same,
        5,
        T0,
    ),
    ("f.txt", Kind::File, Act::Extra, Class::Extra, 7, 0),
];

const ROWS: &[(&[Switch], &[&str])] = &[
    (
        &[],
        &[
            "ROBOCOPY",
            "  Source : SRC",
            "  Dest   : DST",
            "  Moment : 2024/01/01 00:00:00",
            "  Files  : *.*",
            "",
            "  New Dir                -  d\\",
            "  Newer              1.1 m  d\\x.log",
            "  *EXTRA File            7  f.txt",
            "",
            "              Total    Copied   Skipped  Mismatch    FAILED    Extras",
            "   Dirs :         1         1         0         0         0         0",
            "  Files :         2         1         1         0         0         1",
            "  Bytes :     1.1 m     1.1 m         5         0         0         7",
        ],
    ),
    (
        &[V],
        &[
            "ROBOCOPY",
            "  Source : SRC",
            "  Dest   : DST",
            "  Moment : 2024/01/01 00:00:00",
            "  Files  : *.*",
            "",
            "  New Dir                -  d\\",
            "  Newer              1.1 m  d\\x.log",
            "  skipped                5  e.txt",
            "  *EXTRA File            7  f.txt",
            "",
            "              Total    Copied   Skipped  Mismatch    FAILED    Extras",
            "   Dirs :         1         1         0         0         0         0",
            "  Files :         2         1         1         0         0         1",
            "  Bytes :     1.1 m     1.1 m         5         0         0         7",
        ],
    ),
    (
        &[Nfl],
        &[
            "ROBOCOPY",
            "  Source : SRC",
            "  Dest   : DST",
            "  Moment : 2024/01/01 00:00:00",
            "  Files  : *.*",
            "",
            "  New Dir                -  d\\",
            "",
            "              Total    Copied   Skipped  Mismatch    FAILED    Extras",
            "   Dirs :         1         1         0         0         0         0",
            "  Files :         2         1         1         0         0         1",
            "  Bytes :     1.1 m     1.1 m         5         0         0         7",
        ],
    ),
    (
        &[Ndl],
        &[
            "ROBOCOPY",
            "  Source : SRC",
            "  Dest   : DST",
            "  Moment : 2024/01/01 00:00:00",
            "  Files  : *.*",
            "",
            "  Newer              1.1 m  d\\x.log",
            "  *EXTRA File            7  f.txt",
            "",
            "              Total    Copied   Skipped  Mismatch    FAILED    Extras",
            "   Dirs :         1         1         0         0         0         0",
            "  Files :         2         1         1         0         0         1",
            "  Bytes :     1.1 m     1.1 m         5         0         0         7",
        ],
    ),
    (
        &[Nc],
        &[
            "ROBOCOPY",
            "  Source : SRC",
            "  Dest   : DST",
            "  Moment : 2024/01/01 00:00:00",
            "  Files  : *.*",
            "",
            "             -  d\\",
            "         1.1 m  d\\x.log",
            "             7  f.txt",
            "",
            "              Total    Copied   Skipped  Mismatch    FAILED    Extras",
            "   Dirs :         1         1         0         0         0         0",
            "  Files :         2         1         1         0         0         1",
            "  Bytes :     1.1 m     1.1 m         5         0         0         7",
        ],
    ),
    (
        &[Ns],
        &[
            "ROBOCOPY",
            "  Source : SRC",
            "  Dest   : DST",
            "  Moment : 2024/01/01 00:00:00",
            "  Files  : *.*",
            "",
            "  New Dir       d\\",
            "  Newer         d\\x.log",
            "  *EXTRA File   f.txt",
            "",
            "              Total    Copied   Skipped  Mismatch    FAILED    Extras",
            "   Dirs :         1         1         0         0         0         0",
            "  Files :         2         1         1         0         0         1",
            "  Bytes :     1.1 m     1.1 m         5         0         0         7",
        ],
    ),
    (
        &[Njh],
        &[
            "  New Dir                -  d\\",
            "  Newer              1.1 m  d\\x.log",
            "  *EXTRA File            7  f.txt",
            "",
            "              Total    Copied   Skipped  Mismatch    FAILED    Extras",
            "   Dirs :         1         1         0         0         0         0",
            "  Files :         2         1         1         0         0         1",
            "  Bytes :     1.1 m     1.1 m         5         0         0         7",
        ],
    ),
    (
        &[Njs],
        &[
            "ROBOCOPY",
            "  Source : SRC",
            "  Dest   : DST",
            "  Moment : 2024/01/01 00:00:00",
            "  Files  : *.*",
            "",
            "  New Dir                -  d\\",
            "  Newer              1.1 m  d\\x.log",
            "  *EXTRA File            7  f.txt",
        ],
    ),
    (
        &[Bytes],
        &[
            "ROBOCOPY",
            "  Source : SRC",
            "  Dest   : DST",
            "  Moment : 2024/01/01 00:00:00",
            "  Files  : *.*",
            "",
            "  New Dir                -  d\\",
            "  Newer            1153434  d\\x.log",
            "  *EXTRA File            7  f.txt",
            "",
            "              Total    Copied   Skipped  Mismatch    FAILED    Extras",
            "   Dirs :         1         1         0         0         0         0",
            "  Files :         2         1         1         0         0         1",
            "  Bytes :   1153439   1153434         5         0         0         7",
        ],
    ),
    (
        &[Fp],
        &[
            "ROBOCOPY",
            "  Source : SRC",
            "  Dest   : DST",
            "  Moment : 2024/01/01 00:00:00",
            "  Files  : *.*",
            "",
            "  New Dir                -  SRC\\d\\",
            "  Newer              1.1 m  SRC\\d\\x.log",
            "  *EXTRA File            7  DST\\f.txt",
            "",
            "              Total    Copied   Skipped  Mismatch    FAILED    Extras",
            "   Dirs :         1         1         0         0         0         0",
            "  Files :         2         1         1         0         0         1",
            "  Bytes :     1.1 m     1.1 m         5         0         0         7",
        ],
    ),
    (
        &[Ts],
        &[
            "ROBOCOPY",
            "  Source : SRC",
            "  Dest   : DST",
            "  Moment : 2024/01/01 00:00:00",
            "  Files  : *.*",
            "",
            "  New Dir                -  2024/01/01 00:00:00  d\\",
            "  Newer              1.1 m  2024/01/02 01:02:03  d\\x.log",
            "  *EXTRA File            7  1601/01/01 00:00:00  f.txt",
            "",
            "              Total    Copied   Skipped  Mismatch    FAILED    Extras",
            "   Dirs :         1         1         0         0         0         0",
            "  Files :         2         1         1         0         0         1",
            "  Bytes :     1.1 m     1.1 m         5         0         0         7",
        ],
    ),
    (
        &[V, Nc, Ns, Njh, Njs, Bytes, Fp, Ts],
        &[
            "    2024/01/01 00:00:00  SRC\\d\\",
            "    2024/01/02 01:02:03  SRC\\d\\x.log",
            "    2024/01/01 00:00:00  SRC\\e.txt",
            "    1601/01/01 00:00:00  DST\\f.txt",
        ],
    ),
    (&[V, Nfl, Ndl, Nc, Ns, Njh, Njs, Bytes, Fp, Ts], &[]),
];

#[test]
fn each_switch_has_its_effect(rt: HostRuntime) -> Result<(), Fail> {
    let alloc = rt.alloc();
    let plan = plan(alloc, ITEMS)?;
    for (switches, lines) in ROWS {
        let job = job(alloc, switches)?;
        assert!(rt; reports(alloc, &job, &plan, NO_FAILURES, lines)?);
    }
    Ok(())
}
