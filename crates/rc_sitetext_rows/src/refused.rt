//! Texts that are refused.

use crate::texts::{TEXT, bytes_of};
use rc_sitetext::{SiteTextErr, read_site};
use std::alloc::{AllocError, Global};
use std::test::Fail;

// The line and the kind of the first fault; two zeros where there is none.
fn fault_in(alloc: Global, short: &str) -> Result<(u64, u8), Fail> {
    let text = bytes_of(alloc, short)?;
    Ok(match read_site(alloc, &text) {
        Ok(_) => (0, 0),
        Err(SiteTextErr::At { line, kind }) => (line, kind.number()),
        Err(SiteTextErr::NoMemory) => (0, 255),
    })
}

// The text with this in the place of one of its lines.
fn replaced(alloc: Global, number: u64, new: &str) -> Result<String, AllocError> {
    let mut text = String::new(alloc);
    let mut line = 1u64;
    for old in TEXT.split_terminator('|') {
        text.push_str(if line == number { new } else { old })?;
        text.push('|')?;
        line = line.saturating_add(1);
    }
    Ok(text)
}

// A line's number, what stands in its place, and the first fault then.
const REPLACED: &[(u64, &str, u64, u8)] = &[
    // Lines that may not stand there, or with another number of fields.
    (1, "", 1, 1),
    (1, "SITE", 1, 1),
    (1, "SITE;1;", 1, 1),
    (1, "site;1", 1, 1),
    (1, "MOMENT;5", 1, 1),
    (2, "MOMENT;5;6", 2, 1),
    (3, "TARGET", 3, 1),
    (3, "SOURCE;", 3, 1),
    (4, "D;d;-;0;0;-;-", 4, 1),
    (4, "D;d;-;0;0;-;-;-;0;-", 4, 1),
    (4, "d;d;-;0;0;-;-;-", 4, 1),
    (5, "F;d\\a.txt;A;7;8;-;-;-", 5, 1),
    (5, "F;d\\a.txt;A;7;8;-;-;-;5;68656c6c6f;", 5, 1),
    (5, "RECORD;-", 5, 1),
    (6, "SOURCE", 6, 1),
    (8, "RECORD", 8, 1),
    (8, "JOB;x;00", 8, 1),
    (9, "JOB;B.RCJ", 9, 1),
    (9, "JOB;B;RCJ;00", 9, 1),
    (10, "end", 10, 1),
    (10, "END;", 10, 1),
    (10, "RECORD;-", 10, 1),
    // Fields that are misspelled.
    (1, "SITE;2", 1, 2),
    (1, "SITE;", 1, 2),
    (1, "SITE;01", 1, 2),
    (2, "MOMENT;05", 2, 2),
    (2, "MOMENT;+5", 2, 2),
    (2, "MOMENT;", 2, 2),
    (4, "D;;-;0;0;-;-;-", 4, 2),
    (4, "D;d\\;-;0;0;-;-;-", 4, 2),
    (4, "D;d/;-;0;0;-;-;-", 4, 2),
    (4, "D;d;RR;0;0;-;-;-", 4, 2),
    (4, "D;d;AR;0;0;-;-;-", 4, 2),
    (4, "D;d;;0;0;-;-;-", 4, 2),
    (4, "D;d;-;00;0;-;-;-", 4, 2),
    (4, "D;d;-;0;-1;-;-;-", 4, 2),
    (4, "D;d;-;0;0;0;-;-", 4, 2),
    (4, "D;d;-;0;0;-;0A;-", 4, 2),
    (4, "D;d;-;0;0;-;-;", 4, 2),
    (5, "F;d\\a.txt;A;7;8;-;-;-;05;68656c6c6f", 5, 2),
    (7, "F;b;-;0;0;-;-;-;x;*00", 7, 2),
    (8, "RECORD;", 8, 2),
    (8, "RECORD;A5", 8, 2),
    (8, "RECORD;a", 8, 2),
    (9, "JOB;;00", 9, 2),
    (9, "JOB;B.RCJ;0g", 9, 2),
    (9, "JOB;B.RCJ;", 9, 2),
    // Keys and job names that are not above the ones before.
    (5, "D;d;-;0;0;-;-;-", 5, 3),
    (5, "D;D;-;0;0;-;-;-", 5, 3),
    (5, "F;c;-;0;0;-;-;-;0;-", 5, 3),
    (7, "F;b;-;0;0;-;-;-;0;-|F;B;-;0;0;-;-;-;0;-", 8, 3),
    (7, "F;b;-;0;0;-;-;-;0;-|F;A;-;0;0;-;-;-;0;-", 8, 3),
    (9, "JOB;B.RCJ;00|JOB;b.rcj;00", 10, 3),
    (9, "JOB;b;00|JOB;C;00|JOB;B;00", 11, 3),
    // Entries without their directory, or with another spelling of it.
    (4, "F;d\\a.txt;-;0;0;-;-;-;0;-", 4, 4),
    (5, "F;D\\a.txt;A;7;8;-;-;-;5;68656c6c6f", 5, 4),
    (5, "F;e\\a;-;0;0;-;-;-;0;-", 5, 4),
    (5, "F;e;-;0;0;-;-;-;0;-|F;e\\x;-;0;0;-;-;-;0;-", 6, 4),
    (7, "F;d\\b;-;0;0;-;-;-;0;-", 7, 4),
    // Contents of another size, or in another spelling.
    (4, "F;a;-;0;0;-;-;-;1;*00", 4, 5),
    (4, "F;a;-;0;0;-;-;-;1;-", 4, 5),
    (5, "F;d\\a.txt;A;7;8;-;-;-;4;68656c6c6f", 5, 5),
    (5, "F;d\\a.txt;A;7;8;-;-;-;5;68656C6C6F", 5, 5),
    (5, "F;d\\a.txt;A;7;8;-;-;-;2;0000", 5, 5),
    (5, "F;d\\a.txt;A;7;8;-;-;-;0;", 5, 5),
    (5, "F;d\\a.txt;A;7;8;-;-;-;0;00", 5, 5),
    (7, "F;b;-;0;0;-;-;-;2;*0", 7, 5),
    (7, "F;b;-;0;0;-;-;-;2;*000", 7, 5),
    (7, "F;b;-;0;0;-;-;-;2;*0G", 7, 5),
    (7, "F;b;-;0;0;-;-;-;0;*00", 7, 5),
    // Lines that are not UTF-8.
    (1, "SITE;~", 1, 7),
    (5, "F;d\\a~.txt;A;7;8;-;-;-;5;68656c6c6f", 5, 7),
    (6, "~", 6, 7),
    (10, "EN~", 10, 7),
    // Moments, sizes and security strings above their limits.
    (2, "MOMENT;2650467744000000000", 2, 8),
    (2, "MOMENT;99999999999999999999999999999", 2, 8),
    (4, "D;d;-;2650467744000000000;0;-;-;-", 4, 8),
    (4, "D;d;-;0;2650467744000000000;-;-;-", 4, 8),
    (4, "D;d;-;0;0;^;-;-", 4, 8),
    (5, "F;d\\a.txt;-;0;0;-;^;-;0;-", 5, 8),
    (7, "F;b;-;0;0;-;-;^;0;-", 7, 8),
    (7, "F;b;-;0;0;-;-;-;268435457;*00", 7, 8),
    (7, "F;b;-;0;0;-;-;-;99999999999999999999999999999;-", 7, 8),
    // Two faults in one line.
    (5, "~", 5, 7),
    (4, "D;d;RR;0;0;-;-", 4, 1),
    (4, "D;d;-;2650467744000000000;0;-;-;g", 4, 2),
    (5, "F;e\\a;-;0;0;-;-;-;268435457;-", 5, 8),
    (5, "F;c\\a;-;0;0;-;-;-;0;-", 5, 4),
    (5, "F;c;-;0;0;-;-;-;1;*00", 5, 3),
];

#[test]
fn a_line_is_refused_by_its_first_fault(rt: HostRuntime) -> Result<(), Fail> {
    for (number, new, line, kind) in REPLACED {
        let text = replaced(rt.alloc(), *number, new)?;
        assert!(rt; fault_in(rt.alloc(), &text)? == (*line, *kind));
    }
    Ok(())
}

// Texts that end too early or go on, and the line of that.
const ENDS: &[(&str, u64)] = &[
    ("", 1),
    ("S", 1),
    ("~", 1),
    ("SITE;2", 1),
    ("SITE;1|", 1),
    ("SITE;1|M", 2),
    ("SITE;1|MOMENT;5|SOURCE|TARGET|RECORD;-", 5),
    ("SITE;1|MOMENT;5|SOURCE|TARGET|RECORD;-|", 5),
    ("SITE;1|MOMENT;5|SOURCE|TARGET|RECORD;-|END", 6),
    ("SITE;1|MOMENT;5|SOURCE|TARGET|RECORD;-|END|X", 7),
    ("SITE;1|MOMENT;5|SOURCE|TARGET|RECORD;-|END||", 7),
    ("SITE;1|MOMENT;5|SOURCE|TARGET|RECORD;-|END|~|", 7),
    ("SITE;1|MOMENT;5|SOURCE|TARGET|RECORD;-|END|END|", 7),
];

#[test]
fn a_text_ends_with_its_last_line(rt: HostRuntime) -> Result<(), Fail> {
    for (text, line) in ENDS {
        assert!(rt; fault_in(rt.alloc(), text)? == (*line, 6));
    }
    Ok(())
}
