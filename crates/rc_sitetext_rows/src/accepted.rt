//! Texts that are accepted.

use crate::texts::{TEXT, bytes_of};
use rc_mem::MemSink;
use rc_sitetext::{read_site, write_site};
use std::alloc::Global;
use std::test::Fail;

const EMPTY: &str = "SITE;1|MOMENT;133485408000000000|SOURCE|TARGET|RECORD;-|END|";

const ONE_FILE: &str = "SITE;1|MOMENT;133485408000000000|SOURCE|\
F;a.txt;A;133485408000000000;133485408000000000;-;-;-;5;68656c6c6f|TARGET|RECORD;-|END|";

// Names are compared by their folded forms, and job files keep the spelling of their names.
const NAMES: &str = "SITE;1|MOMENT;2650467743999999999|SOURCE|D;A;RASHCNETOP;0;0;00;01;ff|\
F;A\\b;-;0;0;-;-;-;1;00|F;A b;-;0;0;-;-;-;3;*61|F;b;-;0;0;-;-;-;2;6162|TARGET|RECORD;00|\
JOB;a\\b c;-|JOB;Z.RCJ;2f45|END|";

// The text of what is read from a text.
fn again(alloc: Global, short: &str) -> Result<Vec<u8>, Fail> {
    let text = bytes_of(alloc, short)?;
    let file = read_site(alloc, &text)?;
    let mut out = MemSink::new(alloc);
    write_site(alloc, &mut out, &file.site, file.moment, &file.jobs)?;
    Ok(out.bytes().to_vec(alloc)?)
}

#[test]
fn what_is_read_is_written_again(rt: HostRuntime) -> Result<(), Fail> {
    for short in [EMPTY, ONE_FILE, NAMES, TEXT] {
        let wanted = bytes_of(rt.alloc(), short)?;
        assert!(rt; again(rt.alloc(), short)? == wanted);
    }
    Ok(())
}
