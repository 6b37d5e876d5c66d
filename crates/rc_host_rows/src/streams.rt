//! The clock, and streams of the host as sinks.

use crate::bench::Bench;
use rc_host::{Output, SystemClock};
use rc_tree::GREATEST_MOMENT;
use rc_volume::{Clock, Sink, SinkErr};
use std::fs::{self, File};
use std::test::Fail;

// The start of 2020: 153,036 days of 864,000,000,000 units since 1601.
const START_OF_2020: u64 = 153036 * 864000000000;

#[test]
fn the_clock_tells_the_present(rt: HostRuntime) -> Result<(), Fail> {
    let mut clock = SystemClock::new(&rt);
    let moment = clock.moment();
    assert!(rt; START_OF_2020 < moment);
    assert!(rt; moment <= GREATEST_MOMENT);
    clock.pause(0);
    // Two readings of one test are less than an hour apart.
    assert!(rt; clock.moment().abs_diff(moment) < 36000000000);
    Ok(())
}

#[test]
fn a_sink_writes_each_piece(rt: HostRuntime) -> Result<(), Fail> {
    let alloc = rt.alloc();
    let bench = Bench::new(&rt, "sink")?;
    let place = format!(in alloc; "{}/out", bench.folder)?;
    let mut sink = Output::new(File::create(&rt, &place)?);
    assert!(rt; sink.write(alloc, b"abc") == Ok(()));
    assert_eq!(rt; fs::read_to_string(&rt, &place)?.as_str(), "abc");
    assert!(rt; sink.write(alloc, b"") == Ok(()));
    assert!(rt; sink.write(alloc, b"de") == Ok(()));
    drop(sink);
    assert_eq!(rt; fs::read_to_string(&rt, &place)?.as_str(), "abcde");
    bench.end()
}

// A file that is open for reading alone refuses each piece.
#[test]
fn a_sink_that_cannot_write_fails(rt: HostRuntime) -> Result<(), Fail> {
    let alloc = rt.alloc();
    let bench = Bench::new(&rt, "closed-sink")?;
    let place = format!(in alloc; "{}/out", bench.folder)?;
    fs::write(&rt, &place, "kept")?;
    let mut sink = Output::new(File::open(&rt, &place)?);
    assert!(rt; sink.write(alloc, b"abc") == Err(SinkErr::Failed));
    assert!(rt; sink.write(alloc, b"d") == Err(SinkErr::Failed));
    drop(sink);
    assert_eq!(rt; fs::read_to_string(&rt, &place)?.as_str(), "kept");
    bench.end()
}
