//! Dates and moments by the calendar.

use rc_dates::{DateErr, date_to_moment, days_before, moment_text};
use std::test::Fail;

// 2024/01/01 00:00:00.
const NEW_YEAR: u64 = 133485408000000000;

#[test]
fn a_date_is_its_midnight_or_refused(rt: HostRuntime) -> Result<(), Fail> {
    let cases = [
        (16010101, Ok(0)),
        (16010102, Ok(864000000000)),
        (19000101, Ok(94354848000000000)),
        (20000229, Ok(125962560000000000)),
        (20240101, Ok(NEW_YEAR)),
        (99991231, Ok(2650466880000000000)),
        (16001231, Err(DateErr::BeforeStart)),
        (101, Err(DateErr::BeforeStart)),
        (1900, Err(DateErr::NoSuchDate)),
        (19000229, Err(DateErr::NoSuchDate)),
        (20230229, Err(DateErr::NoSuchDate)),
        (20241301, Err(DateErr::NoSuchDate)),
        (20240001, Err(DateErr::NoSuchDate)),
        (20240100, Err(DateErr::NoSuchDate)),
        (100000101, Err(DateErr::NoSuchDate)),
        (4294967295, Err(DateErr::NoSuchDate)),
    ];
    for (date, expected) in cases {
        assert_eq!(rt; date_to_moment(date), expected);
    }
    Ok(())
}

#[test]
fn days_before_the_start_are_the_start(rt: HostRuntime) -> Result<(), Fail> {
    let cases = [
        (NEW_YEAR, 0, NEW_YEAR),
        (NEW_YEAR, 1899, 131844672000000000),
        (864000000001, 1, 1),
        (864000000000, 1, 0),
        (863999999999, 1, 0),
        (u64::MAX, u32::MAX, 0),
    ];
    for (moment, days, expected) in cases {
        assert_eq!(rt; days_before(moment, days), expected);
    }
    Ok(())
}

#[test]
fn a_moment_is_printed_to_the_second(rt: HostRuntime) -> Result<(), Fail> {
    let cases = [
        (0, "1601/01/01 00:00:00"),
        (9999999, "1601/01/01 00:00:00"),
        (NEW_YEAR, "2024/01/01 00:00:00"),
        (NEW_YEAR - 1, "2023/12/31 23:59:59"),
        (116444736000000000, "1970/01/01 00:00:00"),
        (128166372003061629, "2007/02/22 17:00:00"),
        (2650467743999999999, "9999/12/31 23:59:59"),
        (2650467744000000000, "9999/12/31 23:59:59"),
        (u64::MAX, "9999/12/31 23:59:59"),
    ];
    for (moment, expected) in cases {
        assert!(rt; moment_text(rt.alloc(), moment)?.text() == expected);
    }
    Ok(())
}
