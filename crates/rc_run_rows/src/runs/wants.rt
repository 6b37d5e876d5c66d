//! Copies of wants.

use rc_tree::Path;
use rc_volume::{Ranges, Want};
use std::cmp::Ordering;
use std::test::Fail;

#[test]
fn a_copied_want_is_equal(rt: HostRuntime) -> Result<(), Fail> {
    let alloc = rt.alloc();
    let want = Want {
        path: Path::read(alloc, "Ab\\c")?,
        ranges: Ranges::new([(0, 5), (7, 2)].to_vec(alloc)?),
    };
    let copy = want.copy(alloc)?;
    assert_eq!(rt; copy.path.names().len(), 2);
    assert_eq!(rt; copy.path.cmp(&want.path), Ordering::Equal);
    assert_eq!(rt; copy.ranges.ranges(), [(0, 5), (7, 2)].as_slice());
    Ok(())
}
