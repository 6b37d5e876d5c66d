//! What is planned of two trees in memory.

use super::{A, NO_FILES, T0, site};
use rc_class::Plan;
use rc_fixture::{Row, flat_tree};
use rc_job::Job;
use rc_mem::{FixedClock, Tree};
use rc_plan::{PlanErr, make_plan};
use rc_tree::{Attr, Moment};
use std::alloc::Global;
use std::test::Fail;

const HIDDEN: Attr = Attr {
    archive: true,
    hidden: true,
    ..Attr::NONE
};

// One key of each class. `\u{212A}` is the sign of Kelvin, which folds to `k`.
const MIXED_SOURCE: &[Row] = &[
    ("A.txt", b"123", T0, A),
    ("b-lonely", b"1", T0, A),
    ("C-newer", b"12", T0 + 1, A),
    ("d-older", b"12", T0, A),
    ("e-changed", b"12", T0, A),
    ("f-tweaked", b"12", T0, HIDDEN),
    ("\u{212A}", b"1", T0, A),
];

const MIXED_TARGET: &[Row] = &[
    ("a.txt", b"321", T0, A),
    ("C-newer", b"123", T0, A),
    ("D-OLDER", b"12", T0 + 1, A),
    ("e-changed", b"1234", T0, A),
    ("F-tweaked", b"12", T0, A),
    ("G-extra", b"12345", T0, A),
    ("k", b"2", T0, A),
];

const MIXED_PLAN: &str =
    "A.txt Keep(Class) Same Nothing 3\nb-lonely Copy Lonely Nothing 1\nC-newer Copy Newer Nothing 2\nd-older Copy Older Nothing 2\ne-changed Copy Changed Nothing 2\nf-tweaked Keep(Class) Tweaked Nothing 2\nG-extra Extra Extra Nothing 5\n\u{212A} Keep(Class) Same Nothing 1\n";

// What is planned for two trees at T0 with the default job.
fn plan(alloc: Global, source: Tree, target: Tree) -> Result<Result<Plan, PlanErr>, Fail> {
    let mut site = site(alloc, source, target)?;
    let mut clock = FixedClock::new(T0);
    let job = Job::new(alloc)?;
    Ok(make_plan(alloc, &job, Moment::new(T0), &mut site, &mut clock))
}

// A line for each item: its path, act, class, what comes after, and size.
fn shown(alloc: Global, plan: &Plan) -> Result<String, Fail> {
    let mut text = String::new(alloc);
    for item in plan.items.items() {
        for name in item.path.names() {
            text.push_str(name.text())?;
        }
        let (act, class, after) = (item.act, item.class, item.after);
        let size = item.facts.size;
        text.push_str(format!(in alloc; " {act:?} {class:?} {after:?} {size}\n")?.as_str())?;
    }
    Ok(text)
}

#[test]
fn a_plan_has_all_keys_in_their_order(rt: HostRuntime) -> Result<(), Fail> {
    let alloc = rt.alloc();
    for (source, target, want) in [
        (NO_FILES, NO_FILES, ""),
        (MIXED_SOURCE, MIXED_TARGET, MIXED_PLAN),
    ] {
        let made = plan(alloc, flat_tree(alloc, source)?, flat_tree(alloc, target)?)?;
        let made = match made {
            Ok(made) => made,
            Err(_) => return Err("no plan")?,
        };
        assert_eq!(rt; shown(alloc, &made)?.as_str(), want);
        assert_eq!(rt; made.moment.units(), T0);
        assert_eq!(rt; made.stride, 0);
        assert!(rt; made.with_bytes);
        assert_eq!(rt; made.job.text(), "");
    }
    Ok(())
}
