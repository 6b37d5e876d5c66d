//! What a site text spells.

use rc_mem::{MemJobs, MemSite};

/// What a site text says: a site on which no call came yet, a moment, in 100-nanosecond units since 1601, and job files.
#[derive(Debug, Drop)]
pub struct SiteFile {
    pub site: MemSite,
    pub moment: u64,
    pub jobs: MemJobs,
}
