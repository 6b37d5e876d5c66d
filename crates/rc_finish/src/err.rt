//! Why a pass did not come to its end.

use rc_volume::Side;
use thiserror::Error;

#[derive(Clone, Copy, Debug, PartialEq, Eq, Error)]
pub enum FinishErr {
    /// A call on this side failed, and so did each retry of it. Its count of faults rose at each of them.
    #[error("the volume failed")]
    SiteFault { side: Side },
    #[error("out of memory")]
    NoMemory,
}
