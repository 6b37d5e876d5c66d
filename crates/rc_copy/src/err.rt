//! Why files could not be copied.

ghost use Rattle.std.specs.Prelude.{◌≡◌};
ghost use Rattle.rc_copy.specs.Copying.{fault_of};

use rc_volume::{Side, SiteErr};
use thiserror::Error;

#[derive(Clone, Copy, Debug, PartialEq, Eq, Error)]
pub enum CopyErr {
    /// A call on this side failed. Its count of faults rose.
    #[error("the volume failed")]
    Failed { side: Side },
    #[error("out of memory")]
    NoMemory,
}

/// The error of a failed call on a side.
pub(crate) fn fault(e: SiteErr, side: Side) -> CopyErr
    ensures { result ≡ fault_of e side }
{
    match e {
        SiteErr::Failed => CopyErr::Failed { side },
        SiteErr::NoMemory => CopyErr::NoMemory,
    }
}
