//! The properties of an entry.

ghost use Rattle.std.specs.Prelude.{◌≡◌, IfOk};

use crate::{Attr, Moment, NoMemory, Security};
use std::alloc::Global;

/// An entry's properties.
#[derive(Debug, Drop)]
pub struct Props {
    pub attr: Attr,
    pub created: Moment,
    pub written: Moment,
    pub access: Security,
    pub owner: Security,
    pub audit: Security,
}

impl Props {
    /// Equal properties.
    pub fn copy(&self, alloc: Global) -> Result<Props, NoMemory>
        ensures { IfOk result (λ copy. copy ≡ self.now) }
    {
        Ok(Props {
            attr: self.attr,
            created: self.created,
            written: self.written,
            access: self.access.copy(alloc)?,
            owner: self.owner.copy(alloc)?,
            audit: self.audit.copy(alloc)?,
        })
    }
}
