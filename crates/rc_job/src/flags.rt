//! Which parts of an entry go to its copy.
ghost use Rattle.std.specs.Prelude.{◌≡◌};
ghost use Rattle.rc_job.specs.Job.{dat, attributes_alone};

/// What of a file goes to its copy: the letters of `/COPY`.
#[derive(Clone, Copy, Debug, PartialEq, Eq)]
pub struct CopyFlags {
    /// D: its bytes.
    pub data_bytes: bool,
    /// A: its compared attributes.
    pub attributes: bool,
    /// T: its created and written times.
    pub times: bool,
    /// S: its access list.
    pub security: bool,
    /// O: its owner.
    pub owner: bool,
    /// U: its auditing.
    pub auditing: bool,
}

impl CopyFlags {
    /// The default: D, A and T.
    pub fn dat() -> CopyFlags
        ensures { result ≡ dat }
    {
        CopyFlags {
            data_bytes: true,
            attributes: true,
            times: true,
            security: false,
            owner: false,
            auditing: false,
        }
    }
}

/// What of a directory goes to its copy: the letters of `/DCOPY` that have an effect.
#[derive(Clone, Copy, Debug, PartialEq, Eq)]
pub struct DirectoryFlags {
    /// A: its compared attributes.
    pub attributes: bool,
    /// T: its created and written times.
    pub times: bool,
}

impl DirectoryFlags {
    /// The default: A.
    pub fn attributes_alone() -> DirectoryFlags
        ensures { result ≡ attributes_alone }
    {
        DirectoryFlags {
            attributes: true,
            times: false,
        }
    }
}
