//! Settings that are one of a few choices.

/// Which directories below the root are mirrored.
#[derive(Clone, Copy, Debug, PartialEq, Eq)]
pub enum Sub {
    /// None: the files of the root alone.
    None,
    /// `/S`: those with a file to copy at or below them.
    NonEmpty,
    /// `/E`: all.
    All,
}

/// What of the source is removed once its copy stands.
#[derive(Clone, Copy, Debug, PartialEq, Eq)]
pub enum Moving {
    /// Nothing.
    No,
    /// `/MOV`: copied files.
    Files,
    /// `/MOVE`: copied files, and directories that are left empty.
    All,
}
