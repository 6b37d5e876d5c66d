//! What is decided of a key: the act, its reason, and what comes after a copy.

ghost use Rattle.std.specs.Prelude.{◌≡◌};
ghost use Rattle.rc_class.specs.Codes.{act_code, after_code, reason_code};
ghost use Rattle.rc_class.specs.Units.{is_copy};

/// Why an entry is kept as it is.
#[derive(Clone, Copy, Debug, PartialEq, Eq)]
pub enum Reason {
    /// No file pattern names it.
    NotNamed,
    /// A pattern excludes it.
    Excluded,
    /// Its attributes are not those asked for.
    Attr,
    /// It is too large or too small.
    Size,
    /// It is too old or too young.
    Age,
    /// Its class is excluded.
    Class,
    /// A directory below which nothing is copied.
    Empty,
    /// A directory of which nothing differs.
    Same,
}

impl Reason {
    /// Its number in records: 16 to 23, in the order of the variants.
    pub fn code(self) -> u8
        ensures { result ≡ reason_code self }
    {
        match self {
            Reason::NotNamed => 16,
            Reason::Excluded => 17,
            Reason::Attr => 18,
            Reason::Size => 19,
            Reason::Age => 20,
            Reason::Class => 21,
            Reason::Empty => 22,
            Reason::Same => 23,
        }
    }
}

/// What a run does at a key.
#[derive(Clone, Copy, Debug, PartialEq, Eq)]
pub enum Act {
    /// The file is copied.
    Copy,
    /// The directory is made.
    Make,
    /// The directory gets properties of the source's.
    Touch,
    /// The file stays, and gets properties of the source's.
    Fix,
    /// The target's entry is removed.
    Purge,
    /// The target's entry is reported and stays.
    Extra,
    /// A file and a directory: both stay.
    Mismatch,
    /// All stays as it is, for this reason.
    Keep(Reason),
}

impl Act {
    /// Whether a file is copied.
    pub fn is_copy(self) -> bool
        ensures { result ≡ is_copy self }
    {
        self == Act::Copy
    }

    /// Its number in records: 1 to 7, in the order of the variants, and for `Keep` that of its reason.
    pub fn code(self) -> u8
        ensures { result ≡ act_code self }
    {
        match self {
            Act::Copy => 1,
            Act::Make => 2,
            Act::Touch => 3,
            Act::Fix => 4,
            Act::Purge => 5,
            Act::Extra => 6,
            Act::Mismatch => 7,
            Act::Keep(reason) => reason.code(),
        }
    }
}

/// What becomes of the source's entry once its copy stands.
#[derive(Clone, Copy, Debug, PartialEq, Eq)]
pub enum After {
    Nothing,
    RemoveSource,
    ClearArchive,
}

impl After {
    /// Its number in records: 0 to 2, in the order of the variants.
    pub fn code(self) -> u8
        ensures { result ≡ after_code self }
    {
        match self {
            After::Nothing => 0,
            After::RemoveSource => 1,
            After::ClearArchive => 2,
        }
    }
}
