//! The switches, in one table.

/// What follows a switch.
#[derive(Clone, Copy, Debug, PartialEq, Eq)]
pub enum Value {
    /// Nothing.
    Nothing,
    /// The source root, behind the colon.
    Source,
    /// The target root.
    Target,
    /// A list of patterns, in the words that follow.
    Files,
    /// A list of files to leave out.
    ExcludeFiles,
    /// A list of directories to leave out.
    ExcludeDirs,
    /// A number from `least` to `most`.
    Number { least: u64, most: u64 },
    /// A number of days, or a date YYYYMMDD.
    Age,
    /// Letters of copy flags.
    Copy,
    /// Letters of directory flags.
    Directory,
    /// Letters of attributes, of which those that are compared have an effect.
    Changed,
    /// Letters of attributes.
    Asked,
    /// SIZE or DIGEST.
    Scan,
    /// The name of a job file that is read.
    JobFile,
    /// The name of a job file that is written.
    Save,
}

/// A switch: its name behind the `/`, in capitals, whether its value stands behind a colon, and what the value is.
#[derive(Clone, Copy, Debug)]
pub struct Switch {
    pub name: &'static [u8],
    pub colon: bool,
    pub value: Value,
}

/// How many of the switches may stand in a job file too: all but the last three.
pub const SHARED: usize = 69;

/// All switches. The number of a switch is its place here, from 0.
pub const TABLE: [Switch; 72] = [
    Switch {
        name: b"SD",
        colon: true,
        value: Value::Source,
    },
    Switch {
        name: b"DD",
        colon: true,
        value: Value::Target,
    },
    Switch {
        name: b"NOSD",
        colon: false,
        value: Value::Nothing,
    },
    Switch {
        name: b"NODD",
        colon: false,
        value: Value::Nothing,
    },
    Switch {
        name: b"IF",
        colon: false,
        value: Value::Files,
    },
    Switch {
        name: b"S",
        colon: false,
        value: Value::Nothing,
    },
    Switch {
        name: b"E",
        colon: false,
        value: Value::Nothing,
    },
    Switch {
        name: b"LEV",
        colon: true,
        value: Value::Number {
            least: 1,
            most: 65535,
        },
    },
    Switch {
        name: b"PURGE",
        colon: false,
        value: Value::Nothing,
    },
    Switch {
        name: b"MIR",
        colon: false,
        value: Value::Nothing,
    },
    Switch {
        name: b"MOV",
        colon: false,
        value: Value::Nothing,
    },
    Switch {
        name: b"MOVE",
        colon: false,
        value: Value::Nothing,
    },
    Switch {
        name: b"CREATE",
        colon: false,
        value: Value::Nothing,
    },
    Switch {
        name: b"COPY",
        colon: true,
        value: Value::Copy,
    },
    Switch {
        name: b"SEC",
        colon: false,
        value: Value::Nothing,
    },
    Switch {
        name: b"COPYALL",
        colon: false,
        value: Value::Nothing,
    },
    Switch {
        name: b"NOCOPY",
        colon: false,
        value: Value::Nothing,
    },
    Switch {
        name: b"DCOPY",
        colon: true,
        value: Value::Directory,
    },
    Switch {
        name: b"NODCOPY",
        colon: false,
        value: Value::Nothing,
    },
    Switch {
        name: b"SECFIX",
        colon: false,
        value: Value::Nothing,
    },
    Switch {
        name: b"TIMFIX",
        colon: false,
        value: Value::Nothing,
    },
    Switch {
        name: b"A+",
        colon: true,
        value: Value::Changed,
    },
    Switch {
        name: b"A-",
        colon: true,
        value: Value::Changed,
    },
    Switch {
        name: b"A",
        colon: false,
        value: Value::Nothing,
    },
    Switch {
        name: b"M",
        colon: false,
        value: Value::Nothing,
    },
    Switch {
        name: b"IA",
        colon: true,
        value: Value::Asked,
    },
    Switch {
        name: b"XA",
        colon: true,
        value: Value::Asked,
    },
    Switch {
        name: b"XF",
        colon: false,
        value: Value::ExcludeFiles,
    },
    Switch {
        name: b"XD",
        colon: false,
        value: Value::ExcludeDirs,
    },
    Switch {
        name: b"XC",
        colon: false,
        value: Value::Nothing,
    },
    Switch {
        name: b"XN",
        colon: false,
        value: Value::Nothing,
    },
    Switch {
        name: b"XO",
        colon: false,
        value: Value::Nothing,
    },
    Switch {
        name: b"XL",
        colon: false,
        value: Value::Nothing,
    },
    Switch {
        name: b"XX",
        colon: false,
        value: Value::Nothing,
    },
    Switch {
        name: b"IS",
        colon: false,
        value: Value::Nothing,
    },
    Switch {
        name: b"IT",
        colon: false,
        value: Value::Nothing,
    },
    Switch {
        name: b"MAX",
        colon: true,
        value: Value::Number {
            least: 0,
            most: 18446744073709551615,
        },
    },
    Switch {
        name: b"MIN",
        colon: true,
        value: Value::Number {
            least: 0,
            most: 18446744073709551615,
        },
    },
    Switch {
        name: b"MAXAGE",
        colon: true,
        value: Value::Age,
    },
    Switch {
        name: b"MINAGE",
        colon: true,
        value: Value::Age,
    },
    Switch {
        name: b"FFT",
        colon: false,
        value: Value::Nothing,
    },
    Switch {
        name: b"DST",
        colon: false,
        value: Value::Nothing,
    },
    Switch {
        name: b"X",
        colon: false,
        value: Value::Nothing,
    },
    Switch {
        name: b"Z",
        colon: false,
        value: Value::Nothing,
    },
    Switch {
        name: b"ZB",
        colon: false,
        value: Value::Nothing,
    },
    Switch {
        name: b"MT",
        colon: false,
        value: Value::Nothing,
    },
    Switch {
        name: b"MT",
        colon: true,
        value: Value::Number {
            least: 1,
            most: 128,
        },
    },
    Switch {
        name: b"R",
        colon: true,
        value: Value::Number {
            least: 0,
            most: 1000000000,
        },
    },
    Switch {
        name: b"W",
        colon: true,
        value: Value::Number {
            least: 0,
            most: 1000000000,
        },
    },
    Switch {
        name: b"L",
        colon: false,
        value: Value::Nothing,
    },
    Switch {
        name: b"V",
        colon: false,
        value: Value::Nothing,
    },
    Switch {
        name: b"NFL",
        colon: false,
        value: Value::Nothing,
    },
    Switch {
        name: b"NDL",
        colon: false,
        value: Value::Nothing,
    },
    Switch {
        name: b"NC",
        colon: false,
        value: Value::Nothing,
    },
    Switch {
        name: b"NS",
        colon: false,
        value: Value::Nothing,
    },
    Switch {
        name: b"NJH",
        colon: false,
        value: Value::Nothing,
    },
    Switch {
        name: b"NJS",
        colon: false,
        value: Value::Nothing,
    },
    Switch {
        name: b"BYTES",
        colon: false,
        value: Value::Nothing,
    },
    Switch {
        name: b"FP",
        colon: false,
        value: Value::Nothing,
    },
    Switch {
        name: b"TS",
        colon: false,
        value: Value::Nothing,
    },
    Switch {
        name: b"SCAN",
        colon: true,
        value: Value::Scan,
    },
    Switch {
        name: b"B",
        colon: false,
        value: Value::Nothing,
    },
    Switch {
        name: b"J",
        colon: false,
        value: Value::Nothing,
    },
    Switch {
        name: b"NP",
        colon: false,
        value: Value::Nothing,
    },
    Switch {
        name: b"ETA",
        colon: false,
        value: Value::Nothing,
    },
    Switch {
        name: b"NOOFFLOAD",
        colon: false,
        value: Value::Nothing,
    },
    Switch {
        name: b"COMPRESS",
        colon: false,
        value: Value::Nothing,
    },
    Switch {
        name: b"TEE",
        colon: false,
        value: Value::Nothing,
    },
    Switch {
        name: b"JOB",
        colon: true,
        value: Value::JobFile,
    },
    Switch {
        name: b"SAVE",
        colon: true,
        value: Value::Save,
    },
    Switch {
        name: b"QUIT",
        colon: false,
        value: Value::Nothing,
    },
    Switch {
        name: b"DROP",
        colon: false,
        value: Value::Nothing,
    },
];
