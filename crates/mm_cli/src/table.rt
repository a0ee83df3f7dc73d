//! The table of commands. The program's contracts refer to this table.

use mm_model::{CYCLE_LIMIT, STATE_LIMIT};

#[derive(Clone, Copy)]
pub enum Command {
    Run,
    Trace,
    Log,
    Solo,
    Grants,
    Extract,
    Asm,
    Link,
    Dis,
    Debug,
    Gen,
    Soak,
    Migrate,
    Sweep,
    Holders,
    Save,
    Continue,
    Net,
    Explore,
    Why,
    Keeps,
}

/// A kind of input.
#[derive(Clone, Copy)]
pub enum Kind {
    Image,
    Schedule,
    Source,
    Object,
    /// A checkpoint, which is read against the image before it.
    Checkpoint,
    Links,
    Events,
    /// The bytes of standard input, unparsed.
    Text,
}

/// What one parameter of a row takes.
#[derive(Clone, Copy)]
pub enum Parameter {
    /// The name of a file of a kind.
    File(Kind),
    /// A number in decimal digits.
    Number { least: u64, most: u64 },
    /// One or more groups, ascending, with single commas between them.
    Groups,
    /// 1 to 64 segments with single commas between them: of each its base, a slash, and the logarithm of its length.
    /// They ascend, and no two have an address in common.
    Segments,
    /// `plain`, or `split` if loads are split.
    Mode,
    /// Two words: the base of a range of addresses and the logarithm of its length.
    Range,
    /// The address of a word: a multiple of 8 below 2^54, in decimal digits.
    Address,
    /// `touch`, or `write`.
    Use,
}

/// What comes after the parameters of a row.
#[derive(Clone, Copy)]
pub enum Tail {
    Nothing,
    /// One parameter, or nothing.
    Optional(Parameter),
    /// The names of one or more files of a kind, up to `most`.
    Repeated { kind: Kind, most: usize },
}

/// A row of the table: the command's name, the command, the parameters after the name, and what comes after these
/// parameters.
pub type TableRow<'a> = (&'a str, Command, &'a [Parameter], Tail);

const IMAGE: Parameter = Parameter::File(Kind::Image);

const SCHEDULE: Parameter = Parameter::File(Kind::Schedule);

const SOURCE: Parameter = Parameter::File(Kind::Source);

const OBJECT: Parameter = Parameter::File(Kind::Object);

const CHECKPOINT: Parameter = Parameter::File(Kind::Checkpoint);

const LINKS: Parameter = Parameter::File(Kind::Links);

const EVENTS: Parameter = Parameter::File(Kind::Events);

const GROUPS: Parameter = Parameter::Groups;

const SEGMENTS: Parameter = Parameter::Segments;

const MODE: Parameter = Parameter::Mode;

const RANGE: Parameter = Parameter::Range;

const ADDRESS: Parameter = Parameter::Address;

const USE: Parameter = Parameter::Use;

/// One group.
const GROUP: Parameter = Parameter::Number { least: 0, most: 63 };

/// The number of cycles.
const CYCLES: Parameter = Parameter::Number {
    least: 0,
    most: CYCLE_LIMIT,
};

/// The most configurations that are looked at.
const STATES: Parameter = Parameter::Number {
    least: 1,
    most: STATE_LIMIT,
};

/// The most threads that are looked at.
const THREADS: Parameter = Parameter::Number {
    least: 1,
    most: 1_000_000,
};

/// The number from which an image is generated.
const SEED: Parameter = Parameter::Number {
    least: 0,
    most: u64::MAX,
};

/// The number of slots of a generated image.
const SIZE: Parameter = Parameter::Number { least: 1, most: 16 };

const OBJECTS: Tail = Tail::Repeated {
    kind: Kind::Object,
    most: 16,
};

/// The images of a net's nodes.
const NODES: Tail = Tail::Repeated {
    kind: Kind::Image,
    most: 8,
};

/// The commands, each with its words.
pub static TABLE: [TableRow<'static>; 21] = [
    (
        "run",
        Command::Run,
        &[IMAGE, CYCLES],
        Tail::Optional(SCHEDULE),
    ),
    (
        "trace",
        Command::Trace,
        &[IMAGE, CYCLES],
        Tail::Optional(SCHEDULE),
    ),
    (
        "log",
        Command::Log,
        &[IMAGE, CYCLES],
        Tail::Optional(SCHEDULE),
    ),
    (
        "solo",
        Command::Solo,
        &[IMAGE, GROUPS, CYCLES, SCHEDULE],
        Tail::Nothing,
    ),
    ("grants", Command::Grants, &[IMAGE], Tail::Optional(GROUPS)),
    ("extract", Command::Extract, &[IMAGE, GROUPS], Tail::Nothing),
    ("asm", Command::Asm, &[SOURCE], Tail::Nothing),
    ("link", Command::Link, &[], OBJECTS),
    ("dis", Command::Dis, &[OBJECT], Tail::Nothing),
    ("debug", Command::Debug, &[IMAGE], Tail::Optional(SCHEDULE)),
    ("gen", Command::Gen, &[SEED, SIZE], Tail::Nothing),
    ("soak", Command::Soak, &[SEED, SIZE, CYCLES], Tail::Nothing),
    ("migrate", Command::Migrate, &[IMAGE, MODE], Tail::Nothing),
    ("sweep", Command::Sweep, &[IMAGE, RANGE], Tail::Nothing),
    ("holders", Command::Holders, &[IMAGE, RANGE], Tail::Nothing),
    (
        "save",
        Command::Save,
        &[IMAGE, CYCLES],
        Tail::Optional(SCHEDULE),
    ),
    (
        "continue",
        Command::Continue,
        &[IMAGE, CHECKPOINT, CYCLES],
        Tail::Optional(SCHEDULE),
    ),
    ("net", Command::Net, &[LINKS, EVENTS, CYCLES], NODES),
    ("explore", Command::Explore, &[IMAGE, STATES], Tail::Nothing),
    (
        "why",
        Command::Why,
        &[IMAGE, GROUP, ADDRESS, USE],
        Tail::Nothing,
    ),
    (
        "keeps",
        Command::Keeps,
        &[IMAGE, THREADS, SEGMENTS],
        Tail::Nothing,
    ),
];
